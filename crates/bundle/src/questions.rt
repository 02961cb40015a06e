// Programs that answer questions: each is so many bytes of standard input, and its answer a line.
ghost use Rattle.std.specs.Prelude.{◌≡◌, ◌+◌, ◌^◌, ◌<◌};
ghost use Rattle.floats.specs.Arithmetic.{bits};
ghost use Rattle.form.specs.Fields.{number_at};

use form::fields::FieldValue;
use std::io;
use std::io::Read;
use walk::clip::Bounds;

// The float in the eight bytes at a place of a question.
pub fn float_at(question: &[u8], at: usize) -> f64
    ensures { result ≡ bits (number_at question.now at 8) }
{
    f64::read(question, at)
}

// The bounds in the 32 bytes at a place of a question: left, right, bottom, top.
pub fn bounds_at(question: &[u8], at: usize) -> Bounds
    ensures left { at + 32 < 2 ^ 64 → result.left ≡ bits (number_at question.now at 8) }
    ensures right { at + 32 < 2 ^ 64 → result.right ≡ bits (number_at question.now (at + 8) 8) }
    ensures bottom { at + 32 < 2 ^ 64 → result.bottom ≡ bits (number_at question.now (at + 16) 8) }
    ensures top { at + 32 < 2 ^ 64 → result.top ≡ bits (number_at question.now (at + 24) 8) }
{
    Bounds {
        left: float_at(question, at),
        right: float_at(question, at.wrapping_add(8)),
        bottom: float_at(question, at.wrapping_add(16)),
        top: float_at(question, at.wrapping_add(24)),
    }
}

// Reads questions into a buffer and answers each, until one cannot be read, as at the end of the input, or
// answered. The range ends the loop whatever is read.
pub fn answer_questions<R: io::Input, F: Fn(&[u8]) -> io::Result<()>>(
    rt: &R,
    question: &mut [u8],
    answer: F,
) -> io::Result<()>
    requires { F.IsAlwaysCallable answer }
{
    for _ in 0..u32::MAX {
        rt.reader().read_exact(&mut *question)?;
        answer(&*question)?;
    }
    Ok(())
}
