// Reads a bundle of cases, as `cases` does, and draws each on a canvas of any size that document 01's
// domain has, 200 columns by 100 rows. Prints `case NAME` and then the painted count with a digest of the
// screen's words, or the refusal.
#![tactic(auto)]

ghost use Rattle.std.specs.Prelude.{◌<◌};

use bundle::print_cases;
use canvas::calls::Rendered;
use picture::opening::Largest;
use picture::run::{Fault, draw_picture};
use report::screen::{blank_screen, picture_size};
use std::io;
use streams::Program;

// Document 01's domain.
const LARGEST: Largest = Largest {
    columns: 200,
    rows: 100,
};

fn mixed(digest: u64, word: u32) -> u64
    requires { digest < 4294967291 }
    ensures { result < 4294967291 }
{
    (digest * 31 + u64::from(word)) % 4294967291
}

// Each word counts by its place.
// Twice in the repository: as one it would be a public function with a definition that no demand names.
fn digest_of(words: &[u32]) -> u64 {
    let mut digest: u64 = 0;
    for word in words {
        digest = mixed(digest, *word);
    }
    digest
}

fn print_drawn(rt: &impl Print, drawn: Result<Rendered, Fault>, screen: &[u32]) -> io::Result<()> {
    match drawn {
        Ok(rendered) => {
            println!(rt; "painted {} digest {}", rendered.painted, digest_of(screen))
        }
        Err(fault) => println!(rt; "refused {} at {}", u8::from(fault.refusal), fault.place),
    }
}

// Draws a file on a blank screen of its size.
fn print_picture<R: Print + Eprint>(program: &Program<'_, R>, file: &[u8]) -> io::Result<()> {
    let mut cells = [0u32; 100000];
    let mut labels = [0u32; 2816];
    let mut screen = [0u32; 60000];
    let n = picture_size(file, LARGEST).min(screen.len());
    let part = &mut screen[..n];
    blank_screen(&mut *part);
    let drawn = draw_picture(file, LARGEST, &mut cells, &mut labels, &mut *part);
    program.written(print_drawn(program.runtime, drawn, part))
}

fn main(rt: HostRuntime) {
    let program = Program {
        runtime: &rt,
        name: b"large",
    };
    let _ = print_cases(&program, |file| print_picture(&program, file));
}
