// A canvas as a lent list of 64-bit words, for callers that cannot hold a Canvas by value: C and Rust.
// Every function is total; its contract equals a definition in specs/.
#![tactic(auto)]

ghost use Rattle.std.specs.Prelude.{◌≡◌, ◌≤◌, ◌^◌, ◌%◌, length};
ghost use Rattle.floats.specs.Arithmetic.{bits};
ghost use Rattle.refusals.specs.Refusals.{number_in};
ghost use Rattle.words.specs.Words.{canvas_words, short_words, mark_of, bounds_in, canvas_of, kept_words, all_words, changed_words, cleared_words, fixed_words, words_left};

use canvas::calls::zero_canvas;
use form::fields::{from_bits, to_bits};
use ledger::state::Canvas;
use refusals::refusal::Refusal;
use walk::clip::Bounds;

const WORDS: usize = 24;

// Too few words for a canvas.
pub fn is_short(words: &[u64]) -> bool
    ensures { result ≡ short_words words.now }
{
    words.len() < WORDS
}

// A word as a field of 8, 16 and 32 bits, and as a mark. By `as`, since a TryFrom would answer an error that never comes;
// three, since a cast names its types.
fn as8(word: u64) -> u8
    ensures { result ≡ word % 2 ^ 8 }
{
    (word % 256) as u8
}

fn as16(word: u64) -> u16
    ensures { result ≡ word % 2 ^ 16 }
{
    (word % 65536) as u16
}

fn as32(word: u64) -> u32
    ensures { result ≡ word % 2 ^ 32 }
{
    (word % 4294967296) as u32
}

fn as_mark(word: u64) -> bool
    ensures { result ≡ mark_of word }
{
    word % 2 == 1
}

fn bounds_in(words: &[u64]) -> Bounds
    requires { canvas_words ≤ length words.now }
    ensures { result ≡ bounds_in words.now }
{
    let left = from_bits(words[0]);
    let right = from_bits(words[1]);
    let bottom = from_bits(words[2]);
    let top = from_bits(words[3]);
    Bounds {
        left,
        right,
        bottom,
        top,
    }
}

// The canvas that words mean.
#[tactic(auto, unfolding(crate::specs::Words::canvas_of))]
pub fn load(words: &[u64]) -> Canvas
    ensures { result ≡ canvas_of words.now }
{
    if words.len() < WORDS {
        return zero_canvas();
    }
    let bounds = bounds_in(words);
    let painted = words[4];
    let character = as32(words[5]);
    let background = as32(words[6]);
    let labels = as32(words[7]);
    let draws = as32(words[8]);
    let columns = as16(words[9]);
    let rows = as16(words[10]);
    let marker = as8(words[11]);
    let dirty = as_mark(words[12]);
    let rendered = as_mark(words[13]);
    Canvas {
        columns,
        rows,
        bounds,
        marker,
        character,
        background,
        dirty,
        rendered,
        labels,
        draws,
        painted,
    }
}

// Here and below the words go as a slice that is long enough. As the array that first_chunk_mut lends, each
// definition would be said of a start and a rest.

fn put_changed(words: &mut [u64], c: Canvas)
    requires { canvas_words ≤ length words.old }
    ensures { words.new ≡ changed_words words.old c }
{
    words[4] = c.painted;
    words[5] = u64::from(c.character);
    words[7] = u64::from(c.labels);
    words[8] = u64::from(c.draws);
    words[11] = u64::from(c.marker);
    words[12] = u64::from(c.dirty);
    words[13] = u64::from(c.rendered);
}

fn put_zeros(words: &mut [u64])
    requires { canvas_words ≤ length words.old }
    ensures { words.new ≡ cleared_words words.old }
{
    words[14..WORDS].fill(0);
}

fn put_fixed(words: &mut [u64], c: Canvas)
    requires { canvas_words ≤ length words.old }
    ensures { words.new ≡ fixed_words words.old c }
{
    let b = c.bounds;
    words[0] = to_bits(b.left);
    words[1] = to_bits(b.right);
    words[2] = to_bits(b.bottom);
    words[3] = to_bits(b.top);
    words[6] = u64::from(c.background);
    words[9] = u64::from(c.columns);
    words[10] = u64::from(c.rows);
}

// The fields that calls change, put into the words.
#[tactic(auto, unfolding(crate::specs::Words::kept_words))]
pub fn keep(words: &mut [u64], c: Canvas)
    ensures { words.new ≡ kept_words words.old c }
{
    if words.len() < WORDS {
        return;
    }
    put_changed(&mut *words, c);
}

// All fields, put into the words, and 0 into those without a meaning.
#[tactic(auto, unfolding(crate::specs::Words::all_words))]
pub fn keep_all(words: &mut [u64], c: Canvas)
    ensures { words.new ≡ all_words words.old c }
{
    if words.len() < WORDS {
        return;
    }
    put_zeros(&mut *words);
    put_fixed(&mut *words, c);
    put_changed(&mut *words, c);
}

// A call's outcome: the words are kept where it is accepted, and the answer is 0 or the refusal's number.
// A number, since C has no Result.
pub fn finish<T: Copy>(words: &mut [u64], canvas: Canvas, called: Result<T, Refusal>) -> u8
    ensures status { result ≡ number_in called }
    ensures words { words.new ≡ words_left words.old called canvas }
{
    match called {
        Ok(_) => {
            keep(&mut *words, canvas);
            0
        }
        Err(refusal) => u8::from(refusal),
    }
}
