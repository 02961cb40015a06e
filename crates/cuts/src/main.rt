// Answers questions for a clipped line: each is four bounds (left, right, bottom, top) and a line's x1,
// y1, x2, y2, as 8-byte floats, little-endian. The answer is a line: `line CUTS` or `none CUTS`, with
// the number of cuts that clipping makes.
#![tactic(auto)]

use bundle::questions::{answer_questions, bounds_at, float_at};
use std::io;
use walk::clip::{Clipped, Segment, clip_line};

fn line_of(question: &[u8]) -> Segment {
    let x1 = float_at(question, 32);
    let y1 = float_at(question, 40);
    let x2 = float_at(question, 48);
    let y2 = float_at(question, 56);
    Segment { x1, y1, x2, y2 }
}

fn print_answer(rt: &impl Print, clipped: Clipped) -> io::Result<()> {
    let cuts = clipped.cuts;
    match clipped.line {
        Some(_) => println!(rt; "line {cuts}"),
        None => println!(rt; "none {cuts}"),
    }
}

fn answer_question(rt: &impl Print, question: &[u8]) -> io::Result<()> {
    let bounds = bounds_at(question, 0);
    let line = line_of(question);
    print_answer(rt, clip_line(bounds, line))
}

fn main(rt: HostRuntime) {
    let _ = answer_questions(
        &rt,
        &mut [0u8; 64],
        |question| answer_question(&rt, question),
    );
}
