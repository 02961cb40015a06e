// Answers questions for the dot of a point: each is a canvas' columns and rows (2 bytes each), its four
// bounds (8-byte floats), its marker (1), and the point's x and y (8-byte floats), little-endian. The
// answer is a line: `dot COLUMN ROW`, `none`, or `refused N`.
#![tactic(auto)]

use bundle::questions::{answer_questions, bounds_at, float_at};
use canvas::calls::get_point;
use form::fields::FieldValue;
use ledger::state::{Canvas, Opening};
use limits::state::RESET;
use refusals::refusal::Refusal;
use std::io;

// An open canvas of the question's size, bounds and marker; with marker 8 its character is a blank.
fn canvas_of(question: &[u8]) -> Canvas {
    Canvas::opened(Opening {
        columns: u16::read(question, 0),
        rows: u16::read(question, 2),
        bounds: bounds_at(question, 4),
        marker: u8::read(question, 36),
        character: 32,
        background: RESET,
    })
}

fn print_answer(rt: &impl Print, found: Result<Option<(u16, u16)>, Refusal>) -> io::Result<()> {
    match found {
        Ok(Some((column, row))) => println!(rt; "dot {column} {row}"),
        Ok(None) => println!(rt; "none"),
        Err(refusal) => println!(rt; "refused {}", u8::from(refusal)),
    }
}

fn answer_question(rt: &impl Print, question: &[u8]) -> io::Result<()> {
    let canvas = canvas_of(question);
    let x = float_at(question, 37);
    let y = float_at(question, 45);
    let found = get_point(canvas, x, y);
    print_answer(rt, found)
}

fn main(rt: HostRuntime) {
    let _ = answer_questions(
        &rt,
        &mut [0u8; 53],
        |question| answer_question(&rt, question),
    );
}
