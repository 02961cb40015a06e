// The program `calls`: runs a call list from standard input and prints a line for each step. A list is
// steps of 64 bytes, at most 65,536 of them; a rest of under 64 bytes ends it. Each step decodes its
// operands and makes one call; a line is `OP ANSWER`.
#![tactic(auto)]

mod answer; // answer.rt: what a step answers, and how it is printed
mod arrays; // arrays.rt: the steps on the arrays and the canvas' fields
mod calls; // calls.rt: the steps that make a call
mod run; // run.rt: the canvas, the arrays, and which step does what
mod step; // step.rt: a step's bytes

use crate::run::{Lengths, Run};
use crate::step::Step;
use canvas::calls::zero_canvas;
use report::screen::blank_screen;
use std::io;
use std::io::Read;

// The count ends the loop whatever is read. Where a line cannot be written, the list goes on all the same.
fn main(rt: HostRuntime) {
    // The canvas of a refused opening, the arrays lent whole, and an empty scratch. Made here, since what a function
    // gives would stand on the stack twice.
    let mut run = Run {
        canvas: zero_canvas(),
        cells: [0u32; 100000],
        labels: [0u32; 2816],
        screen: [0u32; 180000],
        scratch: [0u8; 32768],
        lengths: Lengths {
            cells: 100000,
            labels: 2816,
            screen: 180000,
            scratch: 0,
        },
    };
    blank_screen(&mut run.screen);
    for _ in 0..65536 {
        let Some(step) = read_step(&rt) else {
            return;
        };
        run.take(&rt, &step);
    }
}

// The next step; none where fewer than 64 bytes are left.
fn read_step(rt: &impl io::Input) -> Option<Step> {
    let mut bytes = [0u8; 64];
    rt.reader().read_exact(&mut bytes).ok()?;
    Some(Step::new(bytes))
}
