// Document 01's bench samples: the starred ones are a statement in specs/ and proved; the others are
// run here, and what is printed is held to the file stdout.
#![tactic(auto)]

use canvas::calls::{Rendered, dot, draw, get_point, open, print, render, reopen, zero_canvas};
use ledger::state::{Canvas, Opening};
use refusals::refusal::Refusal;
use shapes::painters::Shape;
use std::io;
use walk::clip::{Bounds, Segment};

// What a call answered, as a line.
// A trait of our own: Display can be written only in a type's own crate.
trait Show {
    fn show(&self, rt: &impl Print) -> io::Result<()> {
        println!(rt; "done")
    }
}

impl Show for () {}

impl Show for Canvas {}

impl Show for u64 {
    fn show(&self, rt: &impl Print) -> io::Result<()> {
        println!(rt; "painted {self}")
    }
}

impl Show for Rendered {
    fn show(&self, rt: &impl Print) -> io::Result<()> {
        println!(rt;
            "rendered, painted {}, label cells {}",
            self.painted, self.label_cells
        )
    }
}

impl Show for Option<(u16, u16)> {
    fn show(&self, rt: &impl Print) -> io::Result<()> {
        match self {
            Some((column, row)) => println!(rt; "dot {column} {row}"),
            None => println!(rt; "no dot"),
        }
    }
}

impl<T: Show> Show for Result<T, Refusal> {
    fn show(&self, rt: &impl Print) -> io::Result<()> {
        match self {
            Ok(answer) => answer.show(rt),
            Err(refusal) => println!(rt; "refused {}", u8::from(*refusal)),
        }
    }
}

// The screen's words, three to a cell: symbol, foreground, background.
// By hand: a line of words is no value with a Display.
fn show_screen(rt: &impl Print, screen: &[u32]) -> io::Result<()> {
    for word in screen {
        print!(rt; " {word}")?;
    }
    println!(rt)
}

// A canvas with bounds from 0 to this, and no character or background of its own.
// By two numbers: they are no canvas' yet.
fn opening(columns: u16, rows: u16, high: f64, marker: u8) -> Opening {
    Opening {
        columns,
        rows,
        bounds: Bounds {
            left: 0.0,
            right: high,
            bottom: 0.0,
            top: high,
        },
        marker,
        character: 0,
        background: 0,
    }
}

// '3 by 2 Dot, dot (3, 0): cell (0, 1) is painted. HalfBlock: 9.'
fn dot_past_row_end(rt: &impl Print, marker: u8) -> io::Result<()> {
    // The marker by its number, which is printed.
    println!(rt; "3 by 2, dot 3 0, marker {marker}")?;
    let mut cells = [0u32; 30];
    let labels = [0u32; 2816];
    let mut screen = [0u32; 18];
    let mut canvas = zero_canvas();
    let o = opening(3, 2, 10.0, marker);
    reopen(&mut canvas, o, &mut cells, &labels).show(rt)?;
    dot(&mut canvas, &mut cells, &labels, 3, 0, 255).show(rt)?;
    let area = canvas.area();
    render(&mut canvas, &mut cells, &labels, area, &mut screen).show(rt)?;
    show_screen(rt, &screen)
}

// '11 columns of Dot, bounds 0 to 10, x 1.9: label column 1, dot 2.'
fn label_truncated(rt: &impl Print) -> io::Result<()> {
    println!(rt; "11 columns of Dot, bounds 0 to 10, x 1.9")?;
    let mut cells = [0u32; 55];
    let mut labels = [0u32; 2816];
    let mut screen = [0u32; 33];
    let mut canvas = zero_canvas();
    let _ = reopen(&mut canvas, opening(11, 1, 10.0, 2), &mut cells, &labels);
    get_point(canvas, 1.9, 0.0).show(rt)?;
    print(&mut canvas, &cells, &mut labels, 1.9, 0.0, b"A", None).show(rt)?;
    let area = canvas.area();
    render(&mut canvas, &mut cells, &labels, area, &mut screen).show(rt)?;
    show_screen(rt, &screen)
}

// 'All bounds 0: a label at (0, 0) stands at the area's corner; a line draws nothing.'
fn all_bounds_zero(rt: &impl Print) -> io::Result<()> {
    println!(rt; "All bounds 0")?;
    let mut cells = [0u32; 20];
    let mut labels = [0u32; 2816];
    let mut screen = [0u32; 12];
    let mut canvas = zero_canvas();
    let _ = reopen(&mut canvas, opening(2, 2, 0.0, 1), &mut cells, &labels);
    let line = Shape::Line(Segment {
        x1: 0.0,
        y1: 0.0,
        x2: 0.0,
        y2: 0.0,
    });
    draw(&mut canvas, &mut cells, &labels, line, 255).show(rt)?;
    print(&mut canvas, &cells, &mut labels, 0.0, 0.0, b"A", Some(7)).show(rt)?;
    let area = canvas.area();
    render(&mut canvas, &mut cells, &labels, area, &mut screen).show(rt)?;
    show_screen(rt, &screen)
}

// '200 columns open, 201 give 1; 2^40 passes, the next float gives 2; 40 bytes pass, 41 give 10.'
fn limits(rt: &impl Print) -> io::Result<()> {
    println!(rt; "Limits")?;
    let mut cells = [0u32; 1005];
    let mut labels = [0u32; 2816];
    open(opening(200, 1, 1.0, 2), &mut cells, &labels).show(rt)?;
    open(opening(201, 1, 1.0, 2), &mut cells, &labels).show(rt)?;
    let mut canvas = zero_canvas();
    let highest = opening(1, 1, 1099511627776.0, 2);
    reopen(&mut canvas, highest, &mut cells, &labels).show(rt)?;
    let higher = opening(1, 1, 1099511627776.000244140625, 2);
    open(higher, &mut cells, &labels).show(rt)?;
    let text = [65u8; 41];
    print(
        &mut canvas,
        &cells,
        &mut labels,
        0.0,
        0.0,
        &text[..40],
        None,
    )
    .show(rt)?;
    print(&mut canvas, &cells, &mut labels, 0.0, 0.0, &text, None).show(rt)
}

fn main(rt: HostRuntime) -> io::Result<()> {
    dot_past_row_end(&rt, 2)?;
    dot_past_row_end(&rt, 5)?;
    label_truncated(&rt)?;
    all_bounds_zero(&rt)?;
    limits(&rt)
}
