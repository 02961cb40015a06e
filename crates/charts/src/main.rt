// Prints every Braille, quadrant and sextant symbol by its pattern, to be held against the Unicode
// charts: the stored output is made from the characters' names (tools/charts).
#![tactic(auto)]

use grids::markers::Marker;
use grids::symbols::symbol;
use std::io;

fn line(rt: &impl Print, pattern: u32, symbol: u32) -> io::Result<()> {
    println!(rt; "{pattern} {symbol:04x}")
}

// The symbols of a marker's patterns, from one to before another.
fn lines(rt: &impl Print, marker: Marker, first: u32, end: u32) -> io::Result<()> {
    for pattern in first..end {
        line(rt, pattern, symbol(marker, 0x20, pattern))?;
    }
    Ok(())
}

fn main(rt: HostRuntime) -> io::Result<()> {
    println!(rt; "braille")?;
    lines(&rt, Marker::Braille, 0, 256)?;
    println!(rt; "quadrant")?;
    lines(&rt, Marker::Quadrant, 0, 16)?;
    println!(rt; "sextant")?;
    lines(&rt, Marker::Sextant, 1, 64)
}
