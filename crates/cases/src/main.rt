// Reads a bundle of cases on standard input and prints, for each, `case NAME` and then what `layout`
// prints for its file. A case is the name's length (1 byte), the name, the file's length (4 bytes,
// little-endian) and the file. The stored output is made by a model of document 01 (tools/model).
#![tactic(auto)]

use bundle::print_cases;
use report::program::print_layout;
use std::io;
use streams::Program;

// What `layout` prints.
fn print_listing<R: Print + Eprint>(program: &Program<'_, R>, file: &[u8]) -> io::Result<()> {
    let mut out = [0u8; 65536];
    let length = print_layout(file, &mut out);
    program.print(&out[..length])
}

fn main(rt: HostRuntime) {
    let program = Program {
        runtime: &rt,
        name: b"cases",
    };
    let _ = print_cases(&program, |file| print_listing(&program, file));
}
