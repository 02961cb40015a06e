// The program `layout` of document 01: reads a picture file on standard input and prints the listing
// of its screen, or its refusal. Only the reading and the writing are here: what is printed is
// `print_layout`'s, and its contract says it by the file's bytes alone.
#![tactic(auto)]

use report::program::print_layout;
use streams::{FILE_ROOM, Program};

// Apart from the other program: as one over a closure this would be a public function with a demand of its own.
fn main(rt: HostRuntime) {
    let program = Program {
        runtime: &rt,
        name: b"layout",
    };
    let mut buffer = [0u8; FILE_ROOM];
    let Ok(file) = program.read(&mut buffer) else {
        return;
    };
    let mut out = [0u8; 65536];
    let length = print_layout(file, &mut out);
    let _ = program.print(&out[..length]);
}
