// Reads a picture file on standard input and prints its screen for a terminal, in colour, or its refusal.
// Only the reading and the writing are here, as in `layout`.
#![tactic(auto)]

use report::program::print_show;
use streams::{FILE_ROOM, Program};

// Apart from `layout`'s, since no bound over functions may name the length of `out`, by which the two differ.
// As one over a closure this would be a public function with a demand of its own.
fn main(rt: HostRuntime) {
    let program = Program {
        runtime: &rt,
        name: b"show",
    };
    let mut buffer = [0u8; FILE_ROOM];
    let Ok(file) = program.read(&mut buffer) else {
        return;
    };
    let mut out = [0u8; 81920];
    let length = print_show(file, &mut out);
    let _ = program.print(&out[..length]);
}
