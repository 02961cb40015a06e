// Replays recorded answers of the Rust: a bundle on standard input has for each picture file its name
// (length of 1 byte), the file (length of 4 bytes) and what the Rust gave for it, in the form that
// `layout` prints (length of 4 bytes). Prints the name of each file for which `layout` would print
// something else, and how many agree.
#![tactic(auto)]

use bundle::{read_file, read_name};
use report::program::print_layout;
use std::io;
use streams::{FILE_ROOM, Program};

// Whether `layout` prints the answer for the file.
fn is_answer(file: &[u8], answer: &[u8]) -> bool {
    let mut out = [0u8; 65536];
    let length = print_layout(file, &mut out);
    &out[..length] == answer
}

// Reads a file and its answer, and replays it. Answers whether they agree.
fn replay<R: io::Input + Eprint>(program: &Program<'_, R>) -> io::Result<bool> {
    let mut file_room = [0u8; FILE_ROOM];
    let file = read_file(program, &mut file_room)?;
    let mut answer_room = [0u8; 65536];
    let answer = read_file(program, &mut answer_room)?;
    Ok(is_answer(file, answer))
}

fn print_difference<R: Print + Eprint>(program: &Program<'_, R>, name: &[u8]) {
    let _ = program.runtime.write_all(b"differs: ");
    let _ = program.runtime.write_all(name);
    let _ = program.print(b"\n");
}

// One file of the bundle. Answers whether it agrees, and none at the end of the bundle.
fn replay_next<R: io::Input + Print + Eprint>(
    program: &Program<'_, R>,
) -> io::Result<Option<bool>> {
    let mut buffer = [0u8; 255];
    let Some(name) = read_name(program, &mut buffer)? else {
        return Ok(None);
    };
    let agrees = replay(program)?;
    if !agrees {
        print_difference(program, name);
    }
    Ok(Some(agrees))
}

// The range ends the loop whatever is read.
fn main(rt: HostRuntime) {
    let program = Program {
        runtime: &rt,
        name: b"recorded",
    };
    let mut agree: u32 = 0;
    let mut differ: u32 = 0;
    for _ in 0..65536u32 {
        match replay_next(&program) {
            Ok(Some(true)) => agree += 1,
            Ok(Some(false)) => differ += 1,
            Ok(None) | Err(_) => break,
        }
    }
    let _ = program.written(println!(rt; "{agree} agree, {differ} differ"));
}
