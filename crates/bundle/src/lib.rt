// Reads a bundle of picture files on standard input, part by part. A part is its length, in one byte
// or in four little-endian, and its bytes. What cannot be read is said on standard error, under the
// name of the program that reads.
#![tactic(auto)]

ghost use Rattle.std.specs.Prelude.{◌≤◌, length, IfOk, IfErr, IfSome};

use std::io;
use streams::{FILE_ROOM, Program, ReadError};

pub mod questions; // questions.rt: a question of so many bytes after the other

// At most so many bytes of the input, in a buffer.
pub fn read_part<'b, R: io::Input + Eprint>(
    program: &Program<'_, R>,
    buffer: &'b mut [u8],
    most: usize,
) -> Result<&'b [u8], ReadError>
    ensures in_buffer { IfOk result (λ part. length part.now ≤ length buffer.old) }
    ensures at_most { IfOk result (λ part. length part.now ≤ most) }
    ensures failed { IfErr result (λ e. e.count ≤ length buffer.old) }
{
    let n = most.min(buffer.len());
    program.read(&mut buffer[..n])
}

// A name's length, of one byte; none at the end of the input.
fn read_name_length<R: io::Input + Eprint>(program: &Program<'_, R>) -> io::Result<Option<u8>> {
    let mut head = [0u8; 1];
    let read = program.read(&mut head)?;
    Ok(read.first().copied())
}

// A name, in a buffer; none at the end of the input.
pub fn read_name<'b, R: io::Input + Eprint>(
    program: &Program<'_, R>,
    buffer: &'b mut [u8; 255],
) -> io::Result<Option<&'b [u8]>>
    ensures { IfOk result (λ found. IfSome found (λ name. length name.now ≤ 255)) }
{
    let Some(length) = read_name_length(program)? else {
        return Ok(None);
    };
    let name = read_part(program, &mut *buffer, usize::from(length))?;
    Ok(Some(name))
}

// The bytes of a part that a buffer of so many did not hold, at most 65,536 of them.
fn skip_rest<R: io::Input + Eprint>(
    program: &Program<'_, R>,
    length: usize,
    room: usize,
) -> io::Result<()> {
    if length > room {
        let mut rest = [0u8; 65536];
        read_part(program, &mut rest, length - room)?;
    }
    Ok(())
}

// A file: its length, of four bytes, and as many of its bytes as the buffer holds. The others are skipped.
// Where a read fails, its count is of the file's bytes.
pub fn read_file<'b, R: io::Input + Eprint>(
    program: &Program<'_, R>,
    buffer: &'b mut [u8],
) -> Result<&'b [u8], ReadError>
    ensures in_buffer { IfOk result (λ file. length file.now ≤ length buffer.old) }
    ensures failed { IfErr result (λ e. e.count ≤ length buffer.old) }
{
    let mut bytes = [0u8; 4];
    if let Err(head) = program.read(&mut bytes) {
        return Err(ReadError {
            count: 0,
            error: head.error,
        });
    }
    // By `as`, since usize has no From of u32.
    let size = u32::from_le_bytes(bytes) as usize;
    let room = buffer.len();
    let file = read_part(program, buffer, size)?;
    if let Err(error) = skip_rest(program, size, room) {
        return Err(ReadError {
            count: file.len(),
            error,
        });
    }
    Ok(file)
}

// Prints each case of a bundle: the line `case NAME`, and what a closure prints for its file. The range
// ends the loop whatever is read.
pub fn print_cases<R: io::Input + Print + Eprint, F: Fn(&[u8]) -> io::Result<()>>(
    program: &Program<'_, R>,
    print_file: F,
) -> io::Result<()>
    requires { F.IsAlwaysCallable print_file }
{
    for _ in 0..65536 {
        let mut buffer = [0u8; 255];
        let Some(name) = read_name(program, &mut buffer)? else {
            break;
        };
        program.print(b"case ")?;
        program.print(name)?;
        program.print(b"\n")?;
        let mut room = [0u8; FILE_ROOM];
        print_file(read_file(program, &mut room)?)?;
    }
    Ok(())
}
