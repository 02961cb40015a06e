// Standard input and output for the programs. A read that fails is not taken for the end of the input; one
// line to standard error says so, and likewise of a write that fails.
#![tactic(auto)]

ghost use Rattle.std.specs.Prelude.{◌≡◌, ◌≤◌, length, IfOk, IfErr};

use std::io;
use std::io::Read;

// One byte more than a picture file may have: where such a buffer is full, the file is refused with 17
// whatever follows (report's `Enough`).
pub const FILE_ROOM: usize = 65537;

// A read that failed, and how many bytes of the input stand at the start of the buffer all the same.
#[derive(Drop, Debug)]
pub struct ReadError {
    pub count: usize,
    pub error: io::Error,
}

impl From<ReadError> for io::Error {
    fn from(failed: ReadError) -> io::Error {
        failed.error
    }
}

// What is read, to the end of the input or of the buffer, whichever comes first.
fn read_all<'b>(reader: &mut impl Read, buffer: &'b mut [u8]) -> Result<&'b [u8], ReadError>
    ensures in_buffer { IfOk result (λ read. length read.now ≤ length buffer.old) }
    ensures failed { IfErr result (λ e. e.count ≤ length buffer.old) }
{
    let mut count = 0;
    // No range or iterator serves: each read says where the next one starts.
    while count < buffer.len() {
        let more = match reader.read(&mut buffer[count..]) {
            Ok(more) => more,
            Err(error) => return Err(ReadError { count, error }),
        };
        if more == 0 {
            break;
        }
        count += more;
    }
    Ok(&buffer[..count])
}

// A program: its runtime, and the name under which it says on standard error what it could not do.
#[derive(Drop)]
pub struct Program<'a, R> {
    pub runtime: &'a R,
    pub name: &'a [u8],
}

impl<R: Eprint> Program<'_, R> {
    // Nothing is left to do where the line cannot be written.
    fn say(&self, what: &str) {
        let _ = eprintln!(self.runtime; "{}: {what}", self.name.escape_ascii());
    }

    // Says it where the output could not be written.
    pub fn written(&self, printed: io::Result<()>) -> io::Result<()>
        ensures { result ≡ printed }
    {
        printed.inspect_err(|_| self.say("the output could not be written"))
    }
}

impl<R: io::Input + Eprint> Program<'_, R> {
    // What is read into a buffer, to the end of the input or of the buffer, whichever comes first.
    pub fn read<'b>(&self, buffer: &'b mut [u8]) -> Result<&'b [u8], ReadError>
        ensures in_buffer { IfOk result (λ read. length read.now ≤ length buffer.old) }
        ensures failed { IfErr result (λ e. e.count ≤ length buffer.old) }
    {
        let input = read_all(&mut self.runtime.reader(), &mut *buffer);
        input.inspect_err(|_| self.say("the input could not be read"))
    }
}

impl<R: Print + Eprint> Program<'_, R> {
    // Writes bytes to standard output.
    pub fn print(&self, bytes: &[u8]) -> io::Result<()> {
        self.written(self.runtime.write_all(bytes))
    }
}
