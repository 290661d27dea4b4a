// Standard input and standard output, to their end. A call that a signal interrupts is made again; any other that fails is told by its error.
ghost use Rattle.std.specs.Prelude.{IfOk, IfErr};
ghost use Rattle.fieldlist.specs.Reads.{IsPrefixLen};

use std::io::{Error, ErrorKind, Read, Stdin, Stdout, Write};

// A read that failed, and how many bytes were read before it.
#[derive(Drop)]
pub struct Cut {
    pub count: usize,
    pub error: Error,
}

// Whether a call was interrupted by a signal.
fn is_interrupted(error: &Error) -> bool {
    error.kind() == ErrorKind::Interrupted
}

// A proved loop has to end, and nothing says that interruptions do: this comes behind a number of turns that no run uses up.
fn interrupted() -> Error {
    Error::from(ErrorKind::Interrupted)
}

// Reads into a buffer until the input ends or the buffer is full. Each read has all that is left of the buffer for room: an input that keeps messages apart,
// as a socket may, gives one at a time and drops what there is no room for, so that `io::copy`, which reads 8,192 bytes at once, would lose the rest (a).
pub fn read_all(mut stdin: Stdin, buffer: &mut [u8]) -> Result<usize, Cut>
    ensures ok { IfOk result (λ count. IsPrefixLen count buffer.new) }
    ensures err { IfErr result (λ cut. IsPrefixLen cut.count buffer.new) }
{
    let mut count = 0;
    for _ in 0..u64::MAX {
        if buffer.len() <= count {
            return Ok(count);
        }
        match stdin.read(&mut buffer[count..]) {
            Ok(0) => return Ok(count),
            Ok(got) => count += got,
            Err(error) => {
                if !is_interrupted(&error) {
                    return Err(Cut { count, error });
                }
            }
        }
    }
    let error = interrupted();
    Err(Cut { count, error })
}

// Writes all of a text. A write that takes nothing of it is made again, where std's `write_all` would tell a failure (a).
pub fn write_all(mut stdout: Stdout, text: &[u8]) -> Result<(), Error> {
    let mut count = 0;
    for _ in 0..u64::MAX {
        if text.len() <= count {
            return Ok(());
        }
        match stdout.write(&text[count..]) {
            Ok(put) => count += put,
            Err(error) => {
                if !is_interrupted(&error) {
                    return Err(error);
                }
            }
        }
    }
    Err(interrupted())
}
