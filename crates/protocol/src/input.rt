// Standard input, read into a lent buffer.
ghost use Rattle.std.specs.Prelude.{◌≡◌, ◌+◌, ◌≤◌, false, length, IfOk};
ghost use Rattle.protocol.specs.declared.input.TheConstants.{BUFFER_MOST};
ghost use Rattle.protocol.specs.Bounds.{call_most, Limited};

use crate::calls;
use crate::calls::{Broken, Call, Lent};
use crate::reader::Reader;
use std::io::{Read, Stdin};

pub const BUFFER_MOST: usize = 81920;

pub type Buffer = [u8; BUFFER_MOST];

// The most bytes of a call: an operation, a shape's four numbers and 64 ranges, a count and 128 numbers, a count and 65,537 bytes.
const CALL_MOST: usize = 67122;

// What is read and not yet answered stands from `at` to `end` of a buffer; where the input has ended, that is all.
#[derive(Drop)]
pub struct Input {
    stdin: Stdin,
    at: usize,
    end: usize,
    ended: bool,
    ghost within: { (at ≤ end) × (end ≤ BUFFER_MOST) },
}

impl Input {
    pub fn new(stdin: Stdin) -> Input {
        Input {
            stdin,
            at: 0,
            end: 0,
            ended: false,
        }
    }

    // The next call of the stream.
    pub fn next_call<'a>(
        &mut self,
        buffer: &'a mut Buffer,
        lent: &mut Lent,
    ) -> Result<Call<'a>, Broken>
        ensures { IfOk result Limited }
    {
        self.refill(buffer);
        let mut reader = Reader::new(&buffer[self.at..self.end]);
        let call = calls::read_call(&mut reader, lent)?;
        // What the reader has left ends where the input read so far does.
        self.at = self.end.saturating_sub(reader.left());
        Ok(call)
    }

    // Reads on where what is left might not be a whole call, so that no call is cut off but by the end of the input.
    fn refill(&mut self, buffer: &mut Buffer)
        ensures { self.new.ended ≡ false → self.new.at + call_most ≤ self.new.end }
    {
        let left = self.end - self.at;
        if self.ended || CALL_MOST <= left {
            return;
        }
        buffer.copy_within(self.at..self.end, 0);
        let end = left + read_full(self.stdin, &mut buffer[left..]);
        self.at = 0;
        self.end = end;
        self.ended = end < BUFFER_MOST;
    }
}

// Reads until the buffer is full, the input ends or a read fails, and answers how many bytes were read, which `read_exact` does not tell.
fn read_full(mut stdin: Stdin, buffer: &mut [u8]) -> usize
    ensures { result ≤ length buffer.new }
{
    let mut count = 0;
    while count < buffer.len() {
        match stdin.read(&mut buffer[count..]) {
            Ok(got) if 0 < got => count += got,
            _ => return count,
        }
    }
    count
}
