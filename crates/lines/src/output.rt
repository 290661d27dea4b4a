// Text for standard output, gathered and written whenever no byte more fits.
ghost use Rattle.std.specs.Prelude.{◌≡◌, ◌+◌, ◌≤◌, length};
ghost use Rattle.lines.specs.declared.output.TheConstants.{TEXT_MOST};

use std::fmt;
use std::io::{Stdout, Write};

pub const TEXT_MOST: usize = 8192;

// Standard output, and the bytes that are gathered for it: the first so many.
#[derive(Clone, Copy)]
pub struct Text {
    stdout: Stdout,
    bytes: [u8; TEXT_MOST],
    count: usize,
    ghost within: { count ≤ TEXT_MOST },
}

impl Text {
    pub fn new(stdout: Stdout) -> Text {
        Text {
            stdout,
            bytes: [0; TEXT_MOST],
            count: 0,
        }
    }

    // Writes what is still gathered.
    pub fn finish(mut self) {
        self.write_out();
    }

    // A write that fails is the end of the output, and no one is left to be told.
    fn write_out(&mut self)
        ensures { self.new.count ≡ 0 }
    {
        let _ = self.stdout.write_all(&self.bytes[..self.count]);
        self.count = 0;
    }

    // A piece for which there is room behind what is gathered.
    fn gather(&mut self, piece: &[u8])
        requires { self.old.count + length piece.now ≤ TEXT_MOST }
    {
        let end = self.count + piece.len();
        self.bytes[self.count..end].copy_from_slice(piece);
        self.count = end;
    }
}

impl fmt::Write for Text {
    fn write_str(&mut self, piece: &str) -> fmt::Result {
        let mut rest = piece.as_bytes();
        while TEXT_MOST - self.count < rest.len() {
            let (fitting, behind) = rest.split_at(TEXT_MOST - self.count);
            self.gather(fitting);
            self.write_out();
            rest = behind;
        }
        self.gather(rest);
        Ok(())
    }
}
