// What the lines that answer calls are made of.
#![tactic(auto)]

pub mod output;
pub mod replies;

ghost use Rattle.std.specs.Prelude.{◌≡◌, ◌<◌, ◌≤◌, min, length, IsAscii};
ghost use Rattle.lines.specs.Bounds.{outcomes_most};

use std::{fmt, str};

// The numbers of a row that are the reply to reading the record's cells.
pub const REPLY: usize = 5;

// Numbers, each behind a space.
#[derive(Clone, Copy)]
pub struct Numbers<'a>(pub &'a [u64]);

impl<'a> fmt::Display for Numbers<'a> {
    fn fmt<W: fmt::Write>(&self, f: &mut fmt::Formatter<W>) -> fmt::Result {
        for number in self.0 {
            write!(f, " {number}")?;
        }
        Ok(())
    }
}

// A space and bytes in hex, and no space where there are no bytes.
#[derive(Clone, Copy)]
pub struct Hex<'a>(pub &'a [u8]);

impl<'a> fmt::Display for Hex<'a> {
    fn fmt<W: fmt::Write>(&self, f: &mut fmt::Formatter<W>) -> fmt::Result {
        if !self.0.is_empty() {
            f.write_str(" ")?;
        }
        for part in self.0.chunks(PART_MOST) {
            let digits = digits_of(part);
            f.write_str(str::from_utf8(&digits[..2 * part.len()]).unwrap())?;
        }
        Ok(())
    }
}

// The bytes that are written at once, and their digits.
const PART_MOST: usize = 32;

const DIGITS_MOST: usize = 64;

// Two digits for each byte, with zeros behind them.
fn digits_of(bytes: &[u8]) -> [u8; DIGITS_MOST]
    requires { length bytes.now ≤ PART_MOST }
    ensures { IsAscii result }
{
    let mut digits = [0; DIGITS_MOST];
    for (i, byte) in bytes.iter().enumerate() {
        digits[2 * i] = digit(byte / 16);
        digits[2 * i + 1] = digit(byte % 16);
    }
    digits
}

fn digit(x: u8) -> u8
    requires { x < 16 }
    ensures { result < 128 }
{
    if x < 10 { b'0' + x } else { b'a' + (x - 10) }
}

// The numbers of the groups whose bits are set, rising, each behind a space.
#[derive(Clone, Copy)]
pub struct Groups<'a>(pub &'a [u64; 4]);

impl<'a> fmt::Display for Groups<'a> {
    fn fmt<W: fmt::Write>(&self, f: &mut fmt::Formatter<W>) -> fmt::Result {
        for j in 0..256usize {
            if (self.0[j / 64] >> (j % 64)) % 2 == 1 {
                write!(f, " {j}")?;
            }
        }
        Ok(())
    }
}

// The most fields of a write of many numbers that are told.
const OUTCOMES_MOST: usize = 64;

// What became of the fields of a write of many numbers: at which it stopped, where it did; of so many the generation and, 64 places behind it, how many wits
// turned.
#[derive(Clone, Copy)]
pub struct Outcomes {
    pub stopped: Option<u64>,
    pub count: usize,
    pub rows: [u16; 128],
    ghost few: { count ≤ outcomes_most },
}

impl Outcomes {
    // Of so many fields, but of no more than there are places for.
    pub fn new(stopped: Option<u64>, written: u64, rows: [u16; 128]) -> Outcomes
        ensures told { result.count ≡ min written outcomes_most }
        ensures kept { (result.stopped ≡ stopped) × (result.rows ≡ rows) }
    {
        let count = if written < OUTCOMES_MOST as u64 {
            written as usize
        } else {
            OUTCOMES_MOST
        };
        Outcomes {
            stopped,
            count,
            rows,
        }
    }
}

impl fmt::Display for Outcomes {
    fn fmt<W: fmt::Write>(&self, f: &mut fmt::Formatter<W>) -> fmt::Result {
        if let Some(field) = self.stopped {
            write!(f, " field {field}")?;
        }
        let (generations, turned) = self.rows.split_at(OUTCOMES_MOST);
        for (generation, wits) in generations.iter().zip(turned).take(self.count) {
            write!(f, " {generation} {wits}")?;
        }
        Ok(())
    }
}
