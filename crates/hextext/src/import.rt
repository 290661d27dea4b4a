// The bytes of a text: its lines are tested first, and their data stored when all are good.
ghost use Rattle.std.specs.Prelude.{◌≡◌, Ok, not, ◌&&◌, ◌+◌, ◌*◌, ◌<◌, ◌≤◌, leb, ltb, eqb, length, drop};
ghost use Rattle.code.specs.Hex.{digit_number, spelled_bytes, line_data, line_end, is_end};
ghost use Rattle.code.specs.Hex.{hex_import, bytes_of};
ghost use Rattle.code.proofs.HexLines.{byte_at};
ghost use Rattle.storing.specs.Put.{Put};
ghost use Rattle.hextext.specs.Answers.{TellsBelow, Ends, Sums, TellsShape, Measured, TestsLine, Counts, HasData, Recounts};

use code::Refusal;

// A digit's number, in either letter case. `char::to_digit`, which knows letters up to z, makes an import a fifth slower, past its bar in time.
#[tactic(auto, unfolding(code::specs::Hex::digit_number))]
fn digit_number(c: u8) -> Option<u8>
    ensures { TellsBelow 16 (digit_number c) result }
{
    match c {
        b'0'..=b'9' => Some(c - b'0'),
        b'A'..=b'F' => Some(c - b'A' + 10),
        b'a'..=b'f' => Some(c - b'a' + 10),
        _ => None,
    }
}

// Byte i behind a line's colon, where digits spell it.
#[tactic(auto, unfolding(code::specs::Hex::spelled_byte))]
fn byte_at(line: &[u8], i: usize) -> Option<u8>
    requires { 2 * i + 2 < length line.now }
    ensures { TellsBelow 256 (byte_at line.now i) result }
{
    let high = digit_number(line[2 * i + 1])?;
    let low = digit_number(line[2 * i + 2])?;
    Some(16 * high + low)
}

// The characters of the line's end at a place.
#[tactic(auto, unfolding(code::specs::Hex::line_end))]
fn end_at(line: &[u8], at: usize) -> Option<usize>
    requires { at < length line.now }
    ensures { Ends (drop at line.now) result }
{
    match &line[at..] {
        [b'\n', ..] => Some(1),
        [b'\r', b'\n', ..] => Some(2),
        _ => None,
    }
}

// Whether the line spells the bytes of the end record.
fn is_end(line: &[u8]) -> bool
    requires { 11 ≤ length line.now }
    ensures { result ≡ is_end line.now }
{
    for i in 0..5 {
        if byte_at(line, i) != byte_at(&crate::END, i) {
            return false;
        }
    }
    true
}

// What the first n bytes behind a line's colon add up to.
fn sum_spelled(line: &[u8], n: usize) -> Option<usize>
    requires { (n ≤ 260) × (2 * n < length line.now) }
    ensures { Sums (spelled_bytes n (drop 1 line.now)) result }
{
    let mut sum = 0;
    for i in 0..n {
        sum += usize::from(byte_at(line, i)?);
    }
    Some(sum)
}

// A line of the right shape by its numbers: the count of its data, its address and type, what its bytes add up to, and its characters with its end.
#[derive(Clone, Copy)]
pub struct Line {
    pub count: usize,
    pub address: usize,
    pub kind: u8,
    pub sum: usize,
    pub size: usize,
}

fn tell_shape(line: &[u8]) -> Option<Line>
    requires { 0 < length line.now }
    ensures { TellsShape line.now result }
{
    if line.len() < 12 {
        return None;
    }
    if line[0] != b':' {
        return None;
    }
    let count = usize::from(byte_at(line, 0)?);
    let high = usize::from(byte_at(line, 1)?);
    let low = usize::from(byte_at(line, 2)?);
    let kind = byte_at(line, 3)?;
    let behind = 11 + 2 * count;
    if line.len() <= behind {
        return None;
    }
    let end = end_at(line, behind)?;
    let sum = sum_spelled(line, 5 + count)?;
    Some(Line {
        count,
        address: 256 * high + low,
        kind,
        sum,
        size: behind + end,
    })
}

// A line that passes, with its characters.
#[derive(Clone, Copy)]
pub enum Tested {
    Data { count: usize, size: usize },
    End { size: usize },
}

impl Line {
    // A type 01 with data or an address.
    fn is_laden_end(self) -> bool
        ensures { result ≡ (eqb self.kind 1 && not (eqb self.count 0 && eqb self.address 0)) }
    {
        self.kind == 1 && (self.count != 0 || self.address != 0)
    }

    // Data that does not go on behind `done` bytes, or goes on behind the last address.
    fn is_displaced(self, done: usize) -> bool
        requires { done ≤ 65536 }
        ensures { result ≡ (eqb self.kind 0 && ltb 0 self.count && not (eqb self.address done && leb (done + self.count) 65536)) }
    {
        self.kind == 0
            && self.count != 0
            && (self.address != done || crate::BYTES_MOST - done < self.count)
    }

    // The tests of the line that has these numbers, after `done` bytes, in their order. The end record is of type 1, which the last test lets pass.
    fn test(self, line: &[u8], done: usize) -> Result<Tested, Refusal>
        requires { Measured line.now self × (done ≤ 65536) }
        ensures { TestsLine done line.now result }
    {
        if self.is_laden_end() {
            return Err(Refusal::Line);
        }
        if self.sum % 256 != 0 {
            return Err(Refusal::Sum);
        }
        if self.is_displaced(done) {
            return Err(Refusal::Address);
        }
        if is_end(line) {
            return Ok(Tested::End { size: self.size });
        }
        match self.kind {
            0 | 1 => Ok(Tested::Data {
                count: self.count,
                size: self.size,
            }),
            _ => Err(Refusal::RecordType),
        }
    }
}

// The line at the front of a text, after `done` bytes.
fn test_line(line: &[u8], done: usize) -> Result<Tested, Refusal>
    requires { done ≤ 65536 }
    ensures { TestsLine done line.now result }
{
    if line.is_empty() {
        return Err(Refusal::NoEnd);
    }
    let Some(shaped) = tell_shape(line) else {
        return Err(Refusal::Line);
    };
    shaped.test(line, done)
}

// The count of the bytes of all lines of a text; nothing is stored.
pub fn check_text(text: &[u8]) -> Result<usize, Refusal>
    ensures { Counts text.now result }
{
    let mut at = 0;
    let mut done = 0;
    loop {
        match test_line(&text[at..], done)? {
            Tested::End { size } => {
                if size < text.len() - at {
                    return Err(Refusal::RecordType);
                }
                return Ok(done);
            }
            Tested::Data { count, size } => {
                at += size;
                done += count;
            }
        }
    }
}

// The number of a character that is a digit: letters stand 64 and 96 on in the code, and count from 1. A small number for any other. The second pass reads by
// this formula what the first has tested: with `digit_number`, which tests every digit again, an import misses its bar in time (b).
fn known_digit(c: u8) -> u8
    ensures { (digit_number c < 16 → result ≡ digit_number c) × (result ≤ 42) }
{
    c % 16 + 9 * (c / 64)
}

// Byte i behind a line's colon, where digits spell it.
fn known_byte(line: &[u8], i: usize) -> u8
    requires { 2 * i + 2 < length line.now }
    ensures { byte_at line.now i < 256 → result ≡ byte_at line.now i }
{
    let high = known_digit(line[2 * i + 1]) as u64;
    let low = known_digit(line[2 * i + 2]) as u64;
    ((16 * high + low) % 256) as u8
}

// So much data of a line that was tested.
fn put_data(out: &mut [u8], at: usize, line: &[u8], count: usize) -> usize
    requires { (at + count ≤ length out.old) × (11 + 2 * count < length line.now) }
    ensures { (result ≡ at + count) × (HasData line.now count → Put out.old out.new at (line_data line.now) result) }
{
    for i in 0..count {
        out[at + i] = known_byte(line, 4 + i);
    }
    at + count
}

// The characters of a line of so many data bytes, with its end.
fn line_size(line: &[u8], count: usize) -> usize
    requires { 11 + 2 * count < length line.now }
    ensures { (result ≡ 11 + 2 * count + line_end (drop (11 + 2 * count) line.now)) × (result ≤ length line.now) }
{
    let behind = 11 + 2 * count;
    behind + end_at(line, behind).unwrap_or(0)
}

// The count of the data of a line that was tested, read anew, where the line and the room have so much.
fn count_within(line: &[u8], room: usize) -> Option<usize>
    ensures { Recounts line.now room result }
{
    if line.len() < 12 {
        return None;
    }
    let count = usize::from(byte_at(line, 0)?);
    if line.len() <= 11 + 2 * count {
        return None;
    }
    if room < count {
        return None;
    }
    Some(count)
}

// The data of all lines of a text that was checked. Its lines are read anew, and where something changes them in between, which the header forbids, the tests
// of `count_within` alone keep the stores within the `all` bytes that the output has room for, and the reads within the text.
pub fn put_all_data(out: &mut [u8], text: &[u8], all: usize) -> usize
    requires { all ≤ length out.old }
    ensures { Counts text.now (Ok all) → Put out.old out.new 0 (bytes_of (hex_import text.now)) result }
{
    let mut at = 0;
    let mut done = 0;
    while done < all {
        let line = &text[at..];
        let Some(count) = count_within(line, all - done) else {
            return done;
        };
        done = put_data(out, done, line, count);
        at += line_size(line, count);
    }
    done
}
