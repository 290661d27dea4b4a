// Calls as they stand in the stream. The byte in front says which it is, and is looked at nowhere else.
ghost use Rattle.std.specs.Prelude.{◌≡◌, length, IfOk};
ghost use Rattle.protocol.specs.Bounds.{output_most, listed_most, Limited};

use crate::reader::Reader;
use code::{Kind, Pair, Shape};
use std::fmt;

// The most bytes of an output that a call asks for.
pub const OUTPUT_MOST: usize = 1024;

// The most numbers that a call lists.
pub const LISTED_MOST: usize = 128;

// The most bytes of a call, in one string or in two: a dump one byte too long to be walked still fits.
pub const BYTES_MOST: usize = 65537;

// Room for a copy of them.
pub type Copies = [u8; BYTES_MOST];

// What a call is lent beside room for a copy of the bytes that it changes: places for the numbers that it lists, and its output.
#[derive(Drop)]
pub struct Lent {
    pub listed: [u64; LISTED_MOST],
    pub output: [u8; OUTPUT_MOST],
}

impl Lent {
    pub fn new() -> Lent
        ensures { (length result.listed ≡ listed_most) × (length result.output ≡ output_most) }
    {
        Lent {
            listed: [0; LISTED_MOST],
            output: [0; OUTPUT_MOST],
        }
    }
}

// Why a stream is not followed any further.
#[derive(Clone, Copy, Debug, PartialEq, Eq)]
pub enum Broken {
    Ended,
    CutOff,
    NoSuchCall,
    TooLong,
}

impl fmt::Display for Broken {
    fn fmt<W: fmt::Write>(&self, f: &mut fmt::Formatter<W>) -> fmt::Result {
        f.write_str(match self {
            Broken::Ended => "ended",
            Broken::CutOff => "cut off",
            Broken::NoSuchCall => "no such call",
            Broken::TooLong => "too long",
        })
    }
}

// What a record of an old dump has beside its cells.
#[derive(Clone, Copy)]
pub struct OldRecord {
    pub serial: u64,
    pub m: u64,
    pub t: u64,
    pub v: u64,
}

// What a record of a new dump has beside its cells.
#[derive(Clone, Copy)]
pub struct NewRecord {
    pub serial: u64,
    pub layout: u64,
    pub shape: Shape,
}

// A call, with its parts in the order of the stream; of an output there is the length, and of a list of numbers, which are put into the places that are lent,
// how many they are.
#[derive(Clone, Copy)]
pub enum Call<'a> {
    Layout(Shape, u64),
    Read(Shape, &'a [u8]),
    Write(Shape, u64, &'a [u8]),
    Export(OldRecord, usize, &'a [u8]),
    Walk(Kind, &'a [u8]),
    HexExport(usize, &'a [u8]),
    HexImport(usize, &'a [u8]),
    MoveToNew(usize, &'a [u8]),
    MoveToOld(usize, &'a [u8]),
    ExportLayout(Shape, usize),
    ExportRecord(NewRecord, usize, &'a [u8]),
    WriteMany(Shape, usize, &'a [u8]),
    Judge(Shape, &'a [u8], &'a [u8]),
    Resume(Shape, u64, &'a [u8]),
    ReadPair(Pair, &'a [u8], &'a [u8]),
    WritePair(Pair, u64, &'a [u8], &'a [u8]),
}

// The call that comes next.
pub fn read_call<'a>(r: &mut Reader<'a>, lent: &mut Lent) -> Result<Call<'a>, Broken>
    ensures { IfOk result Limited }
{
    match r.operation()? {
        1 => Ok(Call::Layout(r.shape()?, r.number()?)),
        2 => Ok(Call::Read(r.shape()?, r.bytes()?)),
        3 => Ok(Call::Write(r.shape()?, r.number()?, r.bytes()?)),
        4 => Ok(Call::Export(r.old_record()?, r.output()?, r.bytes()?)),
        5 => Ok(Call::Walk(Kind::Old, r.bytes()?)),
        6 => Ok(Call::HexExport(r.output()?, r.bytes()?)),
        7 => Ok(Call::HexImport(r.output()?, r.bytes()?)),
        8 => Ok(Call::Walk(Kind::New, r.bytes()?)),
        9 => Ok(Call::MoveToNew(r.output()?, r.bytes()?)),
        10 => Ok(Call::MoveToOld(r.output()?, r.bytes()?)),
        11 => Ok(Call::ExportLayout(r.shape()?, r.output()?)),
        12 => Ok(Call::ExportRecord(r.new_record()?, r.output()?, r.bytes()?)),
        13 => Ok(Call::WriteMany(r.shape()?, r.list(&mut lent.listed)?, r.bytes()?)),
        14 => Ok(Call::Judge(r.shape()?, r.bytes()?, r.bytes()?)),
        15 => Ok(Call::Resume(r.shape()?, r.number()?, r.bytes()?)),
        16 => Ok(Call::ReadPair(r.pair()?, r.bytes()?, r.bytes()?)),
        17 => Ok(Call::WritePair(r.pair()?, r.number()?, r.bytes()?, r.bytes()?)),
        _ => Err(Broken::NoSuchCall),
    }
}
