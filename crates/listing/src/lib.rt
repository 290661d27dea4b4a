// The text of a listing, told piece by piece into a lent output: document 01, "`fieldlist` reads standard input and prints one line per record".
#![tactic(auto)]

ghost use Rattle.std.specs.Prelude.{◌≡◌, ◌+◌, ◌≤◌, length};
ghost use Rattle.code.specs.Dump.{step_reply};
ghost use Rattle.code.specs.Listing.{record_line};
ghost use Rattle.reading.specs.Answers.{reading_of};
ghost use Rattle.text.specs.Within.{PutWithin};
ghost use Rattle.dump.specs.Answers.{dump_most, Walkable, step_of};
ghost use Rattle.listing.specs.Listing.{lines_most, halt_lines, Standing, LinesTold, Fills};

use code::{Kind, Refusal};
use dump::kept::Kept;
use dump::{Halt, Record};
use reading::Reading;

// The most bytes that a step's lines take.
pub const LINES_MOST: usize = 84;

// How far a listing is told: where the next step starts, and the records before it.
#[derive(Clone, Copy)]
pub struct Listing {
    pub next: usize,
    pub count: u64,
}

pub fn start_listing(start: usize) -> Listing
    requires { start ≤ dump_most }
    ensures { Standing result × (result.next ≡ start) × (result.count ≡ 0) }
{
    Listing {
        next: start,
        count: 0,
    }
}

// What is told is the output up to `end`; the listing goes on from there, unless all is told.
#[derive(Clone, Copy)]
pub struct Told {
    pub listing: Option<Listing>,
    pub end: usize,
}

// Tells the line of a record, refused or not.
fn tell_outcome(out: &mut [u8], at: usize, serial: u64, outcome: Result<Reading, Refusal>) -> usize
    requires { at + lines_most ≤ length out.old }
    ensures { PutWithin lines_most out.old out.new at (record_line serial (reading_of outcome)) result }
{
    match outcome {
        Ok(reading) => text::put_reading_line(
            out,
            at,
            serial,
            reading.generation,
            reading.number,
            reading.left,
        ),
        Err(refusal) => text::put_refusal_line(out, at, serial, refusal),
    }
}

// The lines that end the listing of a dump whose walk stops before the end.
pub fn put_halt_lines(out: &mut [u8], at: usize, count: u64, halt: Halt) -> usize
    requires { at + lines_most ≤ length out.old }
    ensures { PutWithin lines_most out.old out.new at (halt_lines count halt) result }
{
    match halt {
        Halt::Malformed { offset } => text::put_stop_lines(out, at, count, offset as u64),
        Halt::Oversize => text::put_oversize_line(out, at),
    }
}

// Tells the lines of the step that is due: "refusals 1 to 4 belong to that record and the walk goes on". The dump and its kind stand here for the promise alone.
fn tell_step(
    dump: &[u8],
    kind: Kind,
    s: Listing,
    step: Result<Option<Record>, Halt>,
    out: &mut [u8],
    at: usize,
) -> Told
    requires standing { Standing s × (at + lines_most ≤ length out.old) }
    requires step_value { step_of «step» ≡ step_reply kind dump.now s.next }
    ensures { LinesTold kind dump.now s out.old out.new at result }
{
    match step {
        Ok(Some(record)) => {
            let end = tell_outcome(out, at, record.serial, record.outcome);
            let next = record.start + record.count;
            let count = s.count + 1;
            Told {
                listing: Some(Listing { next, count }),
                end,
            }
        }
        Ok(None) => {
            let end = text::put_last_line(out, at, s.count);
            Told { listing: None, end }
        }
        Err(halt) => {
            let end = put_halt_lines(out, at, s.count, halt);
            Told { listing: None, end }
        }
    }
}

// Tells the next lines, as many as surely fit.
pub fn fill(dump: &[u8], kind: Kind, places: &[u16], start: Listing, out: &mut [u8]) -> Told
    requires { Walkable kind dump.now places.now × Standing start × (lines_most ≤ length out.old) }
    ensures { Fills kind dump.now start out.new result }
{
    let mut s = start;
    let mut kept = Kept::none();
    let mut end = 0;
    while LINES_MOST <= out.len() - end {
        let step = dump::step_kept(dump, kind, places, s.next, &mut kept);
        let told = tell_step(dump, kind, s, step, out, end);
        let Some(listing) = told.listing else {
            return told;
        };
        s = listing;
        end = told.end;
    }
    Told {
        listing: Some(s),
        end,
    }
}
