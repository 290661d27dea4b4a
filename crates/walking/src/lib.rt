// Documents 01 and 02: the walk of a dump of either kind into rows of numbers.
#![tactic(auto)]

ghost use Rattle.std.specs.Prelude.{◌≡◌, [], ◌∷◌, ◌++◌, ◌+◌, ◌≤◌, length};
ghost use Rattle.code.specs.Calls.{read_fields};
ghost use Rattle.code.specs.Dump.{row_length, walk_reply, walk_leaves};
ghost use Rattle.storing.specs.Put.{Put};
ghost use Rattle.reading.specs.Answers.{reading_of};
ghost use Rattle.dump.specs.Answers.{Walkable};
ghost use Rattle.walking.specs.Answers.{row_told, walked_of, walk_fields_of};

use code::{Kind, Refusal};
use dump::kept::Kept;
use dump::{Halt, Record};

// Where a walk into rows stopped: the rows filled, where the next step would start, and whether that is the end, or why the walk stops before.
#[derive(Clone, Copy, Debug, PartialEq, Eq)]
pub struct Walked {
    pub rows: u64,
    pub next: usize,
    pub ended: Result<bool, Halt>,
}

// The same in numbers: the refusal and its offset, 0 where there is none, and 1 where the end was reached.
#[repr(C)]
#[derive(Clone, Copy)]
pub struct WalkFields {
    pub refusal: u64,
    pub offset: u64,
    pub rows: u64,
    pub next: u64,
    pub ended: u64,
}

pub fn flat(walked: Walked) -> WalkFields
    ensures { walk_fields_of result ≡ walked_of walked }
{
    let rows = walked.rows;
    let next = walked.next as u64;
    match walked.ended {
        Ok(ended) => WalkFields {
            refusal: 0,
            offset: 0,
            rows,
            next,
            ended: u64::from(ended),
        },
        Err(halt) => WalkFields {
            refusal: Refusal::from(halt).number(),
            offset: halt.offset() as u64,
            rows,
            next,
            ended: 0,
        },
    }
}

// The numbers of a row.
pub fn row_length(kind: Kind) -> usize
    ensures { result ≡ row_length kind }
{
    match kind {
        Kind::Old => 11,
        Kind::New => 13,
    }
}

// Stores numbers at a place, and answers the place behind them.
fn put_numbers(rows: &mut [u64], place: usize, numbers: &[u64]) -> usize
    requires { place + length numbers.now ≤ length rows.old }
    ensures { Put rows.old rows.new place numbers.now result }
{
    let end = place + numbers.len();
    rows[place..end].copy_from_slice(numbers);
    end
}

// Stores the row of a record at a place, and answers the place behind it. An old dump has neither numbers of layouts nor forms.
fn put_row(rows: &mut [u64], place: usize, kind: Kind, record: Record) -> usize
    requires { place + row_length kind ≤ length rows.old }
    ensures { Put rows.old rows.new place (row_told kind «record» ++ read_fields (reading_of «record».outcome)) result }
{
    let s = record.brief;
    let behind = match kind {
        Kind::Old => put_numbers(rows, place, &[record.serial]),
        Kind::New => put_numbers(rows, place, &[record.serial, record.layout, s.form]),
    };
    let told = reading::flat(record.outcome);
    let numbers = [
        s.m,
        s.t,
        s.v,
        record.start as u64,
        record.count as u64,
        told.refusal,
        told.generation,
        told.number,
        told.left,
        told.unerased,
    ];
    put_numbers(rows, behind, &numbers)
}

// Fills a row for each record from a place on, as long as a whole row fits.
fn fill_rows(dump: &[u8], kind: Kind, places: &[u16], at: usize, rows: &mut [u64]) -> Walked
    requires { Walkable kind dump.now places.now }
    ensures result_value { walked_of result ≡ walk_reply kind dump.now at rows.old }
    ensures rows_after { rows.new ≡ walk_leaves kind dump.now at rows.old }
{
    let width = row_length(kind);
    let mut kept = Kept::none();
    let mut next = at;
    let mut done: u64 = 0;
    let mut place = 0;
    while width <= rows.len() - place {
        match dump::step_kept(dump, kind, places, next, &mut kept) {
            Ok(Some(record)) => {
                place = put_row(rows, place, kind, record);
                next = record.start + record.count;
                done += 1;
            }
            Ok(None) => {
                return Walked {
                    rows: done,
                    next,
                    ended: Ok(true),
                };
            }
            Err(halt) => {
                return Walked {
                    rows: done,
                    next,
                    ended: Err(halt),
                };
            }
        }
    }
    Walked {
        rows: done,
        next,
        ended: Ok(false),
    }
}

// The walk from a place on, as far as the rows go.
pub fn walk(dump: &[u8], kind: Kind, at: usize, rows: &mut [u64]) -> Walked
    ensures result_value { walked_of result ≡ walk_reply kind dump.now at rows.old }
    ensures rows_after { rows.new ≡ walk_leaves kind dump.now at rows.old }
{
    let mut places = [0u16; records::list::LAYOUTS_MOST];
    match dump::open(dump, kind, &mut places) {
        Ok(opened) => fill_rows(dump, kind, &places[..opened.layouts], at, rows),
        Err(halt) => Walked {
            rows: 0,
            next: 0,
            ended: Err(halt),
        },
    }
}
