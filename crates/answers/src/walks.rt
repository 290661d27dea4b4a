// The lines of the walks: one for each record, and one for how the walk ends.
ghost use Rattle.std.specs.Prelude.{◌≡◌, ◌≤◌, length, IfOk};
ghost use Rattle.code.specs.Dump.{walk_reply};
ghost use Rattle.walking.specs.Answers.{walked_of};

use code::{Kind, Refusal, Shape};
use dump::Halt;
use lines::output::Text;
use lines::replies::Reply;
use lines::{Numbers, replies};
use std::fmt;
use std::fmt::Write;
use walking::Walked;

// The numbers that a walk is lent for its rows, some fifty of them.
const ROWS: usize = 640;

// A dump, and which kind it is of.
#[derive(Clone, Copy)]
struct Dump<'a> {
    kind: Kind,
    bytes: &'a [u8],
}

impl<'a> Dump<'a> {
    // Where the records begin. An old dump has nothing in front of them, and it is the walk that refuses one that is too long.
    fn first_record(self) -> Result<usize, Halt>
        ensures { IfOk result (λ start. start ≤ length self.entry.bytes.now) }
    {
        match self.kind {
            Kind::Old => Ok(0),
            Kind::New => {
                let opened = gorvlime::open_new(self.bytes)?;
                Ok(opened.start)
            }
        }
    }

    fn walk_on(self, at: usize, rows: &mut [u64]) -> Walked
        ensures { walked_of result ≡ walk_reply self.entry.kind self.entry.bytes.now at rows.old }
    {
        match self.kind {
            Kind::Old => gorvlime::walk(self.bytes, at, rows),
            Kind::New => gorvlime::walk_new(self.bytes, at, rows),
        }
    }

    // The shape of the record in a row.
    fn shape_in(self, row: &[u64]) -> Shape
        requires { 11 ≤ length row.now }
    {
        match self.kind {
            Kind::Old => own_shape(row[1], row[2], row[3]),
            Kind::New => gorvlime::listed_shape(self.bytes, row[1]).unwrap_or(own_shape(0, 0, 0)),
        }
    }

    // The cells of a record, read.
    fn read_record(self, shape: Shape, start: u64, count: u64) -> Reply {
        let cells = gorvlime::part(self.bytes, start as usize, count as usize);
        replies::reply_of(gorvlime::read(shape, cells))
    }
}

// The shape of a record of an old dump.
fn own_shape(m: u64, t: u64, range: u64) -> Shape {
    let mut v = [0u64; 16];
    v[0] = range;
    Shape {
        form: 0,
        m,
        t,
        count: 1,
        v,
    }
}

pub fn put_walk(text: &mut Text, kind: Kind, bytes: &[u8]) -> fmt::Result {
    let dump = Dump { kind, bytes };
    match dump.first_record() {
        Ok(start) => put_all_records(text, dump, start),
        Err(halt) => put_stop(text, halt),
    }
}

fn put_all_records(text: &mut Text, dump: Dump<'_>, start: usize) -> fmt::Result
    requires { start ≤ length dump.bytes.now }
{
    let mut rows = [0u64; ROWS];
    let mut next = start;
    loop {
        let w = dump.walk_on(next, &mut rows);
        put_records(text, dump, &rows, w.rows as usize)?;
        match w.ended {
            Ok(true) => return writeln!(text, "end"),
            Ok(false) => next = w.next,
            Err(halt) => return put_stop(text, halt),
        }
    }
}

// Why a walk stops before the end.
fn put_stop(text: &mut Text, halt: Halt) -> fmt::Result {
    writeln!(text, "stop{}", Reply::from(Refusal::from(halt)))
}

// The first so many of the rows.
fn put_records(text: &mut Text, dump: Dump<'_>, rows: &[u64], count: usize) -> fmt::Result {
    for row in rows
        .chunks_exact(walking::row_length(dump.kind))
        .take(count)
    {
        put_record(text, dump, row)?;
    }
    Ok(())
}

// What stands in a row behind its head: the first range, where the cells start, how many they are, and the reply to reading them.
const TAIL: usize = 3 + lines::REPLY;

// The line of a record: the head of its row, all its ranges, where its cells stand, and the reply to reading them.
fn put_record(text: &mut Text, dump: Dump<'_>, row: &[u64]) -> fmt::Result
    requires { 11 ≤ length row.now }
{
    let shape = dump.shape_in(row);
    let v = shape.v;
    // Of a shape with more ranges than it has room for there are none.
    let ranges = v.get(..shape.count as usize).unwrap_or(&[]);
    let (head, tail) = row.split_at(row.len() - TAIL);
    let start = tail[1];
    let count = tail[2];
    let reply = dump.read_record(shape, start, count);
    writeln!(
        text,
        "record{}{} {start} {count}{reply}",
        Numbers(head),
        Numbers(ranges)
    )
}
