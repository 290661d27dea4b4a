// The records of both kinds of dump: the numbers of a head, n, then n bytes.
#![tactic(auto)]

pub mod list;

ghost use Rattle.std.specs.Prelude.{◌≡◌, List, ℕ, suc, ◌+◌, ◌-◌, ◌^◌, ◌≤◌, ◌<◌, leb, length, get_or, take, drop};
ghost use Rattle.code.specs.Lists.{Below};
ghost use Rattle.code.specs.Numerals.{read_numbers};
ghost use Rattle.code.specs.Export.{record_of};
ghost use Rattle.code.specs.Dump.{own_layouts, listed_layouts, head_length, record_at};
ghost use Rattle.storing.specs.Put.{Put};
ghost use Rattle.code.specs.LayoutList.{unlisted, listed_shape};
ghost use Rattle.records.specs.Head.{said_shape, head_step, headed};
ghost use Rattle.records.specs.Source.{layouts_at, source_of};

use code::{Kind, Shape};

// What a record says of its layout: in an old dump m, t and v, in a new one the layout's number. What is not said is 0.
#[derive(Clone, Copy, PartialEq, Eq)]
pub struct Said {
    pub layout: u64,
    pub m: u64,
    pub t: u64,
    pub v: u64,
}

// A record's head: its cells are the `count` bytes from `start` on.
#[derive(Clone, Copy)]
pub struct Head {
    pub serial: u64,
    pub said: Said,
    pub start: usize,
    pub count: usize,
}

// A malformed record, whose first byte stands at the offset.
#[derive(Clone, Copy, Debug, PartialEq, Eq)]
pub struct Malformed {
    pub offset: usize,
}

// Reads the head at a place. The layouts of a new dump stand at `places`, those of an old one in its records.
pub fn read_head(dump: &[u8], kind: Kind, places: &[u16], at: usize) -> Result<Head, Malformed>
    ensures { let bytes = dump.now in
        let source = source_of kind bytes places.now in
        head_step source result ≡ record_at source bytes at (read_numbers (suc (head_length source)) bytes at) }
{
    match kind {
        Kind::Old => read_own_head(dump, at),
        Kind::New => read_listed_head(dump, places, at),
    }
}

fn read_own_head(dump: &[u8], at: usize) -> Result<Head, Malformed>
    ensures { head_step own_layouts result ≡ record_at own_layouts dump.now at (read_numbers 5 dump.now at) }
{
    let mut numbers = [0u64; 5];
    let start = numerals::read_numbers(dump, at, &mut numbers).ok_or(Malformed { offset: at })?;
    let [serial, m, t, v, count] = numbers;
    let said = Said { layout: 0, m, t, v };
    let head = Head {
        serial,
        said,
        start,
        count: count as usize,
    };
    whole(dump, at, head)
}

fn read_listed_head(dump: &[u8], places: &[u16], at: usize) -> Result<Head, Malformed>
    ensures { let bytes = dump.now in
        let source = listed_layouts (layouts_at bytes places.now) in
        head_step source result ≡ record_at source bytes at (read_numbers 3 bytes at) }
{
    let mut numbers = [0u64; 3];
    let start = numerals::read_numbers(dump, at, &mut numbers).ok_or(Malformed { offset: at })?;
    let [serial, layout, count] = numbers;
    if places.len() as u64 <= layout {
        return Err(Malformed { offset: at });
    }
    let said = Said {
        layout,
        m: 0,
        t: 0,
        v: 0,
    };
    let head = Head {
        serial,
        said,
        start,
        count: count as usize,
    };
    whole(dump, at, head)
}

// A head, where as many bytes follow it as it says.
fn whole(dump: &[u8], at: usize, head: Head) -> Result<Head, Malformed>
    requires { head.start ≤ length dump.now }
    ensures { result ≡ headed (length dump.now - head.start) at head }
{
    if dump.len() - head.start < head.count {
        return Err(Malformed { offset: at });
    }
    Ok(head)
}

// The shape that a record says, of zeros where it says a number that the list has not.
pub fn shape_said(dump: &[u8], kind: Kind, places: &[u16], said: Said) -> Shape
    ensures { result ≡ said_shape (source_of kind dump.now places.now) said }
{
    match kind {
        Kind::Old => list::form_zero(said.m, said.t, said.v),
        Kind::New => listed_shape(dump, places, said.layout),
    }
}

// The shape of the layout that has a number in the list.
pub fn listed_shape(dump: &[u8], places: &[u16], number: u64) -> Shape
    ensures { result ≡ listed_shape (get_or (layouts_at dump.now places.now) number unlisted) }
{
    if places.len() as u64 <= number {
        return list::form_zero(0, 0, 0);
    }
    list::shape_at(dump, places[number as usize] as usize)
}

// The cells of a record, as a part of the dump.
pub fn part(dump: &[u8], start: usize, count: usize) -> &[u8]
    ensures { result.now ≡ take count (drop start dump.now) }
{
    let rest = &dump[start.min(dump.len())..];
    &rest[..count.min(rest.len())]
}

pub fn record_length(head: &[u64], count: usize) -> usize
    requires { Below (2 ^ 63) head.now × (length head.now < 2 ^ 32) × (count < 2 ^ 63) }
    ensures { (cells : List ℕ) → length cells ≡ count → result ≡ length (record_of head.now cells) }
{
    numerals::numbers_length(head) + numerals::number_length(count as u64) + count
}

// Whether so much room holds a record. The most bytes that its numbers can take tell it, but for a record near the room's end, whose numbers are measured.
pub fn fits(head: &[u64], count: usize, room: usize) -> bool
    requires { Below (2 ^ 63) head.now × (length head.now < 2 ^ 32) × (count < 2 ^ 63) }
    ensures { (cells : List ℕ) → length cells ≡ count → result ≡ leb (length (record_of head.now cells)) room }
{
    if 9 * (head.len() + 1) + count <= room {
        return true;
    }
    record_length(head, count) <= room
}

// The record at a place of `out`.
pub fn put_record(out: &mut [u8], at: usize, head: &[u64], cells: &[u8]) -> usize
    requires below { Below (2 ^ 63) head.now × (length cells.now < 2 ^ 63) }
    requires cells_in_bounds { at + length (record_of head.now cells.now) ≤ length out.old }
    ensures { Put out.old out.new at (record_of head.now cells.now) result }
{
    let behind = numerals::write_numbers(out, at, head);
    let start = numerals::write_number(out, behind, cells.len() as u64);
    storing::put_bytes(out, start, cells)
}
