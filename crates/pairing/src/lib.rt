// Document 02, §10: two fields of one range side by side, read and written as one that holds the sum of their numbers modulo the range.
#![tactic(auto)]

ghost use Rattle.std.specs.Prelude.{◌≡◌, [], ◌∷◌, ◌+◌, ◌-◌, ◌^◌, ◌%◌, ◌<◌, ◌≤◌, leb, replicate};
ghost use Rattle.code.specs.Calls.{filled, layout_fields, layout_reply};
ghost use Rattle.code.specs.Pair.{first_shape, second_shape, pair_read_reply, pair_read_fields, pair_write_reply, pair_first_leaves, pair_second_leaves, pair_write_fields};
ghost use Rattle.shapes.specs.Outlines.{outlined};
ghost use Rattle.layout.specs.Plan.{number_or_0, Granted};
ghost use Rattle.reading.specs.Answers.{found_of};
ghost use Rattle.pairing.specs.Answers.{pair_values, field_of, written_values, pair_reading_of, pair_writing_of, pair_read_fields_of, pair_write_fields_of, sight_on, sighted, Laid, second_told, PairAnswers};

use code::{Pair, Refusal};
use layout::{Plan, Ungranted};
use reading::{Found, Reading};
use shapes::Outline;
use writing::Written;

// What both fields of a pair hold together, and the writes left in both.
#[derive(Clone, Copy, Debug, PartialEq, Eq)]
pub struct PairRead {
    pub number: u64,
    pub left: u64,
}

// A field of a pair.
#[derive(Clone, Copy, Debug, PartialEq, Eq)]
pub enum Side {
    First,
    Second,
}

// Which field was written, at which generation, and how many wits that turned.
#[derive(Clone, Copy, Debug, PartialEq, Eq)]
pub struct PairWritten {
    pub side: Side,
    pub generation: u64,
    pub turned: u64,
}

// A reading of a pair or its refusal in numbers, 0 for those that it lacks.
#[repr(C)]
#[derive(Clone, Copy)]
pub struct PairReadFields {
    pub refusal: u64,
    pub number: u64,
    pub left: u64,
    pub generation: u64,
    pub unerased: u64,
}

// A write of a pair or its refusal in numbers, 0 for those that it lacks.
#[repr(C)]
#[derive(Clone, Copy)]
pub struct PairWriteFields {
    pub refusal: u64,
    pub field: u64,
    pub generation: u64,
    pub turned: u64,
    pub unerased: u64,
}

// What a field of a pair tells: how many of its generations are used and its number, both 0 where it is blank.
#[derive(Clone, Copy)]
struct Seen {
    used: u64,
    number: u64,
}

fn tell_sight(found: Found) -> Result<Seen, Refusal>
    ensures { result ≡ sight_on (found_of found) }
{
    match found? {
        Some(numbered) => Ok(Seen {
            used: numbered.generation,
            number: numbered.number,
        }),
        None => Ok(Seen { used: 0, number: 0 }),
    }
}

// What a field tells whose layout is granted; `over` says that a number to be written is not below the range, which is tested before 15 and 16.
fn see_field(
    h: &[u64; 16],
    f: Outline,
    v: &[u64; 16],
    cells: &[u8],
    over: bool,
) -> Result<Seen, Refusal>
    requires { Granted (outlined f v.now) h.now }
    ensures { result ≡ sighted (outlined f v.now) over cells.now }
{
    if !cells::is_sound(cells, shapes::order(f), f.m as usize, h[0] as usize) {
        return Err(Refusal::Cells);
    }
    if over {
        return Err(Refusal::Number);
    }
    let mut words = [0u64; 16];
    let mut marks = [0u64; 16];
    let look = reading::look_at(h, f, v, cells, &mut words, &mut marks);
    tell_sight(look.found)
}

// The outline of the field of a pair that has t generations.
fn outline_with(p: Pair, t: u64) -> Outline
    ensures first { t ≡ p.t1 → outlined result (p.v1 ∷ replicate 15 0) ≡ first_shape p }
    ensures second { t ≡ p.t2 → outlined result (p.v2 ∷ replicate 15 0) ≡ second_shape p }
{
    Outline {
        form: p.form,
        m: p.m,
        t,
        count: 1,
    }
}

// The layout of the second field by that of the first, h: its counts go into a lent array of zeros. Fields of equal t have one layout.
fn lay_second(
    p: Pair,
    h: &[u64; 16],
    v: &[u64; 16],
    counts: &mut [u64; 16],
) -> Result<(), Ungranted>
    requires { (Laid p v.now h.now) × (counts.old ≡ replicate 16 0) }
    ensures { (number_or_0 result ∷ counts.new) ≡ filled layout_fields (layout_reply (second_shape p) 256) }
{
    if p.t1 == p.t2 {
        *counts = *h;
        return Ok(());
    }
    layout::lay_into(counts, outline_with(p, p.t2), v, 256)
}

// The sum of both numbers, and of the writes left in both.
fn add_up(p: Pair, first: Reading, second: Seen) -> PairRead
    requires { (first.number < p.v1) × (second.number < p.v1) × (p.v1 ≤ 2 ^ 56) × (first.left ≤ 16) × (second.used ≤ p.t2) × (p.t2 ≤ 16) }
    ensures { pair_values result ≡ ((first.number + second.number) % p.v1) ∷ (first.left + (p.t2 - second.used)) ∷ [] }
{
    PairRead {
        number: (first.number + second.number) % p.v1,
        left: first.left + (p.t2 - second.used),
    }
}

// A read once the first field is read: the second field's refusals, without 11, or the sum.
fn add_second(
    p: Pair,
    h: &[u64; 16],
    v: &[u64; 16],
    second: &[u8],
    first: Reading,
) -> Result<PairRead, Refusal>
    requires { (Laid p v.now h.now) × (first.number < p.v1) × (p.v1 ≤ 2 ^ 56) × (first.left ≤ 16) }
    ensures { pair_reading_of result ≡ second_told p first.number first.left second.now }
{
    let mut counts = [0u64; 16];
    lay_second(p, h, v, &mut counts)?;
    let seen = see_field(&counts, outline_with(p, p.t2), v, second, false)?;
    Ok(add_up(p, first, seen))
}

// The number that both fields hold together, and the writes left in both.
pub fn read_pair(p: Pair, first: &[u8], second: &[u8]) -> Result<PairRead, Refusal>
    ensures { pair_reading_of result ≡ pair_read_reply p first.now second.now }
{
    if p.v1 != p.v2 {
        return Err(Refusal::Unequal);
    }
    let mut h = [0u64; 16];
    let mut v = [0u64; 16];
    v[0] = p.v1;
    let outline = outline_with(p, p.t1);
    let laid = layout::lay_into(&mut h, outline, &v, 256);
    let read = reading::read_by(Plan { outline, laid }, &h, &v, first)?;
    add_second(p, &h, &v, second, read)
}

// The number that makes the sum with y come to x modulo v.
fn complete(v: u64, x: u64, y: u64) -> u64
    requires { (x < v) × (y < v) × (v ≤ 2 ^ 56) }
    ensures { result ≡ (x + (v - y)) % v }
{
    (x + (v - y)) % v
}

// The write of one field as the pair's answer.
fn tell_written(side: Side, written: Written) -> PairWritten
    ensures { written_values result ≡ field_of side ∷ written.generation ∷ written.turned ∷ [] }
{
    PairWritten {
        side,
        generation: written.generation,
        turned: written.turned,
    }
}

// A write once the first field has passed its tests and tells what it holds: those of the second, then the write of the first field, or of the second where
// the first is spent.
fn write_beside(
    p: Pair,
    h: &[u64; 16],
    v: &[u64; 16],
    first: &mut [u8],
    second: &mut [u8],
    due: Due,
) -> Result<PairWritten, Refusal>
    requires { (Laid p v.now h.now) × (sighted (first_shape p) (leb p.v1 due.number) first.old ≡ Ok due.held) }
    ensures { PairAnswers p due.number first.old second.old (pair_writing_of result) first.new second.new }
{
    let mut counts = [0u64; 16];
    lay_second(p, h, v, &mut counts)?;
    let other = see_field(&counts, outline_with(p, p.t2), v, second, false)?;
    let held = due.held;
    if held.used != p.t1 {
        let x = complete(p.v1, due.number, other.number);
        let written = writing::write_granted(h, outline_with(p, p.t1), v, first, x)?;
        return Ok(tell_written(Side::First, written));
    }
    if other.used == p.t2 {
        return Err(Refusal::Spent);
    }
    let x = complete(p.v1, due.number, held.number);
    let written = writing::write_granted(&counts, outline_with(p, p.t2), v, second, x)?;
    Ok(tell_written(Side::Second, written))
}

// A write that is due: the number, and what the first field holds.
#[derive(Clone, Copy)]
struct Due {
    number: u64,
    held: Seen,
}

// Writes a number into the field whose turn it is.
pub fn write_pair(
    p: Pair,
    first: &mut [u8],
    second: &mut [u8],
    number: u64,
) -> Result<PairWritten, Refusal>
    ensures result_value { pair_writing_of result ≡ pair_write_reply p number first.old second.old }
    ensures first_after { first.new ≡ pair_first_leaves p number first.old second.old }
    ensures second_after { second.new ≡ pair_second_leaves p number first.old second.old }
{
    if p.v1 != p.v2 {
        return Err(Refusal::Unequal);
    }
    let mut h = [0u64; 16];
    let mut v = [0u64; 16];
    v[0] = p.v1;
    let f = outline_with(p, p.t1);
    layout::lay_into(&mut h, f, &v, 256)?;
    let held = see_field(&h, f, &v, first, p.v1 <= number)?;
    write_beside(p, &h, &v, first, second, Due { number, held })
}

pub fn flat_reading(reading: Result<PairRead, Refusal>) -> PairReadFields
    ensures { pair_read_fields_of result ≡ pair_read_fields (pair_reading_of reading) }
{
    match reading {
        Ok(read) => PairReadFields {
            refusal: 0,
            number: read.number,
            left: read.left,
            generation: 0,
            unerased: 0,
        },
        Err(refusal) => {
            let told = refusal.fields();
            PairReadFields {
                refusal: told.number,
                number: 0,
                left: 0,
                generation: told.first,
                unerased: told.second,
            }
        }
    }
}

// 0 for the first field, 1 for the second.
fn field_number(side: Side) -> u64
    ensures { result ≡ field_of side }
{
    match side {
        Side::First => 0,
        Side::Second => 1,
    }
}

pub fn flat_writing(writing: Result<PairWritten, Refusal>) -> PairWriteFields
    ensures { pair_write_fields_of result ≡ pair_write_fields (pair_writing_of writing) }
{
    match writing {
        Ok(written) => PairWriteFields {
            refusal: 0,
            field: field_number(written.side),
            generation: written.generation,
            turned: written.turned,
            unerased: 0,
        },
        Err(refusal) => {
            let told = refusal.fields();
            PairWriteFields {
                refusal: told.number,
                field: 0,
                generation: told.first,
                turned: 0,
                unerased: told.second,
            }
        }
    }
}
