// Document 02, §5: up to 64 numbers, written into as many fields of one layout that lie end to end.
#![tactic(auto)]

ghost use Rattle.std.specs.Prelude.{◌≡◌, [], ◌∷◌, ◌++◌, ◌+◌, ◌*◌, ◌≤◌, length, take, drop, replicate, None};
ghost use Rattle.code.specs.Calls.{write_reply, write_leaves};
ghost use Rattle.code.specs.Many.{field_bytes, many_replies, many_cells, many_told, many_reply, many_leaves};
ghost use Rattle.writing.specs.Answers.{writing_of};
ghost use Rattle.layout.specs.Fields.{shape_of};
ghost use Rattle.layout.specs.Plan.{ungranted_as};
ghost use Rattle.many.specs.Answers.{end_of, many_of};

use code::{Refusal, Shape};
use layout::Ungranted;
use layout::field::Field;
use writing::Written;

const NUMBERS_MOST: usize = 64;

// The refusal, 0 where all numbers are written; where it is a field's, stopped is 1 and the field is told, counted from 0. Then how many
// fields are written, and what the refusal carries, as far as it does: the generation that the field's zero groups point to, and how many
// are not erased. Behind that two rows of 64: of each field written its generation, then of each its turned count, 0 behind them.
// As C has it (b): a form beside it would copy the rows, and a second copy passes the call's limit of 1,800 bytes of stack.
#[repr(C)]
#[derive(Clone, Copy)]
pub struct Many {
    pub refusal: u64,
    pub stopped: u64,
    pub field: u64,
    pub written: u64,
    pub reached: u64,
    pub unerased: u64,
    pub rows: [u16; 128],
}

// Why not all numbers are written: the refusal of a field, which is counted from 0 and behind those written, or one before any write.
#[derive(Clone, Copy)]
struct Stop {
    field: Option<usize>,
    refusal: Refusal,
}

impl From<Refusal> for Stop {
    ghost from_gives = { λ k stop. stop ≡ record { field = None; refusal = k } };

    fn from(refusal: Refusal) -> Stop {
        Stop {
            field: None,
            refusal,
        }
    }
}

impl From<Ungranted> for Stop {
    ghost from_gives = { λ e stop. stop ≡ record { field = None; refusal = ungranted_as e } };

    fn from(e: Ungranted) -> Stop {
        Stop {
            field: None,
            refusal: e.into(),
        }
    }
}

// How many bytes a field takes.
fn field_bytes(f: &Field) -> usize
    ensures { (result ≡ field_bytes (shape_of f.now)) × (result ≤ 128) }
{
    (f.outline.m * f.h[0] + 7) as usize / 8
}

// Writes the field of so many bytes that begins at a place of the cells.
fn write_one(
    f: &Field,
    cells: &mut [u8],
    at: usize,
    size: usize,
    x: u64,
) -> Result<Written, Refusal>
    requires { at + size ≤ length cells.old }
    ensures result_value { writing_of result ≡ write_reply (shape_of f.now) x (take size (drop at cells.old)) }
    ensures cells_after { let before = cells.old in
        cells.new ≡ take at before ++ (write_leaves (shape_of f.now) x (take size (drop at before)) ++ drop size (drop at before)) }
{
    writing::write_granted(f.h, f.outline, f.v, &mut cells[at..at + size], x)
}

// Writes the numbers in order up to the first refusal.
fn write_fields(
    f: &Field,
    cells: &mut [u8],
    size: usize,
    numbers: &[u64],
    rows: &mut [u16; 128],
) -> Result<(), Stop>
    requires fact { (size ≡ field_bytes (shape_of f.now)) × (length numbers.now ≤ 64) × (length cells.old ≡ length numbers.now * size) }
    requires rows_value { rows.old ≡ replicate 128 0 }
    ensures rows_after { let replies = many_replies (shape_of f.now) numbers.now cells.old in
        (end_of (length numbers.now) result ∷ take 64 rows.new ∷ drop 64 rows.new ∷ []) ≡ many_told replies }
    ensures cells_after { cells.new ≡ many_cells (shape_of f.now) numbers.now cells.old }
{
    for (j, &x) in numbers.iter().enumerate() {
        match write_one(f, cells, j * size, size, x) {
            Ok(made) => {
                rows[j] = made.generation as u16;
                rows[64 + j] = made.turned as u16;
            }
            Err(refusal) => {
                return Err(Stop {
                    field: Some(j),
                    refusal,
                });
            }
        }
    }
    Ok(())
}

// The tests before any write, and the writes.
fn write_all(s: Shape, cells: &mut [u8], numbers: &[u64], rows: &mut [u16; 128]) -> Result<(), Stop>
    requires { rows.old ≡ replicate 128 0 }
    ensures rows_after { (end_of (length numbers.now) result ∷ take 64 rows.new ∷ drop 64 rows.new ∷ []) ≡ many_reply s numbers.now cells.old }
    ensures cells_after { cells.new ≡ many_leaves s numbers.now cells.old }
{
    if NUMBERS_MOST < numbers.len() {
        return Err(Refusal::Numbers.into());
    }
    let mut h = [0u64; 16];
    let outline = shapes::outline_of(s);
    let v = s.v;
    layout::lay_into(&mut h, outline, &v, 256)?;
    let field = Field {
        outline,
        v: &v,
        h: &h,
    };
    let size = field_bytes(&field);
    if cells.len() != numbers.len() * size {
        return Err(Refusal::Cells.into());
    }
    write_fields(&field, cells, size, numbers, rows)
}

// Writes the numbers, and tells in an answer that is all zeros how that ended. It stays a call: where it is put into those that hand the answer on, the answer
// is kept more than once, 304 bytes of stack each.
#[inline(never)]
fn write_and_tell(made: &mut Many, s: Shape, cells: &mut [u8], numbers: &[u64])
    requires { made.old ≡ record { refusal = 0; stopped = 0; field = 0; written = 0; reached = 0; unerased = 0; rows = replicate 128 0 } }
    ensures made_after { many_of made.new ≡ many_reply s numbers.now cells.old }
    ensures cells_after { cells.new ≡ many_leaves s numbers.now cells.old }
{
    match write_all(s, cells, numbers, &mut made.rows) {
        Ok(()) => made.written = numbers.len() as u64,
        Err(stop) => {
            let told = stop.refusal.fields();
            made.refusal = told.number;
            made.reached = told.first;
            made.unerased = told.second;
            if let Some(j) = stop.field {
                made.stopped = 1;
                made.field = j as u64;
                made.written = j as u64;
            }
        }
    }
}

// One number for each field, written in order; the first refusal ends it, and the fields before it stay written.
pub fn write_many(s: Shape, cells: &mut [u8], numbers: &[u64]) -> Many
    ensures result_value { many_of result ≡ many_reply s numbers.now cells.old }
    ensures cells_after { cells.new ≡ many_leaves s numbers.now cells.old }
{
    let mut made = Many {
        refusal: 0,
        stopped: 0,
        field: 0,
        written: 0,
        reached: 0,
        unerased: 0,
        rows: [0u16; 128],
    };
    write_and_tell(&mut made, s, cells, numbers);
    made
}
