// Reading one field: document 01, "Reading", with the refusals in the table's order.
#![tactic(auto)]

pub mod telling;

ghost use Rattle.std.specs.Prelude.{◌≡◌, ◌≢◌, true, false, ◌<◌, length, get_or};
ghost use Rattle.code.specs.Shape.{width_of};
ghost use Rattle.shapes.specs.Outlines.{outlined};
ghost use Rattle.code.specs.Field as Field;
ghost use Rattle.code.specs.Calls.{read_fields, read_reply};
ghost use Rattle.words.specs.Marks.{Ends, Fronted, Viewed};
ghost use Rattle.layout.specs.Plan.{Planned, Granted};
ghost use Rattle.reading.specs.Answers.{read_fields_of, reading_of, refusal_for, found_of, answer_of, read_in, SoundCells, field_groups, Holds, Looked, Ranged};

use code::{Refusal, Shape};
use layout::Plan;
use shapes::Outline;
use words::Seen;

// The generation of a field, its number, and how many writes it has left.
#[derive(Clone, Copy)]
pub struct Reading {
    pub generation: u64,
    pub number: u64,
    pub left: u64,
}

// A reading or its refusal in numbers, 0 for those that it lacks.
#[repr(C)]
#[derive(Clone, Copy)]
pub struct ReadFields {
    pub refusal: u64,
    pub generation: u64,
    pub number: u64,
    pub left: u64,
    pub unerased: u64,
}

// What cells hold that are not blank.
#[derive(Clone, Copy)]
pub struct Numbered {
    pub generation: u64,
    pub number: u64,
}

// Why sound cells have no number: the unerased groups are not as many as the generation has, or the number is beyond the range.
#[derive(Clone, Copy)]
pub enum Unreadable {
    Miscounted { generation: u64, unerased: u64 },
    Beyond { generation: u64 },
}

impl From<Unreadable> for Refusal {
    ghost from_gives = { λ e k. k ≡ refusal_for e };

    fn from(e: Unreadable) -> Refusal {
        match e {
            Unreadable::Miscounted {
                generation,
                unerased,
            } => Refusal::Miscounted {
                generation,
                unerased,
            },
            Unreadable::Beyond { generation } => Refusal::Beyond { generation },
        }
    }
}

// What sound cells read as, None where they are blank.
pub type Found = Result<Option<Numbered>, Unreadable>;

// The reading of the number x at place i, where it is in range.
fn ranged(i: usize, v: u64, x: u64) -> Found
    requires { i < 16 }
    ensures { Ranged i v x (found_of result) }
{
    let generation = i as u64 + 1;
    if v <= x {
        return Err(Unreadable::Beyond { generation });
    }
    Ok(Some(Numbered {
        generation,
        number: x,
    }))
}

// Behind the first generation there are other unerased groups than place i has.
fn is_miscounted(h: &[u64; 16], i: usize, unerased: u64) -> bool
    requires { i < 16 }
    ensures { (result ≡ true → (i ≢ 0) × (unerased ≢ get_or h.now i 0)) × (result ≡ false → i ≢ 0 → unerased ≡ get_or h.now i 0) }
{
    i != 0 && unerased != h[i]
}

// Marks the places of generation 1, which are all groups of the field; those of the others are marked already.
fn mark_places(h: &[u64; 16], m: u64, n: usize, i: usize, marks: &mut [u64; 16])
    requires { (Ends m n (get_or h.now 0 0)) × (length marks.old ≡ 16) }
    ensures fronted { (i ≡ 0 → Fronted m n (get_or h.now 0 0) marks.new) × (i ≢ 0 → marks.new ≡ marks.old) }
    ensures marks_len { length marks.new ≡ 16 }
{
    if i == 0 {
        words::mark_all(n, m as usize, h[0] as usize, marks);
    }
}

// What the field's groups in words read as, of which is seen how many are zero and which are not erased.
fn read_groups(
    h: &[u64; 16],
    f: Outline,
    v: &[u64; 16],
    words: &[u64; 16],
    n: usize,
    marks: &mut [u64; 16],
    seen: Seen,
) -> Found
    requires { let s = outlined f v.now in
        (Granted s h.now) × (Holds s.m (width_of s) n words.now) × (Viewed s.m n words.now marks.old seen) }
    ensures result_value { found_of result ≡ read_in (outlined f v.now) (field_groups (outlined f v.now) n words.now) }
    ensures marks_len { length marks.new ≡ 16 }
{
    if seen.zeros == h[0] {
        return Ok(None);
    }
    let i = telling::past(h, f.t as usize, seen.zeros);
    if is_miscounted(h, i, seen.unerased) {
        return Err(Unreadable::Miscounted {
            generation: i as u64 + 1,
            unerased: seen.unerased,
        });
    }
    mark_places(h, f.m, n, i, marks);
    let g = telling::generation_at(h, f, v, i);
    let x = telling::tell(words, marks, n, f.m as usize, g);
    ranged(i, g.range, x)
}

// Cells that were never written: in form 0 they have generation 1, number 0 and all their writes left, and else no number.
fn answer_blank(f: Outline) -> Result<Reading, Refusal>
    ensures { reading_of result ≡ answer_of f.form f.t Field.blank }
{
    if f.form != 0 {
        return Err(Refusal::Blank);
    }
    Ok(Reading {
        generation: 1,
        number: 0,
        left: f.t,
    })
}

// A reading as it is answered.
fn answer(found: Found, f: Outline) -> Result<Reading, Refusal>
    ensures { reading_of result ≡ answer_of f.form f.t (found_of found) }
{
    match found? {
        None => answer_blank(f),
        Some(Numbered { generation, number }) => Ok(Reading {
            generation,
            number,
            left: f.t.saturating_sub(generation),
        }),
    }
}

// Sound cells in n words: how many of their groups are zero, and what they read as.
#[derive(Clone, Copy)]
pub struct Look {
    pub n: usize,
    pub zeros: u64,
    pub found: Found,
}

pub fn look_at(
    h: &[u64; 16],
    f: Outline,
    v: &[u64; 16],
    cells: &[u8],
    words: &mut [u64; 16],
    marks: &mut [u64; 16],
) -> Look
    requires granted { (Granted (outlined f v.now) h.now) × (SoundCells (outlined f v.now) cells.now) }
    requires words_len { (length words.old ≡ 16) × (length marks.old ≡ 16) }
    ensures looked { Looked (outlined f v.now) cells.now words.new result.n result.zeros (found_of result.found) }
    ensures marks_len { length marks.new ≡ 16 }
{
    let m = f.m as usize;
    let n = cells::load(cells, shapes::order(f), m, h[0] as usize, words);
    let seen = words::see(words, n, m, marks);
    let found = read_groups(h, f, v, words, n, marks, seen);
    Look {
        n,
        zeros: seen.zeros,
        found,
    }
}

// The reading of a field whose layout is granted.
fn read_granted(h: &[u64; 16], f: Outline, v: &[u64; 16], cells: &[u8]) -> Result<Reading, Refusal>
    requires { Granted (outlined f v.now) h.now }
    ensures { reading_of result ≡ read_reply (outlined f v.now) cells.now }
{
    if !cells::is_sound(cells, shapes::order(f), f.m as usize, h[0] as usize) {
        return Err(Refusal::Cells);
    }
    let mut words = [0u64; 16];
    let mut marks = [0u64; 16];
    let seen = look_at(h, f, v, cells, &mut words, &mut marks);
    let found = seen.found;
    answer(found, f)
}

// The reading of a field whose layout is worked out, with its counts in h and its ranges in v.
pub fn read_by(plan: Plan, h: &[u64; 16], v: &[u64; 16], cells: &[u8]) -> Result<Reading, Refusal>
    requires { Planned plan v.now h.now }
    ensures { reading_of result ≡ read_reply (outlined plan.outline v.now) cells.now }
{
    plan.laid?;
    read_granted(h, plan.outline, v, cells)
}

pub fn read(s: Shape, cells: &[u8]) -> Result<Reading, Refusal>
    ensures { reading_of result ≡ read_reply s cells.now }
{
    let f = shapes::outline_of(s);
    // Before the counts are cleared, so that a refusal costs little.
    if shapes::outline_outside(f) {
        return Err(Refusal::Bounds);
    }
    let mut h = [0u64; 16];
    let v = s.v;
    layout::lay_outlined(&mut h, f, &v, 256)?;
    read_granted(&h, f, &v, cells)
}

pub fn flat(reading: Result<Reading, Refusal>) -> ReadFields
    ensures { read_fields_of result ≡ read_fields (reading_of reading) }
{
    match reading {
        Ok(
            Reading {
                generation,
                number,
                left,
            },
        ) => ReadFields {
            refusal: 0,
            generation,
            number,
            left,
            unerased: 0,
        },
        Err(refusal) => {
            let told = refusal.fields();
            ReadFields {
                refusal: told.number,
                generation: told.first,
                number: 0,
                left: 0,
                unerased: told.second,
            }
        }
    }
}
