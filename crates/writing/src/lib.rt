// Writing one field: document 01, "Writing", with the refusals in the table's order.
#![tactic(auto)]

ghost use Rattle.std.specs.Prelude.{◌≡◌, false, List, ℕ, suc, ◌+◌, ◌-◌, ◌^◌, ◌<◌, ◌≤◌, length, get_or};
ghost use Rattle.code.specs.Count.{fewer};
ghost use Rattle.code.specs.Code.{pattern};
ghost use Rattle.code.specs.Shape.{order_of};
ghost use Rattle.code.specs.Deal.{deal, plainly};
ghost use Rattle.code.specs.Field as Field;
ghost use Rattle.code.specs.Calls.{over_range, write_fields, write_reply, write_leaves};
ghost use Rattle.code.proofs.Chosen.{pattern_most};
ghost use Rattle.shapes.specs.Outlines.{outlined};
ghost use Rattle.counting.specs.Cap.{cap};
ghost use Rattle.words.specs.Words.{front_groups};
ghost use Rattle.words.specs.Marks.{ZeroMarked, Layered};
ghost use Rattle.cells.specs.Cells.{Storable, Stored};
ghost use Rattle.layout.specs.Plan.{Granted};
ghost use Rattle.reading.specs.Answers.{found_of, SoundCells};
ghost use Rattle.writing.specs.Answers.{writing_of, write_fields_of, aim_at, laid_by, wits_of, groups_held, Carries, Layable, Takes};

use code::{Dealing, Generation, PATTERN_MOST, Refusal, Shape};
use reading::{Found, Numbered};
use shapes::Outline;

// The generation that a number is written at, and how many wits that turned.
#[derive(Clone, Copy)]
pub struct Written {
    pub generation: u64,
    pub turned: u64,
}

// A write or its refusal in numbers, 0 for those that it lacks.
#[repr(C)]
#[derive(Clone, Copy)]
pub struct WriteFields {
    pub refusal: u64,
    pub generation: u64,
    pub turned: u64,
    pub unerased: u64,
}

// Where a reading is written next, or the refusal that is left to it.
fn take_aim(found: Found, t: u64) -> Result<usize, Refusal>
    ensures { result ≡ aim_at t (found_of found) }
{
    match found? {
        None => Ok(0),
        Some(
            Numbered {
                generation,
                number: _,
            },
        ) => {
            if generation == t {
                return Err(Refusal::Spent);
            }
            Ok(generation as usize)
        }
    }
}

// Lays the digits of a number into the zero groups.
fn lay_plain(
    words: &mut [u64; 16],
    marks: &[u64; 16],
    n: usize,
    m: usize,
    places: u64,
    e: u64,
    x: u64,
)
    requires zero_marked { (ZeroMarked m n words.old marks.now) × (places ≡ Field.zeros (front_groups m n words.old)) × (places ≤ pattern_most) }
    requires e_nonzero { (0 < e) × (e ≤ 15) × (e ≡ 2 ^ m - 1) × (x < e ^ places) }
    ensures { Layered m n (plainly e places x) words.old words.new }
{
    let mut values = [0u8; PATTERN_MOST];
    dealing::plainly(&mut values, places as usize, e, x);
    words::lay_digits(words, marks, n, m, &values);
}

// Lays x as a pattern into the zero groups, which are so many places.
fn lay_dealt(
    words: &mut [u64; 16],
    marks: &[u64; 16],
    n: usize,
    m: usize,
    places: u64,
    b: u64,
    fewest: u64,
    x: u64,
)
    requires zero_marked { (ZeroMarked m n words.old marks.now) × (places ≡ Field.zeros (front_groups m n words.old)) × (places ≤ 256) }
    requires b_nonzero { (0 < b) × (b ≤ 15) × (b ≤ 2 ^ m - 1) × (fewest ≤ 1) × (x < cap) × (x < fewer b places fewest (suc places)) }
    ensures { Layered m n (deal b fewest places x) words.old words.new }
{
    let mut labels = [0u8; PATTERN_MOST];
    let mut values = [0u8; PATTERN_MOST];
    let k = dealing::deal(&mut labels, &mut values, places, b, fewest, x);
    words::lay(words, marks, n, m, places, &labels, &values, k);
}

// Lays the pattern of x into the zero groups, which are the places of a generation.
fn lay_number(words: &mut [u64; 16], marks: &[u64; 16], n: usize, m: usize, g: Generation, x: u64)
    requires { (ZeroMarked m n words.old marks.now) × (g.places ≡ Field.zeros (front_groups m n words.old)) × (Layable m g x) }
    ensures { Layered m n (pattern g.dealing g.places x) words.old words.new }
{
    let places = g.places;
    let dealing = g.dealing;
    match dealing {
        Dealing::Patterns { values, fewest } => {
            lay_dealt(words, marks, n, m, places, values, fewest, x);
        }
        Dealing::Digits { base } => {
            lay_plain(words, marks, n, m, places, base, x + 1);
        }
    }
}

// A field whose groups stand in words: what it is like, its groups, the words that these take, and how many of them are zero.
#[derive(Clone, Copy)]
pub struct Held {
    pub outline: Outline,
    pub groups: usize,
    pub n: usize,
    pub zeros: u64,
}

// Erases what was used and what is spare, and lays the pattern of x into the places of a generation.
fn erase_and_lay(words: &mut [u64; 16], marks: &mut [u64; 16], f: Held, g: Generation, x: u64)
    requires { (Takes f g x words.old) × (length marks.old ≡ 16) }
    ensures { Carries (wits_of f) f.groups f.n (laid_by (wits_of f) g x (groups_held f words.old)) words.new }
{
    let m = f.outline.m as usize;
    words::erase(words, f.n, m, f.zeros - g.places, marks);
    lay_number(words, marks, f.n, m, g, x);
}

// The write of x at a generation on cells whose groups the words hold, which hold those of the written cells afterwards: how many wits it turns.
#[inline(always)]
pub fn write_at(
    cells: &mut [u8],
    words: &mut [u64; 16],
    marks: &mut [u64; 16],
    f: Held,
    g: Generation,
    x: u64,
) -> u64
    requires { (Takes f g x words.old) × (length marks.old ≡ 16) × (Storable (wits_of f) f.groups cells.old) }
    ensures fact { let after = laid_by (wits_of f) g x (groups_held f words.old) in
        ((v : List ℕ) → Stored (order_of (outlined f.outline v)) (wits_of f) after cells.old cells.new result) }
    ensures carries { Carries (wits_of f) f.groups f.n (laid_by (wits_of f) g x (groups_held f words.old)) words.new }
{
    erase_and_lay(words, marks, f, g, x);
    let o = f.outline;
    cells::store(cells, shapes::order(o), o.m as usize, f.groups, words)
}

// The write on sound cells of a number that passed the fourth test: the refusals from 15 on, with the range of the generation that takes it as the last.
fn write_sound(
    h: &[u64; 16],
    f: Outline,
    v: &[u64; 16],
    cells: &mut [u8],
    x: u64,
) -> Result<Written, Refusal>
    requires { (Granted (outlined f v.now) h.now) × (over_range (outlined f v.now) x ≡ false) × (SoundCells (outlined f v.now) cells.old) }
    ensures { let s = outlined f v.now in
        (writing_of result ≡ write_reply s x cells.old) × (cells.new ≡ write_leaves s x cells.old) }
{
    let mut words = [0u64; 16];
    let mut marks = [0u64; 16];
    let seen = reading::look_at(h, f, v, cells, &mut words, &mut marks);
    let i = take_aim(seen.found, f.t)?;
    let g = reading::telling::generation_at(h, f, v, i);
    if g.range <= x {
        return Err(Refusal::Number);
    }
    let held = Held {
        outline: f,
        groups: h[0] as usize,
        n: seen.n,
        zeros: seen.zeros,
    };
    let turned = write_at(cells, &mut words, &mut marks, held, g, x);
    Ok(Written {
        generation: i as u64 + 1,
        turned,
    })
}

// The write on a field whose layout is granted.
pub fn write_granted(
    h: &[u64; 16],
    f: Outline,
    v: &[u64; 16],
    cells: &mut [u8],
    x: u64,
) -> Result<Written, Refusal>
    requires { Granted (outlined f v.now) h.now }
    ensures { let s = outlined f v.now in
        (writing_of result ≡ write_reply s x cells.old) × (cells.new ≡ write_leaves s x cells.old) }
{
    if !cells::is_sound(cells, shapes::order(f), f.m as usize, h[0] as usize) {
        return Err(Refusal::Cells);
    }
    // In form 2 the range goes by the generation, and 6 is tested last.
    if (f.form != 2) & (v[0] <= x) {
        return Err(Refusal::Number);
    }
    write_sound(h, f, v, cells, x)
}

pub fn write(s: Shape, cells: &mut [u8], x: u64) -> Result<Written, Refusal>
    ensures { (writing_of result ≡ write_reply s x cells.old) × (cells.new ≡ write_leaves s x cells.old) }
{
    let f = shapes::outline_of(s);
    if shapes::outline_outside(f) {
        return Err(Refusal::Bounds);
    }
    let mut h = [0u64; 16];
    let v = s.v;
    layout::lay_outlined(&mut h, f, &v, 256)?;
    write_granted(&h, f, &v, cells, x)
}

pub fn flat(writing: Result<Written, Refusal>) -> WriteFields
    ensures { write_fields_of result ≡ write_fields (writing_of writing) }
{
    match writing {
        Ok(made) => WriteFields {
            refusal: 0,
            generation: made.generation,
            turned: made.turned,
            unerased: 0,
        },
        Err(refusal) => {
            let told = refusal.fields();
            WriteFields {
                refusal: told.number,
                generation: told.first,
                turned: 0,
                unerased: told.second,
            }
        }
    }
}
