// Document 02, §9: a number written on cells that a cut-off write left without a reading. The generation found is the one behind that which the zero groups point to,
// so the search is the reading's own, and the write there is the one that `writing` has.
#![tactic(auto)]

ghost use Rattle.std.specs.Prelude.{◌≡◌, false, ◌∷◌, ◌*◌, ◌≤◌, length, Err};
ghost use Rattle.code.specs.Calls.{over_range};
ghost use Rattle.code.specs.Resume.{resume_reply, resume_leaves, resume_fields};
ghost use Rattle.words.specs.Words.{word_groups};
ghost use Rattle.layout.specs.Fields.{shape_of};
ghost use Rattle.reading.specs.Answers.{found_of, SoundCells};
ghost use Rattle.resuming.specs.Answers.{resumed_of, resume_fields_of, aim_on, reported};

use code::{Refusal, Shape};
use layout::field::Field;
use reading::{Found, Unreadable};
use writing::Held;

// The generation, the wits turned, how many groups are all ones now and were not before, and a bit for each of
// them: group j at bit j mod 64 of word j / 64.
#[derive(Clone, Copy)]
pub struct Resumed {
    pub generation: u64,
    pub turned: u64,
    pub count: u64,
    pub erased: [u64; 4],
}

// A resumed write or its refusal in numbers, 0 for those that it lacks.
#[repr(C)]
#[derive(Clone, Copy)]
pub struct ResumeFields {
    pub refusal: u64,
    pub generation: u64,
    pub turned: u64,
    pub count: u64,
    pub erased: [u64; 4],
}

// The place behind a generation, if there is one.
fn aim_behind(generation: u64, t: u64) -> Result<usize, Refusal>
    ensures { result ≡ aim_on t (found_of (Err (Unreadable.Beyond generation))) }
{
    if generation == t {
        return Err(Refusal::Spent);
    }
    Ok(generation as usize)
}

// The place where cells without a reading are written, or the refusal that is left to them.
fn take_aim(found: Found, t: u64) -> Result<usize, Refusal>
    ensures { result ≡ aim_on t (found_of found) }
{
    match found {
        Ok(_) => Err(Refusal::Readable),
        Err(
            Unreadable::Miscounted {
                generation,
                unerased: _,
            },
        ) => aim_behind(generation, t),
        Err(Unreadable::Beyond { generation }) => aim_behind(generation, t),
    }
}

// What is told of a write at a generation: also which groups of n words are all ones afterwards and were not before.
fn tell(
    before: &[u64; 16],
    after: &[u64; 16],
    n: usize,
    m: usize,
    generation: u64,
    turned: u64,
) -> Resumed
    requires { (2 ≤ m) × (m ≤ 4) × (n ≤ 16) × (word_groups m * n ≤ 256) × (length before.now ≡ 16) × (length after.now ≡ 16) }
    ensures { let listed = reported m n before.now after.now in
        resumed_of (Ok result) ≡ resume_fields (0 ∷ generation ∷ turned ∷ length listed ∷ listed) }
{
    let mut made = Resumed {
        generation,
        turned,
        count: 0,
        erased: [0u64; 4],
    };
    made.count = reporting::report(before, after, n, m, &mut made.erased);
    made
}

// The write on sound cells of a number that passed the fourth test: the refusals from 17 on, with the range of the generation that takes it as the last.
fn resume_sound(f: &Field, cells: &mut [u8], x: u64) -> Result<Resumed, Refusal>
    requires { (over_range (shape_of f.now) x ≡ false) × (SoundCells (shape_of f.now) cells.old) }
    ensures { let s = shape_of f.now in
        (resumed_of result ≡ resume_fields (resume_reply s x cells.old)) × (cells.new ≡ resume_leaves s x cells.old) }
{
    let mut words = [0u64; 16];
    let mut marks = [0u64; 16];
    let seen = reading::look_at(f.h, f.outline, f.v, cells, &mut words, &mut marks);
    let i = take_aim(seen.found, f.outline.t)?;
    let g = reading::telling::generation_at(f.h, f.outline, f.v, i);
    if g.range <= x {
        return Err(Refusal::Number);
    }
    let n = seen.n;
    let held = Held {
        outline: f.outline,
        groups: f.h[0] as usize,
        n,
        zeros: seen.zeros,
    };
    let before = words;
    let turned = writing::write_at(cells, &mut words, &mut marks, held, g, x);
    Ok(tell(
        &before,
        &words,
        n,
        f.outline.m as usize,
        i as u64 + 1,
        turned,
    ))
}

// The write on a field whose layout is granted.
fn resume_granted(f: &Field, cells: &mut [u8], x: u64) -> Result<Resumed, Refusal>
    ensures { let s = shape_of f.now in
        (resumed_of result ≡ resume_fields (resume_reply s x cells.old)) × (cells.new ≡ resume_leaves s x cells.old) }
{
    let o = f.outline;
    if !cells::is_sound(cells, shapes::order(o), o.m as usize, f.h[0] as usize) {
        return Err(Refusal::Cells);
    }
    // In form 2 the range goes by the generation, and 6 is tested last.
    if (o.form != 2) & (f.v[0] <= x) {
        return Err(Refusal::Number);
    }
    resume_sound(f, cells, x)
}

pub fn resume(s: Shape, cells: &mut [u8], x: u64) -> Result<Resumed, Refusal>
    ensures { (resumed_of result ≡ resume_fields (resume_reply s x cells.old)) × (cells.new ≡ resume_leaves s x cells.old) }
{
    let outline = shapes::outline_of(s);
    if shapes::outline_outside(outline) {
        return Err(Refusal::Bounds);
    }
    let mut h = [0u64; 16];
    let v = s.v;
    layout::lay_outlined(&mut h, outline, &v, 256)?;
    let field = Field {
        outline,
        v: &v,
        h: &h,
    };
    resume_granted(&field, cells, x)
}

pub fn flat(resumed: Result<Resumed, Refusal>) -> ResumeFields
    ensures { resume_fields_of result ≡ resumed_of resumed }
{
    match resumed {
        Ok(made) => {
            let erased = made.erased;
            ResumeFields {
                refusal: 0,
                generation: made.generation,
                turned: made.turned,
                count: made.count,
                erased,
            }
        }
        Err(refusal) => {
            let told = refusal.fields();
            ResumeFields {
                refusal: told.number,
                generation: told.first,
                turned: told.second,
                count: 0,
                erased: [0u64; 4],
            }
        }
    }
}
