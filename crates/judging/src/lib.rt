// Document 02, §8: a write that another writer made, judged by the cells before and after it. No writer is run and no choice of spare groups is tried.
#![tactic(auto)]

ghost use Rattle.std.specs.Prelude.{◌≡◌, true, ◌-◌, ◌^◌, ◌<◌, ◌≤◌, length};
ghost use Rattle.code.specs.Shape.{width_of};
ghost use Rattle.code.specs.Field as Field;
ghost use Rattle.code.specs.Judge.{wiped};
ghost use Rattle.code.specs.JudgeCall.{judge_reply, judge_fields};
ghost use Rattle.shapes.specs.Outlines.{outlined};
ghost use Rattle.words.specs.Words.{front_groups};
ghost use Rattle.layout.specs.Plan.{Granted};
ghost use Rattle.reading.specs.Answers.{found_of, field_groups, Holds};
ghost use Rattle.judging.specs.Answers.{judged_of, Says, judge_fields_of, due_of, verdict_on, after_told};

use code::{Refusal, Shape};
use reading::{Found, Numbered, Unreadable};
use shapes::Outline;

// A judgement or its refusal in numbers, 0 for those that it lacks.
#[repr(C)]
#[derive(Clone, Copy)]
pub struct JudgeFields {
    pub refusal: u64,
    pub yes: u64,
    pub number: u64,
    pub generation: u64,
    pub unerased: u64,
}

// The place of the generation that is due after a reading, or why there is none. Behind the last generation none is.
fn take_due(found: Found) -> Result<usize, Unreadable>
    ensures { result ≡ due_of (found_of found) }
{
    match found? {
        Some(numbered) => Ok(numbered.generation as usize),
        None => Ok(0),
    }
}

// Cells that are blank after the write: a number in form 0 alone, which generation 1 writes.
fn judge_blank(form: u64, place: usize) -> Result<Option<u64>, Refusal>
    ensures { judged_of result ≡ verdict_on form place true Field.blank }
{
    if form != 0 {
        return Err(Refusal::Blank);
    }
    if place == 0 {
        return Ok(Some(0));
    }
    Ok(None)
}

// Cells that read as a number after the write, which was due at a place; `wiped` tells that what was not zero before is all ones.
fn judge_number(numbered: Numbered, place: usize, wiped: bool) -> Option<u64>
    requires { place < 64 }
    ensures { judged_of (Ok result) ≡ verdict_on 0 place wiped (Field.reads numbered.generation numbered.number) }
{
    if wiped & (numbered.generation == place as u64 + 1) {
        return Some(numbered.number);
    }
    None
}

// What the cells after the write are answered for by what they read as.
fn tell_verdict(found: Found, form: u64, place: usize, wiped: bool) -> Result<Option<u64>, Refusal>
    requires { place < 64 }
    ensures { judged_of result ≡ verdict_on form place wiped (found_of found) }
{
    match found? {
        Some(numbered) => Ok(judge_number(numbered, place, wiped)),
        None => judge_blank(form, place),
    }
}

// From generation 2 on what was not zero before is all ones after; generation 1 is written on blank cells.
fn is_wiped(before: &[u64; 16], after: &[u64; 16], n: usize, m: usize, place: usize) -> bool
    requires { (2 ≤ m) × (m ≤ 4) × (n ≤ 16) × (length before.now ≡ 16) × (length after.now ≡ 16) }
    ensures { result ≡ wiped (2 ^ m - 1) place (front_groups m n before.now) (front_groups m n after.now) }
{
    if place == 0 {
        return true;
    }
    words::is_wiped(before, after, n, m)
}

// What the cells after a write are answered for that was due at a place, on the groups in the first n words of `before`.
#[derive(Clone, Copy)]
struct Before {
    n: usize,
    place: usize,
}

fn judge_after(
    h: &[u64; 16],
    f: Outline,
    v: &[u64; 16],
    words: &[u64; 16],
    before: Before,
    after: &[u8],
) -> Result<Option<u64>, Refusal>
    requires { let s = outlined f v.now in
        (Granted s h.now) × (Holds s.m (width_of s) before.n words.now) × (before.place ≤ 16) }
    ensures { let s = outlined f v.now in
        judged_of result ≡ after_told s before.place (field_groups s before.n words.now) after.now }
{
    let m = f.m as usize;
    if !cells::is_sound(after, shapes::order(f), m, h[0] as usize) {
        return Err(Refusal::Cells);
    }
    let mut now = [0u64; 16];
    let mut marks = [0u64; 16];
    let look = reading::look_at(h, f, v, after, &mut now, &mut marks);
    let wiped = is_wiped(words, &now, look.n, m, before.place);
    tell_verdict(look.found, f.form, before.place, wiped)
}

// Two fields whose layout is granted: the refusals from 3 on, of the before cells first.
fn judge_granted(
    h: &[u64; 16],
    f: Outline,
    v: &[u64; 16],
    before: &[u8],
    after: &[u8],
) -> Result<Option<u64>, Refusal>
    requires { Granted (outlined f v.now) h.now }
    ensures { judged_of result ≡ judge_reply (outlined f v.now) before.now after.now }
{
    if !cells::is_sound(before, shapes::order(f), f.m as usize, h[0] as usize) {
        return Err(Refusal::Cells);
    }
    let mut words = [0u64; 16];
    let mut marks = [0u64; 16];
    let look = reading::look_at(h, f, v, before, &mut words, &mut marks);
    let place = take_due(look.found)?;
    let n = look.n;
    judge_after(h, f, v, &words, Before { n, place }, after)
}

// Whether some choice of spare groups makes the after cells a right write on the before cells, and of which number.
pub fn judge(s: Shape, before: &[u8], after: &[u8]) -> Result<Option<u64>, Refusal>
    ensures result_value { judged_of result ≡ judge_reply s before.now after.now }
    ensures says { Says s before.now after.now result }
{
    let f = shapes::outline_of(s);
    if shapes::outline_outside(f) {
        return Err(Refusal::Bounds);
    }
    let mut h = [0u64; 16];
    let v = s.v;
    layout::lay_outlined(&mut h, f, &v, 256)?;
    judge_granted(&h, f, &v, before, after)
}

pub fn flat(judged: Result<Option<u64>, Refusal>) -> JudgeFields
    ensures { judge_fields_of result ≡ judge_fields (judged_of judged) }
{
    match judged {
        Ok(Some(number)) => JudgeFields {
            refusal: 0,
            yes: 1,
            number,
            generation: 0,
            unerased: 0,
        },
        Ok(None) => JudgeFields {
            refusal: 0,
            yes: 0,
            number: 0,
            generation: 0,
            unerased: 0,
        },
        Err(refusal) => {
            let told = refusal.fields();
            JudgeFields {
                refusal: told.number,
                yes: 0,
                number: 0,
                generation: told.first,
                unerased: told.second,
            }
        }
    }
}
