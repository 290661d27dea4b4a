// Document 01, "Layout": the granted list, the last count found first, each from the one after it.
#![tactic(auto)]

pub mod field;

ghost use Rattle.std.specs.Prelude.{◌≡◌, false, List, ◌∷◌, ℕ, ◌+◌, ◌-◌, ◌^◌, ◌<◌, ◌≤◌, get_or, replicate};
ghost use Rattle.code.specs.Shape.{first_of, ranges_of, outside};
ghost use Rattle.code.specs.Calls.{filled, layout_fields, layout_reply};
ghost use Rattle.code.proofs.LayoutCall.{Bounds};
ghost use Rattle.shapes.specs.Outlines.{outlined, outline_outside};
ghost use Rattle.counting.specs.Cap.{cap};
ghost use Rattle.climbing.specs.Climb.{held, Least, Cut};
ghost use Rattle.layout.specs.Plan.{ungranted_as, number_or_0, laid_of};
ghost use Rattle.layout.specs.Tail.{Aimed, Behind};

use code::{Refusal, Shape};
use shapes::Outline;

// A layout or its refusal in numbers. Refusal 0: granted, with the counts h_1 .. h_t from place 0 on and 0 behind them. Else the refusal's number, and 0
// throughout.
#[repr(C)]
#[derive(Clone, Copy)]
pub struct Layout {
    pub refusal: u64,
    pub h: [u64; 16],
}

// Why a layout is not granted: refusal 1 or 2. It is narrow, so that what tells of it stands in a register.
#[derive(Clone, Copy, Debug, PartialEq, Eq)]
pub enum Ungranted {
    Bounds,
    NoRoom,
}

impl From<Ungranted> for Refusal {
    ghost from_gives = { λ e k. k ≡ ungranted_as e };

    fn from(e: Ungranted) -> Refusal {
        match e {
            Ungranted::Bounds => Refusal::Bounds,
            Ungranted::NoRoom => Refusal::NoRoom,
        }
    }
}

// Whose layout with g = 256 is worked out, and whether it is granted. Its ranges and its counts stand in arrays beside it, which are lent and not copied.
#[derive(Clone, Copy)]
pub struct Plan {
    pub outline: Outline,
    pub laid: Result<(), Ungranted>,
}

// Refusal 2, with no count left.
fn refuse(h: &mut [u64; 16]) -> Result<(), Ungranted>
    ensures { (number_or_0 result ∷ h.new) ≡ 2 ∷ replicate 16 0 }
{
    *h = [0u64; 16];
    Err(Ungranted::NoRoom)
}

// What a climb is to reach, and the cut for it.
#[derive(Clone, Copy)]
struct Goal {
    need: u64,
    cut: u64,
}

// The goal of a later generation of the range v: the pattern with no written place holds no number there, so one more than v is needed.
fn goal_of(b: u64, v: u64) -> Goal
    requires { (0 < b) × (v < cap) }
    ensures { (result.need ≡ v + 1) × (Cut b result.need result.cut) }
{
    Goal {
        need: v + 1,
        cut: climbing::least_factor(b, v + 1),
    }
}

// The goal before the first climb: where there is one range, that of all climbs, and in form 2 one that no range has.
fn first_goal(f: Outline, v: &[u64; 16], b: u64) -> Goal
    requires { (Bounds (outlined f v.now)) × (0 < b) }
    ensures { Aimed b f.form (get_or v.now 0 0) result.need result.cut }
{
    if f.form == 2 {
        return Goal { need: 1, cut: 1 };
    }
    goal_of(b, v[0])
}

// The goal at place i, by that of the place behind it: where they are the same they take one division together.
fn goal_at(f: Outline, v: &[u64; 16], i: usize, b: u64, behind: Goal) -> Goal
    requires bounds { (Bounds (outlined f v.now)) × (i < f.t) × (0 < b) }
    requires aimed { Aimed b f.form (get_or v.now 0 0) behind.need behind.cut }
    ensures need_value { result.need ≡ get_or (ranges_of (outlined f v.now)) i 0 + 1 }
    ensures aimed_2 { Aimed b f.form (get_or v.now 0 0) result.need result.cut }
{
    if f.form != 2 {
        return behind;
    }
    let range = shapes::range_at(f, v, i);
    if range + 1 == behind.need {
        return behind;
    }
    goal_of(b, range)
}

// The counts of the generations behind the first, e being 2^m − 1: each is stored at its place, the last one first. The answer is that of generation 2,
// or g where one leaves no group of g for the generations before it.
fn later_counts(h: &mut [u64; 16], f: Outline, v: &[u64; 16], g: u64, e: u64) -> u64
    requires { (Bounds (outlined f v.now)) × (g ≤ 256) × (3 ≤ e) × (e ≤ 15) × (h.old ≡ replicate 16 0) }
    ensures { Behind g e f.t (ranges_of (outlined f v.now)) result h.new }
{
    let last = f.t as usize - 1;
    let mut low = climbing::last_count(e, shapes::range_at(f, v, last));
    if g <= low {
        return g;
    }
    h[last] = low;
    let mut goal = first_goal(f, v, e - 1);
    for i in (1..last).rev() {
        goal = goal_at(f, v, i, e - 1, goal);
        low = climbing::climb(e - 1, low, goal.need, goal.cut);
        if g <= low {
            return g;
        }
        h[i] = low;
    }
    low
}

// The count of generation 1 above that of generation 2.
fn first_count(f: Outline, v: &[u64; 16], e: u64, low: u64) -> u64
    requires { (Bounds (outlined f v.now)) × (3 ≤ e) × (e ≤ 15) × (low ≤ 255) }
    ensures { let s = outlined f v.now in Least (held e (first_of s) low) (get_or (ranges_of s) 0 0) low result }
{
    let opening = shapes::range_at(f, v, 0) + shapes::first(f);
    climbing::climb(e, low, opening, climbing::least_factor(e, opening))
}

// The layout within the bounds.
fn grant(h: &mut [u64; 16], f: Outline, v: &[u64; 16], g: u64) -> Result<(), Ungranted>
    requires bounds { (Bounds (outlined f v.now)) × (g ≤ 256) }
    requires g_value { (outside (outlined f v.now) g ≡ false) × (h.old ≡ replicate 16 0) }
    ensures { (number_or_0 result ∷ h.new) ≡ filled layout_fields (layout_reply (outlined f v.now) g) }
{
    let e = shapes::all_ones(f.m);
    let low = later_counts(h, f, v, g, e);
    if g <= low {
        return refuse(h);
    }
    let x = first_count(f, v, e, low);
    if g < x {
        return refuse(h);
    }
    h[0] = x;
    Ok(())
}

// The layout of a shape in g groups whose outline is within its bounds, or its refusal; the counts go into h, which is lent as zeros.
pub fn lay_outlined(h: &mut [u64; 16], f: Outline, v: &[u64; 16], g: u64) -> Result<(), Ungranted>
    requires { (outline_outside f ≡ false) × (h.old ≡ replicate 16 0) }
    ensures { (number_or_0 result ∷ h.new) ≡ filled layout_fields (layout_reply (outlined f v.now) g) }
{
    if shapes::ranges_outside(f, v, g) {
        return Err(Ungranted::Bounds);
    }
    grant(h, f, v, g)
}

// The same for any outline.
pub fn lay_into(h: &mut [u64; 16], f: Outline, v: &[u64; 16], g: u64) -> Result<(), Ungranted>
    requires { h.old ≡ replicate 16 0 }
    ensures { (number_or_0 result ∷ h.new) ≡ filled layout_fields (layout_reply (outlined f v.now) g) }
{
    if shapes::outline_outside(f) {
        return Err(Ungranted::Bounds);
    }
    lay_outlined(h, f, v, g)
}

// The layout of a shape in g groups, or why there is none.
pub fn lay_out(s: Shape, g: u64) -> Result<[u64; 16], Refusal>
    ensures { laid_of result ≡ filled layout_fields (layout_reply s g) }
{
    let mut h = [0u64; 16];
    // The ranges alone are copied: to lend a part of the shape would copy all of it.
    let v = s.v;
    lay_into(&mut h, shapes::outline_of(s), &v, g)?;
    Ok(h)
}

// The number of a refusal, 0 where there is none.
fn number_of(laid: Result<(), Ungranted>) -> u64
    ensures { result ≡ number_or_0 laid }
{
    match laid {
        Ok(()) => 0,
        Err(e) => Refusal::from(e).number(),
    }
}

// A layout in numbers, for C. The answer of `lay_out` made into them took 520 bytes of stack, and this takes 296 (b).
pub fn lay_out_fields(s: Shape, g: u64) -> Layout
    ensures { (result.refusal ∷ result.h) ≡ filled layout_fields (layout_reply s g) }
{
    let mut h = [0u64; 16];
    let v = s.v;
    let refusal = number_of(lay_into(&mut h, shapes::outline_of(s), &v, g));
    Layout { refusal, h }
}
