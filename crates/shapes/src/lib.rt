// What is asked of a shape: what of it goes without its ranges, what generation 1 writes at least, the order of its bits, the range of a generation, and
// whether it is within its bounds. Documents 01, "Numbers that bound everything" and "Dealing numbers to patterns", and 02, §2 and §7.
#![tactic(auto)]

ghost use Rattle.std.specs.Prelude.{◌≡◌, false, ◌&&◌, List, ℕ, ◌-◌, ◌^◌, ◌<◌, ◌≤◌, leb, get_or};
ghost use Rattle.code.specs.Cells.{listed};
ghost use Rattle.code.specs.Shape.{first_of, ranges_of, order_of, ranges_due, all_ranges, outside};
ghost use Rattle.code.proofs.LayoutCall.{Bounds};
ghost use Rattle.shapes.specs.Outlines.{outlined, outline_outside};

use code::Shape;

// A shape but for its ranges, which stand in an array beside it, lent and not copied.
#[derive(Clone, Copy)]
pub struct Outline {
    pub form: u64,
    pub m: u64,
    pub t: u64,
    pub count: u64,
}

// A shape but for its ranges.
pub fn outline_of(s: Shape) -> Outline
    ensures { outlined result s.v ≡ s }
{
    Outline {
        form: s.form,
        m: s.m,
        t: s.t,
        count: s.count,
    }
}

// The least number of places that generation 1 writes.
#[tactic(auto, unfolding(code::specs::Shape::first_of))]
pub fn first(f: Outline) -> u64
    ensures { ((v : List ℕ) → result ≡ first_of (outlined f v)) × (result ≤ 1) }
{
    if f.form == 0 { 0 } else { 1 }
}

// The order of the bits in a byte.
#[tactic(auto, unfolding(code::specs::Shape::order_of))]
pub fn order(f: Outline) -> u64
    ensures { (v : List ℕ) → result ≡ order_of (outlined f v) }
{
    0
}

// The range of the generation at place i.
pub fn range_at(f: Outline, v: &[u64; 16], i: usize) -> u64
    requires { (Bounds (outlined f v.now)) × (i < f.t) }
    ensures { (result ≡ get_or (ranges_of (outlined f v.now)) i 0) × (2 ≤ result) × (result ≤ 2 ^ 56) }
{
    if f.form == 2 {
        return v[i];
    }
    v[0]
}

// 2^m − 1
pub fn all_ones(m: u64) -> u64
    requires { (2 ≤ m) × (m ≤ 4) }
    ensures { (result ≡ 2 ^ m - 1) × (3 ≤ result) × (result ≤ 15) }
{
    binary::low_ones(m as usize)
}

// The largest range.
const V_MAX: u64 = 0x0100_0000_0000_0000;

// How many ranges a shape has.
#[tactic(auto, unfolding(code::specs::Shape::ranges_due))]
fn ranges_due(f: Outline) -> u64
    ensures { result ≡ ranges_due f.form f.t }
{
    if f.form == 2 { f.t } else { 1 }
}

// A range within its bounds.
fn is_range(v: u64) -> bool
    ensures { result ≡ leb 2 v && leb v (2 ^ 56) }
{
    (2 <= v) & (v <= V_MAX)
}

// The ranges behind the first are within their bounds.
fn later_ranges(v: &[u64; 16], count: usize) -> bool
    requires { (0 < count) × (count ≤ 16) }
    ensures { result ≡ all_ranges (listed (λ i. get_or v.now i 0) 1 (count - 1)) }
{
    v[1..count].iter().all(|&x| is_range(x))
}

// Whether a shape is outside its bounds whatever its ranges are, which is refusal 1.
#[tactic(auto, unfolding(crate::specs::Outlines::outline_outside))]
pub fn outline_outside(f: Outline) -> bool
    ensures { result ≡ outline_outside f }
{
    !((f.form <= 2)
        & ((2 <= f.m) & (f.m <= 4))
        & ((2 <= f.t) & (f.t <= 16))
        & (f.count == ranges_due(f)))
}

// The same by its ranges and g groups.
pub fn ranges_outside(f: Outline, v: &[u64; 16], g: u64) -> bool
    requires { outline_outside f ≡ false }
    ensures { result ≡ outside (outlined f v.now) g }
{
    !(is_range(v[0]) & later_ranges(v, f.count as usize) & (g <= 256))
}
