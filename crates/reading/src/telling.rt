// The number of a generation: which one the zero groups point to, and what its places tell.
ghost use Rattle.std.specs.Prelude.{◌≡◌, ◌≢◌, List, ℕ, suc, ◌+◌, ◌-◌, ◌^◌, ◌<◌, ◌≤◌, length, get_or, take};
ghost use Rattle.code.specs.Shape.{code_of};
ghost use Rattle.shapes.specs.Outlines.{outlined};
ghost use Rattle.code.specs.Code.{dealt, generation_at, told};
ghost use Rattle.code.specs.Deal.{written, number, plain};
ghost use Rattle.code.proofs.Chosen.{pattern_most};
ghost use Rattle.code.specs.Field as Field;
ghost use Rattle.counting.specs.Cap.{sat};
ghost use Rattle.words.specs.Words.{front_at};
ghost use Rattle.words.specs.Marks.{Pickable};
ghost use Rattle.reading.specs.Answers.{Close, Tellable};
ghost use Rattle.layout.specs.Plan.{Granted};

use code::{Dealing, Generation, PATTERN_MOST};
use shapes::Outline;

// The place of the generation that z zero groups point to.
pub fn past(h: &[u64; 16], t: usize, z: u64) -> usize
    requires { (0 < t) × (t ≤ 16) × (length (take t h.now) ≡ t) }
    ensures { (result ≡ Field.past (take t h.now) z) × (result < t) }
{
    h[1..t]
        .iter()
        .position(|&count| count <= z)
        .unwrap_or(t - 1)
}

// The count of the generation after place i, 0 after the last.
pub fn next_count(h: &[u64; 16], i: usize) -> u64
    requires { (get_or h.now 16 0 ≡ 0) × (i < 16) }
    ensures { result ≡ get_or h.now (suc i) 0 }
{
    h.get(i + 1).copied().unwrap_or(0)
}

// What holds of generation 1, or of those behind it.
fn first_or_later(i: usize, first: u64, later: u64) -> u64
    ensures { (i ≡ 0 → result ≡ first) × (i ≢ 0 → result ≡ later) }
{
    if i == 0 { first } else { later }
}

// How the generation at place i deals; `next` is the count of the one after it, 0 for the last.
fn deal_by(e: u64, first: u64, i: usize, next: u64) -> Dealing
    requires { 0 < e }
    ensures { result ≡ dealt e first i next }
{
    if next == 0 {
        return Dealing::Digits { base: e };
    }
    Dealing::Patterns {
        values: first_or_later(i, e, e - 1),
        fewest: first_or_later(i, first, 1),
    }
}

// The generation at place i.
pub fn generation_at(h: &[u64; 16], f: Outline, v: &[u64; 16], i: usize) -> Generation
    requires { (Granted (outlined f v.now) h.now) × (i < f.t) }
    ensures { result ≡ generation_at (code_of (outlined f v.now)) i }
{
    let places = h[i];
    let next = next_count(h, i);
    let dealing = deal_by(shapes::all_ones(f.m), shapes::first(f), i, next);
    let range = shapes::range_at(f, v, i);
    Generation {
        places,
        next,
        dealing,
        range,
    }
}

// The number of a pattern in the marked groups.
fn tell_pattern(
    words: &[u64; 16],
    marks: &[u64; 16],
    n: usize,
    m: usize,
    places: u64,
    b: u64,
    fewest: u64,
) -> u64
    requires { let xs = front_at m n marks.now words.now in
        (Pickable m n words.now marks.now) × (places ≡ length xs) × (written xs ≤ pattern_most) × (1 < b) × (b ≤ 15) × (fewest ≤ 1) }
    ensures { result ≡ sat (number b fewest (front_at m n marks.now words.now)) }
{
    let mut labels = [0u8; PATTERN_MOST];
    let mut values = [0u8; PATTERN_MOST];
    let k = words::gather(words, marks, n, m, places, &mut labels, &mut values);
    dealing::number(&labels, &values, k, places, b, fewest)
}

// The number that the marked groups make as digits.
fn tell_digits(words: &[u64; 16], marks: &[u64; 16], n: usize, m: usize, e: u64) -> u64
    requires { (Pickable m n words.now marks.now) × (length (front_at m n marks.now words.now) ≤ pattern_most) × (0 < e) × (e ≤ 15) }
    ensures { result ≡ sat (plain e (front_at m n marks.now words.now)) }
{
    let mut values = [0u8; PATTERN_MOST];
    let k = words::pick(words, marks, n, m, &mut values);
    dealing::plain(&values, k, e)
}

// The number that the places of a generation tell, which are the marked groups.
pub fn tell(words: &[u64; 16], marks: &[u64; 16], n: usize, m: usize, g: Generation) -> u64
    requires { let xs = front_at m n marks.now words.now in
        (Pickable m n words.now marks.now) × (Tellable m g xs) }
    ensures { Close (told g.dealing (front_at m n marks.now words.now)) result }
{
    let places = g.places;
    let dealing = g.dealing;
    match dealing {
        Dealing::Patterns { values, fewest } => {
            tell_pattern(words, marks, n, m, places, values, fewest)
        }
        Dealing::Digits { base } => tell_digits(words, marks, n, m, base).saturating_sub(1),
    }
}
