// Numbers told from patterns and dealt to them: document 01, "Dealing numbers to patterns". Of the s places of a pattern the k written ones are given,
// leftmost first, by label and by value less 1. b is the number of values that a written place takes, fewest the least number of written places.
// What reaches 2^56 + 1 counts as 2^56 + 1.
#![tactic(auto)]

ghost use Rattle.std.specs.Prelude.{◌≡◌, ℕ, suc, ◌+◌, ◌*◌, ◌/◌, ◌%◌, ◌^◌, ◌<◌, ◌≤◌, length, get_or, take, drop, set};
ghost use Rattle.code.specs.Count.{choose, fewer};
ghost use Rattle.code.specs.Deal.{deal, plain, plainly};
ghost use Rattle.code.proofs.Chosen.{ranked, pattern_most, Chosen};
ghost use Rattle.counting.specs.Cap.{cap, sat};
ghost use Rattle.dealing.specs.Pick.{unranked, Candidate};
ghost use Rattle.dealing.specs.Split.{Dealt, Splitting};

use binary::wide;
use code::PATTERN_MOST;

// "the count of patterns with fewer written places, plus rank·b^k, plus the written values less 1 read as k digits in base b". The digits are read on from
// the rank. Where that count is at the cap the rank is not wanted, and where it is below, no more than 36 places are written.
pub fn number(
    labels: &[u8; PATTERN_MOST],
    values: &[u8; PATTERN_MOST],
    k: usize,
    s: u64,
    b: u64,
    fewest: u64,
) -> u64
    requires labels_len { (length labels.now ≡ pattern_most) × (length values.now ≡ pattern_most) }
    requires k_le_pattern_most { (k ≤ pattern_most) × (k ≤ s) × (s ≤ 256) × (1 < b) × (b ≤ 15) × (fewest ≤ 1) }
    ensures { result ≡ sat (fewer b s fewest k + (ranked (take k labels.now) * b ^ k + plain b (take k values.now))) }
{
    let below = counting::fewer(b, fewest, s, k as u64);
    if counting::CAP <= below {
        return counting::CAP;
    }
    let rank = rank_from(labels, 0, k as u64);
    if counting::CAP <= rank {
        return counting::CAP;
    }
    counting::clip(below + read_on(values, k, b, rank))
}

// "chosen labels i_1 > .. > i_k give C(i_1, k) + C(i_2, k − 1) + .. + C(i_k, 1)", for the labels from `at` on, of which `left` are left. Each binomial is at
// most the cap, and a sum of 36 fits 64 bits.
// It is a recursion since document 01 asks for one (docs/DECISIONS.md, 14).
fn rank_from(labels: &[u8; PATTERN_MOST], at: usize, left: u64) -> u64
    requires { (length labels.now ≡ pattern_most) × (at + left ≤ pattern_most) × (left ≤ 36) }
    ensures { (sat result ≡ sat (ranked (take left (drop at labels.now)))) × (result ≤ left * cap) }
{
    if left == 0 {
        return 0;
    }
    counting::binomial(wide(labels[at]), left) + rank_from(labels, at + 1, left - 1)
}

// k digits in base b, read on from d, two at a time: a number below the cap and two digits fit 64 bits.
fn read_on(values: &[u8; PATTERN_MOST], k: usize, b: u64, d: u64) -> u64
    requires { (length values.now ≡ pattern_most) × (k ≤ pattern_most) × (0 < b) × (b ≤ 15) × (d < cap) }
    ensures { result ≡ sat (d * b ^ k + plain b (take k values.now)) }
{
    let square = b * b;
    let mut x = d;
    for i in 0..k / 2 {
        x = x * square + two(values, 2 * i, b);
        if counting::CAP <= x {
            return counting::CAP;
        }
    }
    if k % 2 == 1 {
        return counting::clip(x * b + wide(values[k - 1]));
    }
    x
}

// Two digits in base b.
fn two(values: &[u8; PATTERN_MOST], i: usize, b: u64) -> u64
    requires { (length values.now ≡ pattern_most) × (i + 1 < pattern_most) × (b ≤ 15) }
    ensures { (result ≡ get_or values.now i 0 * b + get_or values.now (i + 1) 0) × (result ≤ 4080) }
{
    wide(values[i]) * b + wide(values[i + 1])
}

// "Generation t: the h_t unerased groups, left to right, are the digits in base 2^m − 1": the number that s of them make.
pub fn plain(values: &[u8; PATTERN_MOST], s: usize, e: u64) -> u64
    requires { (length values.now ≡ pattern_most) × (s ≤ pattern_most) × (0 < e) × (e ≤ 15) }
    ensures { result ≡ sat (plain e (take s values.now)) }
{
    read_on(values, s, e, 0)
}

// What a quotient of two digits is worked out in.
const UNIT: u64 = 0x1_0000;

// The s digits of x in base e, two a division.
pub fn plainly(values: &mut [u8; PATTERN_MOST], s: usize, e: u64, x: u64)
    requires { (length values.old ≡ pattern_most) × (s ≤ pattern_most) × (0 < e) × (e ≤ 15) × (x < e ^ s) }
    ensures { (take s values.new ≡ plainly e s x) × (length values.new ≡ pattern_most) }
{
    let square = e * e;
    let part = UNIT / e + 1;
    let mut x = x;
    for i in (0..s / 2).rev() {
        put_two(values, s % 2 + 2 * i, e, part, x % square);
        x /= square;
    }
    if s % 2 == 1 {
        values[0] = (x % e) as u8;
    }
}

// The two digits of z. For so small a number a product with the part that e is of a unit is the quotient by e.
fn put_two(values: &mut [u8; PATTERN_MOST], i: usize, e: u64, part: u64, z: u64)
    requires { (length values.old ≡ pattern_most) × (i + 1 < pattern_most) × (0 < e) × (e ≤ 15) × (part ≡ 65536 / e + 1) × (z < e * e) }
    ensures { values.new ≡ set (set values.old (i + 1) (z % e)) i (z / e) }
{
    let high = z * part / UNIT;
    values[i + 1] = (z - high * e) as u8;
    values[i] = high as u8;
}

// How many labels are passed by at once, by a binomial of their own, before they are passed one by one.
const STRIDE: u64 = 6;

// A label and its binomial.
#[derive(Clone, Copy)]
struct Reach {
    label: u64,
    fit: u64,
}

// "The way back goes group by group, from the highest label down": the labels of k written places of rank r among s places. The last label is what is left
// of the rank. A search in a loop that yields by `break` is the form that document 01 names for it (docs/MAP.md).
fn unrank(labels: &mut [u8; PATTERN_MOST], s: u64, k: u64, r: u64)
    requires labels_len { length labels.old ≡ pattern_most }
    requires s_bound { (s ≤ 256) × (0 < k) × (k ≤ pattern_most) × (r < cap) × (r < choose s k) }
    ensures { (take k labels.new ≡ unranked s k r) × (length labels.new ≡ pattern_most) }
{
    let mut near = settle(s, k);
    let mut r = r;
    for left in (2..k + 1).rev() {
        near = leap(near, left, r);
        let found = loop {
            if near.fit <= r {
                break near;
            }
            near = Reach {
                label: near.label - 1,
                fit: counting::lower(near.fit, near.label, left),
            };
        };
        labels[(k - left) as usize] = found.label as u8;
        r -= found.fit;
        near = Reach {
            label: found.label - 1,
            fit: counting::inner(found.fit, found.label, left),
        };
    }
    labels[(k - 1) as usize] = r as u8;
}

// The highest label whose binomial is below the cap. None above it fits.
fn settle(s: u64, k: u64) -> Reach
    requires { (0 < s) × (s ≤ 256) × (0 < k) }
    ensures { (result.label < s) × ((r : ℕ) → r < cap → r < choose s k → Candidate k r result.label result.fit) }
{
    let mut label = s - 1;
    let mut fit = counting::binomial(label, k);
    while counting::CAP <= fit {
        label -= 1;
        fit = counting::binomial(label, k);
    }
    Reach { label, fit }
}

// Passes labels by that do not fit, a stride at a time.
fn leap(from: Reach, left: u64, r: u64) -> Reach
    requires { (from.label ≤ 255) × Candidate left r from.label from.fit }
    ensures { (result.label ≤ from.label) × Candidate left r result.label result.fit }
{
    let mut near = from;
    while STRIDE <= near.label {
        let label = near.label - STRIDE;
        let fit = counting::binomial(label, left);
        if fit <= r {
            return near;
        }
        near = Reach { label, fit };
    }
    near
}

// k written places, b^k, the count of patterns that have as many, and what is left of a number behind those with fewer.
#[derive(Clone, Copy)]
struct Passing {
    k: u64,
    power: u64,
    term: u64,
    rest: u64,
}

// The patterns of k written places are passed by; fewest and n stand here for the promise.
fn pass_one(s: u64, b: u64, fewest: u64, n: u64, p: Passing) -> Passing
    requires { (Dealt b fewest s n) × (Splitting b fewest s n p.k p.power p.term p.rest) × (p.term ≤ p.rest) }
    ensures { (result.k ≡ p.k + 1) × (Splitting b fewest s n result.k result.power result.term result.rest) }
{
    Passing {
        k: p.k + 1,
        power: p.power * b,
        term: counting::next_term(p.term, b, s, p.k),
        rest: p.rest - p.term,
    }
}

fn pass_on(s: u64, b: u64, fewest: u64, n: u64, start: Passing) -> Passing
    requires { (Dealt b fewest s n) × (Splitting b fewest s n start.k start.power start.term start.rest) }
    ensures { (Splitting b fewest s n result.k result.power result.term result.rest) × (result.rest < result.term) }
{
    let mut p = start;
    while p.term <= p.rest {
        p = pass_one(s, b, fewest, n, p);
    }
    p
}

// The patterns with fewer written places than that of n are passed by, count by count.
fn pass_fewer(s: u64, b: u64, fewest: u64, n: u64) -> Passing
    requires { (Dealt b fewest s n) × (0 < n + fewest) }
    ensures { (Splitting b fewest s n result.k result.power result.term result.rest) × (result.rest < result.term) }
{
    let mut p = Passing {
        k: 1,
        power: b,
        term: s * b,
        rest: n + fewest - 1,
    };
    // So few turns are laid out one behind the other by the compiler, and each divides by a constant.
    for _ in 1..16 {
        if p.rest < p.term {
            return p;
        }
        p = pass_one(s, b, fewest, n, p);
    }
    pass_on(s, b, fewest, n, p)
}

// The written places of the pattern of s places that has the number n, and how many they are. What is left of n behind the patterns with fewer of them is
// the rank and the digits.
pub fn deal(
    labels: &mut [u8; PATTERN_MOST],
    values: &mut [u8; PATTERN_MOST],
    s: u64,
    b: u64,
    fewest: u64,
    n: u64,
) -> usize
    requires labels_len { (length labels.old ≡ pattern_most) × (length values.old ≡ pattern_most) }
    requires s_bound { (s ≤ 256) × (0 < b) × (b ≤ 15) × (fewest ≤ 1) × (n < cap) × (n < fewer b s fewest (suc s)) }
    ensures chosen { Chosen (deal b fewest s n) labels.new values.new result }
    ensures upper_bound { (result ≤ pattern_most) × (length labels.new ≡ pattern_most) × (length values.new ≡ pattern_most) }
{
    if n + fewest == 0 {
        return 0;
    }
    let p = pass_fewer(s, b, fewest, n);
    unrank(labels, s, p.k, p.rest / p.power);
    plainly(values, p.k as usize, b, p.rest % p.power);
    p.k as usize
}
