// Binomials, up to row 60 from the stored triangle, and sums of patterns. A value at or above 2^56 + 1 is given as 2^56 + 1.
#![tactic(auto)]

ghost use Rattle.std.specs.Prelude.{◌≡◌, suc, ◌+◌, ◌-◌, ◌*◌, ◌/◌, ◌^◌, ◌<◌, ◌≤◌};
ghost use Rattle.code.specs.Count.{choose, fewer};
ghost use Rattle.counting.specs.Cap.{cap, sat};
ghost use Rattle.counting.specs.Falling.{falling};
ghost use Rattle.counting.specs.Sums.{SumSoFar};

pub const CAP: u64 = 0x0100_0000_0000_0001;

// A binomial below it takes two factors more before it is divided.
const WIDE: u64 = 0x0001_0000_0000_0000;

// C(n, k) of a stored row: "C(n, k) is 0 where k is above n".
fn look_up(n: u64, k: u64) -> u64
    requires { n ≤ 60 }
    ensures { result ≡ choose n k }
{
    if n < k {
        return 0;
    }
    triangle::stored(n, k)
}

// C(n, k). No binomial on the way to the nearer half is larger.
pub fn binomial(n: u64, k: u64) -> u64
    requires { n ≤ 256 }
    ensures { result ≡ sat (choose n k) }
{
    if n <= triangle::LAST_ROW {
        return clip(look_up(n, k));
    }
    if n < k {
        return 0;
    }
    if k < 9 {
        return closed(n, k);
    }
    if n - k < k {
        return half(n, n - k);
    }
    half(n, k)
}

// C(n, e), where e is at most half of n: two factors a division, and one where that might not fit.
fn half(n: u64, e: u64) -> u64
    requires { (n ≤ 256) × (e ≤ n - e) }
    ensures { result ≡ sat (choose n e) }
{
    if e < 9 {
        return closed(n, e);
    }
    let mut c = closed(n, 8);
    for i in 4..e / 2 {
        let j = 2 * i;
        if WIDE <= c {
            return onward(n, e, c, j);
        }
        c = c * pair(n - j) / ((j + 1) * (j + 2));
    }
    onward(n, e, c, e - e % 2)
}

// C(n, e) from c = C(n, from): C(n, j + 1) is C(n, j) · (n − j) / (j + 1).
fn onward(n: u64, e: u64, c: u64, from: u64) -> u64
    requires { (n ≤ 256) × (e ≤ n - e) × (0 < from) × (from ≤ e) × (c ≡ choose n from) }
    ensures { result ≡ sat (choose n e) }
{
    let mut c = c;
    for j in from..e {
        if CAP <= c {
            return CAP;
        }
        c = c * (n - j) / (j + 1);
    }
    clip(c)
}

// C(n, e) in closed form: n · (n − 1) · .. over e!. A product of eight factors fits 64 bits, and a division by a constant costs little.
fn closed(n: u64, e: u64) -> u64
    requires { (n ≤ 256) × (e ≤ n) × (e ≤ 8) }
    ensures { (result ≡ choose n e) × (result < cap) }
{
    if e < 4 {
        return closed_few(n, e);
    }
    closed_many(n, e)
}

fn closed_few(n: u64, e: u64) -> u64
    requires { (n ≤ 256) × (e ≤ n) × (e ≤ 3) }
    ensures { (result ≡ choose n e) × (result < cap) }
{
    match e {
        0 => 1,
        1 => n,
        2 => pair(n) / 2,
        _ => pair(n) * (n - 2) / 6,
    }
}

fn closed_many(n: u64, e: u64) -> u64
    requires { (n ≤ 256) × (e ≤ n) × (4 ≤ e) × (e ≤ 8) }
    ensures { (result ≡ choose n e) × (result < cap) }
{
    let f = four(n);
    match e {
        4 => f / 24,
        5 => f * (n - 4) / 120,
        6 => f * pair(n - 4) / 720,
        7 => f * (pair(n - 4) * (n - 6)) / 5040,
        _ => f * four(n - 4) / 40320,
    }
}

// n · (n − 1)
fn pair(n: u64) -> u64
    requires { (1 ≤ n) × (n ≤ 256) }
    ensures { (result ≡ falling n 2) × (result ≤ 65280) }
{
    n * (n - 1)
}

// n · (n − 1) · (n − 2) · (n − 3)
fn four(n: u64) -> u64
    requires { (3 ≤ n) × (n ≤ 256) }
    ensures { (result ≡ falling n 4) × (result < 2 ^ 32) }
{
    pair(n) * pair(n - 2)
}

// A sum of patterns and its last term.
#[derive(Clone, Copy)]
struct Partial {
    term: u64,
    sum: u64,
}

// C(s, j + 1) · b^j, from the term at j, which is C(s, j) · b^j; b stands here for the promise.
fn one_more(term: u64, b: u64, s: u64, j: u64) -> u64
    requires { (0 < b) × (s ≤ 256) × (j < s) × (term < cap) × (term ≡ choose s j * b ^ j) }
    ensures { result * b ≡ choose s (suc j) * b ^ suc j }
{
    term * (s - j) / (j + 1)
}

// The sum with the term at j + 1, of one whose last is at j. At the cap the term no longer counts.
fn add_next(b: u64, s: u64, j: u64, p: Partial) -> Partial
    requires { (0 < b) × (b ≤ 15) × (s ≤ 256) × (j < s) × (p.sum < cap) × (p.term ≤ p.sum) × (p.term ≡ choose s j * b ^ j) }
    ensures { let next = choose s (suc j) * b ^ suc j in
        (cap ≤ result.sum → cap ≤ p.sum + next) × (result.sum < cap → result.sum ≡ p.sum + result.term) × (result.sum < cap → result.term ≡ next) }
{
    let q = one_more(p.term, b, s, j);
    if CAP <= q {
        return Partial {
            term: CAP,
            sum: CAP,
        };
    }
    let term = q * b;
    Partial {
        term,
        sum: p.sum + term,
    }
}

// The sum from `from` on, whose last term is at `from`; first stands here for the promise.
fn fewer_on(b: u64, first: u64, s: u64, k: u64, start: Partial, from: u64) -> u64
    requires { (0 < b) × (b ≤ 15) × (s ≤ 256) × (k ≤ suc s) × SumSoFar b s first k start.term start.sum from }
    ensures { result ≡ sat (fewer b s first k) }
{
    let mut p = start;
    for j in from..k - 1 {
        p = add_next(b, s, j, p);
        if CAP <= p.sum {
            return CAP;
        }
    }
    p.sum
}

// The sum over j = first .. k − 1 of C(s, j) · b^j.
pub fn fewer(b: u64, first: u64, s: u64, k: u64) -> u64
    requires { (0 < b) × (b ≤ 15) × (first ≤ 1) × (s ≤ 256) × (k ≤ suc s) }
    ensures { result ≡ sat (fewer b s first k) }
{
    if k <= first {
        return 0;
    }
    if k == 1 {
        return 1;
    }
    let term = s * b;
    let mut p = Partial {
        term,
        sum: 1 - first + term,
    };
    // So few turns are laid out one behind the other by the compiler, and each divides by a constant.
    for j in 1..16 {
        if k <= j + 1 {
            return p.sum;
        }
        p = add_next(b, s, j, p);
        if CAP <= p.sum {
            return CAP;
        }
    }
    fewer_on(b, first, s, k, p, 16)
}

// The term at j + 1, from that at j: C(s, j + 1) · b^(j + 1).
pub fn next_term(term: u64, b: u64, s: u64, j: u64) -> u64
    requires { (0 < b) × (b ≤ 15) × (s ≤ 256) × (j < s) × (term < cap) × (term ≡ choose s j * b ^ j) }
    ensures { result ≡ sat (choose s (suc j) * b ^ suc j) }
{
    let q = one_more(term, b, s, j);
    if CAP <= q {
        return CAP;
    }
    clip(q * b)
}

// C(n − 1, k), from c = C(n, k).
pub fn lower(c: u64, n: u64, k: u64) -> u64
    requires { (0 < k) × (k ≤ n) × (n ≤ 256) × (c < cap) × (c ≡ choose n k) }
    ensures { result ≡ choose (n - 1) k }
{
    if n - 1 <= triangle::LAST_ROW {
        return look_up(n - 1, k);
    }
    c * (n - k) / n
}

// C(n − 1, k − 1), from c = C(n, k).
pub fn inner(c: u64, n: u64, k: u64) -> u64
    requires { (0 < k) × (k ≤ suc n) × (0 < n) × (n ≤ 255) × (c < cap) × (c ≡ choose n k) }
    ensures { result ≡ choose (n - 1) (k - 1) }
{
    if n - 1 <= triangle::LAST_ROW {
        return look_up(n - 1, k - 1);
    }
    c * k / n
}

pub fn clip(x: u64) -> u64
    ensures { result ≡ sat x }
{
    if x < CAP { x } else { CAP }
}
