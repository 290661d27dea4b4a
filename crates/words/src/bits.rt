// Bits of words: the marks of groups, the highest one, groups taken out and put in.
ghost use Rattle.std.specs.Prelude.{◌≡◌, ◌+◌, ◌*◌, ◌-◌, ◌^◌, ◌/◌, ◌%◌, ◌<◌, ◌≤◌};
ghost use Rattle.std.specs.Int.Count as Count;
ghost use Rattle.words.specs.Words as Words;
ghost use Rattle.words.specs.Marks as Marks;

use binary::low_ones;

// All marks of a word: the lowest bit of each group.
fn low_bits(m: usize) -> u64
    requires { (2 ≤ m) × (m ≤ 4) }
    ensures { result ≡ Marks.word_lows m }
{
    if m == 2 {
        return 0x5555_5555_5555_5555;
    }
    if m == 3 {
        return 0x0000_2492_4924_9249;
    }
    0x1111_1111_1111_1111
}

// Groups of m bits in a word, with all their marks and with the group of all ones.
#[derive(Clone, Copy)]
pub struct Groups {
    pub m: usize,
    pub low: u64,
    pub ones: u64,
    ghost sized: { (2 ≤ m) × (m ≤ 4) },
    ghost marked: { low ≡ Marks.word_lows m },
    ghost filled: { ones ≡ 2 ^ m - 1 },
}

impl Groups {
    pub fn of(m: usize) -> Groups
        requires { (2 ≤ m) × (m ≤ 4) }
        ensures { result.m ≡ m }
    {
        Groups {
            m,
            low: low_bits(m),
            ones: low_ones(m),
        }
    }

    // The marks of the groups that are not zero.
    pub fn nonzero(self, w: u64) -> u64
        ensures { result ≡ Marks.word_marks self.m Marks.nonzero_group w }
    {
        let x = w | (w >> 1);
        (x | (x >> (self.m - 2))) & self.low
    }

    // The marks of the groups of all ones.
    pub fn erased(self, w: u64) -> u64
        ensures { result ≡ Marks.word_marks self.m (Marks.erased_group (2 ^ self.m - 1)) w }
    {
        let x = w & (w >> 1);
        (x & (x >> (self.m - 2))) & self.low
    }

    // The marks of the groups that are zero, and of those that are not all ones.
    pub fn zeros(self, w: u64) -> u64
        ensures { result ≡ Marks.word_marks self.m Marks.zero_group w }
    {
        self.low - self.nonzero(w)
    }

    pub fn open(self, w: u64) -> u64
        ensures { result ≡ Marks.word_marks self.m (Marks.open_group (2 ^ self.m - 1)) w }
    {
        self.low - self.erased(w)
    }

    // The group whose mark stands at place p.
    pub fn at(self, w: u64, p: u32) -> u64
        requires { p < 64 }
        ensures { (result ≡ w / 2 ^ p % 2 ^ self.m) × (result < 16) }
    {
        (w >> p) & self.ones
    }
}

// The bits of a word.
pub fn word_bits(m: usize) -> usize
    ensures { result ≡ 8 * Words.word_bytes m }
{
    if m == 3 { 48 } else { 64 }
}

// The word with x in its zero group whose mark stands at place p.
pub fn put(word: u64, p: u32, x: u64) -> u64
    requires { (p < 64) × (word + x * 2 ^ p < 2 ^ 64) }
    ensures { result ≡ word + x * 2 ^ p }
{
    word + (x << p)
}

// The place of the highest one.
pub fn top(x: u64) -> u32
    requires { 0 < x }
    ensures { (result ≡ Marks.top_of x) × (result < 64) }
{
    63 - u64::leading_zeros(x)
}

// The same where no test says that x is not 0: the one at the lowest place spares the compiler a case for 0.
pub fn top_odd(x: u64) -> u32
    requires { 0 < x }
    ensures { (result ≡ Marks.top_of x) × (result < 64) }
{
    63 - u64::leading_zeros(x | 1)
}

// A number without its highest one, which stands at place p.
pub fn strip(x: u64, p: u32) -> u64
    requires { (0 < x) × (p ≡ Marks.top_of x) }
    ensures { (result ≡ x - 2 ^ Marks.top_of x) × (result < x) }
{
    x - (1 << p)
}

// A number without its highest ones, so many of them.
pub fn skip(x: u64, count: u64) -> u64
    requires { count ≤ Count.ones x }
    ensures { result ≡ Marks.stripped count x }
{
    let mut left = x;
    for _ in 0..count {
        left = left ^ (1 << top_odd(left));
    }
    left
}
