// The groups that are all ones now and were not before, as bits.
#![tactic(auto)]

ghost use Rattle.std.specs.Prelude.{◌≡◌, ◌*◌, ◌≤◌, length};
ghost use Rattle.code.specs.Cells.{listed};
ghost use Rattle.code.specs.Lists.{Upto};
ghost use Rattle.code.specs.Resume.{places_from, bits_at};
ghost use Rattle.code.proofs.Report.{flag_word};
ghost use Rattle.words.specs.Words.{word_groups};
ghost use Rattle.words.specs.Marks.{groups_in};
ghost use Rattle.reporting.specs.Report.{flags_of, word_flags};

use binary::ones;
use words::fresh_marks;

// How many groups a word has.
fn groups_of(m: usize) -> usize
    requires { (2 ≤ m) × (m ≤ 4) }
    ensures { result ≡ word_groups m }
{
    if m == 2 { 32 } else { 16 }
}

// The flags of a word, one in each group, side by side: that of the leftmost group at the lowest bit.
fn gather_bits(flags: u64, m: usize) -> u64
    requires { (2 ≤ m) × (m ≤ 4) × Upto 1 (groups_in m flags) }
    ensures { result ≡ flag_word (groups_in m flags) }
{
    let groups = groups_of(m);
    let mut left = flags;
    let mut bits: u64 = 0;
    for _ in 0..groups {
        bits = 2 * bits + left % 2;
        left = left >> m;
    }
    bits
}

// The groups of a word that are all ones now and were not before, as bits side by side.
fn fresh_bits(before: u64, after: u64, m: usize) -> u64
    requires { (2 ≤ m) × (m ≤ 4) }
    ensures { result ≡ flag_word (word_flags m before after) }
{
    let flags = fresh_marks(before, after, m);
    if flags == 0 {
        return 0;
    }
    gather_bits(flags, m)
}

// The groups that are all ones in the first n words of one field and not in those of another: a bit for each, group j at bit j mod 64 of word
// j / 64. Says how many.
pub fn report(before: &[u64; 16], after: &[u64; 16], n: usize, m: usize, bits: &mut [u64; 4]) -> u64
    requires le_m { (2 ≤ m) × (m ≤ 4) × (n ≤ 16) × (word_groups m * n ≤ 256) }
    requires before_len { (length before.now ≡ 16) × (length after.now ≡ 16) × (length bits.old ≡ 4) }
    ensures bits_after { bits.new ≡ listed (λ w. bits_at w (places_from 0 (flags_of m n before.now after.now))) 0 4 }
    ensures value { result ≡ length (places_from 0 (flags_of m n before.now after.now)) }
{
    *bits = [0u64; 4];
    let groups = groups_of(m);
    let mut count: u64 = 0;
    for i in 0..n {
        let fresh = fresh_bits(before[i], after[i], m);
        let at = groups * i;
        bits[at / 64] += fresh << (at % 64);
        count += ones(fresh);
    }
    count
}
