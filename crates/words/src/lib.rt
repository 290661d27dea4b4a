// Groups of m wits in words of 64 bits.
#![tactic(auto)]

mod bits;

ghost use Rattle.std.specs.Prelude.{◌≡◌, ◌+◌, ◌-◌, ◌^◌, ◌≤◌, ◌<◌, length, take, drop};
ghost use Rattle.std.specs.Int.Count as Count;
ghost use Rattle.code.proofs.Chosen.{pattern_most};
ghost use Rattle.code.proofs.Chosen as Chosen;
ghost use Rattle.code.specs.Deal as Deal;
ghost use Rattle.code.specs.Lists as Lists;
ghost use Rattle.code.specs.Judge.{wipes};
ghost use Rattle.code.specs.Resume.{freshly};
ghost use Rattle.words.specs.Words as Words;
ghost use Rattle.words.specs.Marks as Marks;

use binary::{low_ones, ones, wide};
use bits::{Groups, put, skip, strip, top, top_odd, word_bits};
use code::PATTERN_MOST;

#[derive(Clone, Copy)]
pub struct Seen {
    pub zeros: u64,
    pub unerased: u64,
}

// Marks the groups of the first n words that are not all ones, and counts these and the zero groups.
pub fn see(words: &[u64; 16], n: usize, m: usize, marks: &mut [u64; 16]) -> Seen
    requires { (2 ≤ m) × (m ≤ 4) × (n ≤ 16) × (length words.now ≡ 16) × (length marks.old ≡ 16) }
    ensures { Marks.Viewed m n words.now marks.new result }
{
    let groups = Groups::of(m);
    let mut zeros: u64 = 0;
    let mut unerased: u64 = 0;
    for i in 0..n {
        let w = words[i];
        let o = groups.open(w);
        marks[i] = o;
        zeros += ones(groups.zeros(w));
        unerased += ones(o);
    }
    Seen { zeros, unerased }
}

// Marks the first h groups of n words, the last of which has some of them.
pub fn mark_all(n: usize, m: usize, h: usize, marks: &mut [u64; 16])
    requires { Marks.Ends m n h × (length marks.old ≡ 16) }
    ensures { Marks.Fronted m n h marks.new }
{
    let low = Groups::of(m).low;
    let last = n - 1;
    marks[..last].fill(low);
    let over = word_bits(m) * n - m * h;
    marks[last] = (low >> over) << over;
}

// A word and the marks of some of its groups.
#[derive(Clone, Copy)]
struct Marked {
    word: u64,
    marks: u64,
}

// Adds the marked groups of a word to the values before `at`, leftmost first.
fn pick_word(groups: Groups, w: Marked, values: &mut [u8; PATTERN_MOST], at: usize) -> usize
    requires marks { Marks.Marks groups.m w.marks }
    requires values_len { (length values.old ≡ pattern_most)
        × (at + length (Words.groups_at groups.m (Words.word_groups groups.m) w.marks w.word) ≤ pattern_most) }
    ensures { Marks.Added (Words.groups_at groups.m (Words.word_groups groups.m) w.marks w.word) values.old values.new at result }
{
    let mut left = w.marks;
    let mut i = at;
    while left != 0 {
        let p = top(left);
        values[i] = groups.at(w.word, p) as u8;
        left = strip(left, p);
        i += 1;
    }
    i
}

// The marked groups of the first n words, leftmost first; says how many.
pub fn pick(
    words: &[u64; 16],
    marks: &[u64; 16],
    n: usize,
    m: usize,
    values: &mut [u8; PATTERN_MOST],
) -> usize
    requires pickable { Marks.Pickable m n words.now marks.now × (length (Words.front_at m n marks.now words.now) ≤ pattern_most) }
    requires values_len { length values.old ≡ pattern_most }
    ensures { Marks.ListedValues (Words.front_at m n marks.now words.now) values.new result }
{
    let groups = Groups::of(m);
    let mut k = 0;
    for (w, o) in words[..n].iter().zip(&marks[..n]) {
        k = pick_word(
            groups,
            Marked {
                word: *w,
                marks: *o,
            },
            values,
            k,
        );
    }
    k
}

// Adds labels and values less 1 of a word's marked groups that are not zero, with so many places to its right.
fn gather_word(
    groups: Groups,
    w: Marked,
    right: u64,
    labels: &mut [u8; PATTERN_MOST],
    values: &mut [u8; PATTERN_MOST],
    at: usize,
) -> usize
    requires leftover { Marks.Leftover groups.m w.word w.marks right (Marks.written_marks groups.m w.marks w.word) }
    requires w_bound { (at + Count.ones (Marks.written_marks groups.m w.marks w.word) ≤ pattern_most)
        × (length labels.old ≡ pattern_most) × (length values.old ≡ pattern_most) }
    ensures added { Marks.Added (Marks.written_labels groups.m w.word w.marks right) labels.old labels.new at result }
    ensures added_2 { Marks.Added (Marks.written_less groups.m w.word w.marks) values.old values.new at result }
{
    let mut left = groups.nonzero(w.word) & w.marks;
    let mut i = at;
    while left != 0 {
        let p = top(left);
        let below = low_ones(p as usize);
        labels[i] = (right + ones(w.marks & below)) as u8;
        values[i] = (groups.at(w.word, p) - 1) as u8;
        left = left & below;
        i += 1;
    }
    i
}

// The places behind word i of n, of those from it on. Behind the last there is none, which saves a count.
fn places_behind(places: u64, marks: u64, i: usize, n: usize) -> u64
    requires { (i < n) × (n ≤ 16) × (Count.ones marks ≤ places) × (n ≤ i + 1 → places ≡ Count.ones marks) }
    ensures { result ≡ places - Count.ones marks }
{
    if i + 1 == n {
        return 0;
    }
    places - ones(marks)
}

// The marked groups of the first n words that are not zero, by label and value less 1, leftmost first; says how many.
pub fn gather(
    words: &[u64; 16],
    marks: &[u64; 16],
    n: usize,
    m: usize,
    places: u64,
    labels: &mut [u8; PATTERN_MOST],
    values: &mut [u8; PATTERN_MOST],
) -> usize
    requires pickable { Marks.Pickable m n words.now marks.now × (places ≡ length (Words.front_at m n marks.now words.now)) }
    requires words_bound { Deal.written (Words.front_at m n marks.now words.now) ≤ pattern_most }
    requires labels_len { (length labels.old ≡ pattern_most) × (length values.old ≡ pattern_most) }
    ensures { Marks.Gathered (Words.front_at m n marks.now words.now) labels.new values.new result }
{
    let groups = Groups::of(m);
    let mut right = places;
    let mut k = 0;
    for i in 0..n {
        let w = Marked {
            word: words[i],
            marks: marks[i],
        };
        right = places_behind(right, w.marks, i, n);
        k = gather_word(groups, w, right, labels, values, k);
    }
    k
}

// What is left of marks, and of how many they are to lose.
#[derive(Clone, Copy)]
struct Spared {
    left: u64,
    spare: u64,
}

// Marks without their highest ones, as many as are spare.
fn take_spare(marks: u64, spare: u64) -> Spared
    ensures { (result.left ≡ Marks.stripped spare marks) × (result.spare ≡ spare - Count.ones marks) }
{
    if spare == 0 {
        return Spared { left: marks, spare };
    }
    let k = ones(marks);
    if k <= spare {
        return Spared {
            left: 0,
            spare: spare - k,
        };
    }
    Spared {
        left: skip(marks, spare),
        spare: 0,
    }
}

// Sets each group of the first n words that is not zero, and the leftmost `spare` that are, to all ones; marks the zero groups left.
pub fn erase(words: &mut [u64; 16], n: usize, m: usize, spare: u64, marks: &mut [u64; 16])
    requires { (2 ≤ m) × (m ≤ 4) × (n ≤ 16) × (length words.old ≡ 16) × (length marks.old ≡ 16) }
    ensures { Marks.Erased m n spare words.old words.new marks.new }
{
    let groups = Groups::of(m);
    let mut left = spare;
    for i in 0..n {
        let s = take_spare(groups.zeros(words[i]), left);
        let o = s.left;
        words[i] = (groups.low - o) * groups.ones;
        marks[i] = o;
        left = s.spare;
    }
}

// A word after laying, and where the values for the next word start.
#[derive(Clone, Copy)]
struct Placed {
    word: u64,
    at: usize,
}

// Lays the values from `at` on into all zero groups of a word.
fn lay_all(w: Marked, m: usize, values: &[u8; PATTERN_MOST], at: usize) -> Placed
    requires blanks { Marks.Blanks m w.word w.marks × (length values.now ≡ pattern_most) × (at + Marks.blanks_in m w.word ≤ pattern_most) }
    requires upto { Lists.Upto (2 ^ m - 1) (take (Marks.blanks_in m w.word) (drop at values.now)) }
    ensures { Marks.WordLaid m w.word (take (Marks.blanks_in m w.word) (drop at values.now)) result.word × (result.at ≡ at + Marks.blanks_in m w.word) }
{
    let mut word = w.word;
    let mut left = w.marks;
    let mut i = at;
    while left != 0 {
        let p = top(left);
        word = put(word, p, wide(values[i]));
        left = strip(left, p);
        i += 1;
    }
    Placed { word, at: i }
}

// Lays values into the zero groups of the first n words, from the left.
pub fn lay_digits(
    words: &mut [u64; 16],
    marks: &[u64; 16],
    n: usize,
    m: usize,
    values: &[u8; PATTERN_MOST],
)
    requires zero_marked { Marks.ZeroMarked m n words.old marks.now × (length values.now ≡ pattern_most) × (Marks.blanks_to m n words.old ≤ pattern_most) }
    requires upto { Lists.Upto (2 ^ m - 1) (take (Marks.blanks_to m n words.old) values.now) }
    ensures { Marks.Layered m n (take (Marks.blanks_to m n words.old) values.now) words.old words.new }
{
    let mut at = 0;
    for i in 0..n {
        let w = Marked {
            word: words[i],
            marks: marks[i],
        };
        let l = lay_all(w, m, values, at);
        words[i] = l.word;
        at = l.at;
    }
}

// The written places of a pattern by label and value less 1, and how many they are.
#[derive(Clone, Copy)]
struct Written<'a> {
    labels: &'a [u8; PATTERN_MOST],
    values: &'a [u8; PATTERN_MOST],
    k: usize,
}

// Lays the written places from `at` on whose labels are from `right` to `next` into a word.
fn lay_some(w: Marked, m: usize, right: u64, next: u64, p: Written, at: usize) -> Placed
    requires blanks { Marks.Blanks m w.word w.marks × (next ≡ right + Marks.blanks_in m w.word) × (at ≤ p.k) × (p.k ≤ pattern_most) }
    requires labels_len { (length p.labels.now ≡ pattern_most) × (length p.values.now ≡ pattern_most) }
    requires remaining { Marks.Remaining m p.labels.now p.values.now p.k at next (Marks.rest_of p.labels.now p.values.now p.k at next) }
    ensures { Marks.Scattered m w.word right p.entry.labels.now p.entry.values.now p.entry.k at next result.word result.at }
{
    let mut word = w.word;
    let mut left = w.marks;
    let mut from = next;
    for i in at..p.k {
        let label = wide(p.labels[i]);
        if label < right {
            return Placed { word, at: i };
        }
        left = skip(left, from - 1 - label);
        let place = top_odd(left);
        word = put(word, place, wide(p.values[i]) + 1);
        left = strip(left, place);
        from = label;
    }
    Placed { word, at: p.k }
}

// Lays a pattern of s places, given by the labels and values less 1 of its k written ones, into the zero groups of the first n words.
pub fn lay(
    words: &mut [u64; 16],
    marks: &[u64; 16],
    n: usize,
    m: usize,
    s: u64,
    labels: &[u8; PATTERN_MOST],
    values: &[u8; PATTERN_MOST],
    k: usize,
)
    requires zero_marked { Marks.ZeroMarked m n words.old marks.now × (s ≡ Marks.blanks_to m n words.old) × (k ≤ pattern_most) }
    requires labels_len { (length labels.now ≡ pattern_most) × (length values.now ≡ pattern_most) }
    requires chosen { Chosen.Chosen (Marks.pattern_of s labels.now values.now k) labels.now values.now k }
    requires upto { Lists.Upto (2 ^ m - 1) (Marks.pattern_of s labels.now values.now k) }
    ensures { Marks.Layered m n (Marks.pattern_of s labels.now values.now k) words.old words.new }
{
    let p = Written { labels, values, k };
    let mut next = s;
    let mut at = 0;
    for i in 0..n {
        if k <= at {
            return;
        }
        let w = Marked {
            word: words[i],
            marks: marks[i],
        };
        let right = next - ones(w.marks);
        let l = lay_some(w, m, right, next, p, at);
        words[i] = l.word;
        at = l.at;
        next = right;
    }
}

// Whether every group that is not zero in the first n words of one field is all ones in those of another.
pub fn is_wiped(before: &[u64; 16], after: &[u64; 16], n: usize, m: usize) -> bool
    requires { (2 ≤ m) × (m ≤ 4) × (n ≤ 16) × (length before.now ≡ 16) × (length after.now ≡ 16) }
    ensures { result ≡ wipes (2 ^ m - 1) (Words.front_groups m n before.now) (Words.front_groups m n after.now) }
{
    let groups = Groups::of(m);
    before[..n]
        .iter()
        .zip(&after[..n])
        .all(|(b, a)| groups.nonzero(*b) & groups.open(*a) == 0)
}

// A mark for each group of a word that is all ones now and was not before.
pub fn fresh_marks(before: u64, after: u64, m: usize) -> u64
    requires { (2 ≤ m) × (m ≤ 4) }
    ensures { Marks.groups_in m result ≡ freshly (2 ^ m - 1) (Marks.groups_in m before) (Marks.groups_in m after) }
{
    let groups = Groups::of(m);
    groups.open(before) & groups.erased(after)
}
