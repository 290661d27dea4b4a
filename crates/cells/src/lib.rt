// A field's cells between lent bytes and words of groups.
#![tactic(auto)]

ghost use Rattle.std.specs.Prelude.{◌≡◌, ◌+◌, ◌*◌, ◌-◌, ◌^◌, ◌/◌, ◌%◌, ◌<◌, ◌≤◌, length, take};
ghost use Rattle.std.specs.Int.Bits as Bits;
ghost use Rattle.std.specs.Int.Count as Count;
ghost use Rattle.code.specs.Cells as Code;
ghost use Rattle.words.specs.Words as Words;
ghost use Rattle.cells.specs.Cells as Cells;

use binary::{low_ones, ones, wide};

// A byte with its bits the other way round.
fn mirror(x: u64) -> u64
    requires { x < 256 }
    ensures { (result ≡ Cells.octet 1 x) × (result < 256) }
{
    let high = x % 2 * 128 + x / 2 % 2 * 64 + x / 4 % 2 * 32 + x / 8 % 2 * 16;
    high + x / 16 % 2 * 8 + x / 32 % 2 * 4 + x / 64 % 2 * 2 + x / 128 % 2
}

// The number that the eight wits of a byte make; and the byte of such a number.
fn octet(order: u64, x: u64) -> u64
    requires { x < 256 }
    ensures { (result ≡ Cells.octet order x) × (result < 256) }
{
    if order == 0 { x } else { mirror(x) }
}

// The last n bits of x.
fn last_bits(x: u64, n: usize) -> u64
    requires { n < 64 }
    ensures { result ≡ x % 2 ^ n }
{
    x % (1 << n)
}

// Whether the bytes are as many as h groups of m wits take, and the bits left over are 0.
pub fn is_sound(cells: &[u8], order: u64, m: usize, h: usize) -> bool
    requires { (m ≤ 4) × (h ≤ 256) }
    ensures { result ≡ Code.sound order m h cells.now }
{
    let w = m * h;
    if cells.len() != (w + 7) / 8 {
        return false;
    }
    let over = 8 * cells.len() - w;
    if over == 0 {
        return true;
    }
    last_bits(octet(order, wide(cells[cells.len() - 1])), over) == 0
}

// Four and eight bytes from byte i on, with the high bit first. Four are one sum, which is compiled to one load.
fn four(cells: &[u8], i: usize) -> u64
    requires { (i + 4 ≤ length cells.now) × (length cells.now ≤ 128) }
    ensures { (result ≡ Code.value (Code.wit 0 cells.now) (8 * i) 32) × (result < 2 ^ 32) }
{
    wide(cells[i]) * 16777216
        + wide(cells[i + 1]) * 65536
        + wide(cells[i + 2]) * 256
        + wide(cells[i + 3])
}

fn eight(cells: &[u8], i: usize) -> u64
    requires { (i + 8 ≤ length cells.now) × (length cells.now ≤ 128) }
    ensures { result ≡ Code.value (Code.wit 0 cells.now) (8 * i) 64 }
{
    four(cells, i) * 4294967296 + four(cells, i + 4)
}

// How many of the eight bytes from byte `at` on the cells have.
fn bytes_ahead(cells: &[u8], at: usize) -> usize
    requires { (at < length cells.now) × (length cells.now ≤ 128) }
    ensures { Cells.End (length cells.now) at (at + result) }
{
    let left = cells.len() - at;
    if left < 8 { left } else { 8 }
}

// The eight bytes from byte `at` on, as far as there are bytes, read one by one as a number; what is behind the last is 0. The first stands before the
// loop, here and in put_part: one of at most seven rounds the compiler leaves as it is, and one of eight would be slower for a single byte.
fn few_bytes(cells: &[u8], order: u64, at: usize) -> u64
    requires { (at < length cells.now) × (length cells.now ≤ 128) }
    ensures { result ≡ Code.value (Code.wit order cells.now) (8 * at) 64 }
{
    let end = at + bytes_ahead(cells, at);
    let mut x = octet(order, wide(cells[at]));
    for cell in &cells[at + 1..end] {
        x = x * 256 + octet(order, wide(*cell));
    }
    x << (8 * (at + 8 - end))
}

// The byte `at`, or one before it that has eight bytes from there on.
fn start_of(cells: &[u8], at: usize) -> usize
    requires { (8 ≤ length cells.now) × (at < length cells.now) × (length cells.now ≤ 128) }
    ensures { Cells.Start (length cells.now) at result }
{
    if at + 8 <= cells.len() {
        at
    } else {
        cells.len() - 8
    }
}

// The same, read at once where the cells have eight bytes: the last bytes as part of the last eight.
fn ahead(cells: &[u8], order: u64, at: usize) -> u64
    requires { (at < length cells.now) × (length cells.now ≤ 128) }
    ensures { result ≡ Code.value (Code.wit order cells.now) (8 * at) 64 }
{
    if order == 0 {
        if 8 <= cells.len() {
            let start = start_of(cells, at);
            return eight(cells, start) << (8 * (at - start));
        }
    }
    few_bytes(cells, order, at)
}

// The bytes of a word: as many as its groups fill.
fn span(m: usize) -> usize
    ensures { result ≡ Words.word_bytes m }
{
    if m == 3 { 6 } else { 8 }
}

// How many words stand before the last of n bytes.
fn words_before(n: usize, m: usize) -> usize
    requires { 0 < n }
    ensures { (Words.word_bytes m * result < n) × (n ≤ Words.word_bytes m * result + Words.word_bytes m) }
{
    if m == 3 { (n - 1) / 6 } else { (n - 1) / 8 }
}

// The word of so many bytes from byte `at` on.
fn any_word(cells: &[u8], order: u64, at: usize, size: usize) -> u64
    requires { (at < length cells.now) × (length cells.now ≤ 128) × (6 ≤ size) × (size ≤ 8) }
    ensures { result ≡ Code.value (Code.wit order cells.now) (8 * at) (8 * size) }
{
    ahead(cells, order, at) >> (64 - 8 * size)
}

// The same for the loop: a whole word, most of them read at once.
fn word(cells: &[u8], order: u64, at: usize, size: usize) -> u64
    requires { (at + size ≤ length cells.now) × (length cells.now ≤ 128) × (6 ≤ size) × (size ≤ 8) }
    ensures { result ≡ Code.value (Code.wit order cells.now) (8 * at) (8 * size) }
{
    if order == 0 {
        if size == 8 {
            return eight(cells, at);
        }
        if at + 8 <= cells.len() {
            return eight(cells, at) >> (64 - 8 * size);
        }
    }
    any_word(cells, order, at, size)
}

// The cells of a field as words, with ones behind the field in the last; says how many words.
pub fn load(cells: &[u8], order: u64, m: usize, h: usize, words: &mut [u64; 16]) -> usize
    requires { (Cells.Loadable order m h cells.now) × (length words.old ≡ 16) }
    ensures { Cells.Loaded order m h cells.now words.new result }
{
    let size = span(m);
    let last = words_before(cells.len(), m);
    for i in 0..last {
        words[i] = word(cells, order, size * i, size);
    }
    let at = size * last;
    words[last] = any_word(cells, order, at, size) | low_ones(8 * (at + size) - m * h);
    last + 1
}

// Puts the last byte of x at byte i; and the last two, four and eight from byte i on, with the high bit first. Eight are compiled to one store.
fn put_one(cells: &mut [u8], order: u64, i: usize, x: u64)
    requires { i < length cells.old }
    ensures { Cells.PutWits order cells.old cells.new (8 * i) 8 x }
{
    cells[i] = octet(order, x % 256) as u8;
}

fn put_two(cells: &mut [u8], i: usize, x: u64)
    requires { (i + 2 ≤ length cells.old) × (length cells.old ≤ 128) }
    ensures { Cells.PutWits 0 cells.old cells.new (8 * i) 16 x }
{
    put_one(cells, 0, i, x >> 8);
    put_one(cells, 0, i + 1, x);
}

fn put_four(cells: &mut [u8], i: usize, x: u64)
    requires { (i + 4 ≤ length cells.old) × (length cells.old ≤ 128) }
    ensures { Cells.PutWits 0 cells.old cells.new (8 * i) 32 x }
{
    put_two(cells, i, x >> 16);
    put_two(cells, i + 2, x);
}

fn put_eight(cells: &mut [u8], i: usize, x: u64)
    requires { (i + 8 ≤ length cells.old) × (length cells.old ≤ 128) }
    ensures { Cells.PutWits 0 cells.old cells.new (8 * i) 64 x }
{
    put_four(cells, i, x >> 32);
    put_four(cells, i + 4, x);
}

// Puts x, eight bytes, from byte `at` on, as far as there are bytes, one by one.
fn put_part(cells: &mut [u8], order: u64, at: usize, x: u64)
    requires { Cells.Roomy cells.old at x }
    ensures { Cells.PutWits order cells.old cells.new (8 * at) 64 x }
{
    let end = at + bytes_ahead(cells, at);
    put_one(cells, order, at, x >> 56);
    for i in at + 1..end {
        put_one(cells, order, i, x >> (8 * (at + 7 - i)));
    }
}

// The same at the end of the cells: the last bytes are put as part of the last eight.
fn put_last(cells: &mut [u8], at: usize, x: u64)
    requires { (Cells.Roomy cells.old at x) × (8 ≤ length cells.old) × (length cells.old < at + 8) }
    ensures { Cells.PutWits 0 cells.old cells.new (8 * at) 64 x }
{
    let start = cells.len() - 8;
    let n = 8 * (cells.len() - at);
    let y = eight(cells, start);
    put_eight(cells, start, (y >> n << n) | (x >> (64 - n)));
}

// The same for any part of the cells, put at once where the cells have eight bytes.
fn put_ahead(cells: &mut [u8], order: u64, at: usize, x: u64)
    requires { Cells.Roomy cells.old at x }
    ensures { Cells.PutWits order cells.old cells.new (8 * at) 64 x }
{
    if order == 0 {
        if at + 8 <= cells.len() {
            put_eight(cells, at, x);
            return;
        }
        if 8 <= cells.len() {
            put_last(cells, at, x);
            return;
        }
    }
    put_part(cells, order, at, x);
}

// The word w of so many bytes, without its last d bits and with what is behind it as it was.
fn blend(w: u64, d: usize, size: usize, old: u64) -> u64
    requires { (1 ≤ size) × (size ≤ 8) × (d < 8 * size) }
    ensures { result ≡ Cells.blended w d old (64 - 8 * size) }
{
    let behind = 64 - 8 * size;
    ((w >> d) << (d + behind)) | last_bits(old, behind)
}

// How many bits are 1 in the new word and 0 in the old.
fn turns(new: u64, old: u64) -> u64
    ensures { (result ≡ Count.ones (Bits.bit_or new old - old)) × (result ≤ 64) }
{
    ones((new | old) - old)
}

// Puts the word w of so many bytes, without its last d bits, from byte `at` on, and says how many wits that turned.
fn swap(cells: &mut [u8], order: u64, at: usize, size: usize, w: u64, d: usize) -> u64
    requires { Cells.Swappable cells.old at size d }
    ensures { Cells.Swapped order cells.old cells.new (8 * at) (8 * size) d w result }
{
    let old = ahead(cells, order, at);
    let new = blend(w, d, size, old);
    put_ahead(cells, order, at, new);
    turns(new, old)
}

// The same with all bits of w and the high bit first, for a word of eight bytes, and for one with eight bytes from byte `at` on.
fn swap_eight(cells: &mut [u8], at: usize, w: u64) -> u64
    requires { Cells.Swappable cells.old at 8 0 }
    ensures { Cells.Swapped 0 cells.old cells.new (8 * at) 64 0 w result }
{
    let old = eight(cells, at);
    put_eight(cells, at, w);
    turns(w, old)
}

fn swap_fewer(cells: &mut [u8], at: usize, size: usize, w: u64) -> u64
    requires { (Cells.Swappable cells.old at size 0) × (at + 8 ≤ length cells.old) }
    ensures { Cells.Swapped 0 cells.old cells.new (8 * at) (8 * size) 0 w result }
{
    let old = eight(cells, at);
    let new = blend(w, 0, size, old);
    put_eight(cells, at, new);
    turns(new, old)
}

// The same for the loop: a whole word, most of them read and put at once.
fn swap_word(cells: &mut [u8], order: u64, at: usize, size: usize, w: u64) -> u64
    requires { Cells.Swappable cells.old at size 0 }
    ensures { Cells.Swapped order cells.old cells.new (8 * at) (8 * size) 0 w result }
{
    if order == 0 {
        if size == 8 {
            return swap_eight(cells, at, w);
        }
        if at + 8 <= cells.len() {
            return swap_fewer(cells, at, size, w);
        }
    }
    swap(cells, order, at, size, w, 0)
}

// Puts the groups of the words back into the cells of a field, and says how many wits that turned.
pub fn store(cells: &mut [u8], order: u64, m: usize, h: usize, words: &[u64; 16]) -> u64
    requires { (Cells.Storable m h cells.old) × (length words.now ≡ 16) }
    ensures { Cells.Stored order m (take h (Words.all_groups m (Words.word_groups m) words.now)) cells.old cells.new result }
{
    let size = span(m);
    let last = words_before(cells.len(), m);
    let mut n: u64 = 0;
    for i in 0..last {
        n += swap_word(cells, order, size * i, size, words[i]);
    }
    let at = size * last;
    n + swap(cells, order, at, size, words[last], 8 * (at + size) - m * h)
}
