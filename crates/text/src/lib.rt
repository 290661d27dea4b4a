// The text of a listing: numbers in decimal and whole lines, stored into a lent output.
#![tactic(auto)]

ghost use Rattle.std.specs.Prelude.{◌≡◌, [], ◌∷◌, ◌++◌, ℕ, ◌+◌, ◌<◌, ◌≤◌, length};
ghost use Rattle.code.specs.Listing.{decimal, record_line, last_line, stop_lines};
ghost use Rattle.code.specs.Refusals.{refusal_reply};
ghost use Rattle.text.specs.Within.{PutWithin, reading_line, refusal_line, closing_line, stopping_lines, oversize_line};

use code::Refusal;

fn decimal_length(x: u64) -> usize
    ensures { result ≡ length (decimal x) }
{
    let mut rest = x;
    let mut count = 1;
    while 10 <= rest {
        rest /= 10;
        count += 1;
    }
    count
}

// By hand: what `write!` stores into a lent slice no clause of the library tells (`contents` of `&mut [u8]` is none).
pub fn put_decimal(out: &mut [u8], at: usize, x: u64) -> usize
    requires { at + 20 ≤ length out.old }
    ensures { PutWithin 20 out.old out.new at (decimal x) result }
{
    let next = at + decimal_length(x);
    let mut rest = x;
    for place in (at..next).rev() {
        out[place] = b'0' + (rest % 10) as u8;
        rest /= 10;
    }
    next
}

// A label, then a number.
fn put_labelled(out: &mut [u8], at: usize, label: &[u8], x: u64) -> usize
    requires { at + length label.now + 20 ≤ length out.old }
    ensures { PutWithin (length label.now + 20) out.old out.new at (label.now ++ decimal x) result }
{
    let behind = storing::put_bytes(out, at, label);
    put_decimal(out, behind, x)
}

// The line of a record that reads.
pub fn put_reading_line(
    out: &mut [u8],
    at: usize,
    serial: u64,
    generation: u64,
    number: u64,
    left: u64,
) -> usize
    requires { at + reading_line ≤ length out.old }
    ensures { PutWithin reading_line out.old out.new at (record_line serial (0 ∷ generation ∷ number ∷ left ∷ [])) result }
{
    let first = put_decimal(out, at, serial);
    let second = put_labelled(out, first, b" ", generation);
    let third = put_labelled(out, second, b" ", number);
    let fourth = put_labelled(out, third, b" ", left);
    storing::put_byte(out, fourth, b'\n')
}

// The line of a record that is refused.
pub fn put_refusal_line(out: &mut [u8], at: usize, serial: u64, refusal: Refusal) -> usize
    requires { at + refusal_line ≤ length out.old }
    ensures { PutWithin refusal_line out.old out.new at (record_line serial (refusal_reply refusal)) result }
{
    let first = put_decimal(out, at, serial);
    let second = put_labelled(out, first, b" refused ", refusal.number());
    storing::put_byte(out, second, b'\n')
}

pub fn put_last_line(out: &mut [u8], at: usize, count: u64) -> usize
    requires { at + closing_line ≤ length out.old }
    ensures { PutWithin closing_line out.old out.new at (last_line count) result }
{
    let first = put_labelled(out, at, b"records ", count);
    storing::put_byte(out, first, b'\n')
}

// The lines that end the listing of a dump with a malformed record.
pub fn put_stop_lines(out: &mut [u8], at: usize, count: u64, offset: u64) -> usize
    requires { at + stopping_lines ≤ length out.old }
    ensures { PutWithin stopping_lines out.old out.new at (stop_lines count 7 (offset ∷ [])) result }
{
    let first = put_labelled(out, at, b"stopped 7 at ", offset);
    let second = storing::put_byte(out, first, b'\n');
    put_last_line(out, second, count)
}

// The only line of a dump that is too long.
pub fn put_oversize_line(out: &mut [u8], at: usize) -> usize
    requires { at + oversize_line ≤ length out.old }
    ensures { (count : ℕ) → PutWithin oversize_line out.old out.new at (stop_lines count 8 []) result }
{
    storing::put_bytes(out, at, b"refused 8\n")
}
