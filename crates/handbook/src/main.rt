// Pascal's triangle from the stored numbers, a row a line, for a reader with a handbook.
#![tactic(auto)]

ghost use Rattle.std.specs.Prelude.{suc, ◌+◌, ◌≤◌, length};
ghost use Rattle.text.specs.Within.{PutWithin};
ghost use Rattle.handbook.specs.Rows.{entries_most, row_most, entries_text, row_text};

// The most bytes of a row: its number and a colon, 61 numbers each behind a space, and a line feed.
const ROW_MOST: usize = 1303;

fn main(rt: HostRuntime) {
    for n in 0..=triangle::LAST_ROW {
        print_row(&rt, n);
    }
}

// A row, on standard output. A write that fails is not told.
fn print_row(rt: &impl Print, n: u64)
    requires { n ≤ 60 }
{
    let mut out = [0u8; ROW_MOST];
    let end = put_row(&mut out, n);
    let _ = rt.write_all(&out[..end]);
}

// The number of a row, and its numbers.
fn put_row(out: &mut [u8], n: u64) -> usize
    requires { (n ≤ 60) × (row_most ≤ length out.old) }
    ensures { PutWithin row_most out.old out.new 0 (row_text n) result }
{
    let named = text::put_decimal(out, 0, n);
    let first = storing::put_byte(out, named, b':');
    let end = put_entries(out, first, n);
    storing::put_byte(out, end, b'\n')
}

// Each number of a row, behind a space.
fn put_entries(out: &mut [u8], at: usize, n: u64) -> usize
    requires { (n ≤ 60) × (at + entries_most ≤ length out.old) }
    ensures { PutWithin entries_most out.old out.new at (entries_text n (suc n)) result }
{
    let mut place = at;
    for k in 0..=n {
        let digits = storing::put_byte(out, place, b' ');
        place = text::put_decimal(out, digits, triangle::stored(n, k));
    }
    place
}
