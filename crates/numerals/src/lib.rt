// The numbers of a dump: groups of seven bits, lowest first, top bit set on all but the last, 1 to 9 bytes in shortest form.
#![tactic(auto)]

ghost use Rattle.std.specs.Prelude.{◌≡◌, ◌+◌, ◌-◌, ◌^◌, ◌<◌, ◌≤◌, length, get_or, drop};
ghost use Rattle.code.specs.Lists.{Below};
ghost use Rattle.code.specs.Numerals.{sevens, read_sevens, numerals_of, read_numbers};
ghost use Rattle.storing.specs.Put.{Put};
ghost use Rattle.numerals.specs.Number.{number_of, numbers_of};

// A number that is found: its value and the place behind it.
#[derive(Clone, Copy)]
pub struct Number {
    pub value: u64,
    pub next: usize,
}

// What the ninth group counts for: 128^8.
const NINTH: u64 = 0x0100_0000_0000_0000;

pub fn read_number(bytes: &[u8], at: usize) -> Option<Number>
    ensures { result ≡ number_of at (read_sevens 9 (drop at bytes.now)) }
{
    let first = u64::from(*bytes.get(at)?);
    if first < 128 {
        return Some(Number {
            value: first,
            next: at + 1,
        });
    }
    read_longer(bytes, at, first - 128)
}

// The rest of a number whose first byte is not its last.
fn read_longer(bytes: &[u8], at: usize, low: u64) -> Option<Number>
    requires { (at < length bytes.now) × (get_or bytes.now at 0 ≡ low + 128) × (low < 128) }
    ensures { result ≡ number_of at (read_sevens 9 (drop at bytes.now)) }
{
    let mut value = low;
    let mut worth: u64 = 128;
    for i in at + 1..bytes.len() {
        let byte = u64::from(bytes[i]);
        if byte < 128 {
            if byte == 0 {
                return None;
            }
            return Some(Number {
                value: value + byte * worth,
                next: i + 1,
            });
        }
        if worth == NINTH {
            return None;
        }
        value += (byte - 128) * worth;
        worth *= 128;
    }
    None
}

pub fn number_length(x: u64) -> usize
    requires { x < 2 ^ 63 }
    ensures { result ≡ length (sevens 9 x) }
{
    let mut rest = x;
    let mut count = 1;
    while 128 <= rest {
        rest /= 128;
        count += 1;
    }
    count
}

pub fn write_number(out: &mut [u8], at: usize, x: u64) -> usize
    requires { (x < 2 ^ 63) × (at + length (sevens 9 x) ≤ length out.old) }
    ensures { Put out.old out.new at (sevens 9 x) result }
{
    let mut rest = x;
    let mut place = at;
    while 128 <= rest {
        out[place] = (128 + rest % 128) as u8;
        rest /= 128;
        place += 1;
    }
    out[place] = rest as u8;
    place + 1
}

// Reads as many numbers as there are places for, one after the other: the place behind them.
pub fn read_numbers(bytes: &[u8], at: usize, numbers: &mut [u64]) -> Option<usize>
    ensures { numbers_of numbers.new result ≡ read_numbers (length numbers.old) bytes.now at }
{
    let mut end = at;
    for number in numbers.iter_mut() {
        let Number { value, next } = read_number(bytes, end)?;
        *number = value;
        end = next;
    }
    Some(end)
}

pub fn numbers_length(numbers: &[u64]) -> usize
    requires { (Below (2 ^ 63) numbers.now) × (length numbers.now < 2 ^ 32) }
    ensures { result ≡ length (numerals_of numbers.now) }
{
    let mut total = 0;
    for &number in numbers {
        total += number_length(number);
    }
    total
}

pub fn write_numbers(out: &mut [u8], at: usize, numbers: &[u64]) -> usize
    requires { (Below (2 ^ 63) numbers.now) × (at + length (numerals_of numbers.now) ≤ length out.old) }
    ensures { Put out.old out.new at (numerals_of numbers.now) result }
{
    let mut place = at;
    for &number in numbers {
        place = write_number(out, place, number);
    }
    place
}
