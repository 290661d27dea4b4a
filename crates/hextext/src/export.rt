// The text of bytes, line by line.
ghost use Rattle.std.specs.Prelude.{◌≡◌, [], ◌∷◌, ◌+◌, ◌*◌, ◌<◌, ◌≤◌, length};
ghost use Rattle.code.specs.Hex.{hex_digit, hex_digits, data_line, data_lines, line_count, end_record};
ghost use Rattle.code.specs.Lists.{list_sum};
ghost use Rattle.storing.specs.Put.{Put};

#[tactic(auto, unfolding(code::specs::Hex::hex_digit))]
fn hex_digit(x: u8) -> u8
    requires { x < 16 }
    ensures { result ≡ hex_digit x }
{
    if x < 10 { b'0' + x } else { b'A' - 10 + x }
}

#[tactic(auto, unfolding(code::specs::Hex::hex_digits))]
fn put_digits(out: &mut [u8], at: usize, byte: u8) -> usize
    requires { at + 2 ≤ length out.old }
    ensures { Put out.old out.new at (hex_digits (byte ∷ [])) result }
{
    out[at] = hex_digit(byte / 16);
    out[at + 1] = hex_digit(byte % 16);
    at + 2
}

fn put_all_digits(out: &mut [u8], at: usize, bytes: &[u8]) -> usize
    requires { at + 2 * length bytes.now ≤ length out.old }
    ensures { Put out.old out.new at (hex_digits bytes.now) result × (result ≡ at + 2 * length bytes.now) }
{
    let mut next = at;
    for &byte in bytes {
        next = put_digits(out, next, byte);
    }
    next
}

fn byte_sum(bytes: &[u8]) -> u64
    requires { length bytes.now ≤ 255 }
    ensures { (result ≡ list_sum bytes.now) × (result ≤ 255 * length bytes.now) }
{
    bytes.iter().map(|&byte| u64::from(byte)).sum()
}

// A data record of the bytes that stand from the address on.
fn put_line(out: &mut [u8], at: usize, address: usize, bytes: &[u8]) -> usize
    requires { (address < 65536) × (length bytes.now ≤ 16) × (at + (12 + 2 * length bytes.now) ≤ length out.old) }
    ensures { Put out.old out.new at (data_line address bytes.now) result }
{
    let head = [
        bytes.len() as u8,
        (address / 256) as u8,
        (address % 256) as u8,
        0,
    ];
    let sum = (byte_sum(&head) + byte_sum(bytes)) % 256;
    let first = storing::put_byte(out, at, b':');
    let second = put_all_digits(out, first, &head);
    let third = put_all_digits(out, second, bytes);
    let fourth = put_digits(out, third, ((256 - sum) % 256) as u8);
    storing::put_byte(out, fourth, b'\n')
}

pub fn put_lines(out: &mut [u8], bytes: &[u8]) -> usize
    requires { (length bytes.now ≤ 65536) × (12 * line_count (length bytes.now) + 2 * length bytes.now ≤ length out.old) }
    ensures { Put out.old out.new 0 (data_lines (line_count (length bytes.now)) 0 bytes.now) result }
{
    let mut at = 0;
    for (n, line) in bytes.chunks(16).enumerate() {
        at = put_line(out, at, 16 * n, line);
    }
    at
}

#[tactic(auto, unfolding(code::specs::Lists::ascii, code::specs::Hex::end_record))]
pub fn put_end(out: &mut [u8], at: usize) -> usize
    requires { at + 12 ≤ length out.old }
    ensures { Put out.old out.new at end_record result }
{
    storing::put_bytes(out, at, &crate::END)
}
