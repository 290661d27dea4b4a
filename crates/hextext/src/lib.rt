// Document 02, §1: Intel HEX of bytes, out and in.
#![tactic(auto)]

mod export;
mod import;

ghost use Rattle.std.specs.Prelude.{◌≡◌};
ghost use Rattle.code.specs.Hex.{hex_export_reply, hex_export_leaves, hex_import_reply, hex_import_leaves};
ghost use Rattle.storing.specs.Answers.{made_of};

use code::Refusal;

// The most bytes of a text: there are no more addresses.
pub const BYTES_MOST: usize = 65536;

// The end record, which the export stores and the import compares.
pub const END: [u8; 12] = *b":00000001FF\n";

// Stores the text of `bytes` at the front of `out`.
pub fn hex_export(bytes: &[u8], out: &mut [u8]) -> Result<usize, Refusal>
    ensures result_value { made_of result ≡ hex_export_reply bytes.now out.old }
    ensures out_after { out.new ≡ hex_export_leaves bytes.now out.old }
{
    if BYTES_MOST < bytes.len() {
        return Err(Refusal::TooLong);
    }
    if out.len() < 12 * bytes.len().div_ceil(16) + 2 * bytes.len() + 12 {
        return Err(Refusal::Output);
    }
    let at = export::put_lines(out, bytes);
    Ok(export::put_end(out, at))
}

// Stores the bytes of `text` at the front of `out`.
pub fn hex_import(text: &[u8], out: &mut [u8]) -> Result<usize, Refusal>
    ensures result_value { made_of result ≡ hex_import_reply text.now out.old }
    ensures out_after { out.new ≡ hex_import_leaves text.now out.old }
{
    let all = import::check_text(text)?;
    if out.len() < all {
        return Err(Refusal::Output);
    }
    Ok(import::put_all_data(out, text, all))
}
