// Documents 01 and 02, export: the record of a field for either kind of dump, and a layout for the list of a new one.
#![tactic(auto)]

ghost use Rattle.std.specs.Prelude.{◌≡◌, ◌^◌, ◌≤◌, length};
ghost use Rattle.code.specs.Lists.{Below};
ghost use Rattle.shapes.specs.Outlines.{outlined};
ghost use Rattle.code.proofs.LayoutCall.{Bounds};
ghost use Rattle.code.specs.Export.{old_export, new_export, export_reply, export_leaves};
ghost use Rattle.code.specs.NewDump.{layout_export_reply, layout_export_leaves};
ghost use Rattle.storing.specs.Answers.{made_of};
ghost use Rattle.exports.specs.Exported.{Exported};

use code::{Refusal, Shape};
use shapes::Outline;

// The least serial that is refused.
const SERIAL_END: u64 = 0x8000_0000_0000_0000;

// Stores a field's record, whose numbers before n are its head, at the front of `out`. The serial and the layout's number are tested before.
fn export_cells(
    f: Outline,
    v: &[u64; 16],
    head: &[u64],
    cells: &[u8],
    out: &mut [u8],
) -> Result<usize, Refusal>
    requires { (Bounds (outlined f v.now) → Below (2 ^ 63) head.now) × (length head.now ≤ 4) }
    ensures { Exported (outlined f v.now) head.now cells.now out.old (made_of result) out.new }
{
    let mut h = [0u64; 16];
    layout::lay_into(&mut h, f, v, 256)?;
    if !cells::is_sound(cells, shapes::order(f), f.m as usize, h[0] as usize) {
        return Err(Refusal::Cells);
    }
    if out.len() < records::record_length(head, cells.len()) {
        return Err(Refusal::Output);
    }
    Ok(records::put_record(out, 0, head, cells))
}

// Stores the record of a field for an old dump at the front of `out`.
pub fn export_old(
    serial: u64,
    m: u64,
    t: u64,
    v: u64,
    cells: &[u8],
    out: &mut [u8],
) -> Result<usize, Refusal>
    ensures result_value { made_of result ≡ export_reply (old_export serial m t v) cells.now out.old }
    ensures out_after { out.new ≡ export_leaves (old_export serial m t v) cells.now out.old }
{
    if SERIAL_END <= serial {
        return Err(Refusal::Serial);
    }
    let f = Outline {
        form: 0,
        m,
        t,
        count: 1,
    };
    let mut ranges = [0u64; 16];
    ranges[0] = v;
    let head = [serial, m, t, v];
    export_cells(f, &ranges, &head, cells, out)
}

// Stores the record of a field for a new dump, whose layout has a number in its list, at the front of `out`.
pub fn export_record(
    serial: u64,
    layout: u64,
    shape: Shape,
    cells: &[u8],
    out: &mut [u8],
) -> Result<usize, Refusal>
    ensures result_value { made_of result ≡ export_reply (new_export serial «layout» shape) cells.now out.old }
    ensures out_after { out.new ≡ export_leaves (new_export serial «layout» shape) cells.now out.old }
{
    if SERIAL_END <= serial {
        return Err(Refusal::Serial);
    }
    if 63 < layout {
        return Err(Refusal::Bounds);
    }
    let head = [serial, layout];
    let v = shape.v;
    export_cells(shapes::outline_of(shape), &v, &head, cells, out)
}

// Stores a layout for the list of a new dump at the front of `out`.
pub fn export_layout(shape: Shape, out: &mut [u8]) -> Result<usize, Refusal>
    ensures result_value { made_of result ≡ layout_export_reply shape out.old }
    ensures out_after { out.new ≡ layout_export_leaves shape out.old }
{
    let mut h = [0u64; 16];
    let v = shape.v;
    layout::lay_into(&mut h, shapes::outline_of(shape), &v, 256)?;
    let numbers = [shape.form, shape.m, shape.t];
    let ranges = &v[..shape.count as usize];
    if out.len() < numerals::numbers_length(&numbers) + numerals::numbers_length(ranges) {
        return Err(Refusal::Output);
    }
    let behind = numerals::write_numbers(out, 0, &numbers);
    Ok(numerals::write_numbers(out, behind, ranges))
}
