// The public calls: each answers for all inputs, and its promise fixes the answer and all that it is lent.
#![tactic(auto)]

ghost use Rattle.std.specs.Prelude.{◌≡◌, ◌∷◌, take, drop};
ghost use Rattle.code.specs.Calls.{filled, layout_fields, layout_reply, read_reply, write_reply, write_leaves};
ghost use Rattle.code.specs.Many.{many_reply, many_leaves};
ghost use Rattle.code.specs.JudgeCall.{judge_reply};
ghost use Rattle.code.specs.Resume.{resume_reply, resume_leaves, resume_fields};
ghost use Rattle.code.specs.Pair.{pair_read_reply, pair_write_reply, pair_first_leaves, pair_second_leaves};
ghost use Rattle.code.specs.declared.Kind.TheVariants.{Old, New};
ghost use Rattle.code.specs.Export.{old_export, new_export, export_reply, export_leaves};
ghost use Rattle.code.specs.Dump.{open_reply, step_reply, walk_reply, walk_leaves};
ghost use Rattle.code.specs.NewDump.{layout_export_reply, layout_export_leaves, listed_reply, listed_fields, to_new_reply, to_new_leaves, to_old_reply, to_old_leaves};
ghost use Rattle.code.specs.Hex.{hex_export_reply, hex_export_leaves, hex_import_reply, hex_import_leaves};
ghost use Rattle.layout.specs.Plan.{laid_of};
ghost use Rattle.reading.specs.Answers.{reading_of};
ghost use Rattle.writing.specs.Answers.{writing_of};
ghost use Rattle.many.specs.Answers.{many_of};
ghost use Rattle.judging.specs.Answers.{judged_of, Says};
ghost use Rattle.resuming.specs.Answers.{resumed_of};
ghost use Rattle.pairing.specs.Answers.{pair_reading_of, pair_writing_of};
ghost use Rattle.dump.specs.Answers.{opened_reply, step_of};
ghost use Rattle.dump.specs.Listed.{listed_of};
ghost use Rattle.walking.specs.Answers.{walked_of};
ghost use Rattle.moves.specs.Answers.{moved_of};
ghost use Rattle.storing.specs.Answers.{made_of};

use code::{Kind, Pair, Refusal, Shape};
use dump::{Halt, Opened, Record};
use layout::Layout;
use many::Many;
use pairing::{PairRead, PairWritten};
use reading::Reading;
use resuming::Resumed;
use walking::Walked;
use writing::Written;

// The counts of a field in g groups.
pub fn lay_out(s: Shape, g: u64) -> Result<[u64; 16], Refusal>
    ensures { laid_of result ≡ filled layout_fields (layout_reply s g) }
{
    layout::lay_out(s, g)
}

// The same in numbers, for C: it is put where it is called, since its answer handed on would be copied.
#[inline(always)]
pub fn lay_out_fields(s: Shape, g: u64) -> Layout
    ensures { (result.refusal ∷ result.h) ≡ filled layout_fields (layout_reply s g) }
{
    layout::lay_out_fields(s, g)
}

// The number in a field.
pub fn read(s: Shape, cells: &[u8]) -> Result<Reading, Refusal>
    ensures { reading_of result ≡ read_reply s cells.now }
{
    reading::read(s, cells)
}

// A new number in a field.
pub fn write(s: Shape, cells: &mut [u8], number: u64) -> Result<Written, Refusal>
    ensures result_value { writing_of result ≡ write_reply s number cells.old }
    ensures cells_after { cells.new ≡ write_leaves s number cells.old }
{
    writing::write(s, cells, number)
}

// One number for each of the fields that lie end to end in the cells, written in order up to the first refusal. It is put where it is called too: a copy of
// the answer would take 304 bytes of stack.
#[inline(always)]
pub fn write_many(s: Shape, cells: &mut [u8], numbers: &[u64]) -> Many
    ensures result_value { many_of result ≡ many_reply s numbers.now cells.old }
    ensures cells_after { cells.new ≡ many_leaves s numbers.now cells.old }
{
    many::write_many(s, cells, numbers)
}

// Whether some choice of spare groups makes the cells after a write a right one of some number on the cells before it.
pub fn judge(s: Shape, before: &[u8], after: &[u8]) -> Result<Option<u64>, Refusal>
    ensures result_value { judged_of result ≡ judge_reply s before.now after.now }
    ensures says { Says s before.now after.now result }
{
    judging::judge(s, before, after)
}

// The number of a write that was cut off, on cells that have no reading since.
pub fn resume(s: Shape, cells: &mut [u8], number: u64) -> Result<Resumed, Refusal>
    ensures result_value { resumed_of result ≡ resume_fields (resume_reply s number cells.old) }
    ensures cells_after { cells.new ≡ resume_leaves s number cells.old }
{
    resuming::resume(s, cells, number)
}

// The number in two fields side by side: the sum of theirs, modulo the range.
pub fn read_pair(p: Pair, first: &[u8], second: &[u8]) -> Result<PairRead, Refusal>
    ensures { pair_reading_of result ≡ pair_read_reply p first.now second.now }
{
    pairing::read_pair(p, first, second)
}

// A new number in two fields side by side, of which one is written.
pub fn write_pair(
    p: Pair,
    first: &mut [u8],
    second: &mut [u8],
    number: u64,
) -> Result<PairWritten, Refusal>
    ensures result_value { pair_writing_of result ≡ pair_write_reply p number first.old second.old }
    ensures first_after { first.new ≡ pair_first_leaves p number first.old second.old }
    ensures second_after { second.new ≡ pair_second_leaves p number first.old second.old }
{
    pairing::write_pair(p, first, second, number)
}

// The record of a field for an old dump, at the front of the output.
pub fn export(
    serial: u64,
    m: u64,
    t: u64,
    v: u64,
    cells: &[u8],
    out: &mut [u8],
) -> Result<usize, Refusal>
    ensures result_value { made_of result ≡ export_reply (old_export serial m t v) cells.now out.old }
    ensures out_after { out.new ≡ export_leaves (old_export serial m t v) cells.now out.old }
{
    exports::export_old(serial, m, t, v, cells, out)
}

// A layout for the list of a new dump, at the front of the output.
pub fn export_layout(shape: Shape, out: &mut [u8]) -> Result<usize, Refusal>
    ensures result_value { made_of result ≡ layout_export_reply shape out.old }
    ensures out_after { out.new ≡ layout_export_leaves shape out.old }
{
    exports::export_layout(shape, out)
}

// The record of a field for a new dump, whose layout has a number in its list, at the front of the output.
pub fn export_record(
    serial: u64,
    number: u64,
    shape: Shape,
    cells: &[u8],
    out: &mut [u8],
) -> Result<usize, Refusal>
    ensures result_value { made_of result ≡ export_reply (new_export serial number shape) cells.now out.old }
    ensures out_after { out.new ≡ export_leaves (new_export serial number shape) cells.now out.old }
{
    exports::export_record(serial, number, shape, cells, out)
}

// The record at a place of an old dump.
pub fn step(bytes: &[u8], at: usize) -> Result<Option<Record>, Halt>
    ensures { step_of result ≡ step_reply Old bytes.now at }
{
    dump::step_at(bytes, Kind::Old, at)
}

// The layouts of a new dump, how many there are, and the place of its first record.
pub fn open_new(bytes: &[u8]) -> Result<Opened, Halt>
    ensures { opened_reply result ≡ open_reply New bytes.now }
{
    dump::open_new(bytes)
}

// The layout that has a number in the list of a new dump, with all its ranges.
pub fn listed_shape(bytes: &[u8], number: u64) -> Result<Shape, Refusal>
    ensures { listed_of result ≡ filled listed_fields (listed_reply bytes.now number) }
{
    dump::listed::listed_shape(bytes, number)
}

// The record at a place of a new dump.
pub fn step_new(bytes: &[u8], at: usize) -> Result<Option<Record>, Halt>
    ensures { step_of result ≡ step_reply New bytes.now at }
{
    dump::step_at(bytes, Kind::New, at)
}

// The cells of a record that a step gives, as a part of its dump.
pub fn part(bytes: &[u8], start: usize, count: usize) -> &[u8]
    ensures { result.now ≡ take count (drop start bytes.now) }
{
    records::part(bytes, start, count)
}

// The records from a place of an old dump on, eleven numbers each, as many as fit into the rows.
pub fn walk(bytes: &[u8], at: usize, rows: &mut [u64]) -> Walked
    ensures result_value { walked_of result ≡ walk_reply Old bytes.now at rows.old }
    ensures rows_after { rows.new ≡ walk_leaves Old bytes.now at rows.old }
{
    walking::walk(bytes, Kind::Old, at, rows)
}

// The records from a place of a new dump on, thirteen numbers each, as many as fit into the rows.
pub fn walk_new(bytes: &[u8], at: usize, rows: &mut [u64]) -> Walked
    ensures result_value { walked_of result ≡ walk_reply New bytes.now at rows.old }
    ensures rows_after { rows.new ≡ walk_leaves New bytes.now at rows.old }
{
    walking::walk(bytes, Kind::New, at, rows)
}

// The new dump that an old one moves to, at the front of the output.
pub fn move_to_new(bytes: &[u8], out: &mut [u8]) -> Result<usize, Refusal>
    ensures result_value { moved_of result ≡ to_new_reply bytes.now out.old }
    ensures out_after { out.new ≡ to_new_leaves bytes.now out.old }
{
    moves::move_to_new(bytes, out)
}

// The old dump that a new one moves back to, at the front of the output.
pub fn move_to_old(bytes: &[u8], out: &mut [u8]) -> Result<usize, Refusal>
    ensures result_value { moved_of result ≡ to_old_reply bytes.now out.old }
    ensures out_after { out.new ≡ to_old_leaves bytes.now out.old }
{
    moves::move_to_old(bytes, out)
}

// The Intel HEX text of bytes, at the front of the output.
pub fn hex_export(bytes: &[u8], out: &mut [u8]) -> Result<usize, Refusal>
    ensures result_value { made_of result ≡ hex_export_reply bytes.now out.old }
    ensures out_after { out.new ≡ hex_export_leaves bytes.now out.old }
{
    hextext::hex_export(bytes, out)
}

// The bytes of an Intel HEX text, at the front of the output.
pub fn hex_import(text: &[u8], out: &mut [u8]) -> Result<usize, Refusal>
    ensures result_value { made_of result ≡ hex_import_reply text.now out.old }
    ensures out_after { out.new ≡ hex_import_leaves text.now out.old }
{
    hextext::hex_import(text, out)
}
