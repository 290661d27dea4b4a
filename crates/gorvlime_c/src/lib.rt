// The public calls for C: the answers of the calls of crate gorvlime in structs of numbers, 0 in the fields that an answer lacks.
#![tactic(auto)]

ghost use Rattle.std.specs.Prelude.{◌≡◌, ◌∷◌, ◌++◌, ◌+◌, ◌^◌, ◌<◌, take, drop, replicate, Ok, Some};
ghost use Rattle.code.specs.Calls.{filled, read_fields, write_fields, layout_fields, layout_reply, read_reply, write_reply, write_leaves};
ghost use Rattle.code.specs.Many.{many_reply, many_leaves};
ghost use Rattle.code.specs.JudgeCall.{judge_reply, judge_fields};
ghost use Rattle.code.specs.Resume.{resume_reply, resume_leaves, resume_fields};
ghost use Rattle.code.specs.Pair.{pair_read_reply, pair_read_fields, pair_write_reply, pair_first_leaves, pair_second_leaves, pair_write_fields};
ghost use Rattle.reading.specs.Answers.{read_fields_of};
ghost use Rattle.writing.specs.Answers.{write_fields_of};
ghost use Rattle.many.specs.Answers.{many_of};
ghost use Rattle.judging.specs.Answers.{judge_fields_of};
ghost use Rattle.resuming.specs.Answers.{resume_fields_of};
ghost use Rattle.pairing.specs.Answers.{pair_read_fields_of, pair_write_fields_of};
ghost use Rattle.code.specs.declared.Kind.TheVariants.{Old, New};
ghost use Rattle.code.specs.Export.{old_export, new_export, export_reply, export_leaves};
ghost use Rattle.code.specs.Dump.{open_reply, step_reply, walk_reply, walk_leaves};
ghost use Rattle.code.specs.NewDump.{layout_export_reply, layout_export_leaves, listed_reply, listed_fields, to_new_reply, to_new_leaves, to_old_reply, to_old_leaves};
ghost use Rattle.code.specs.Hex.{hex_export_reply, hex_export_leaves, hex_import_reply, hex_import_leaves};
ghost use Rattle.dump.specs.Answers.{halt_of, opened_reply, step_of};
ghost use Rattle.dump.specs.Listed.{listed_numbers_of};
ghost use Rattle.walking.specs.Answers.{walk_fields_of};
ghost use Rattle.moves.specs.Answers.{moved_of};
ghost use Rattle.storing.specs.Answers.{made_of};
ghost use Rattle.gorvlime_c.specs.Fields.{made_fields, open_fields, moved_fields, offset_fields, step_fields, new_step_fields};
ghost use Rattle.gorvlime_c.specs.Fields.{cells_end, new_found_fields, found_fields};

use code::{Pair, Refusal, Shape};
use dump::{Brief, Halt, Opened, Record};

#[unsafe(no_mangle)]
pub extern "C" fn gorvlime_layout(s: Shape, g: u64) -> layout::Layout
    ensures { (result.refusal ∷ result.h) ≡ filled layout_fields (layout_reply s g) }
{
    gorvlime::lay_out_fields(s, g)
}

#[unsafe(no_mangle)]
pub extern "C" fn gorvlime_read(s: Shape, cells: &[u8]) -> reading::ReadFields
    ensures { read_fields_of result ≡ read_fields (read_reply s cells.now) }
{
    reading::flat(gorvlime::read(s, cells))
}

#[unsafe(no_mangle)]
pub extern "C" fn gorvlime_write(s: Shape, cells: &mut [u8], number: u64) -> writing::WriteFields
    ensures result_value { write_fields_of result ≡ write_fields (write_reply s number cells.old) }
    ensures cells_after { cells.new ≡ write_leaves s number cells.old }
{
    writing::flat(gorvlime::write(s, cells, number))
}

#[unsafe(no_mangle)]
pub extern "C" fn gorvlime_write_many(s: Shape, cells: &mut [u8], numbers: &[u64]) -> many::Many
    ensures result_value { many_of result ≡ many_reply s numbers.now cells.old }
    ensures cells_after { cells.new ≡ many_leaves s numbers.now cells.old }
{
    gorvlime::write_many(s, cells, numbers)
}

#[repr(C)]
#[derive(Clone, Copy)]
pub struct MadeAnswer {
    pub refusal: u64,
    pub length: u64,
}

// A refusal fills the struct up from its front; those of the calls that store carry nothing.
fn flat_made(made: Result<usize, Refusal>) -> MadeAnswer
    ensures { made_fields result ≡ filled 2 (made_of made) }
{
    match made {
        Ok(length) => MadeAnswer {
            refusal: 0,
            length: length as u64,
        },
        Err(refusal) => {
            let told = refusal.fields();
            MadeAnswer {
                refusal: told.number,
                length: told.first,
            }
        }
    }
}

#[unsafe(no_mangle)]
pub extern "C" fn gorvlime_judge(s: Shape, before: &[u8], after: &[u8]) -> judging::JudgeFields
    ensures { judge_fields_of result ≡ judge_fields (judge_reply s before.now after.now) }
{
    judging::flat(gorvlime::judge(s, before, after))
}

#[unsafe(no_mangle)]
pub extern "C" fn gorvlime_resume(s: Shape, cells: &mut [u8], number: u64) -> resuming::ResumeFields
    ensures result_value { resume_fields_of result ≡ resume_fields (resume_reply s number cells.old) }
    ensures cells_after { cells.new ≡ resume_leaves s number cells.old }
{
    resuming::flat(gorvlime::resume(s, cells, number))
}

#[unsafe(no_mangle)]
pub extern "C" fn gorvlime_read_pair(
    pair: Pair,
    first: &[u8],
    second: &[u8],
) -> pairing::PairReadFields
    ensures { pair_read_fields_of result ≡ pair_read_fields (pair_read_reply pair first.now second.now) }
{
    pairing::flat_reading(gorvlime::read_pair(pair, first, second))
}

#[unsafe(no_mangle)]
pub extern "C" fn gorvlime_write_pair(
    pair: Pair,
    first: &mut [u8],
    second: &mut [u8],
    number: u64,
) -> pairing::PairWriteFields
    ensures result_value { pair_write_fields_of result ≡ pair_write_fields (pair_write_reply pair number first.old second.old) }
    ensures first_after { first.new ≡ pair_first_leaves pair number first.old second.old }
    ensures second_after { second.new ≡ pair_second_leaves pair number first.old second.old }
{
    pairing::flat_writing(gorvlime::write_pair(pair, first, second, number))
}

#[unsafe(no_mangle)]
pub extern "C" fn gorvlime_export(
    serial: u64,
    m: u64,
    t: u64,
    v: u64,
    cells: &[u8],
    out: &mut [u8],
) -> MadeAnswer
    ensures result_value { made_fields result ≡ filled 2 (export_reply (old_export serial m t v) cells.now out.old) }
    ensures out_after { out.new ≡ export_leaves (old_export serial m t v) cells.now out.old }
{
    flat_made(gorvlime::export(serial, m, t, v, cells, out))
}

#[repr(C)]
#[derive(Clone, Copy)]
pub struct StepAnswer {
    pub refusal: u64,
    pub offset: u64,
    pub records: u64,
    pub serial: u64,
    pub m: u64,
    pub t: u64,
    pub v: u64,
    pub start: u64,
    pub length: u64,
    pub next: u64,
    pub refused: u64,
    pub generation: u64,
    pub number: u64,
    pub left: u64,
    pub unerased: u64,
}

#[repr(C)]
#[derive(Clone, Copy)]
pub struct NewStepAnswer {
    pub refusal: u64,
    pub offset: u64,
    pub records: u64,
    pub serial: u64,
    pub layout: u64,
    pub brief: Brief,
    pub start: u64,
    pub length: u64,
    pub next: u64,
    pub refused: u64,
    pub generation: u64,
    pub number: u64,
    pub left: u64,
    pub unerased: u64,
}

// A step that gives no record.
fn no_record(refusal: u64, offset: u64) -> NewStepAnswer
    ensures { new_step_fields result ≡ refusal ∷ offset ∷ replicate 15 0 }
{
    let brief = Brief {
        form: 0,
        m: 0,
        t: 0,
        v: 0,
    };
    NewStepAnswer {
        refusal,
        offset,
        records: 0,
        serial: 0,
        layout: 0,
        brief,
        start: 0,
        length: 0,
        next: 0,
        refused: 0,
        generation: 0,
        number: 0,
        left: 0,
        unerased: 0,
    }
}

fn no_step(halt: Halt) -> NewStepAnswer
    ensures { new_step_fields result ≡ new_found_fields (halt_of halt) }
{
    no_record(Refusal::from(halt).number(), halt.offset() as u64)
}

fn flat_record(record: Record) -> NewStepAnswer
    requires { record.start + record.count < 2 ^ 64 }
    ensures { new_step_fields result ≡ new_found_fields (step_of (Ok (Some «record»))) }
{
    let told = reading::flat(record.outcome);
    NewStepAnswer {
        refusal: 0,
        offset: 0,
        records: 1,
        serial: record.serial,
        layout: record.layout,
        brief: record.brief,
        start: record.start as u64,
        length: record.count as u64,
        next: (record.start + record.count) as u64,
        refused: told.refusal,
        generation: told.generation,
        number: told.number,
        left: told.left,
        unerased: told.unerased,
    }
}

fn flat_step(step: Result<Option<Record>, Halt>) -> NewStepAnswer
    requires { cells_end (step_of «step») < 2 ^ 64 }
    ensures { new_step_fields result ≡ new_found_fields (step_of «step») }
{
    match step {
        Ok(Some(record)) => flat_record(record),
        Ok(None) => no_record(0, 0),
        Err(halt) => no_step(halt),
    }
}

// A step of an old dump, which has no number of a layout and no form.
fn without_layout(a: NewStepAnswer) -> StepAnswer
    ensures { step_fields result ≡ take 4 (new_step_fields a) ++ drop 6 (new_step_fields a) }
{
    let s = a.brief;
    StepAnswer {
        refusal: a.refusal,
        offset: a.offset,
        records: a.records,
        serial: a.serial,
        m: s.m,
        t: s.t,
        v: s.v,
        start: a.start,
        length: a.length,
        next: a.next,
        refused: a.refused,
        generation: a.generation,
        number: a.number,
        left: a.left,
        unerased: a.unerased,
    }
}

#[unsafe(no_mangle)]
pub extern "C" fn gorvlime_step(bytes: &[u8], at: usize) -> StepAnswer
    ensures { step_fields result ≡ found_fields (step_reply Old bytes.now at) }
{
    without_layout(flat_step(gorvlime::step(bytes, at)))
}

#[unsafe(no_mangle)]
pub extern "C" fn gorvlime_step_new(bytes: &[u8], at: usize) -> NewStepAnswer
    ensures { new_step_fields result ≡ new_found_fields (step_reply New bytes.now at) }
{
    flat_step(gorvlime::step_new(bytes, at))
}

#[repr(C)]
#[derive(Clone, Copy)]
pub struct OpenAnswer {
    pub refusal: u64,
    pub offset: u64,
    pub layouts: u64,
    pub first: u64,
}

fn flat_opened(opened: Result<Opened, Halt>) -> OpenAnswer
    ensures { open_fields result ≡ offset_fields 4 (opened_reply opened) }
{
    match opened {
        Ok(front) => OpenAnswer {
            refusal: 0,
            offset: 0,
            layouts: front.layouts as u64,
            first: front.start as u64,
        },
        Err(halt) => OpenAnswer {
            refusal: Refusal::from(halt).number(),
            offset: halt.offset() as u64,
            layouts: 0,
            first: 0,
        },
    }
}

#[unsafe(no_mangle)]
pub extern "C" fn gorvlime_open_new(bytes: &[u8]) -> OpenAnswer
    ensures { open_fields result ≡ offset_fields 4 (open_reply New bytes.now) }
{
    flat_opened(gorvlime::open_new(bytes))
}

#[unsafe(no_mangle)]
pub extern "C" fn gorvlime_listed_shape(bytes: &[u8], number: u64) -> dump::listed::ListedShape
    ensures { listed_numbers_of result ≡ filled listed_fields (listed_reply bytes.now number) }
{
    dump::listed::flat(gorvlime::listed_shape(bytes, number))
}

#[unsafe(no_mangle)]
pub extern "C" fn gorvlime_walk(bytes: &[u8], at: usize, rows: &mut [u64]) -> walking::WalkFields
    ensures result_value { walk_fields_of result ≡ walk_reply Old bytes.now at rows.old }
    ensures rows_after { rows.new ≡ walk_leaves Old bytes.now at rows.old }
{
    walking::flat(gorvlime::walk(bytes, at, rows))
}

#[unsafe(no_mangle)]
pub extern "C" fn gorvlime_walk_new(
    bytes: &[u8],
    at: usize,
    rows: &mut [u64],
) -> walking::WalkFields
    ensures result_value { walk_fields_of result ≡ walk_reply New bytes.now at rows.old }
    ensures rows_after { rows.new ≡ walk_leaves New bytes.now at rows.old }
{
    walking::flat(gorvlime::walk_new(bytes, at, rows))
}

#[repr(C)]
#[derive(Clone, Copy)]
pub struct MovedAnswer {
    pub refusal: u64,
    pub offset: u64,
    pub length: u64,
}

// A refusal fills the struct up from its front; those of a move carry an offset at most.
fn flat_moved(moved: Result<usize, Refusal>) -> MovedAnswer
    ensures { moved_fields result ≡ offset_fields 3 (moved_of moved) }
{
    match moved {
        Ok(length) => MovedAnswer {
            refusal: 0,
            offset: 0,
            length: length as u64,
        },
        Err(refusal) => {
            let told = refusal.fields();
            MovedAnswer {
                refusal: told.number,
                offset: told.first,
                length: told.second,
            }
        }
    }
}

#[unsafe(no_mangle)]
pub extern "C" fn gorvlime_move_to_new(bytes: &[u8], out: &mut [u8]) -> MovedAnswer
    ensures result_value { moved_fields result ≡ offset_fields 3 (to_new_reply bytes.now out.old) }
    ensures out_after { out.new ≡ to_new_leaves bytes.now out.old }
{
    flat_moved(gorvlime::move_to_new(bytes, out))
}

#[unsafe(no_mangle)]
pub extern "C" fn gorvlime_move_to_old(bytes: &[u8], out: &mut [u8]) -> MovedAnswer
    ensures result_value { moved_fields result ≡ offset_fields 3 (to_old_reply bytes.now out.old) }
    ensures out_after { out.new ≡ to_old_leaves bytes.now out.old }
{
    flat_moved(gorvlime::move_to_old(bytes, out))
}

#[unsafe(no_mangle)]
pub extern "C" fn gorvlime_export_layout(shape: Shape, out: &mut [u8]) -> MadeAnswer
    ensures result_value { made_fields result ≡ filled 2 (layout_export_reply shape out.old) }
    ensures out_after { out.new ≡ layout_export_leaves shape out.old }
{
    flat_made(gorvlime::export_layout(shape, out))
}

#[unsafe(no_mangle)]
pub extern "C" fn gorvlime_export_record(
    serial: u64,
    number: u64,
    shape: Shape,
    cells: &[u8],
    out: &mut [u8],
) -> MadeAnswer
    ensures result_value { made_fields result ≡ filled 2 (export_reply (new_export serial number shape) cells.now out.old) }
    ensures out_after { out.new ≡ export_leaves (new_export serial number shape) cells.now out.old }
{
    flat_made(gorvlime::export_record(serial, number, shape, cells, out))
}

#[unsafe(no_mangle)]
pub extern "C" fn gorvlime_hex_export(bytes: &[u8], out: &mut [u8]) -> MadeAnswer
    ensures result_value { made_fields result ≡ filled 2 (hex_export_reply bytes.now out.old) }
    ensures out_after { out.new ≡ hex_export_leaves bytes.now out.old }
{
    flat_made(gorvlime::hex_export(bytes, out))
}

#[unsafe(no_mangle)]
pub extern "C" fn gorvlime_hex_import(text: &[u8], out: &mut [u8]) -> MadeAnswer
    ensures result_value { made_fields result ≡ filled 2 (hex_import_reply text.now out.old) }
    ensures out_after { out.new ≡ hex_import_leaves text.now out.old }
{
    flat_made(gorvlime::hex_import(text, out))
}
