// 02, §3, "and back": a new dump that is opened, moved to an old one.
ghost use Rattle.std.specs.Prelude.{◌≡◌, List, [], ℕ, ◌+◌, ◌^◌, ◌≤◌, ◌<◌, length};
ghost use Rattle.code.specs.declared.Kind.TheVariants.{New};
ghost use Rattle.code.specs.Lists.{Below};
ghost use Rattle.code.specs.Export.{record_of};
ghost use Rattle.code.specs.Dump.{walk};
ghost use Rattle.code.specs.NewDump.{stop_of, foreign, to_old, to_old_reply, to_old_leaves};
ghost use Rattle.storing.specs.Put.{Put, fitting};
ghost use Rattle.records.specs.Source.{layouts_at, source_of};
ghost use Rattle.moves.specs.Answers.{moved_of};
ghost use Rattle.moves.specs.Kept.{said_head, SaysOld};
ghost use Rattle.moves.specs.Passes.{Begins, cells_at, Measures};

use code::{Kind, Refusal};
use dump::Halt;
use records::{Head, Said};

// The layout that a record says by its number, as records of an old dump say it, up to the first range: no other form than 0 moves, and that has one.
// It is read in the list where the record before said another.
fn renew(dump: &[u8], places: &[u16], kept: Said, said: Said) -> Said
    requires { SaysOld (source_of New dump.now places.now) kept }
    ensures { (result.layout ≡ said.layout) × SaysOld (source_of New dump.now places.now) result }
{
    if kept.layout == said.layout {
        return kept;
    }
    let shape = records::shape_said(dump, Kind::New, places, said);
    let v = shape.v;
    Said {
        layout: said.layout,
        m: shape.m,
        t: shape.t,
        v: v[0],
    }
}

// The numbers before n of a record with what its layout says.
fn old_numbers(head: Head, said: Said) -> [u64; 4]
    ensures { result ≡ said_head head.serial said }
{
    [head.serial, said.m, said.t, said.v]
}

// The length of all records of a dump once they are moved.
fn measure(dump: &[u8], places: &[u16], start: usize) -> Result<usize, Halt>
    requires { Begins New dump.now places.now start }
    ensures { Measures dump.now result }
{
    let mut at = start;
    let mut total = 0;
    let mut kept = dump::kept::say_none();
    while let Some(head) = dump::locate(dump, Kind::New, places, at)? {
        kept = renew(dump, places, kept, head.said);
        total += records::record_length(&old_numbers(head, kept), head.count);
        at = head.start + head.count;
    }
    Ok(total)
}

// 02, §3: "12 for a listed form, used or not, that the old dump cannot hold".
fn has_foreign(dump: &[u8], places: &[u16]) -> bool
    ensures { result ≡ foreign (layouts_at dump.now places.now) }
{
    for &place in places {
        let shape = records::list::shape_at(dump, place as usize);
        if 0 < shape.form {
            return true;
        }
    }
    false
}

// Stores all records of a dump at the front of `out`.
fn put_records(dump: &[u8], places: &[u16], start: usize, out: &mut [u8]) -> usize
    requires { Begins New dump.now places.now start }
    ensures { let moved = to_old dump.now in
        (stop_of (walk New dump.now) ≡ [] → length moved ≤ length out.old → Put out.old out.new 0 moved result) }
{
    let mut at = start;
    let mut place = 0;
    let mut kept = dump::kept::say_none();
    // A stop would end it too: the first pass met none.
    while let Ok(Some(head)) = dump::locate(dump, Kind::New, places, at) {
        kept = renew(dump, places, kept, head.said);
        place = crate::put_moved(dump, head, &old_numbers(head, kept), out, place);
        at = head.start + head.count;
    }
    place
}

// Moves a dump that is opened: its records begin at `start`.
pub fn move_records(
    dump: &[u8],
    places: &[u16],
    start: usize,
    out: &mut [u8],
) -> Result<usize, Refusal>
    requires { Begins New dump.now places.now start }
    ensures result_value { moved_of result ≡ to_old_reply dump.now out.old }
    ensures out_after { out.new ≡ to_old_leaves dump.now out.old }
{
    let total = measure(dump, places, start)?;
    if has_foreign(dump, places) {
        return Err(Refusal::Form);
    }
    crate::test_length(total, out.len())?;
    Ok(put_records(dump, places, start, out))
}
