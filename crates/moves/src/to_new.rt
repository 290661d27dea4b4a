// 02, §3, "with layouts in order of first use": an old dump that is opened, moved to a new one.
ghost use Rattle.std.specs.Prelude.{◌≡◌, List, [], ◌∷◌, ℕ, ◌+◌, ◌*◌, ◌^◌, ◌≤◌, ◌<◌, length, take};
ghost use Rattle.code.specs.declared.Kind.TheVariants.{Old};
ghost use Rattle.code.specs.Lists.{Below, same};
ghost use Rattle.code.specs.LayoutList.{Listed, listed_numbers};
ghost use Rattle.code.specs.Numerals.{numerals_of};
ghost use Rattle.code.specs.Export.{record_of};
ghost use Rattle.code.specs.Dump.{walk};
ghost use Rattle.code.specs.NewDump.{stop_of, place_of, joined, to_new_reply, to_new_leaves};
ghost use Rattle.storing.specs.Put.{Put, fitting};
ghost use Rattle.moves.specs.Answers.{moved_of};
ghost use Rattle.moves.specs.Kept.{kept_at, said_listed, kept_layouts, Keeps};
ghost use Rattle.moves.specs.Passes.{Begins, cells_at, Collects, Gathers, numbered_by};

use crate::LAYOUTS_MOST;
use code::{Kind, Refusal};
use dump::Halt;
use records::Said;

// The numbers of all layouts that are kept: form, m, t, v of each.
const KEPT_MOST: usize = 4 * LAYOUTS_MOST;

// What the first pass comes to: the length of all records moved and the count of their layouts.
#[derive(Clone, Copy)]
pub struct Collected {
    pub total: usize,
    pub layouts: usize,
}

// Whether the layout at a place of those kept is this one. The form is looked at last: in old dumps it is always 0.
fn is_kept(kept: &[u64], i: usize, said: Said) -> bool
    requires { 4 * i + 4 ≤ length kept.now }
    ensures { result ≡ same (listed_numbers (kept_at kept.now i)) (listed_numbers (said_listed said)) }
{
    let first = 4 * i;
    if kept[first + 3] != said.v {
        return false;
    }
    if kept[first + 2] != said.t {
        return false;
    }
    if kept[first + 1] != said.m {
        return false;
    }
    kept[first] == 0
}

// 02, §3, "layout number from 0": the place of a layout among those kept, their count where it is none of them.
fn place_of(kept: &[u64], count: usize, said: Said) -> usize
    requires { 4 * count ≤ length kept.now }
    ensures { result ≡ place_of (kept_layouts count kept.now) (said_listed said) }
{
    for i in 0..count {
        if is_kept(kept, i, said) {
            return i;
        }
    }
    count
}

// Keeps a layout behind the others, unless it is one of them: the count of those kept then, 65 where they are too many.
fn keep_layout(kept: &mut [u64], count: usize, said: Said) -> usize
    requires { (count ≤ 65) × (length kept.old ≡ 256) }
    ensures { (ls : List Listed) → Keeps count kept.old ls → Keeps result kept.new (joined ls (said_listed said)) }
{
    if LAYOUTS_MOST < count {
        return count;
    }
    if place_of(kept, count, said) < count {
        return count;
    }
    if count == LAYOUTS_MOST {
        return LAYOUTS_MOST + 1;
    }
    let first = 4 * count;
    kept[first] = 0;
    kept[first + 1] = said.m;
    kept[first + 2] = said.t;
    kept[first + 3] = said.v;
    count + 1
}

// Keeps the layouts of all records in order of first use. A 65th does not end the pass: 02, §3 has "7 and 8 first", also a 7 behind it.
fn collect(dump: &[u8], places: &[u16], kept: &mut [u64]) -> Result<Collected, Halt>
    requires { Begins Old dump.now places.now 0 × (length kept.old ≡ 256) }
    ensures { Gathers dump.now kept.new result }
{
    let mut at = 0;
    let mut total = 0;
    let mut layouts = 0;
    while let Some(head) = dump::locate(dump, Kind::Old, places, at)? {
        layouts = keep_layout(kept, layouts, head.said);
        // The number of a layout takes one byte, as 0 does.
        total += records::record_length(&[head.serial, 0], head.count);
        at = head.start + head.count;
    }
    Ok(Collected { total, layouts })
}

// Stores the layout list at the front of `out`: 02, §3, "the count of layouts (at most 64), then form, m, t, v of each". So small a count is one byte.
fn put_list(kept: &[u64], layouts: usize, out: &mut [u8]) -> usize
    requires layouts_bound { (layouts ≤ 64) × (length kept.now ≡ 256) }
    requires below { Below (2 ^ 63) (take (4 * layouts) kept.now) × (1 + length (numerals_of (take (4 * layouts) kept.now)) ≤ length out.old) }
    ensures { Put out.old out.new 0 (layouts ∷ numerals_of (take (4 * layouts) kept.now)) result }
{
    let end = 4 * layouts;
    let behind = storing::put_byte(out, 0, layouts as u8);
    numerals::write_numbers(out, behind, &kept[..end])
}

// Stores all records of a dump with the numbers of their layouts from a place of `out` on.
fn put_records(
    dump: &[u8],
    places: &[u16],
    kept: &[u64],
    layouts: usize,
    out: &mut [u8],
    first: usize,
) -> usize
    requires { Begins Old dump.now places.now 0 × (layouts ≤ 64) × (length kept.now ≡ 256) × (first ≤ length out.old) }
    ensures { let moved = numbered_by (kept_layouts layouts kept.now) dump.now in
        (stop_of (walk Old dump.now) ≡ [] → first + length moved ≤ length out.old
        → Put out.old out.new first moved result) }
{
    let mut at = 0;
    let mut place = first;
    // A stop would end it too: the first pass met none.
    while let Ok(Some(head)) = dump::locate(dump, Kind::Old, places, at) {
        let number = place_of(kept, layouts, head.said);
        place = crate::put_moved(dump, head, &[head.serial, number as u64], out, place);
        at = head.start + head.count;
    }
    place
}

// What the second pass makes of what the first came to.
fn store(
    dump: &[u8],
    places: &[u16],
    kept: &[u64],
    layouts: usize,
    total: usize,
    out: &mut [u8],
) -> Result<usize, Refusal>
    requires { Begins Old dump.now places.now 0 × Collects dump.now kept.now total layouts }
    ensures result_value { moved_of result ≡ to_new_reply dump.now out.old }
    ensures out_after { out.new ≡ to_new_leaves dump.now out.old }
{
    if LAYOUTS_MOST < layouts {
        return Err(Refusal::Layouts);
    }
    let end = 4 * layouts;
    let long = 1 + numerals::numbers_length(&kept[..end]) + total;
    crate::test_length(long, out.len())?;
    let first = put_list(kept, layouts, out);
    Ok(put_records(dump, places, kept, layouts, out, first))
}

// Moves a dump that is opened.
pub fn move_records(dump: &[u8], places: &[u16], out: &mut [u8]) -> Result<usize, Refusal>
    requires { Begins Old dump.now places.now 0 }
    ensures result_value { moved_of result ≡ to_new_reply dump.now out.old }
    ensures out_after { out.new ≡ to_new_leaves dump.now out.old }
{
    // Today's compiler clears so many numbers by a call of memset before it fills them, with ones too (docs/PORT.md).
    let mut kept = [1u64; KEPT_MOST];
    let Collected { total, layouts } = collect(dump, places, &mut kept)?;
    store(dump, places, &kept, layouts, total, out)
}
