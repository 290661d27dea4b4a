// Document 02, §3: "Move old dumps to new, with layouts in order of first use, and back." A move measures in a first pass and stores in a second, which reads
// the dump anew. The header forbids that it changes in between. Where it does nevertheless, nothing behind the output is stored: the second pass takes nothing
// on trust that the first one found, and tests by itself that each record fits.
#![tactic(auto)]

mod to_new;
mod to_old;

ghost use Rattle.std.specs.Prelude.{◌≡◌, ◌+◌, ◌^◌, ◌≤◌, ◌<◌, length};
ghost use Rattle.code.specs.Lists.{Below};
ghost use Rattle.code.specs.Export.{record_of};
ghost use Rattle.code.specs.NewDump.{to_new_reply, to_new_leaves, to_old_reply, to_old_leaves};
ghost use Rattle.storing.specs.Put.{Put, fitting};
ghost use Rattle.moves.specs.Answers.{moved_of};
ghost use Rattle.moves.specs.Passes.{refused_by, length_refusal, cells_at};

use code::{Kind, Refusal};
use records::Head;

// The most layouts of a new dump.
const LAYOUTS_MOST: usize = records::list::LAYOUTS_MOST;

// 02, §3: "8 again where the moved dump would pass 65,536 bytes, 9 last".
fn test_length(length: usize, room: usize) -> Result<(), Refusal>
    ensures { refused_by result ≡ length_refusal «length» room }
{
    if dump::DUMP_MOST < length {
        return Err(Refusal::TooLong);
    }
    if room < length {
        return Err(Refusal::Output);
    }
    Ok(())
}

// Stores the record of a head at a place of `out`, with other numbers before n, or nothing where it does not fit.
fn put_moved(dump: &[u8], head: Head, numbers: &[u64], out: &mut [u8], place: usize) -> usize
    requires below { Below (2 ^ 63) numbers.now × (length numbers.now < 2 ^ 32) }
    requires head_in_bounds { (head.start + head.count ≤ length dump.now) × (place ≤ length out.old) }
    ensures { let moved = record_of numbers.now (cells_at dump.now head) in
        Put out.old out.new place (fitting out.old place moved) result }
{
    if !records::fits(numbers, head.count, out.len() - place) {
        return place;
    }
    let cells = &dump[head.start..head.start + head.count];
    records::put_record(out, place, numbers, cells)
}

// Moves an old dump to a new one, which it stores at the front of `out`: the length of the new one.
pub fn move_to_new(dump: &[u8], out: &mut [u8]) -> Result<usize, Refusal>
    ensures result_value { moved_of result ≡ to_new_reply dump.now out.old }
    ensures out_after { out.new ≡ to_new_leaves dump.now out.old }
{
    let mut places = [0u16; LAYOUTS_MOST];
    let opened = dump::open(dump, Kind::Old, &mut places)?;
    to_new::move_records(dump, &places[..opened.layouts], out)
}

// Moves a new dump to an old one, which it stores at the front of `out`: the length of the old one.
pub fn move_to_old(dump: &[u8], out: &mut [u8]) -> Result<usize, Refusal>
    ensures result_value { moved_of result ≡ to_old_reply dump.now out.old }
    ensures out_after { out.new ≡ to_old_leaves dump.now out.old }
{
    let mut places = [0u16; LAYOUTS_MOST];
    let opened = dump::open(dump, Kind::New, &mut places)?;
    to_old::move_records(dump, &places[..opened.layouts], opened.start, out)
}
