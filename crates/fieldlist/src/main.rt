// The listing of the dump on standard input, on standard output. A read or a write that fails is told on standard error.
#![tactic(auto)]

mod arguments;
mod failures;
mod files;

ghost use Rattle.std.specs.Prelude.{◌≡◌, IfOk, ◌≤◌, length};
ghost use Rattle.code.specs.Dump.{barred, opening, start_of};
ghost use Rattle.code.specs.Listing.{listing};
ghost use Rattle.dump.specs.Answers.{dump_most, halt_number, halt_carries, Walkable};
ghost use Rattle.fieldlist.specs.Handing.{Part};

use code::Kind;
use dump::Halt;
use std::io::{Error, Stdout};

// A byte more than a dump may have, so that one that is too long shows.
const MOST: usize = dump::DUMP_MOST + 1;

// The most bytes that are handed out at once.
const PIECE_MOST: usize = 4096;

fn main(rt: HostRuntime) {
    match arguments::read_kind(&rt) {
        Some(kind) => list_input(rt, kind),
        None => {
            let _ = rt.eprintln("usage: fieldlist [--new] <DUMP");
        }
    }
}

// Lists the dump of a kind that stands on standard input.
fn list_input(rt: HostRuntime, kind: Kind) {
    let mut dump = [0u8; MOST];
    match files::read_all(rt.stdin(), &mut dump) {
        Ok(count) => {
            if let Err(error) = list(rt.stdout(), &dump[..count], kind) {
                failures::tell(&rt, "write standard output", error);
            }
        }
        Err(cut) => failures::tell(&rt, "read standard input", cut.error),
    }
}

// Hands out the text of a dump, and tells its length.
fn list(stdout: Stdout, dump: &[u8], kind: Kind) -> Result<usize, Error>
    ensures { IfOk result (λ count. count ≡ length (listing kind dump.now)) }
{
    let mut places = [0u16; 64];
    match dump::open(dump, kind, &mut places) {
        Ok(opened) => {
            let kept = &places[..opened.layouts];
            list_records(stdout, dump, kind, kept, opened.start)
        }
        Err(halt) => list_halt(stdout, dump, kind, halt),
    }
}

// Hands out the text of a dump that is refused as a whole.
fn list_halt(stdout: Stdout, dump: &[u8], kind: Kind, halt: Halt) -> Result<usize, Error>
    requires { barred (halt_number halt) (halt_carries halt) ≡ opening kind dump.now }
    ensures { IfOk result (λ count. count ≡ length (listing kind dump.now)) }
{
    let mut out = [0u8; listing::LINES_MOST];
    let count = listing::put_halt_lines(&mut out, 0, 0, halt);
    hand_out(stdout, dump, kind, 0, &out[..count])?;
    Ok(count)
}

// Hands out the text of a dump that is opened, piece by piece.
fn list_records(
    stdout: Stdout,
    dump: &[u8],
    kind: Kind,
    places: &[u16],
    start: usize,
) -> Result<usize, Error>
    requires { Walkable kind dump.now places.now × (start ≡ start_of (opening kind dump.now)) × (start ≤ dump_most) }
    ensures { IfOk result (λ count. count ≡ length (listing kind dump.now)) }
{
    let mut out = [0u8; PIECE_MOST];
    let mut s = listing::start_listing(start);
    let mut count = 0;
    loop {
        let told = listing::fill(dump, kind, places, s, &mut out);
        hand_out(stdout, dump, kind, count, &out[..told.end])?;
        count += told.end;
        let Some(next) = told.listing else {
            return Ok(count);
        };
        s = next;
    }
}

// Writes a part of a dump's text, that from a place on. The dump, its kind and the place stand here for the promise: nothing else is ever handed out.
fn hand_out(stdout: Stdout, dump: &[u8], kind: Kind, at: usize, piece: &[u8]) -> Result<(), Error>
    requires { Part (listing kind dump.now) at piece.now }
{
    files::write_all(stdout, piece)
}
