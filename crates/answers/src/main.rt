// Answers the stream of calls on standard input, a line for each on standard output. A call is a byte that says which it is and its numbers, each as eight
// bytes from the low one up; cells or a dump follow as one number more, which counts them, and the bytes themselves:
//
//     1 layout   SHAPE g                        layout 0 h_1 .. h_t | layout N
//     2 read     SHAPE, cells                   read 0 generation number left | read N, where N may be 15 generation unerased or
//                                               16 generation, here and wherever a reading or a write is refused
//     3 write    SHAPE number, cells            write 0 generation turned CELLS | write N CELLS
//     4 export   serial m t v outlen, cells     export 0 length OUT | export N OUT
//     5 walk     dump                           record serial m t v start length 0 generation number left, or
//                                               record serial m t v start length N, for each; end | stop 7 offset | stop 8
//     6 HEX out  outlen, bytes                  hex 0 length OUT | hex N OUT
//     7 HEX in   outlen, text                   unhex 0 length OUT | unhex N OUT
//     8 walk of a new dump                      record serial layout form m t v_1 .. start length .. for each; end | stop 7 offset | stop 8
//     9 move to new                             outlen, dump: new 0 length OUT | new 7 offset OUT | new N OUT
//    10 move to old                             outlen, dump: old 0 length OUT | old 7 offset OUT | old N OUT
//    11 layout of a new dump                    SHAPE outlen: listed 0 length OUT | listed N OUT
//    12 record of a new dump                    serial layout SHAPE outlen, cells: export 0 length OUT | export N OUT
//    13 write many                              SHAPE n x_1 .. x_n, cells: many 0 n g_1 turned_1 .. CELLS | many N CELLS |
//                                               many N field j g_1 turned_1 .. CELLS, of the j fields before the refused one
//    14 judge                                   SHAPE, before, after: judge 0 1 number | judge 0 0 | judge N
//    15 resume                                  SHAPE number, cells: resume 0 generation turned k j_1 .. j_k CELLS | resume N CELLS
//    16 pair read                               form m t1 v1 t2 v2, first, second: pair 0 number left | pair N
//    17 pair write                              form m t1 v1 t2 v2 number, first, second: pairwrite 0 field generation turned FIRST SECOND |
//                                               pairwrite N FIRST SECOND
//
// SHAPE is form m t k v_1 .. v_k, where k counts the ranges. CELLS, FIRST, SECOND and OUT are the lent bytes afterwards in hex, left out where there are none.
// A stream that can't be followed ends with `cut off`, `no such call` or `too long`.
#![tactic(auto)]

mod fields;
mod stored;
mod walks;

ghost use Rattle.std.specs.Prelude.{◌≡◌, ◌≤◌, length, replicate};
ghost use Rattle.protocol.specs.Bounds.{Limited};

use fields::{
    put_judge, put_layout, put_many, put_pair_read, put_pair_write, put_read, put_resume, put_write,
};
use lines::output::Text;
use protocol::calls::{Broken, Call, Copies, Lent};
use protocol::input::Input;
use protocol::{calls, input};
use std::fmt;
use std::fmt::Write;
use stored::{put_export, put_hex, put_listed, put_new, put_old, put_record, put_unhex};

fn main(rt: HostRuntime) -> fmt::Result {
    answer_all(Input::new(rt.stdin()), Text::new(rt.stdout()))
}

// A proved loop has to end, and nothing says that a stream does: the turns are counted, up to a number that no run uses up.
fn answer_all(mut input: Input, mut text: Text) -> fmt::Result {
    let mut buffer = [0u8; input::BUFFER_MOST];
    let mut copies = [0u8; calls::BYTES_MOST];
    let mut lent = Lent::new();
    for _ in 0..u64::MAX {
        match input.next_call(&mut buffer, &mut lent) {
            Ok(call) => answer(&mut text, call, &mut lent, &mut copies)?,
            Err(Broken::Ended) => break,
            Err(why) => {
                writeln!(text, "{why}")?;
                break;
            }
        }
    }
    text.finish();
    Ok(())
}

// What a call is lent for its output is filled with A5.
fn filled(output: &mut [u8], count: usize) -> &mut [u8]
    requires { count ≤ length output.old }
    ensures { result.now ≡ replicate count 165 }
{
    let part = &mut output[..count];
    part.fill(0xa5);
    part
}

// Bytes that a call changes are put into room of its own, and it is lent that.
fn aside<'a>(bytes: &[u8], room: &'a mut [u8]) -> &'a mut [u8]
    requires { length bytes.now ≤ length room.old }
    ensures { result.now ≡ bytes.now }
{
    let copy = &mut room[..bytes.len()];
    copy.copy_from_slice(bytes);
    copy
}

fn answer(text: &mut Text, call: Call<'_>, lent: &mut Lent, copies: &mut Copies) -> fmt::Result
    requires { Limited call }
{
    let output = &mut lent.output;
    match call {
        Call::Layout(shape, g) => put_layout(text, shape, g),
        Call::Read(shape, cells) => put_read(text, shape, cells),
        Call::Write(shape, number, cells) => put_write(text, shape, number, aside(cells, copies)),
        Call::Export(record, room, cells) => put_export(text, record, cells, filled(output, room)),
        Call::Walk(kind, dump) => walks::put_walk(text, kind, dump),
        Call::HexExport(room, bytes) => put_hex(text, bytes, filled(output, room)),
        Call::HexImport(room, bytes) => put_unhex(text, bytes, filled(output, room)),
        Call::MoveToNew(room, dump) => put_new(text, dump, filled(output, room)),
        Call::MoveToOld(room, dump) => put_old(text, dump, filled(output, room)),
        Call::ExportLayout(shape, room) => put_listed(text, shape, filled(output, room)),
        Call::ExportRecord(record, room, cells) => {
            put_record(text, record, cells, filled(output, room))
        }
        Call::WriteMany(shape, count, cells) => {
            put_many(text, shape, &lent.listed[..count], aside(cells, copies))
        }
        Call::Judge(shape, before, after) => put_judge(text, shape, before, after),
        Call::Resume(shape, number, cells) => put_resume(text, shape, number, aside(cells, copies)),
        Call::ReadPair(pair, first, second) => put_pair_read(text, pair, first, second),
        Call::WritePair(pair, number, first, second) => {
            let (front, behind) = copies.split_at_mut(first.len());
            put_pair_write(
                text,
                pair,
                number,
                aside(first, front),
                aside(second, behind),
            )
        }
    }
}
