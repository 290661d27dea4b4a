// The lines of the calls on a field or on a pair of fields.
use code::{Pair, Shape};
use lines::output::Text;
use lines::replies::Reply;
use lines::{Groups, Hex, Numbers, Outcomes, replies};
use many::Many;
use std::fmt;
use std::fmt::Write;

pub fn put_layout(text: &mut Text, shape: Shape, g: u64) -> fmt::Result {
    match gorvlime::lay_out(shape, g) {
        Ok(counts) => writeln!(text, "layout 0{}", Numbers(&counts[..shape.t as usize])),
        Err(refusal) => writeln!(text, "layout{}", Reply::from(refusal)),
    }
}

pub fn put_read(text: &mut Text, shape: Shape, cells: &[u8]) -> fmt::Result {
    let reply = replies::reply_of(gorvlime::read(shape, cells));
    writeln!(text, "read{reply}")
}

pub fn put_judge(text: &mut Text, shape: Shape, before: &[u8], after: &[u8]) -> fmt::Result {
    let reply = replies::reply_of(gorvlime::judge(shape, before, after));
    writeln!(text, "judge{reply}")
}

pub fn put_write(text: &mut Text, shape: Shape, number: u64, cells: &mut [u8]) -> fmt::Result {
    let reply = replies::reply_of(gorvlime::write(shape, cells, number));
    writeln!(text, "write{reply}{}", Hex(cells))
}

pub fn put_resume(text: &mut Text, shape: Shape, number: u64, cells: &mut [u8]) -> fmt::Result {
    match gorvlime::resume(shape, cells, number) {
        Ok(resumed) => {
            let reply = Reply::from(resumed);
            writeln!(
                text,
                "resume{reply}{}{}",
                Groups(&resumed.erased),
                Hex(cells)
            )
        }
        Err(refusal) => writeln!(text, "resume{}{}", Reply::from(refusal), Hex(cells)),
    }
}

// The count of fields that were written, or the refusal of a field and what it carries.
fn of_many(answer: Many) -> Reply {
    if answer.refusal == 0 {
        return Reply::of([0, answer.written]);
    }
    if answer.refusal == 15 {
        return Reply::of([15, answer.reached, answer.unerased]);
    }
    if answer.refusal == 16 {
        return Reply::of([16, answer.reached]);
    }
    Reply::of([answer.refusal])
}

fn outcomes_of(answer: Many) -> Outcomes {
    let stopped = if answer.stopped == 0 {
        None
    } else {
        Some(answer.field)
    };
    Outcomes::new(stopped, answer.written, answer.rows)
}

pub fn put_many(text: &mut Text, shape: Shape, numbers: &[u64], cells: &mut [u8]) -> fmt::Result {
    let answer = gorvlime::write_many(shape, cells, numbers);
    let reply = of_many(answer);
    writeln!(text, "many{reply}{}{}", outcomes_of(answer), Hex(cells))
}

pub fn put_pair_read(text: &mut Text, pair: Pair, first: &[u8], second: &[u8]) -> fmt::Result {
    let reply = replies::reply_of(gorvlime::read_pair(pair, first, second));
    writeln!(text, "pair{reply}")
}

pub fn put_pair_write(
    text: &mut Text,
    pair: Pair,
    number: u64,
    first: &mut [u8],
    second: &mut [u8],
) -> fmt::Result {
    let reply = replies::reply_of(gorvlime::write_pair(pair, first, second, number));
    writeln!(text, "pairwrite{reply}{}{}", Hex(first), Hex(second))
}
