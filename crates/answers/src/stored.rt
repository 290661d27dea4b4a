// The lines of the calls that are lent an output: the name, what the call answers, and the output.
use code::Shape;
use lines::output::Text;
use lines::replies::Reply;
use lines::{Hex, replies};
use protocol::calls::{NewRecord, OldRecord};
use std::fmt;
use std::fmt::Write;

fn put_reply(text: &mut Text, name: &str, reply: Reply, output: &[u8]) -> fmt::Result {
    writeln!(text, "{name}{reply}{}", Hex(output))
}

pub fn put_export(
    text: &mut Text,
    record: OldRecord,
    cells: &[u8],
    output: &mut [u8],
) -> fmt::Result {
    let OldRecord { serial, m, t, v } = record;
    let made = gorvlime::export(serial, m, t, v, cells, output);
    put_reply(text, "export", replies::reply_of(made), output)
}

pub fn put_record(
    text: &mut Text,
    record: NewRecord,
    cells: &[u8],
    output: &mut [u8],
) -> fmt::Result {
    let NewRecord {
        serial,
        layout,
        shape,
    } = record;
    let made = gorvlime::export_record(serial, layout, shape, cells, output);
    put_reply(text, "export", replies::reply_of(made), output)
}

pub fn put_listed(text: &mut Text, shape: Shape, output: &mut [u8]) -> fmt::Result {
    let made = gorvlime::export_layout(shape, output);
    put_reply(text, "listed", replies::reply_of(made), output)
}

pub fn put_hex(text: &mut Text, bytes: &[u8], output: &mut [u8]) -> fmt::Result {
    let made = gorvlime::hex_export(bytes, output);
    put_reply(text, "hex", replies::reply_of(made), output)
}

pub fn put_unhex(text: &mut Text, bytes: &[u8], output: &mut [u8]) -> fmt::Result {
    let made = gorvlime::hex_import(bytes, output);
    put_reply(text, "unhex", replies::reply_of(made), output)
}

pub fn put_new(text: &mut Text, dump: &[u8], output: &mut [u8]) -> fmt::Result {
    let moved = gorvlime::move_to_new(dump, output);
    put_reply(text, "new", replies::reply_of(moved), output)
}

pub fn put_old(text: &mut Text, dump: &[u8], output: &mut [u8]) -> fmt::Result {
    let moved = gorvlime::move_to_old(dump, output);
    put_reply(text, "old", replies::reply_of(moved), output)
}
