// The cases of writing: an hour and a plan line, written where there is some room.
// Any numbers may come. Assumes nothing.
use crate::results;
use writer::Written;

// The most room that a case can ask for.
const MOST_ROOM: usize = 64;

pub(crate) fn write_hour([hour, room]: [u32; 2]) {
    write_to(room, |buffer| writer::write_hour(hour, buffer));
}

pub(crate) fn write_load([order, chamber, start, room]: [u32; 4]) {
    write_to(room, |buffer| {
        planlines::write_plan_line(order, chamber, start, buffer)
    });
}

// Writes where there is so much room, and shows what came of it.
fn write_to<F: FnOnce(&mut [u8]) -> Written>(room: u32, write: F)
    requires { F.IsAlwaysCallable write }
{
    let mut space = [b'.'; MOST_ROOM];
    match space.get_mut(..room as usize) {
        Some(buffer) => {
            let written = write(buffer);
            show(written, buffer);
        }
        None => results::word(b"unread"),
    }
}

// What a writing answered, and the whole buffer afterwards.
fn show(written: Written, buffer: &[u8]) {
    match written {
        Written::Length(length) => {
            results::word(b"length");
            results::number(length as u64);
        }
        Written::Refused(number) => results::refused(number),
    }
    results::text(buffer);
}
