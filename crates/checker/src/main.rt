// The checker program: judges the plan that its second argument names for the order
// list that its first one names, and prints the judgement.
// What is judged and how it is printed is the library's; here it is read in, called and written out. A file that cannot be opened or read
// to its end is unread.
#![tactic(auto)]

ghost use Rattle.std.specs.Prelude.{◌≤◌, length, IfSome};

use ground::LONGEST_TEXT;
use judgements::write_checked;
use std::env::Env;
use std::fs::{self, Files};
use std::io::Read;
use writer::{LINE_ROOM, text_in};

// Room for a text, and for one byte more, which tells that it is too long.
const ROOM: usize = LONGEST_TEXT + 1;

fn main(rt: HostRuntime) {
    let mut list_room = [0u8; ROOM];
    let Some(list) = read_named(&rt, 1, &mut list_room) else {
        print(b"unread\torders\n");
        return;
    };
    let mut plan_room = [0u8; ROOM];
    let Some(plan) = read_named(&rt, 2, &mut plan_room) else {
        print(b"unread\tplan\n");
        return;
    };
    print_judgement(list, plan);
}

// The text of the file that an argument names, read into some room; none where the file is unread.
fn read_named<'a, R: Env + Files>(rt: &R, place: usize, room: &'a mut [u8]) -> Option<&'a [u8]>
    ensures { IfSome result (λ text. length text.now ≤ length room.old) }
{
    let mut file = open_named(rt, place)?;
    let length = read_full(&mut file, room);
    was_read(&mut file).then_some(&room[..length])
}

// The file that an argument names, open for reading; none where it is not given or cannot be opened.
fn open_named<R: Env + Files>(rt: &R, place: usize) -> Option<R::File> {
    let mut name = io::buffer();
    let length = rt.arg(place, &mut name).ok()?;
    let path = str::from_utf8(&name[..length]).ok()?;
    fs::open(rt, path).ok()
}

// Reads until a text is full, the file ends or a read fails, and gives how many bytes it put at the text's front. The loop is written
// out: std's `read_exact` and `read_to_end` say little after a failure, and the second takes memory.
fn read_full<F: Read>(file: &mut F, text: &mut [u8]) -> usize
    ensures { result ≤ length text.new }
{
    let mut length = 0;
    while length < text.len() {
        match file.read(&mut text[length..]) {
            Ok(0) | Err(_) => break,
            Ok(more) => length += more,
        }
    }
    length
}

// Whether a file could be read as far as it was: another read of it does not fail.
fn was_read<F: Read>(file: &mut F) -> bool {
    let mut byte = [0u8; 1];
    file.read(&mut byte).is_ok()
}

// The judgement of a plan for a list.
fn print_judgement(list: &[u8], plan: &[u8]) {
    let mut buffer = [0u8; LINE_ROOM];
    let written = write_checked(list, plan, &mut buffer);
    print(text_in(written, &buffer));
}

// A line that cannot be written out is told on standard error. The desk tells of itself, and stops then: a room for both would be no plainer.
fn print(line: &[u8]) {
    if !io::write_all(1, line) {
        io::write_all(2, b"checker: the answer could not be written\n");
    }
}
