// The desk program: reads an order list from standard input to its end, and prints the reply.
// What is read and answered is the library's; here it is read in, called and written out. A read that fails counts as the end of the input.
#![tactic(auto)]

ghost use Rattle.std.specs.Prelude.{◌≡◌, false, ◌<◌};
ghost use Rattle.replies.specs.Steps.{left_of};

use ground::LONGEST_TEXT;
use replies::Reply;

// Room for a list, and for one byte more, which tells that a text is too long.
const ROOM: usize = LONGEST_TEXT + 1;

// The list is read in by the kit's `read_full`, for which a read that fails is the end: std's `read_exact` and `read_to_end` say little
// after one, and the second takes memory.
fn main() {
    let mut list = [0u8; ROOM];
    let length = io::read_full(0, &mut list);
    if length == ROOM {
        pass_over_rest();
    }
    print_reply(&list[..length]);
}

// Reads on to the end of the input and keeps nothing. A loop has to end and nothing says that an input does, so its turns are counted
// to a number that no run uses up.
fn pass_over_rest() {
    for _ in 0..u64::MAX {
        if !pass_over_some() {
            break;
        }
    }
}

// Whether there was more to read.
fn pass_over_some() -> bool {
    let mut space = io::large_buffer();
    0 < io::read_full(0, &mut space)
}

// Prints the reply to a whole text, piece by piece.
fn print_reply(text: &[u8]) {
    let mut reply = replies::begin(text);
    while !reply.over {
        reply = print_some(text, reply);
    }
}

// Prints as many lines of a reply as a buffer has room for; how far it has come then. Where they could not be written no more is tried.
// That of the cases shows bytes and loses nothing: one function for both would be no plainer.
#[tactic(auto, using(replies::proofs::Filling::none_of_some))]
fn print_some(text: &[u8], reply: Reply) -> Reply
    requires { reply.over ≡ false }
    ensures { left_of text.now result < left_of text.now reply }
{
    let mut buffer = io::large_buffer();
    let filled = replies::fill(text, reply, &mut buffer);
    if print(&buffer[..filled.length]) {
        filled.reply
    } else {
        Reply {
            over: true,
            ..reply
        }
    }
}

// Whether a text was written out; one that was not is told on standard error. The checker's gives no answer, as nothing follows
// there: a room for both would be no plainer.
fn print(text: &[u8]) -> bool {
    if io::write_all(1, text) {
        return true;
    }
    io::write_all(2, b"desk: the reply could not be written\n");
    false
}
