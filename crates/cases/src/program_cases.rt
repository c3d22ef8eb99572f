// The cases of the programs: a list given to the desk, and a list and a plan given to the checker.
// Any texts may come. Assumes nothing.
ghost use Rattle.std.specs.Prelude.{◌≡◌, ◌<◌, false};
ghost use Rattle.replies.specs.Steps.{left_of};

use crate::results;
use judgements::write_checked;
use replies::Reply;
use writer::{LINE_ROOM, text_in};

// The reply to a whole list, as one text.
pub(crate) fn desk(list: &[u8]) {
    results::word(b"");
    let mut reply = replies::begin(list);
    while !reply.over {
        reply = reply_with_some(list, reply);
    }
}

// As many lines of a reply as a buffer has room for; how far it has come then. The desk writes bytes as they are, and stops where
// they are lost: one function for both would be no plainer.
fn reply_with_some(list: &[u8], reply: Reply) -> Reply
    requires { reply.over ≡ false }
    ensures { left_of list.now result < left_of list.now reply }
{
    let mut buffer = io::buffer();
    let filled = replies::fill(list, reply, &mut buffer);
    results::part_of_text(&buffer[..filled.length]);
    filled.reply
}

// What the checker prints, and the part shown.
pub(crate) fn checker(list: &[u8], plan: &[u8]) {
    let mut buffer = [0u8; LINE_ROOM];
    let written = write_checked(list, plan, &mut buffer);
    results::words_of(text_in(written, &buffer));
    if let Err(fault) = plans::judge(list, plan) {
        results::text(plans::line_at_fault(list, plan, fault));
    }
}
