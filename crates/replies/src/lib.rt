// The desk's reply to a list: each of its lines written to a lent buffer, and a buffer filled with as many of them as it has room for.
// Any numbers, any text, any state of a reply and any buffer may come. Assumes nothing.
#![tactic(auto)]

ghost use Rattle.std.specs.Prelude.{◌≡◌, ◌+◌, ◌-◌, ◌≤◌, length};
ghost use Rattle.ground.specs.Refusal.{right};
ghost use Rattle.ground.specs.Buffer.{fitted, length_of, buffer_after};
ghost use Rattle.writer.specs.Writing.{as_length};
ghost use Rattle.writer.specs.Line.{line_room};
ghost use Rattle.writer.specs.Steps.{Comes, bytes_of_all};
ghost use Rattle.replies.specs.Replies.{sum_line, reply_written};
ghost use Rattle.replies.specs.Filling.{bytes_in, reply_begun, line_due, past_line_due, may_go_on, Fills};
ghost use Rattle.replies.specs.Steps.{answer_put, reply_put, sum_put, answer_room, count_in, LineBehind};

use book::Answer;
use orders::Progress;
use writer::{LINE_ROOM, Written, put_hour, put_number, put_word, write_line};

// Puts the fields of an answer behind a line so far: refusal 4 where a yes starts above the last hour. They are short enough for the room
// of a line.
fn put_answer(so_far: Written, answer: Answer, own: &mut [u8]) -> Written
    ensures comes { Comes (as_length so_far) (answer_put answer) own.old (as_length result) own.new }
    ensures answer_bound { bytes_of_all (answer_put answer) ≤ answer_room }
{
    match answer {
        Answer::Yes { chamber, start } => {
            let worded = put_word(so_far, b"yes", b'\t', own);
            let housed = put_number(worded, chamber, b'\t', own);
            put_hour(housed, start, b'\n', own)
        }
        Answer::No => put_word(so_far, b"no", b'\n', own),
        Answer::Refused(number) => {
            let worded = put_word(so_far, b"bad", b'\t', own);
            put_number(worded, number, b'\n', own)
        }
    }
}

// Puts the reply to a line at the front of a buffer.
fn put_reply(line: u32, answer: Answer, own: &mut [u8]) -> Written
    ensures comes { Comes (right 0) (reply_put line answer) own.old (as_length result) own.new }
    ensures answer_bound { bytes_of_all (reply_put line answer) ≤ line_room }
{
    let numbered = put_number(Written::Length(0), line, b'\t', own);
    put_answer(numbered, answer, own)
}

// Puts the sum at the front of a buffer.
fn put_sum(taken: u32, kept: u32, own: &mut [u8]) -> Written
    ensures { Comes (right 0) (sum_put taken kept) own.old (as_length result) own.new }
{
    let worded = put_word(Written::Length(0), b"sum", b'\t', own);
    let numbered = put_number(worded, taken, b'\t', own);
    put_number(numbered, kept, b'\n', own)
}

// Writes the reply to a line: refusal 4 where its start is above the last hour, then 7 where the buffer is too short.
// Its steps are those of `write_sum` too: one function over what puts the fields would carry that closure's contract and be no plainer.
pub fn write_answer(line: u32, answer: Answer, buffer: &mut [u8]) -> Written
    ensures result_value { as_length result ≡ length_of (fitted buffer.old (reply_written line answer)) }
    ensures buffer_after { buffer.new ≡ buffer_after buffer.old (fitted buffer.old (reply_written line answer)) }
    ensures answer_len_bound { length (bytes_in (reply_written line answer)) ≤ line_room }
{
    let mut own = [0u8; LINE_ROOM];
    let reply = put_reply(line, answer, &mut own);
    write_line(reply, &own, buffer)
}

// Writes the sum: refusal 7 where the buffer is too short.
pub fn write_sum(taken: u32, kept: u32, buffer: &mut [u8]) -> Written
    ensures result_value { as_length result ≡ length_of (fitted buffer.old (right (sum_line taken kept))) }
    ensures buffer_after { buffer.new ≡ buffer_after buffer.old (fitted buffer.old (right (sum_line taken kept))) }
    ensures kept_len_bound { length (sum_line taken kept) ≤ line_room }
{
    let mut own = [0u8; LINE_ROOM];
    let sum = put_sum(taken, kept, &mut own);
    write_line(sum, &own, buffer)
}

// How far a reply has come: the number that its list is refused by, if it does not begin; the progress through the list; whether no line is
// left to be written. A reply that is over comes back with its progress and its book (`fill_over`). The refusal is a number, since a reply
// with any number may be handed in.
#[derive(Clone, Copy, Debug, PartialEq, Eq)]
pub struct Reply {
    pub refusal: Option<u32>,
    pub progress: Progress,
    pub over: bool,
}

// How many bytes at the front of a buffer were filled, and how far the reply has come with them. The length stands beside the buffer, which is
// the caller's (`fill_lines`): no memory is asked for.
#[derive(Clone, Copy, Debug, PartialEq, Eq)]
pub struct Filled {
    pub length: usize,
    pub reply: Reply,
}

// The reply to a text, of which no line is written yet.
pub fn begin(text: &[u8]) -> Reply
    ensures { result ≡ reply_begun text.now }
{
    match orders::begin(text) {
        Ok(progress) => Reply {
            refusal: None,
            progress,
            over: false,
        },
        Err(refused) => Reply {
            refusal: Some(refused.refusal.number()),
            progress: refused.progress,
            over: false,
        },
    }
}

// Writes the next line of a reply, that of its refusal, else one for the line at its place, else the sum; and the reply past it.
#[tactic(auto, using(crate::proofs::Filling::next_lines))]
fn write_next(text: &[u8], reply: Reply, buffer: &mut [u8]) -> (Written, Reply)
    ensures written { as_length result.0 ≡ length_of (fitted buffer.old (line_due text.now reply)) }
    ensures held { buffer.new ≡ buffer_after buffer.old (fitted buffer.old (line_due text.now reply)) }
    ensures fits { length (bytes_in (line_due text.now reply)) ≤ line_room }
    ensures past { result.1 ≡ past_line_due text.now reply }
{
    let progress = reply.progress;
    let ended = Reply {
        over: true,
        ..reply
    };
    if let Some(number) = reply.refusal {
        let written = write_answer(progress.line, Answer::Refused(number), buffer);
        return (written, ended);
    }
    if progress.at < text.len() {
        let step = orders::next(text, progress);
        let written = write_answer(progress.line, step.answer, buffer);
        let past = Reply {
            progress: step.progress,
            over: false,
            ..reply
        };
        return (written, past);
    }
    let written = write_sum(progress.book.taken, progress.book.kept, buffer);
    (written, ended)
}

// How many bytes a writing wrote: none where it was refused.
fn bytes_written(written: Written) -> usize
    ensures { result ≡ count_in (as_length written) }
{
    match written {
        Written::Length(length) => length,
        Written::Refused(_) => 0,
    }
}

// Puts the next line of a reply behind those that a buffer is filled with; one that is refused is left out.
#[tactic(auto, using(crate::proofs::Filling::written_behind))]
fn put_behind(text: &[u8], filled: Filled, buffer: &mut [u8]) -> Filled
    requires { filled.length + line_room ≤ length buffer.old }
    ensures { LineBehind text.now filled buffer.old result buffer.new }
{
    let (written, reply) = write_next(text, filled.reply, &mut buffer[filled.length..]);
    Filled {
        length: filled.length + bytes_written(written),
        reply,
    }
}

// Whether a line is left, and there is room for any line behind what is filled.
fn goes_on(filled: Filled, room: usize) -> bool
    requires { filled.length ≤ room }
    ensures { result ≡ may_go_on filled.reply (room - filled.length) }
{
    let left = room - filled.length;
    !filled.reply.over & (LINE_ROOM <= left)
}

// Fills a buffer with the next lines of a reply while one is left and there is room for any line: each is whole, and one that cannot be
// written is left out.
#[tactic(auto, using(crate::proofs::Filling::filled_on))]
pub fn fill(text: &[u8], reply: Reply, buffer: &mut [u8]) -> Filled
    ensures { Fills text.now reply buffer.old result buffer.new }
{
    let mut filled = Filled { length: 0, reply };
    while goes_on(filled, buffer.len()) {
        filled = put_behind(text, filled, buffer);
    }
    filled
}

#[cfg(test)]
mod tests {
    use super::*;

    // What no clause says: a caller who looks at the buffer alone may leave what a writing answers unlooked at.
    #[test]
    fn answer_left_unlooked_at() {
        let mut buffer = [0u8; LINE_ROOM];
        let answer = Answer::Yes {
            chamber: 1,
            start: 600,
        };
        write_answer(2, answer, &mut buffer);
    }
}
