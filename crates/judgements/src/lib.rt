// The line of a judgement, written to a lent buffer: right with its number, or the fault; and that of a plan judged for a list.
// Any judgement, any texts and any buffer may come. Assumes nothing.
#![tactic(auto)]

ghost use Rattle.std.specs.Prelude.{◌≡◌, ◌≤◌, length};
ghost use Rattle.ground.specs.Refusal.{right};
ghost use Rattle.ground.specs.Buffer.{fitted, length_of, buffer_after};
ghost use Rattle.writer.specs.Writing.{as_length};
ghost use Rattle.writer.specs.Line.{line_room};
ghost use Rattle.writer.specs.Steps.{Comes, bytes_of_all};
ghost use Rattle.judgements.specs.Judgements.{text_word, judgement_line, checked_line};
ghost use Rattle.judgements.specs.Steps.{judgement_put};

use plans::{Judgement, judge};
use writer::{LINE_ROOM, Written, put_number, put_word, write_line};

// The word for the text at fault.
#[tactic(auto, unfolding(ground::specs::Text::bytes))]
fn text_word(plan: bool) -> &'static [u8]
    ensures { result.now ≡ text_word plan }
{
    if plan { b"plan" } else { b"orders" }
}

// Puts the line of a judgement at the front of a buffer. It is short enough for the room of a line.
fn put_judgement(judgement: Judgement, own: &mut [u8]) -> Written
    ensures comes { Comes (right 0) (judgement_put judgement) own.old (as_length result) own.new }
    ensures judgement_bound { bytes_of_all (judgement_put judgement) ≤ line_room }
{
    match judgement {
        Ok(count) => {
            let worded = put_word(Written::Length(0), b"right", b'\t', own);
            put_number(worded, count, b'\n', own)
        }
        Err(fault) => {
            let worded = put_word(Written::Length(0), b"fault", b'\t', own);
            let numbered = put_number(worded, fault.number, b'\t', own);
            let named = put_word(numbered, text_word(fault.plan), b'\t', own);
            put_number(named, fault.line, b'\n', own)
        }
    }
}

// Writes the line of a judgement: refusal 7 where the buffer is too short. Its steps are those of `write_answer` of replies: one function over
// what puts the fields would carry that closure's contract and be no plainer.
pub fn write_judgement(judgement: Judgement, buffer: &mut [u8]) -> Written
    ensures result_value { as_length result ≡ length_of (fitted buffer.old (right (judgement_line judgement))) }
    ensures buffer_after { buffer.new
        ≡ buffer_after buffer.old (fitted buffer.old (right (judgement_line judgement))) }
    ensures judgement_len_bound { length (judgement_line judgement) ≤ line_room }
{
    let mut own = [0u8; LINE_ROOM];
    let line = put_judgement(judgement, &mut own);
    write_line(line, &own, buffer)
}

// Writes the line of a plan judged for a list, which is what the checker prints: refusal 7 where the buffer is too short.
pub fn write_checked(list: &[u8], plan: &[u8], buffer: &mut [u8]) -> Written
    ensures result_value { as_length result ≡ length_of (fitted buffer.old (right (checked_line list.now plan.now))) }
    ensures buffer_after { buffer.new
        ≡ buffer_after buffer.old (fitted buffer.old (right (checked_line list.now plan.now))) }
    ensures plan_len_bound { length (checked_line list.now plan.now) ≤ line_room }
{
    let judgement = judge(list, plan);
    write_judgement(judgement, buffer)
}

#[cfg(test)]
mod tests {
    use super::*;

    // What no clause says: a caller who looks at the buffer alone may leave what a writing answers unlooked at.
    #[test]
    fn checked_left_unlooked_at() {
        let mut buffer = [0u8; LINE_ROOM];
        write_checked(b"steam\t1\t3\n7\t0\t3\n", b"2\t1\t0\n", &mut buffer);
    }
}
