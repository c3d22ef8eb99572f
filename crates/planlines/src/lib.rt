// A plan line written to a lent buffer, from its three numbers: order line, chamber and start.
// Any numbers and any buffer may come. Assumes nothing.
#![tactic(auto)]

ghost use Rattle.std.specs.Prelude.{◌≡◌};
ghost use Rattle.ground.specs.Buffer.{fitted, length_of, buffer_after};
ghost use Rattle.writer.specs.Writing.{as_length};
ghost use Rattle.planlines.specs.Writing.{plan_written};

use ground::{FIRST_ORDER_LINE, LAST_ORDER_LINE, MOST_CHAMBERS, Refusal, check, within};
use writer::{LINE_ROOM, Written, put_hour, put_number, write_line};

// Writes a plan line: refusal 4 where a number is out of its range, then 7 where the buffer is too short.
// Three numbers and no `Load`: callers give them so (`write_plan_line_single`). Its last steps are those of `write_answer` of replies: one
// function over what puts the fields would carry that closure's contract and be no plainer.
#[tactic(auto, unfolding(ground::specs::Buffer::fitted, crate::specs::Writing::plan_written))]
pub fn write_plan_line(order: u32, chamber: u32, start: u32, buffer: &mut [u8]) -> Written
    ensures result_value { as_length result ≡ length_of (fitted buffer.old (plan_written order chamber start)) }
    ensures buffer_after { buffer.new
        ≡ buffer_after buffer.old (fitted buffer.old (plan_written order chamber start)) }
{
    check(
        within(FIRST_ORDER_LINE, LAST_ORDER_LINE, order),
        Refusal::OutOfRange,
    )?;
    check(within(1, MOST_CHAMBERS, chamber), Refusal::OutOfRange)?;
    let mut own = [0u8; LINE_ROOM];
    let ordered = put_number(Written::Length(0), order, b'\t', &mut own);
    let housed = put_number(ordered, chamber, b'\t', &mut own);
    let line = put_hour(housed, start, b'\n', &mut own);
    write_line(line, &own, buffer)
}
