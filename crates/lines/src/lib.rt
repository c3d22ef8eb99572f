// The lines of order lists and plans as numbers: a heading, an order, a load of a plan.
// Any bytes may come; what is wrong first, in the paper's order, is the refusal. Assumes nothing.
#![tactic(auto)]

ghost use Rattle.std.specs.Prelude.{◌≡◌};
ghost use Rattle.ground.specs.Refusal.{as_read};
ghost use Rattle.lines.specs.Reading.{ranged, heading_of, order_of, load_of};
ghost use Rattle.lines.specs.Steps.{as_texts, three_of};

use fields::{cut_line, field, same_bytes};
use ground::{LAST_HOUR, LAST_PLAIN, LONGEST_RUN, MOST_CHAMBERS, Refusal, check, within};
use hours::{read_hour, read_plain};

// The last number that a grower can have.
pub const LAST_GROWER: u32 = 9_999;

// The first line of a list.
#[derive(Clone, Copy, Debug, PartialEq, Eq)]
pub struct Heading {
    pub chambers: u32,
    pub run: u32,
}

// An order of a list.
#[derive(Clone, Copy, Debug, Default, PartialEq, Eq)]
pub struct Order {
    pub grower: u32,
    pub ready: u32,
    pub due: u32,
}

// A load of a plan: its order's line number in the list, its chamber and its start.
#[derive(Clone, Copy, Debug, PartialEq, Eq)]
pub struct Load {
    pub order: u32,
    pub chamber: u32,
    pub start: u32,
}

// A number in its range, or the refusal that it is out of it.
#[tactic(auto, unfolding(crate::specs::Reading::ranged))]
fn ranged(number: u32, low: u32, high: u32) -> Result<u32, Refusal>
    ensures { as_read result ≡ ranged low high number }
{
    check(within(low, high, number), Refusal::OutOfRange)?;
    Ok(number)
}

// The three fields of a line, or the refusal that it has not this shape.
#[tactic(auto, using(crate::proofs::LineReading::three_by_cut))]
fn three_of(line: &[u8]) -> Result<(&[u8], &[u8], &[u8]), Refusal>
    ensures { as_texts result ≡ three_of line.now }
{
    let cut = cut_line(line);
    check(cut.count == 3, Refusal::Misshapen)?;
    Ok((
        field(line, cut, 0),
        field(line, cut, 1),
        field(line, cut, 2),
    ))
}

// The first line of a list: refused for its shape or its word, then by its fields from the left.
#[tactic(auto, using(crate::proofs::LineReading::by_fields), unfolding(crate::specs::Reading::heading_of, crate::specs::Reading::read_all))]
pub fn read_heading(line: &[u8]) -> Result<Heading, Refusal>
    ensures { as_read result ≡ heading_of line.now }
{
    let (word, chambers, run) = three_of(line)?;
    check(same_bytes(word, b"steam"), Refusal::Misshapen)?;
    Ok(Heading {
        chambers: ranged(read_plain(chambers)?, 1, MOST_CHAMBERS)?,
        run: ranged(read_hour(run)?, 1, LONGEST_RUN)?,
    })
}

// An order line: refused for its shape, then by its fields from the left.
#[tactic(auto, using(crate::proofs::LineReading::by_fields), unfolding(crate::specs::Reading::order_of, crate::specs::Reading::read_all))]
pub fn read_order(line: &[u8]) -> Result<Order, Refusal>
    ensures { as_read result ≡ order_of line.now }
{
    let (grower, ready, due) = three_of(line)?;
    Ok(Order {
        grower: ranged(read_plain(grower)?, 1, LAST_GROWER)?,
        ready: ranged(read_hour(ready)?, 0, LAST_HOUR)?,
        due: ranged(read_hour(due)?, 0, LAST_HOUR)?,
    })
}

// A plan line, for a list with so many chambers: refused for its shape, then by its fields from the left.
#[tactic(auto, using(crate::proofs::LineReading::by_fields), unfolding(crate::specs::Reading::load_of, crate::specs::Reading::read_all))]
pub fn read_load(line: &[u8], count: u32) -> Result<Load, Refusal>
    ensures { as_read result ≡ load_of count line.now }
{
    let (order, chamber, start) = three_of(line)?;
    Ok(Load {
        order: ranged(read_plain(order)?, 0, LAST_PLAIN)?,
        chamber: ranged(read_plain(chamber)?, 1, count)?,
        start: ranged(read_hour(start)?, 0, LAST_HOUR)?,
    })
}
