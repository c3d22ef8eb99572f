// A load of a plan held against the order that it names, and against another load.
// Any numbers may come, and any hours of orders. Assumes nothing.
#![tactic(auto)]

ghost use Rattle.std.specs.Prelude.{◌≡◌, ◌-◌, suc, get_or};
ghost use Rattle.ground.specs.Refusal.{as_read};
ghost use Rattle.ground.specs.Range.{within};
ghost use Rattle.ground.specs.Limits.{first_order_line};
ghost use Rattle.loads.specs.Checks.{load_marked, overlap, load_from};

use ground::{FIRST_ORDER_LINE, Refusal, check};
use lines::Load;

// One of some hours; 0 where there are fewer.
fn hour_at(hours: &[u32], place: usize) -> u32
    ensures { result ≡ get_or hours.now place 0 }
{
    hours.get(place).copied().unwrap_or(0)
}

// The place of an order among those of its list.
pub fn place_of(order: u32) -> usize
    ensures { result ≡ order - first_order_line }
{
    order.saturating_sub(FIRST_ORDER_LINE) as usize
}

// Whether a number names an order line of a list with so many orders: the first stands on line 2.
fn names_order(order: u32, count: usize) -> bool
    ensures { result ≡ within first_order_line (suc count) order }
{
    (FIRST_ORDER_LINE <= order) & (place_of(order) < count)
}

// The first of the refusals 11 to 14 that a load has. The orders of its list have these hours and stand on these plan lines, 0 for none,
// in three slices of any lengths: a caller may hand in fewer of one than of another (`refused_exactly`), and past an end they count as 0.
#[tactic(auto, unfolding(crate::specs::Checks::load_asked))]
pub fn load_refusal(
    load: Load,
    run: u32,
    readies: &[u32],
    dues: &[u32],
    lines: &[u32],
) -> Result<(), Refusal>
    ensures { as_read result ≡ load_marked run readies.now dues.now lines.now load }
{
    let place = place_of(load.order);
    let end = u64::from(load.start) + u64::from(run);
    check(names_order(load.order, readies.len()), Refusal::Unlisted)?;
    check(hour_at(lines, place) == 0, Refusal::Again)?;
    check(hour_at(readies, place) <= load.start, Refusal::Early)?;
    check(end <= u64::from(hour_at(dues, place)), Refusal::Late)
}

// Whether two loads overlap: they stand in one chamber, and each starts before the other ends. Of each load it takes the chamber and the
// start, which is all that its law speaks of (`overlap_exactly`): a caller need not have its order.
pub fn overlap(hold: u32, chamber: u32, start: u32, other: u32, begins: u32) -> bool
    ensures { result ≡ overlap hold (load_from chamber start) (load_from other begins) }
{
    let before = u64::from(start) < u64::from(begins) + u64::from(hold);
    let behind = u64::from(begins) < u64::from(start) + u64::from(hold);
    chamber == other && before && behind
}
