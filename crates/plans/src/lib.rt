// The checker: an order list and a plan, made by whoever, are judged.
// Any bytes may come. Assumes nothing.
#![tactic(auto)]

ghost use Rattle.std.specs.Prelude.{◌≡◌, [], ◌+◌, ◌≤◌, length};
ghost use Rattle.ground.specs.Refusal.{right, as_read};
ghost use Rattle.ground.specs.Limits.{most_chambers, most_orders, longest_text};
ghost use Rattle.orders.specs.Answers.{opening, begun_with};
ghost use Rattle.plans.specs.Judging.{fitting, loads_counted, both_judged, judged, as_judged, shown, ShownIn};
ghost use Rattle.plans.specs.Meaning.{fault_of};
ghost use Rattle.plans.specs.Steps.{orders_left, OrdersAre, orders_from, load_noted};

use book::{Answer, Book};
use ground::{LONGEST_TEXT, MOST_CHAMBERS, MOST_ORDERS, Refusal, check};
use lines::{Load, read_load};
use loads::{load_refusal, overlap, place_of};
use orders::{Progress, begin, next};
use texts::{line_end, part};

// How many orders a list can have, and so how many loads a plan.
const ORDERS: usize = MOST_ORDERS as usize;

// How many chambers there can be.
const CHAMBERS: usize = MOST_CHAMBERS as usize;

// A fault: its number, whether it stands in the plan or else in the list, its line number, and the place of its line. Any fault may be
// handed in (`line_at_fault`), so the number is a number; the laws of the first fault (`FirstFault`) name which text it is by `plan`.
#[derive(Clone, Copy, Debug, PartialEq, Eq)]
pub struct Fault {
    pub number: u32,
    pub plan: bool,
    pub line: u32,
    pub from: usize,
    pub to: usize,
}

// Right with the number of plan lines, or the first fault.
pub type Judgement = Result<u32, Fault>;

// A fault by its parts.
fn fault_of(number: u32, plan: bool, line: u32, from: usize, to: usize) -> Fault
    ensures { result ≡ fault_of number plan line from to }
{
    Fault {
        number,
        plan,
        line,
        from,
        to,
    }
}

// Whether one of the two texts has a length that it may have: else it is at fault at line 0, with its empty front.
fn fitting(text: &[u8], plan: bool) -> Result<(), Fault>
    ensures { as_judged result ≡ fitting plan text.now }
{
    let fits = text.len() <= LONGEST_TEXT;
    check(fits, Refusal::TooLong).map_err(|refusal| fault_of(refusal.number(), plan, 0, 0, 0))
}

// The orders of a list that has begun: their hours are stored at the front of two buffers, and how many they are is answered. The loop goes
// from line to line by the progress, which says where the next one starts. The buffers are fixed ones: see `judge_with`.
#[tactic(auto, using(crate::proofs::Orders::gone_next, crate::proofs::Orders::further))]
fn read_orders(
    list: &[u8],
    begun: Progress,
    readies: &mut [u32],
    dues: &mut [u32],
) -> Result<usize, Fault>
    requires list_len_bound { length list.now ≤ longest_text }
    requires readies_len { (length readies.old ≡ most_orders) × (length dues.old ≡ most_orders) }
    requires taken_value { (begun.book.taken ≡ 0) × (begun.line ≤ begun.at + 2) }
    ensures { OrdersAre (orders_left list.now begun []) result readies.new dues.new }
{
    let mut progress = begun;
    let mut count: usize = 0;
    while progress.at < list.len() {
        let step = next(list, progress);
        let past = step.progress;
        if let Answer::Refused(number) = step.answer {
            return Err(fault_of(number, false, progress.line, progress.at, past.at));
        }
        readies[count] = step.order.ready;
        dues[count] = step.order.due;
        count += 1;
        progress = past;
    }
    Ok(count)
}

// A plan line, for a list that begins with this book, read and checked up to refusal 14.
#[tactic(auto, unfolding(crate::specs::Steps::load_noted))]
fn note_load(
    line: &[u8],
    book: Book,
    readies: &[u32],
    dues: &[u32],
    lines: &[u32],
) -> Result<Load, Refusal>
    ensures { as_read result ≡ load_noted book.chambers book.run readies.now dues.now lines.now line.now }
{
    let load = read_load(line, book.chambers)?;
    load_refusal(load, book.run, readies, dues, lines)?;
    Ok(load)
}

// A plan line that was gone through: the start of its load, and the place of the plan line before it in its chamber. Places are kept as
// `u16`, with room for the most lines: `judge_plan` has these on the stack.
#[derive(Clone, Copy, Default)]
struct Passed {
    start: u32,
    before: Option<u16>,
}

// The loads of a plan, for a list that begins with this book and has orders of these hours: each plan line is noted, and the first earlier
// load that it overlaps ends the search, which leaves both walks through a label. The search goes from the last plan line of the chamber
// to the one before it, and so on; `overlap` takes the earlier load first, so that its first test is of that start against a sum that stays
// the same. For each order the number of its plan line is kept, 0 for none, as `load_refusal` takes it.
// `judge` cannot fail, so nothing here may run out of memory: the arrays are fixed, with room for the most lines, and name places.
// A line's number goes on by hand beside its place: both are read behind the walk, where a `for` would have let them go.
fn judge_plan(plan: &[u8], book: Book, readies: &[u32], dues: &[u32]) -> Judgement
    requires readies_len_bound { (length readies.now ≤ most_orders) × (length dues.now ≡ length readies.now) }
    requires chambers_le_most_chambers { book.chambers ≤ most_chambers }
    ensures { as_judged result ≡ loads_counted plan.now book (orders_from readies.now dues.now) }
{
    let hold = book.hold();
    let mut lines = [0u32; ORDERS];
    let mut passed = [Passed::default(); ORDERS];
    let mut lasts = [None; CHAMBERS];
    let mut line: u32 = 1;
    let mut at: usize = 0;
    'plan: while at < plan.len() {
        let end = line_end(plan, at);
        let load = note_load(&plan[at..end], book, readies, dues, &lines).map_err(
            |refusal| fault_of(refusal.number(), true, line, at, end),
        )?;
        let chamber = (load.chamber - 1) as usize;
        let last = lasts[chamber];
        let mut earlier = last;
        while let Some(there) = earlier {
            let other = passed[there as usize];
            if overlap(hold, load.chamber, other.start, load.chamber, load.start) {
                break 'plan;
            }
            earlier = other.before;
        }
        let order = place_of(load.order);
        lines[order] = line;
        let place = (line - 1) as usize;
        passed[place] = Passed {
            start: load.start,
            before: last,
        };
        lasts[chamber] = Some(place as u16);
        line += 1;
        at = end;
    }
    if plan.len() <= at {
        return Ok(line - 1);
    }
    let number = Refusal::Overlapping.number();
    Err(fault_of(number, true, line, at, line_end(plan, at)))
}

// The list that has begun so, and the plan. The hours are in two buffers, as `load_refusal` takes them, and fixed ones, since `judge` cannot
// fail and so cannot run out of memory.
fn judge_with(list: &[u8], plan: &[u8], begun: Progress) -> Judgement
    requires { (opening list.now ≡ right begun.book) × (begun ≡ begun_with list.now begun.book) }
    ensures { as_judged result ≡ both_judged list.now plan.now begun.book }
{
    let mut readies = [0u32; ORDERS];
    let mut dues = [0u32; ORDERS];
    let count = read_orders(list, begun, &mut readies, &mut dues)?;
    judge_plan(plan, begun.book, &readies[..count], &dues[..count])
}

// Judges a plan for a list: right with the number of its lines, or the first fault.
#[tactic(auto, unfolding(crate::specs::Judging::judged))]
pub fn judge(list: &[u8], plan: &[u8]) -> Judgement
    ensures { as_judged result ≡ judged list.now plan.now }
{
    fitting(list, false)?;
    fitting(plan, true)?;
    let begun = begin(list).map_err(|refused| {
        let number = refused.refusal.number();
        fault_of(number, false, 1, 0, line_end(list, 0))
    })?;
    judge_with(list, plan, begun)
}

// The line at fault, as a part of the text that it stands in.
pub fn line_at_fault<'a>(list: &'a [u8], plan: &'a [u8], fault: Fault) -> &'a [u8]
    ensures result_value { result.now ≡ shown fault list.now plan.now }
    ensures shown_in { ShownIn fault list.entry plan.entry result }
{
    let text = if fault.plan { plan } else { list };
    part(text, fault.from, fault.to)
}
