// The choice of a chamber for an order: BestFit, with the paper's tie rule.
// Any numbers and any free hours may come. Assumes nothing.
#![tactic(auto)]

ghost use Rattle.std.specs.Prelude.{◌≡◌, take};
ghost use Rattle.choice.specs.BestFit.{better, fuller, offer, best_fit};

// What one chamber offers: its number, and the start there.
#[derive(Clone, Copy, Debug, PartialEq, Eq)]
pub struct Offer {
    pub chamber: u32,
    pub start: u32,
}

// The offer of one chamber: the later of its free hour and ready, where the run ends in time.
#[tactic(auto, unfolding(crate::specs::BestFit::offer))]
fn offered(ready: u32, due: u32, run: u32, chamber: u32, free: u32) -> Option<Offer>
    ensures { result ≡ offer ready due run chamber free }
{
    let start = free.max(ready);
    if u64::from(start) + u64::from(run) <= u64::from(due) {
        Some(Offer { chamber, start })
    } else {
        None
    }
}

// The offer with the later start; the first where they are equal.
fn fuller(one: Offer, other: Offer) -> Offer
    ensures { result ≡ fuller one other }
{
    if one.start < other.start { other } else { one }
}

// The fuller of what two chambers offer, where either may offer nothing.
fn better(one: Option<Offer>, other: Option<Offer>) -> Option<Offer>
    ensures { result ≡ better one other }
{
    match (one, other) {
        (Some(one), Some(other)) => Some(fuller(one, other)),
        (None, other) => other,
        (one, None) => one,
    }
}

// The choice among so many chambers, the first of them chamber 1, with these free hours; none where no chamber fits.
// Ready and due are two numbers, as callers give them (`Book::take`, `best_fit_single`); an `Order` would ask for a grower.
pub fn best_fit(ready: u32, due: u32, run: u32, hours: &[u32], count: u32) -> Option<Offer>
    ensures { result ≡ best_fit ready due run 1 (take count hours.now) }
{
    (0..count).zip(hours).fold(None, |best, (place, &free)| {
        better(best, offered(ready, due, run, place + 1, free))
    })
}
