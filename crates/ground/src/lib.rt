// What every room stands on: definitions that several rooms share, in specs/, and their laws, in proofs/;
// the limits that more than one room tests, why something is refused, and the two tests that every row of checks is made of. Assumes nothing.
#![tactic(auto)]

ghost use Rattle.std.specs.Prelude.{◌≡◌, cond, Ok, Err};
ghost use Rattle.ground.specs.Range.{within};

// The last hour, in hundredths: 9999,99.
pub const LAST_HOUR: u32 = 999_999;

// How many chambers there can be.
pub const MOST_CHAMBERS: u32 = 8;

// The last plain number, of four digits.
pub const LAST_PLAIN: u32 = 9_999;

// The longest run, in hundredths.
pub const LONGEST_RUN: u32 = 9_999;

// How many orders a book takes.
pub const MOST_ORDERS: u32 = 512;

// How many bytes an order list or a plan can have.
pub const LONGEST_TEXT: usize = 65_536;

// The first line of a list that an order can stand on: line 1 is no order.
pub const FIRST_ORDER_LINE: u32 = 2;

// The last one, in a list of as many orders as a book takes.
pub const LAST_ORDER_LINE: u32 = MOST_ORDERS + 1;

// Why something is refused. Each case has the paper's number.
#[derive(Clone, Copy, Debug, PartialEq, Eq)]
pub enum Refusal {
    Misshapen = 1,
    NotPlain,
    NotHour,
    OutOfRange,
    BelowClock,
    BookFull,
    NoRoom,
    NotSound,
    TooLong,
    Unlisted = 11,
    Again,
    Early,
    Late,
    Overlapping,
}

impl Refusal {
    ghost use Rattle.ground.specs.Refusal.{refusal_number};

    // The number of a refusal.
    pub fn number(self) -> u32
        ensures { result ≡ refusal_number self }
    {
        self as u32
    }
}

impl From<Refusal> for u32 {
    ghost use Rattle.ground.specs.Refusal.{refusal_number};

    ghost from_gives = { λ refusal number. number ≡ refusal_number refusal };

    fn from(refusal: Refusal) -> u32 {
        refusal.number()
    }
}

// A test that is passed, or refused, with whatever says why: a refusal, or any number.
pub fn check<E: Drop>(met: bool, refusal: E) -> Result<(), E>
    ensures { result ≡ cond met (Ok tt) (Err refusal) }
{
    if met { Ok(()) } else { Err(refusal) }
}

// Whether a number lies in a range; both ends belong to it.
pub fn within(low: u32, high: u32, number: u32) -> bool
    ensures { result ≡ within low high number }
{
    (low <= number) & (number <= high)
}
