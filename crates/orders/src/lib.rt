// The answers of a list, line by line: how far its reading has come goes in by value and comes back.
// Any bytes and any progress may come. Assumes nothing.
#![tactic(auto)]

ghost use Rattle.std.specs.Prelude.{◌≡◌};
ghost use Rattle.ground.specs.Refusal.{wrong, right, refusal_number};
ghost use Rattle.texts.specs.Lines.{line_at};
ghost use Rattle.book.specs.Taking.{told, answer_of};
ghost use Rattle.book.specs.declared.Answer.TheVariants as Answer;
ghost use Rattle.orders.specs.Answers.{opening, decision, book_past, refused_line, stopped_at, as_begun, begun_by, order_in, Stepped};

use book::{Answer, Book};
use ground::{FIRST_ORDER_LINE, LONGEST_TEXT, Refusal, check};
use lines::{Order, read_heading, read_order};
use texts::{line_at, line_end};

// How far the reading of a list has come: the place of the next line, its number, and the book.
#[derive(Clone, Copy, Debug, PartialEq, Eq)]
pub struct Progress {
    pub at: usize,
    pub line: u32,
    pub book: Book,
}

// A list that does not begin: why, and a progress with the line refused and 0 for every other number.
#[derive(Clone, Copy, Debug, PartialEq, Eq)]
pub struct NotBegun {
    pub refusal: Refusal,
    pub progress: Progress,
}

// A text that is too long is refused before its first line, and else the first line is.
impl From<Refusal> for NotBegun {
    ghost from_gives = { λ refusal given. given ≡ record { refusal = refusal; progress = stopped_at (refused_line (refusal_number refusal)) } };

    fn from(refusal: Refusal) -> NotBegun {
        let line = match refusal {
            Refusal::TooLong => 0,
            _ => 1,
        };
        NotBegun {
            refusal,
            progress: Progress {
                at: 0,
                line,
                book: Book::default(),
            },
        }
    }
}

// The order that a line reads as, its answer, and the progress past it. Where a line does not read the order's numbers are 0, as every other
// number of a refusal is.
#[derive(Clone, Copy, Debug, PartialEq, Eq)]
pub struct Step {
    pub order: Order,
    pub answer: Answer,
    pub progress: Progress,
}

// Begins a list: refusal 9 for its length, then the refusal of its first line; else its orders start at line 2, with a fresh book.
#[tactic(auto, using(crate::proofs::Beginning::heading_opens), unfolding(crate::specs::Answers::opening))]
pub fn begin(text: &[u8]) -> Result<Progress, NotBegun>
    ensures { as_begun result ≡ begun_by text.now (opening text.now) }
{
    check(text.len() <= LONGEST_TEXT, Refusal::TooLong)?;
    let heading = read_heading(line_at(text, 0))?;
    let opened = Book::open(heading.chambers, heading.run);
    Ok(Progress {
        at: line_end(text, 0),
        line: FIRST_ORDER_LINE,
        book: opened.book,
    })
}

// A line that reads as an order: the book takes it, from the progress past the line.
fn booked(past: Progress, order: Order) -> Step
    ensures { (result.order ≡ order) × (told result.answer ≡ told (answer_of (decision past.book (right order))))
        × (result.progress ≡ record { at = past.at; line = past.line; book = book_past past.book (right order) }) }
{
    let taken = past.book.take(order.ready, order.due);
    Step {
        order,
        answer: taken.answer,
        progress: Progress {
            book: taken.book,
            ..past
        },
    }
}

// A refused line: the progress past it has the book as it was.
fn passed(past: Progress, refusal: Refusal) -> Step
    ensures { (result.order ≡ order_in (wrong (refusal_number refusal))) × (told result.answer ≡ told (Answer.Refused (refusal_number refusal)))
        × (result.progress ≡ past) }
{
    Step {
        order: Order::default(),
        answer: Answer::Refused(refusal.number()),
        progress: past,
    }
}

// The order on the line at the place of a progress, its answer, and the progress past it; past the end the line is empty, which is
// refused by 1. The last number that a line can be counted by stays.
#[tactic(auto, using(texts::proofs::Lines::past_is, texts::proofs::Lines::not_beyond))]
pub fn next(text: &[u8], progress: Progress) -> Step
    ensures { Stepped text.now progress result }
{
    let line = line_at(text, progress.at);
    let past = Progress {
        at: progress.at + line.len(),
        line: progress.line.saturating_add(1),
        ..progress
    };
    match read_order(line) {
        Ok(order) => booked(past, order),
        Err(refusal) => passed(past, refusal),
    }
}
