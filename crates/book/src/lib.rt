// The book: the rule by which an order is answered, with the free hours of the chambers.
// Any numbers may come, and any book, sound or not. Assumes nothing.
#![tactic(auto)]

ghost use Rattle.std.specs.Prelude.{◌≡◌, ◌&&◌, drop, [], ◌∷◌};
ghost use Rattle.std.specs.Result.{IfOk};
ghost use Rattle.ground.specs.Refusal.{as_read};
ghost use Rattle.book.specs.Soundness.{last_free_hour, all_up_to, is_sound, opened};
ghost use Rattle.book.specs.Settling.{Settles};
ghost use Rattle.book.specs.Taking.{hold, decided, told, Answered};

use choice::{Offer, best_fit};
use ground::{Refusal, check, within};

// How many free hours a book holds: one for each chamber that there can be.
const FREE_HOURS: usize = ground::MOST_CHAMBERS as usize;

// The last hour that a chamber can be free from.
const LAST_FREE_HOUR: u32 = ground::LAST_HOUR;

// What the book holds.
#[derive(Clone, Copy, Debug, Default, PartialEq, Eq)]
pub struct Book {
    pub chambers: u32,
    pub run: u32,
    pub clock: u32,
    pub taken: u32,
    pub kept: u32,
    pub free: [u32; FREE_HOURS],
}

// What an order is answered. A refusal is a number here, since an answer with any number can be written (`replies::write_answer`).
#[derive(Clone, Copy, Debug, PartialEq, Eq)]
pub enum Answer {
    Yes { chamber: u32, start: u32 },
    No,
    Refused(u32),
}

// The numbers of a yes by their names, zeros of any other answer: a law (`yes_named`) can name what a function gives, and no field of an
// enum's case.
fn yes_numbers(answer: Answer) -> [u32; 2]
    ensures { result ≡ (told answer).chamber ∷ (told answer).start ∷ [] }
{
    match answer {
        Answer::Yes { chamber, start } => [chamber, start],
        Answer::No | Answer::Refused(_) => [0, 0],
    }
}

// An answer and the next book.
#[derive(Clone, Copy, Debug, PartialEq, Eq)]
pub struct Taken {
    pub answer: Answer,
    pub book: Book,
}

// A book that was opened, and why it is refused, if it is. They stand side by side and are no Result, since the paper wants a book of a
// refused opening too, with every field 0 (`opening_refused_zeros`).
#[derive(Clone, Copy, Debug, PartialEq, Eq)]
pub struct Opened {
    pub refusal: Option<Refusal>,
    pub book: Book,
}

// Whether no hour from a place on is above a limit.
#[tactic(auto, unfolding(crate::specs::Soundness::all_up_to))]
fn all_up_to(limit: u32, hours: &[u32], from: usize) -> bool
    ensures { result ≡ all_up_to limit (drop from hours.now) }
{
    hours.iter().skip(from).all(|&hour| hour <= limit)
}

impl Book {
    // How many chambers there can be, how many orders a book takes, and the last hour.
    pub const CHAMBERS: u32 = ground::MOST_CHAMBERS;

    pub const ORDERS: u32 = ground::MOST_ORDERS;

    pub const LAST_HOUR: u32 = ground::LAST_HOUR;

    // A fresh book, or refusal 4 and a book with every field 0.
    #[tactic(auto, unfolding(crate::specs::Soundness::opened))]
    pub fn open(chambers: u32, run: u32) -> Opened
        ensures { result ≡ opened chambers run }
    {
        let housed = within(1, Book::CHAMBERS, chambers);
        let timed = within(1, ground::LONGEST_RUN, run);
        if housed & timed {
            Opened {
                refusal: None,
                book: Book {
                    chambers,
                    run,
                    ..Book::default()
                },
            }
        } else {
            Opened {
                refusal: Some(Refusal::OutOfRange),
                book: Book::default(),
            }
        }
    }

    // How long a load takes its chamber.
    pub fn hold(self) -> u32
        ensures { result ≡ hold self }
    {
        self.run
    }

    // An order with these hours: its answer, and the next book. Ready and due are two numbers: an `Order` would ask a caller for a grower too.
    pub fn take(self, ready: u32, due: u32) -> Taken
        ensures { Answered self ready (decided self ready due) result }
    {
        match self.decided(ready, due) {
            Err(refusal) => Taken {
                answer: Answer::Refused(refusal.number()),
                book: self,
            },
            Ok(None) => {
                let passed = Book {
                    clock: ready,
                    taken: self.taken + 1,
                    ..self
                };
                Taken {
                    answer: Answer::No,
                    book: passed,
                }
            }
            Ok(Some(Offer { chamber, start })) => {
                let mut free = self.free;
                free[(chamber - 1) as usize] = start + self.hold();
                let booked = Book {
                    clock: ready,
                    taken: self.taken + 1,
                    kept: self.kept + 1,
                    free,
                    ..self
                };
                Taken {
                    answer: Answer::Yes { chamber, start },
                    book: booked,
                }
            }
        }
    }

    // What is decided of an order: the first refusal that applies, or else the choice among the chambers.
    #[tactic(auto, using(crate::proofs::Deciding::settles), unfolding(crate::specs::Taking::decided))]
    fn decided(self, ready: u32, due: u32) -> Result<Option<Offer>, Refusal>
        ensures decided { as_read result ≡ decided self ready due }
        ensures settles { IfOk result (λ choice. Settles self choice) }
    {
        check(self.is_sound(), Refusal::NotSound)?;
        check(ready <= Book::LAST_HOUR, Refusal::OutOfRange)?;
        check(due <= Book::LAST_HOUR, Refusal::OutOfRange)?;
        check(self.taken < Book::ORDERS, Refusal::BookFull)?;
        check(self.clock <= ready, Refusal::BelowClock)?;
        Ok(best_fit(ready, due, self.run, &self.free, self.chambers))
    }

    // Whether the book is sound.
    #[tactic(auto, unfolding(crate::specs::Soundness::is_sound, crate::specs::Soundness::soundness, crate::specs::Soundness::all_met))]
    fn is_sound(self) -> bool
        ensures { result ≡ is_sound self }
    {
        let housed = within(1, Book::CHAMBERS, self.chambers);
        let timed = within(1, ground::LONGEST_RUN, self.run);
        let counts = (self.kept <= self.taken) & (self.taken <= Book::ORDERS);
        housed & timed & (self.clock <= Book::LAST_HOUR) & counts & self.hours_are_sound()
    }

    // Whether its free hours are as a sound one's: none above the last, and 0 for the chambers above the count.
    fn hours_are_sound(self) -> bool
        ensures { result ≡ (all_up_to last_free_hour self.free && all_up_to 0 (drop self.chambers self.free)) }
    {
        let most = all_up_to(LAST_FREE_HOUR, &self.free, 0);
        let rest = all_up_to(0, &self.free, self.chambers as usize);
        most & rest
    }
}
