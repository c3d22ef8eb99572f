// The cases of the book: a book opened, and an order given to a book of any kind.
// Any numbers may come. Assumes nothing.
use crate::results;
use book::{Answer, Book};

pub(crate) fn open([chambers, run]: [u32; 2]) {
    let opened = Book::open(chambers, run);
    results::numbers(&[opened.refusal.map_or(0, |refusal| refusal.number())]);
    held(opened.book);
}

// The numbers are those of a book, with the free hours of eight chambers, and then an order's hours.
pub(crate) fn take(numbers: [u32; 15]) {
    let [chambers, run, clock, taken, kept, ..] = numbers;
    let [.., ready, due] = numbers;
    let mut free = [0; 8];
    free.copy_from_slice(&numbers[5..13]);
    let book = Book {
        chambers,
        run,
        clock,
        taken,
        kept,
        free,
    };
    let taken = book.take(ready, due);
    answered(taken.answer);
    held(taken.book);
}

fn answered(answer: Answer) {
    match answer {
        Answer::Yes { chamber, start } => results::named(b"yes", &[chamber, start]),
        Answer::No => results::word(b"no"),
        Answer::Refused(number) => results::refused(number),
    }
}

// What a book holds.
fn held(book: Book) {
    results::numbers(&[book.chambers, book.run, book.clock, book.taken, book.kept]);
    results::numbers(&book.free);
}
