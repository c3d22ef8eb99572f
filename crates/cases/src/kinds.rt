// The kinds of cases: their names, the words that each has, and who answers it.
// Any line may come; one that is of no kind, or has not its kind's words, is answered `unread`. Assumes nothing.
use crate::case_text::TEXT_ROOM;
use crate::{book_cases, case_text, program_cases, reading_cases, results, words, writing_cases};

// What a case's first word names.
#[derive(Clone, Copy)]
enum Kind {
    Hour,
    Number,
    Lines,
    Heading,
    Order,
    Desk,
    Walk,
    Load,
    Line,
    Checker,
    WriteHour,
    WriteLoad,
    Open,
    Take,
}

// A word that names no kind.
#[derive(Clone, Copy)]
struct NoKind;

impl TryFrom<&[u8]> for Kind {
    type Error = NoKind;

    fn try_from(name: &[u8]) -> Result<Kind, NoKind> {
        match name {
            b"hour" => Ok(Kind::Hour),
            b"number" => Ok(Kind::Number),
            b"lines" => Ok(Kind::Lines),
            b"heading" => Ok(Kind::Heading),
            b"order" => Ok(Kind::Order),
            b"desk" => Ok(Kind::Desk),
            b"walk" => Ok(Kind::Walk),
            b"load" => Ok(Kind::Load),
            b"line" => Ok(Kind::Line),
            b"checker" => Ok(Kind::Checker),
            b"write-hour" => Ok(Kind::WriteHour),
            b"write-load" => Ok(Kind::WriteLoad),
            b"open" => Ok(Kind::Open),
            b"take" => Ok(Kind::Take),
            _ => Err(NoKind),
        }
    }
}

// The results of a case, each behind a space.
pub(crate) fn answer(line: &[u8]) {
    io::write_all(1, b" =");
    if answer_read(line).is_none() {
        results::word(b"unread");
    }
}

// The same, of a case that can be read; none, and nothing written, of one that cannot.
fn answer_read(line: &[u8]) -> Option<()> {
    let (name, words) = words::parted(line)?;
    match Kind::try_from(name).ok()? {
        Kind::Hour => with_text(words, reading_cases::hour)?,
        Kind::Number => with_text(words, reading_cases::number)?,
        Kind::Lines => with_text(words, reading_cases::lines)?,
        Kind::Heading => with_text(words, reading_cases::heading)?,
        Kind::Order => with_text(words, reading_cases::order)?,
        Kind::Desk => with_text(words, program_cases::desk)?,
        Kind::Walk => with_text(words, reading_cases::walk)?,
        Kind::Load => with_number_and_text(words, reading_cases::load)?,
        Kind::Line => with_number_and_text(words, reading_cases::line)?,
        Kind::Checker => with_texts(words, program_cases::checker)?,
        Kind::WriteHour => writing_cases::write_hour(words::numbers_of(words)?),
        Kind::WriteLoad => writing_cases::write_load(words::numbers_of(words)?),
        Kind::Open => book_cases::open(words::numbers_of(words)?),
        Kind::Take => book_cases::take(words::numbers_of(words)?),
    }
    Some(())
}

// A case whose one word is a text. Its room is filled where there is one word, and kept out of the other functions, which have rooms too.
#[inline(never)]
fn with_text<F: FnOnce(&[u8])>(word: &[u8], answer: F) -> Option<()>
    requires { F.IsAlwaysCallable answer }
{
    if words::parted(word).is_some() {
        return None;
    }
    let mut space = [0; TEXT_ROOM];
    answer(case_text::read(word, &mut space)?);
    Some(())
}

// A case whose words are a number and a text.
fn with_number_and_text<F: FnOnce(&[u8], u32)>(words: &[u8], answer: F) -> Option<()>
    requires { F.IsAlwaysCallable answer }
{
    let (number, word) = words::parted(words)?;
    let number = words::number_of(number)?;
    with_text(word, |text| answer(text, number))
}

// A case whose words are two texts. The second is read first: only where it is a text is room for the first one filled.
fn with_texts<F: FnOnce(&[u8], &[u8])>(words: &[u8], answer: F) -> Option<()>
    requires { F.IsAlwaysCallable answer }
{
    let (word, other) = words::parted(words)?;
    if words::parted(other).is_some() {
        return None;
    }
    let mut other_space = [0; TEXT_ROOM];
    let other = case_text::read(other, &mut other_space)?;
    let mut space = [0; TEXT_ROOM];
    answer(case_text::read(word, &mut space)?, other);
    Some(())
}
