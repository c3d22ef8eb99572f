// One way of writing: an hour to a lent buffer, and a line field behind field in a buffer of its own, written whole or not at all.
// Any bytes, any numbers, any place and any buffer may come. Assumes nothing.
#![tactic(auto)]

ghost use Rattle.std.specs.Prelude.{◌≡◌, ℕ, List, length};
ghost use Rattle.std.specs.Result.{result_from_control_flow};
ghost use Rattle.std.specs.Fn.{FnOnceTakesAtMut, FnOnceReturnsAtMut};
ghost use Rattle.ground.specs.Refusal.{right, refusal_number};
ghost use Rattle.ground.specs.Digits.{spelled, last_digits};
ghost use Rattle.ground.specs.Buffer.{fitted, length_of, buffer_after};
ghost use Rattle.texts.specs.Meaning.{LiesAt};
ghost use Rattle.classes.specs.Classes.{comma};
ghost use Rattle.writer.specs.Writing.{hour_text, hour_written, as_length, text_in, written_of};
ghost use Rattle.writer.specs.declared.Written.TheVariants.{Refused};
ghost use Rattle.writer.specs.Line.{place_after, held_after, line_in};
ghost use Rattle.writer.specs.Steps.{Puts};

use ground::{LAST_HOUR, Refusal, check};
use std::ops::{ControlFlow, FromResidual, Try};
use texts::part;

// Room enough for any line that a program prints or a plan has: an array of so many bytes, since a writer that asks for memory could fail.
pub const LINE_ROOM: usize = 48;

// What a writing answers: the length of what stands at the buffer's front now, or the refusal's number.
// It is a number, since a line that was refused by any number stays refused by it. The length stands beside the buffer, which is the
// caller's: nothing here asks for memory. It is no `Result`, since a caller who looks at the buffer alone may leave it unlooked at.
#[derive(Clone, Copy, Debug, PartialEq, Eq)]
pub enum Written {
    Length(usize),
    Refused(u32),
}

// `?` goes on with the length, and hands a refusal on as that of a `Result` does, so that a caller may use it in a function of either.
impl Try for Written {
    type Output = usize;

    type Residual = <Result<usize, u32> as Try>::Residual;

    ghost branch_gives = { λ written flow. written ≡ written_of (result_from_control_flow flow) };

    fn branch(self) -> ControlFlow<Self::Residual, usize> {
        match self {
            Written::Length(length) => ControlFlow::Continue(length),
            Written::Refused(number) => Err(number).branch(),
        }
    }

    fn from_output(output: usize) -> Written {
        Written::Length(output)
    }
}

// A refusal that `?` hands on, by its number: of a writing, and of a check.
impl FromResidual<<Written as Try>::Residual> for Written {
    ghost from_residual_gives = { λ refused written. written ≡ Refused refused.0 };

    fn from_residual(refused: <Written as Try>::Residual) -> Written {
        Written::Refused(refused.0)
    }
}

impl FromResidual<<Result<(), Refusal> as Try>::Residual> for Written {
    ghost from_residual_gives = { λ refused written. written ≡ Refused (refusal_number refused.0) };

    fn from_residual(refused: <Result<(), Refusal> as Try>::Residual) -> Written {
        Written::Refused(refused.0.number())
    }
}

// How many digits a number is spelled with. One digit is told apart first: its logarithm would take twice as long as counting it.
#[tactic(auto, using(ground::proofs::Digits::length_one, crate::proofs::Writing::counted_by_log))]
pub fn digit_count(number: u32) -> usize
    ensures { result ≡ length (spelled number) }
{
    if number < 10 {
        1
    } else {
        number.ilog10() as usize + 1
    }
}

// Fills a buffer with the last digits of a number, as many as it has room for.
#[tactic(auto, using(ground::proofs::Digits::fill_step), unfolding(ground::specs::Digits::last_digits))]
pub fn put_digits(number: u32, buffer: &mut [u8])
    ensures { buffer.new ≡ last_digits (length buffer.old) number }
{
    let mut left = number;
    // By place: of what is written through `iter_mut().rev()` the library says nothing afterwards.
    for at in (0..buffer.len()).rev() {
        buffer[at] = b'0' + (left % 10) as u8;
        left /= 10;
    }
}

// How many bytes an hour's text has.
#[tactic(auto, using(crate::proofs::Writing::length_of_text, crate::proofs::Line::number_short))]
fn hour_length(hour: u32) -> usize
    ensures { result ≡ length (hour_text comma hour) }
{
    digit_count(hour / 100) + 3
}

// Fills a buffer that is just as long with an hour's text: the whole hours, the comma and two digits.
#[tactic(auto, using(crate::proofs::Writing::length_of_text))]
fn fill_hour(hour: u32, buffer: &mut [u8])
    requires { length buffer.old ≡ length (hour_text comma hour) }
    ensures { buffer.new ≡ hour_text comma hour }
{
    let end = buffer.len();
    let mark = end - 3;
    let tenth = mark + 1;
    put_digits(hour / 100, &mut buffer[..mark]);
    buffer[mark] = b',';
    put_digits(hour, &mut buffer[tenth..end]);
}

// Writes an hour with two digits after the comma: refusal 4 above the last hour, then 7 where the buffer is too short.
// What is answered and what is held then are two clauses, here and in each public writing of this room and of those that use it: laws and
// callers cite them apart.
#[tactic(auto, unfolding(ground::specs::Buffer::fitted, ground::specs::Buffer::onto, crate::specs::Writing::hour_written))]
pub fn write_hour(hour: u32, buffer: &mut [u8]) -> Written
    ensures result_value { as_length result ≡ length_of (fitted buffer.old (hour_written comma hour)) }
    ensures buffer_after { buffer.new ≡ buffer_after buffer.old (fitted buffer.old (hour_written comma hour)) }
{
    let length = hour_length(hour);
    check(hour <= LAST_HOUR, Refusal::OutOfRange)?;
    check(length <= buffer.len(), Refusal::NoRoom)?;
    fill_hour(hour, &mut buffer[..length]);
    Written::Length(length)
}

// Puts a field of so many bytes, and the byte that stops it, from a place of a buffer on: refusal 7 where they have no room.
#[tactic(auto, unfolding(crate::specs::Line::front_after))]
fn put_field<F: FnOnce(&mut [u8])>(
    at: usize,
    size: usize,
    stop: u8,
    buffer: &mut [u8],
    fill: F,
) -> Written
    requires { (part : List ℕ) → length part ≡ size → FnOnceTakesAtMut F.FnOnce fill part }
    ensures { (field : List ℕ) → length field ≡ size
        → ((part held : List ℕ) → length part ≡ size → FnOnceReturnsAtMut F.FnOnce fill part tt held → held ≡ field)
        → Puts (right at) (right field) stop buffer.old (as_length result) buffer.new }
{
    check(size < buffer.len().saturating_sub(at), Refusal::NoRoom)?;
    let end = at + size;
    fill(&mut buffer[at..end]);
    buffer[end] = stop;
    Written::Length(end + 1)
}

// Puts a word and the byte that stops it behind a line so far: refusal 7 where they have no room.
// A line that was refused stays refused. The line so far and its buffer stay two parameters, here and in the three below: callers hold both.
#[tactic(auto, unfolding(crate::specs::Line::front_after))]
pub fn put_word(so_far: Written, word: &[u8], stop: u8, buffer: &mut [u8]) -> Written
    ensures result_value { as_length result ≡ place_after (as_length so_far) (right word.now) stop buffer.old }
    ensures buffer_after { buffer.new ≡ held_after (as_length so_far) (right word.now) stop buffer.old }
{
    put_field(so_far?, word.len(), stop, buffer, |part| {
        part.copy_from_slice(word)
    })
}

// Puts a number's digits and the byte that stops them behind a line so far: refusal 7 where they have no room.
// A line that was refused stays refused.
#[tactic(auto, using(crate::proofs::Writing::digits_fill), unfolding(crate::specs::Line::front_after))]
pub fn put_number(so_far: Written, number: u32, stop: u8, buffer: &mut [u8]) -> Written
    ensures result_value { as_length result ≡ place_after (as_length so_far) (right (spelled number)) stop buffer.old }
    ensures buffer_after { buffer.new ≡ held_after (as_length so_far) (right (spelled number)) stop buffer.old }
{
    put_field(so_far?, digit_count(number), stop, buffer, |part| {
        put_digits(number, part)
    })
}

// Puts an hour's text and the byte that stops it behind a line so far: refusal 4 above the last hour, then 7 where they have no room.
// A line that was refused stays refused.
#[tactic(auto, unfolding(crate::specs::Line::front_after, crate::specs::Writing::hour_written))]
pub fn put_hour(so_far: Written, hour: u32, stop: u8, buffer: &mut [u8]) -> Written
    ensures result_value { as_length result ≡ place_after (as_length so_far) (hour_written comma hour) stop buffer.old }
    ensures buffer_after { buffer.new ≡ held_after (as_length so_far) (hour_written comma hour) stop buffer.old }
{
    let at = so_far?;
    check(hour <= LAST_HOUR, Refusal::OutOfRange)?;
    put_field(at, hour_length(hour), stop, buffer, |part| {
        fill_hour(hour, part)
    })
}

// Writes the line that was put together in a buffer of its own, whole or not at all: a line that was refused stays refused,
// then refusal 7 where either buffer is shorter than the line.
#[tactic(auto, unfolding(ground::specs::Buffer::fitted, ground::specs::Buffer::onto, crate::specs::Line::line_in))]
pub fn write_line(line: Written, own: &[u8], buffer: &mut [u8]) -> Written
    ensures result_value { as_length result ≡ length_of (fitted buffer.old (line_in (as_length line) own.now)) }
    ensures buffer_after { buffer.new
        ≡ buffer_after buffer.old (fitted buffer.old (line_in (as_length line) own.now)) }
{
    let count = line?;
    check(count <= own.len(), Refusal::NoRoom)?;
    check(count <= buffer.len(), Refusal::NoRoom)?;
    buffer[..count].copy_from_slice(&own[..count]);
    Written::Length(count)
}

// The text that was written to a buffer, as a part of that buffer from its front on; nothing where the writing was refused.
#[tactic(auto, unfolding(crate::specs::Writing::text_in, crate::specs::Writing::front_of, texts::specs::Lines::part_of, texts::specs::Lines::part_start))]
pub fn text_in<'a>(written: Written, buffer: &'a [u8]) -> &'a [u8]
    ensures result_value { result.now ≡ text_in written buffer.now }
    ensures lies_at { LiesAt result buffer.entry 0 }
{
    match written {
        Written::Length(length) => part(buffer, 0, length),
        Written::Refused(_) => &buffer[..0],
    }
}
