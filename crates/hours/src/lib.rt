// An hour as text: a field read into hundredths, byte after byte by its class; plain numbers read.
// Any bytes may come; nothing is asked of the caller. Assumes nothing.
#![tactic(auto)]

ghost use Rattle.std.specs.Prelude.{◌≡◌};
ghost use Rattle.ground.specs.Refusal.{as_read};
ghost use Rattle.classes.specs.Classes.{comma};
ghost use Rattle.hours.specs.Reading.{next, scanned, in_hundredths, ended, hour_of, plain_of};

use classes::{Class, class_of};
use ground::{Refusal, check};

// How many bytes the longest hour has, as `9999,99`.
const LONGEST_HOUR: usize = 7;

// How far the reading of an hour has come: the whole part, the tenth and the hundredth read so far.
#[derive(Clone, Copy)]
enum Stage {
    Start,
    Whole(u16),
    Marked(u16),
    Tenth(u16, u8),
    Hundredth(u16, u8, u8),
    Broken,
}

// The stage after a byte of some class. A whole part takes a digit more while it has fewer than four and does not start
// with 0; nothing but digits and the mark behind it stands in an hour.
fn next(stage: Stage, class: Class) -> Stage
    ensures { result ≡ next stage class }
{
    match class {
        Class::Digit(digit) => match stage {
            Stage::Start => Stage::Whole(u16::from(digit)),
            Stage::Whole(whole @ 1..=999) => Stage::Whole(whole * 10 + u16::from(digit)),
            Stage::Marked(whole) => Stage::Tenth(whole, digit),
            Stage::Tenth(whole, tenth) => Stage::Hundredth(whole, tenth, digit),
            _ => Stage::Broken,
        },
        Class::Mark => match stage {
            Stage::Whole(whole) => Stage::Marked(whole),
            _ => Stage::Broken,
        },
        Class::Tab | Class::LineEnd | Class::Foreign => Stage::Broken,
    }
}

// The stage at the end of a field.
#[tactic(auto, unfolding(crate::specs::Reading::scanned))]
fn scan(field: &[u8]) -> Stage
    ensures { result ≡ scanned comma Stage.Start field.now }
{
    field
        .iter()
        .fold(Stage::Start, |stage, &byte| next(stage, class_of(byte)))
}

// An hour in hundredths, from its whole part, tenth and hundredth.
fn in_hundredths(whole: u16, tenth: u8, hundredth: u8) -> u32
    ensures { result ≡ in_hundredths whole tenth hundredth }
{
    u32::from(whole) * 100 + u32::from(tenth) * 10 + u32::from(hundredth)
}

// What has been read when the field ends at this stage: one digit after the mark means tenths.
fn ended(stage: Stage) -> Result<u32, Refusal>
    ensures { as_read result ≡ ended stage }
{
    match stage {
        Stage::Whole(whole) => Ok(in_hundredths(whole, 0, 0)),
        Stage::Tenth(whole, tenth) => Ok(in_hundredths(whole, tenth, 0)),
        Stage::Hundredth(whole, tenth, hundredth) => Ok(in_hundredths(whole, tenth, hundredth)),
        Stage::Start | Stage::Marked(_) | Stage::Broken => Err(Refusal::NotHour),
    }
}

// The hour that a field spells, in hundredths, or the refusal that it spells none. As the paper has it, it is read from a copy of the
// reader's own, in fixed memory: `read_hour` cannot run out of it.
#[tactic(auto, using(crate::proofs::Spelling::no_hour), unfolding(crate::specs::Reading::hour_of))]
pub fn read_hour(field: &[u8]) -> Result<u32, Refusal>
    ensures { as_read result ≡ hour_of comma field.now }
{
    check(field.len() <= LONGEST_HOUR, Refusal::NotHour)?;
    let mut buffer = [0u8; LONGEST_HOUR];
    let copy = &mut buffer[..field.len()];
    copy.copy_from_slice(field);
    ended(scan(copy))
}

// The number that a field spells as a plain number, a whole part with nothing behind it, or the refusal that it is none.
#[tactic(auto, unfolding(crate::specs::Reading::plain_of, crate::specs::Reading::ended_plain))]
pub fn read_plain(field: &[u8]) -> Result<u32, Refusal>
    ensures { as_read result ≡ plain_of field.now }
{
    match scan(field) {
        Stage::Whole(whole) => Ok(u32::from(whole)),
        _ => Err(Refusal::NotPlain),
    }
}
