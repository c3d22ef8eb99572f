// What a byte is to a reader of hours, numbers, fields or lines. Any byte may come; nothing is asked of the caller. Assumes nothing.
#![tactic(auto)]

ghost use Rattle.std.specs.Prelude.{◌≡◌};
ghost use Rattle.classes.specs.Classes.{comma, class_of};

// What a byte is to a reader. A digit comes with its worth.
#[derive(Clone, Copy, Debug, PartialEq, Eq)]
pub enum Class {
    Digit(u8),
    Mark,
    Tab,
    LineEnd,
    Foreign,
}

// The class of a byte, with the comma for decimal mark.
#[tactic(auto, unfolding(crate::specs::Classes::class_of))]
pub fn class_of(byte: u8) -> Class
    ensures { result ≡ class_of comma byte }
{
    match byte {
        b'0'..=b'9' => Class::Digit(byte - b'0'),
        b',' => Class::Mark,
        b'\t' => Class::Tab,
        b'\n' => Class::LineEnd,
        _ => Class::Foreign,
    }
}
