// A word of a case as a text: its bytes, with each escape undone, put into a lent buffer.
// Any bytes may come; a word with a byte or an escape that stands for nothing, or with
// more bytes than there is room, is no text. Assumes nothing.
ghost use Rattle.std.specs.Prelude.{◌<◌, IfSome, length};

use crate::words;

// How many bytes a text can have.
pub(crate) const TEXT_ROOM: usize = 65_600;

// A piece of a word: the byte that it stands for, how many times, and what is left of the word behind it.
#[derive(Clone, Copy)]
struct Piece<'a> {
    byte: u8,
    times: usize,
    rest: &'a [u8],
}

// A byte that stands for itself.
pub(crate) fn is_plain(byte: u8) -> bool {
    byte.is_ascii_graphic() && byte != b'\\'
}

// The text that a word is, at the front of a buffer.
pub(crate) fn read<'a>(word: &[u8], buffer: &'a mut [u8]) -> Option<&'a [u8]> {
    if word.is_empty() {
        return None;
    }
    let mut rest = word;
    let mut length: usize = 0;
    while !rest.is_empty() {
        let piece = piece_of(rest, buffer.get(..length)?)?;
        let end = length.checked_add(piece.times)?;
        buffer.get_mut(length..end)?.fill(piece.byte);
        length = end;
        rest = piece.rest;
    }
    buffer.get(..length)
}

// The piece at the front of what is left of a word, behind the text so far.
fn piece_of<'a>(rest: &'a [u8], text: &[u8]) -> Option<Piece<'a>>
    ensures { IfSome result (λ piece. length piece.rest.now < length rest.now) }
{
    let (byte, rest) = match rest {
        [b'\\', b't', rest @ ..] => (b'\t', rest),
        [b'\\', b'n', rest @ ..] => (b'\n', rest),
        [b'\\', b's', rest @ ..] => (b' ', rest),
        [b'\\', b'\\', rest @ ..] => (b'\\', rest),
        [b'\\', b'x', sixteens, ones, rest @ ..] => {
            let byte = hexadecimal_digit(*sixteens)? * 16 + hexadecimal_digit(*ones)?;
            (byte, rest)
        }
        // An escape that stands for no byte.
        [b'\\', b'e', rest @ ..] => {
            return Some(Piece {
                byte: 0,
                times: 0,
                rest,
            });
        }
        [b'\\', b'{', rest @ ..] => return repeat_of(rest, *text.last()?),
        [byte, rest @ ..] if is_plain(*byte) => (*byte, rest),
        _ => return None,
    };
    Some(Piece {
        byte,
        times: 1,
        rest,
    })
}

// What a hexadecimal digit is worth.
fn hexadecimal_digit(digit: u8) -> Option<u8>
    ensures { IfSome result (λ worth. worth < 16) }
{
    match digit {
        b'0'..=b'9' => Some(digit - b'0'),
        b'a'..=b'f' => Some(digit - b'a' + 10),
        _ => None,
    }
}

// The last byte once more for each time after the first, with the number of times up to the closing brace.
fn repeat_of<'a>(rest: &'a [u8], last: u8) -> Option<Piece<'a>>
    ensures { IfSome result (λ piece. length piece.rest.now < length rest.now) }
{
    let end = rest.iter().position(|byte| *byte == b'}')?;
    let times = words::number_of(&rest[..end])?;
    Some(Piece {
        byte: last,
        times: times.checked_sub(1)? as usize,
        rest: &rest[end + 1..],
    })
}
