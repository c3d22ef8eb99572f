// Results as they are written: words, numbers and texts, each behind a space.
// A byte of a text that cannot be seen is written as an escape, as a case has it. Any bytes may come. Assumes nothing.
// They are written by the kit's `io`: `print!` is no plainer, as each function on the way would take the runtime for it.
use crate::case_text;

pub(crate) fn word(word: &[u8]) {
    io::write_all(1, b" ");
    io::write_all(1, word);
}

pub(crate) fn number(number: u64) {
    io::write_all(1, b" ");
    io::print_decimal(1, number);
}

pub(crate) fn numbers(values: &[u32]) {
    for value in values {
        number(u64::from(*value));
    }
}

pub(crate) fn named(name: &[u8], values: &[u32]) {
    word(name);
    numbers(values);
}

pub(crate) fn refused(refusal: u32) {
    named(b"bad", &[refusal]);
}

pub(crate) fn text(bytes: &[u8]) {
    if bytes.is_empty() {
        word(b"\\e");
        return;
    }
    word(b"");
    part_of_text(bytes);
}

// Some bytes of a text, with nothing before them.
pub(crate) fn part_of_text(bytes: &[u8]) {
    for seen in bytes {
        byte(*seen);
    }
}

// The fields of a line as words: a space stands for each tab, and nothing for its end.
pub(crate) fn words_of(line: &[u8]) {
    word(b"");
    for seen in line {
        spaced(*seen);
    }
}

fn spaced(seen: u8) {
    match seen {
        b'\t' => {
            io::write_all(1, b" ");
        }
        b'\n' => (),
        _ => {
            io::write_all(1, &[seen]);
        }
    }
}

fn byte(seen: u8) {
    if case_text::is_plain(seen) {
        io::write_all(1, &[seen]);
        return;
    }
    match letter_of(seen) {
        Some(letter) => {
            io::write_all(1, &[b'\\', letter]);
        }
        None => {
            io::write_all(1, b"\\x");
            io::print_hex(1, u64::from(seen), 2);
        }
    }
}

// The letter of an escape that is a letter alone, if a byte has one.
fn letter_of(seen: u8) -> Option<u8> {
    match seen {
        b'\t' => Some(b't'),
        b'\n' => Some(b'n'),
        b' ' => Some(b's'),
        b'\\' => Some(b'\\'),
        _ => None,
    }
}
