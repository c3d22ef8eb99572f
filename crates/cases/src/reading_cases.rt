// The cases of reading: a text as an hour, a plain number, a heading, an order or a load, and a text walked through line by line.
// Any text may come. Assumes nothing.
ghost use Rattle.std.specs.Prelude.{◌-◌, length};
ghost use Rattle.std.specs.Iterator.{at_most};

use crate::results;
use ground::Refusal;

pub(crate) fn hour(field: &[u8]) {
    show(b"hour", hours::read_hour(field).map(|hour| [hour]));
}

pub(crate) fn number(field: &[u8]) {
    show(b"number", hours::read_plain(field).map(|number| [number]));
}

pub(crate) fn heading(line: &[u8]) {
    let read = lines::read_heading(line);
    show(
        b"heading",
        read.map(|heading| [heading.chambers, heading.run]),
    );
}

pub(crate) fn order(line: &[u8]) {
    let read = lines::read_order(line);
    show(
        b"order",
        read.map(|order| [order.grower, order.ready, order.due]),
    );
}

pub(crate) fn load(line: &[u8], count: u32) {
    let read = lines::read_load(line, count);
    show(
        b"load",
        read.map(|load| [load.order, load.chamber, load.start]),
    );
}

// What a text reads as: the numbers, behind what they are, or the refusal.
fn show<const N: usize>(name: &[u8], read: Result<[u32; N], Refusal>) {
    match read {
        Ok(numbers) => results::named(name, &numbers),
        Err(refusal) => results::refused(refusal.number()),
    }
}

// The number of lines, and each line, as a walk from the top hands them out.
pub(crate) fn lines(text: &[u8]) {
    results::number(WalkedLines::from_top(text).count() as u64);
    for line in WalkedLines::from_top(text) {
        results::text(line);
    }
}

// The number of lines alone, and the place of the walk when none is left.
pub(crate) fn walk(text: &[u8]) {
    let mut walk = WalkedLines::from_top(text);
    results::number(walk.by_ref().count() as u64);
    results::number(walk.at as u64);
}

// The line that a walk with this place hands out, and its place then.
pub(crate) fn line(text: &[u8], at: u32) {
    let at = at as usize;
    results::text(texts::walked_line(text, at));
    results::number(texts::walked_place(text, at) as u64);
}

// The lines that a walk through a text hands out, and its place. By the place alone: what programs walk by (docs/FORMS.md) are
// `walked_line` and `walked_place`, and these cases are to run them.
#[derive(Drop)]
struct WalkedLines<'a> {
    text: &'a [u8],
    at: usize,
}

impl<'a> WalkedLines<'a> {
    fn from_top(text: &'a [u8]) -> Self {
        WalkedLines {
            text,
            at: texts::walk_start(text),
        }
    }
}

impl<'a> Iterator for WalkedLines<'a> {
    type Item = &'a [u8];

    ghost remaining = { λ walk. at_most (length walk.text.now - walk.at) };

    #[tactic(auto, using(texts::proofs::WholeText::walk_further))]
    fn next(&mut self) -> Option<&'a [u8]> {
        let line = texts::walked_line(self.text, self.at);
        if line.is_empty() {
            return None;
        }
        self.at = texts::walked_place(self.text, self.at);
        Some(line)
    }
}
