// A text as lines: the line at a place, and the walk that hands out one line after another.
// Any bytes and any place may come. Assumes nothing.
#![tactic(auto)]

ghost use Rattle.std.specs.Prelude.{◌≡◌};
ghost use Rattle.texts.specs.Lines.{line_at, line_start, past_line, part_of, part_start};
ghost use Rattle.texts.specs.Meaning.{LiesAt, Starts, Hands};

// The place past the line that starts at a place; the place itself where none is left. By place: over what is left, `position` takes twice the
// time on empty lines.
#[tactic(auto, using(crate::proofs::Lines::past_end, crate::proofs::Lines::past_other))]
pub fn line_end(text: &[u8], at: usize) -> usize
    ensures { result ≡ past_line text.now at }
{
    for place in at..text.len() {
        if text[place] == b'\n' {
            return place + 1;
        }
    }
    at.max(text.len())
}

// A part of a text; the empty front where these are no places of it in order. The library's `get` would say what the part holds, and not
// where it lies, which is promised here.
#[tactic(auto, unfolding(crate::specs::Lines::part_of, crate::specs::Lines::part_start))]
pub fn part<'a>(text: &'a [u8], from: usize, to: usize) -> &'a [u8]
    ensures result_value { result.now ≡ part_of text.now from to }
    ensures lies_at { LiesAt result text.entry (part_start text.now from to) }
{
    if from <= to && to <= text.len() {
        &text[from..to]
    } else {
        &text[..0]
    }
}

// The line that starts at a place, its end included where there is one; empty where none is left.
// `line_at` and `walked_line`, and `line_end` and `walked_place`, say the same to two callers; all are public (docs/FUNCTIONS.md).
#[tactic(auto, using(crate::proofs::Lines::part_is))]
pub fn line_at<'a>(text: &'a [u8], at: usize) -> &'a [u8]
    ensures result_value { result.now ≡ line_at text.now at }
    ensures lies_at { LiesAt result text.entry (line_start text.now at) }
{
    let end = line_end(text, at);
    part(text, at, end)
}

// A walk through a text: the text, and the place reached. It goes on from whatever place it holds.
#[derive(Clone, Copy, Debug, PartialEq, Eq)]
pub struct Walk<'a> {
    pub text: &'a [u8],
    pub at: usize,
}

// A line that was handed out, empty where none is left, and the walk moved past it.
#[derive(Clone, Copy, Debug, PartialEq, Eq)]
pub struct Handed<'a> {
    pub line: &'a [u8],
    pub walk: Walk<'a>,
}

// A walk from the top of a text.
pub fn start<'a>(text: &'a [u8]) -> Walk<'a>
    ensures { Starts text.entry result }
{
    Walk { text, at: 0 }
}

// The next line, and the walk moved past it.
pub fn next<'a>(walk: Walk<'a>) -> Handed<'a>
    ensures { Hands walk.entry result }
{
    let at = line_end(walk.text, walk.at);
    let line = part(walk.text, walk.at, at);
    Handed {
        line,
        walk: Walk { at, ..walk },
    }
}

// For a caller that holds no walk: the place at which a walk starts; and of a walk at a place the line that it hands out,
// and the place that it is then at.
pub fn walk_start(text: &[u8]) -> usize
    ensures { result ≡ 0 }
{
    let walk = start(text);
    walk.at
}

pub fn walked_line<'a>(text: &'a [u8], at: usize) -> &'a [u8]
    ensures { (result.now ≡ line_at text.now at) × LiesAt result text.entry (line_start text.now at) }
{
    let handed = next(Walk { text, at });
    handed.line
}

pub fn walked_place(text: &[u8], at: usize) -> usize
    ensures { result ≡ past_line text.now at }
{
    let handed = next(Walk { text, at });
    handed.walk.at
}
