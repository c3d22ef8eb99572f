// A line as fields, cut at tabs: one scan tells how many there are and where they end, and each is then a part of the line.
// Any bytes may come; what is no single ended line has no field. Assumes nothing.
#![tactic(auto)]

ghost use Rattle.std.specs.Prelude.{◌≡◌, ◌<◌, ◌≤◌, min, unwrap_or, IfSome, IfNone};
ghost use Rattle.texts.specs.Meaning.{LiesAt};
ghost use Rattle.fields.specs.Fields.{same_bytes};
ghost use Rattle.fields.specs.Cutting.{most_counted, most_fields, one_field_more, cut_of, end_of, start_of, field_at, field_start};

use classes::{Class, class_of};
use texts::part;

// How many ends a cut keeps; further fields are counted only.
pub const MOST_FIELDS: usize = 5;

// How many fields a line has, 0 where it is no single ended line, and where the first of them end. Memory is fixed, so the ends of five are
// kept and the rest are counted alone; `counts_exactly`, `keeps_ends` and `five_ends` speak of both, and any cut may come to `field`.
#[derive(Clone, Copy, Debug, PartialEq, Eq)]
pub struct Cut {
    pub count: usize,
    pub ends: [usize; MOST_FIELDS],
}

// No field.
const NO_CUT: Cut = Cut {
    count: 0,
    ends: [0; MOST_FIELDS],
};

impl Cut {
    // One field more, which ends at a place. By an index: of a write through `get_mut` the library does not say what the array is then.
    fn add_end(&mut self, at: usize)
        requires { self.old.count < most_counted }
        ensures { self.new ≡ one_field_more self.old at }
    {
        let place = self.count;
        if place < MOST_FIELDS {
            self.ends[place] = at;
        }
        self.count += 1;
    }

    // Where a field ends, if there is one and its end was kept.
    #[tactic(auto, unfolding(crate::specs::Cutting::end_of))]
    fn end(self, place: usize) -> Option<usize>
        ensures kept { unwrap_or result 0 ≡ end_of self place }
        ensures none { IfNone result (min self.count most_fields ≤ place) }
    {
        if place < self.count {
            self.ends.get(place).copied()
        } else {
            None
        }
    }

    // Where it starts: the first with the line, and any other behind the tab that ends the one before, if there is one.
    #[tactic(auto, unfolding(crate::specs::Cutting::start_of, crate::specs::Cutting::end_of))]
    fn start(self, place: usize) -> Option<usize>
        ensures known { IfSome result (λ start. start ≡ start_of self place) }
        ensures none { IfNone result (end_of self place < start_of self place) }
    {
        if place == 0 {
            return Some(0);
        }
        self.end(place - 1)?.checked_add(1)
    }
}

// How many fields a line has, and where they end.
#[tactic(auto, using(crate::proofs::Cutting::cut_steps), unfolding(crate::specs::Cutting::cut_of))]
pub fn cut_line(line: &[u8]) -> Cut
    ensures { result ≡ cut_of line.now }
{
    let mut found = NO_CUT;
    for (at, byte) in line.iter().enumerate() {
        match class_of(*byte) {
            Class::Tab => found.add_end(at),
            Class::LineEnd => {
                found.add_end(at);
                let alone = at + 1 == line.len();
                return if alone { found } else { NO_CUT };
            }
            Class::Digit(_) | Class::Mark | Class::Foreign => {}
        }
    }
    NO_CUT
}

// A field of a line that was cut, counted from 0: a part of the line, empty where there is none.
#[tactic(auto, unfolding(crate::specs::Cutting::field_at, crate::specs::Cutting::field_start, crate::specs::Cutting::lies, texts::specs::Lines::part_of, texts::specs::Lines::part_start))]
pub fn field<'a>(line: &'a [u8], cut: Cut, place: usize) -> &'a [u8]
    ensures result_value { result.now ≡ field_at line.now cut place }
    ensures lies_at { LiesAt result line.entry (field_start line.now cut place) }
{
    let (Some(start), Some(end)) = (cut.start(place), cut.end(place)) else {
        return &line[..0];
    };
    part(line, start, end)
}

// Whether two texts are the same, byte for byte.
#[tactic(auto, using(crate::proofs::Words::same_pairs))]
pub fn same_bytes(one: &[u8], other: &[u8]) -> bool
    ensures { result ≡ same_bytes one.now other.now }
{
    one == other
}
