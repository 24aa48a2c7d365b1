// The ranges where they stand in the words: one is read, one is written, and a joined range takes the places of those that it touches.
ghost use Rattle.std.specs.Prelude.{◌≡◌, ◌∷◌, ◌++◌, ◌⊎◌, ◌+◌, ◌≤◌, ◌<◌, take, drop};
ghost use Rattle.tp_machine.specs.Machine.{most};
ghost use Rattle.tp_machine.specs.Segments.{pasted};
ghost use Rattle.tp_range.specs.Joining.{placed};
ghost use Rattle.tp_words.specs.Words.{size, range_at, ranges_in};
ghost use Rattle.tp_lent.specs.Lent.{spread, put_range, spanned};

use crate::order::Found;
use tp_machine::TpRange;
use tp_range::MAX_RANGES;
use tp_words::{FRONT_WORDS, RANGE_WORDS, Words};

// The words of all ranges.
const ALL: usize = RANGE_WORDS * MAX_RANGES;

// The range at place i. `tp_words` has the same inside: it asks for i to be a place, and a public function asks nothing.
pub(crate) fn range_at(words: &Words, i: usize) -> TpRange
    requires { i < most }
    ensures { result ≡ range_at words.now i }
{
    let at = FRONT_WORDS + RANGE_WORDS * i;
    TpRange {
        start: words[at],
        end: words[at + 1],
        number: words[at + 2],
    }
}

// A range into place i.
fn put_range(words: &mut Words, i: usize, r: TpRange)
    requires { i < most }
    ensures { words.new ≡ put_range words.old i r }
{
    let at = FRONT_WORDS + RANGE_WORDS * i;
    words[at] = r.start;
    words[at + 1] = r.end;
    words[at + 2] = r.number;
}

// `new` grown by the ranges behind those before it, which stand in order and touch it; no number is larger than its own.
pub(crate) fn grown_by(words: &Words, found: Found, new: TpRange) -> TpRange
    requires { (found.before ≤ found.behind) × (found.behind ≤ most) }
    ensures { result ≡ spanned words.now found.before found.behind new }
{
    if found.before == found.behind {
        return new;
    }
    let first = range_at(words, found.before);
    let last = range_at(words, found.behind - 1);
    TpRange {
        start: first.start.min(new.start),
        end: last.end.max(new.end),
        number: new.number,
    }
}

// Copies `many` words from one place to another. They go by way of an array of its own, so that the compiler makes one `memmove` of both loops; of
// the library's `copy_within` it makes none, but a loop that takes a word at a time where the places are near each other.
fn shift(words: &mut Words, to: usize, from: usize, many: usize)
    requires { (many ≤ 192) × (from + many ≤ size) × (to + many ≤ size) }
    ensures { words.new ≡ pasted words.old to (take many (drop from words.old)) }
{
    let mut part = [0; ALL];
    for i in 0..many {
        part[i] = words[from + i];
    }
    for j in 0..many {
        words[to + j] = part[j];
    }
}

// `grown` behind the ranges before it, and those behind it up to `count` behind that: a count of ranges, which stands in the words.
pub(crate) fn place(words: &mut Words, count: usize, found: Found, grown: TpRange)
    requires { (found.before ≤ found.behind) × (found.behind ≤ count) × (count ≤ most) × ((found.before < found.behind) ⊎ (count < most)) }
    ensures { words.new ≡ spread words.old (placed (ranges_in words.old most) (take found.before (ranges_in words.old most) ++ (grown ∷ drop found.behind (take count (ranges_in words.old most))))) }
{
    let Found { before, behind } = found;
    if behind != before + 1 {
        shift(
            words,
            FRONT_WORDS + RANGE_WORDS * (before + 1),
            FRONT_WORDS + RANGE_WORDS * behind,
            RANGE_WORDS * (count - behind),
        );
    }
    put_range(words, before, grown);
}
