// A segment that is accepted at once: the tests that say so and change nothing, and then what is done. Where a test fails, the calls by value say
// why; so each refusal is told in one place.
ghost use Rattle.std.specs.Prelude.{◌≡◌, true, cond, ◌∷◌, ◌<◌, ◌⊎◌, length, drop, get_or, IfSome};
ghost use Rattle.numbers.specs.Answers.{pass};
ghost use Rattle.tp_machine.specs.Machine.{most, previous};
ghost use Rattle.tp_rules.specs.Judging.{header_judged};
ghost use Rattle.tp_words.specs.Words.{end_of, known};
ghost use Rattle.tp_lent.specs.Lent.{last_end, Planned, CarriedOut};

use crate::order::{Found, survey};
use crate::ranges::{grown_by, place};
use crate::ready::Ready;
use tp_machine::TpRange;
use tp_range::MAX_RANGES;
use tp_segment::TpHeader;
use tp_words::Words;

// What is done with a segment that is accepted at once: its range, whether more follows, and what was found of the ranges that are held.
#[derive(Clone, Copy)]
pub(crate) struct Plan {
    pub(crate) new: TpRange,
    pub(crate) more: bool,
    pub(crate) found: Found,
}

// How far a segment has to reach: a final one to the end of the last range.
fn least_end(stream: Ready<'_>, more: bool) -> u32
    ensures { result ≡ cond more 0 (last_end stream.entry.words.now (get_or stream.entry.words.now 1 0)) }
{
    if more { 0 } else { stream.last_end() }
}

// Whether a segment with that header is not refused by 31 to 34, for a buffer of `room` bytes.
fn passes(stream: Ready<'_>, header: TpHeader, room: usize) -> bool
    ensures { result ≡ true → header_judged (get_or stream.entry.words.now 0 0) (end_of (get_or stream.entry.words.now 2 0) (get_or stream.entry.words.now 3 0)) (cond header.more 0 (last_end stream.entry.words.now (get_or stream.entry.words.now 1 0))) header room ≡ pass }
{
    let least = least_end(stream, header.more);
    tp_rules::judge_header(stream.limit(), stream.end(), least, header, room).is_ok()
}

// Whether there is a place for one more range, or one to be joined.
fn room_left(found: Found, count: usize) -> bool
    ensures { result ≡ true → (found.before < found.behind) ⊎ (count < most) }
{
    found.before < found.behind || count < MAX_RANGES
}

// What is done with a segment for a buffer of `room` bytes; `None` where it is not accepted at once.
pub(crate) fn plan_of(words: &Words, seg: &[u8], room: usize) -> Option<Plan>
    ensures { IfSome result (λ plan. Planned words.now seg.now room plan) }
{
    let stream = Ready::of(words)?;
    let header = tp_segment::read(seg).ok()?;
    if !passes(stream, header, room) {
        return None;
    }
    let new = TpRange {
        start: header.offset,
        end: header.offset + header.size as u32,
        number: stream.accepted().checked_add(1)?,
    };
    let found = survey(stream, new)?;
    if !room_left(found, stream.count()) {
        return None;
    }
    Some(Plan {
        new,
        more: header.more,
        found,
    })
}

// How many ranges are held, the end and how many segments were accepted, into the words behind the limit.
pub(crate) fn put_front(words: &mut Words, count: u32, end: Option<u32>, accepted: u32)
    ensures { words.new ≡ get_or words.old 0 0 ∷ count ∷ known end ∷ previous end ∷ accepted ∷ drop 5 words.old }
{
    words[1] = count;
    words[2] = tp_words::known_of(end);
    words[3] = tp_rules::previous_end(end);
    words[4] = accepted;
}

// A segment that is accepted at once is joined, where the ranges stand, and written.
pub(crate) fn carry_out(words: &mut Words, seg: &[u8], buf: &mut [u8], plan: Plan)
    requires { Planned words.old seg.now (length buf.old) plan }
    ensures { CarriedOut words.old seg.now buf.old words.new buf.new }
{
    let Plan { new, more, found } = plan;
    let count = words[1] as usize;
    let before = tp_words::end_of(words[2], words[3]);
    let end = tp_rules::end_after(before, more, new.end);
    let grown = grown_by(words, found, new);
    tp_rules::write(buf, seg, new.start);
    place(words, count, found, grown);
    put_front(
        words,
        (found.before + 1 + (count - found.behind)) as u32,
        end,
        new.number,
    );
}
