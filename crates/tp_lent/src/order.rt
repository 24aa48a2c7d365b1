// Whether the ranges stand in order in the words, none of them bad: one pass tells, and where a new range belongs.
ghost use Rattle.std.specs.Prelude.{◌≡◌, false, true, MatchOption};
ghost use Rattle.tp_machine.specs.Machine.{bad_range};
ghost use Rattle.tp_range.specs.Ordered.{rising};
ghost use Rattle.tp_words.specs.Words.{stream_of, state_of};
ghost use Rattle.tp_lent.specs.Lent.{held, in_order, Surveyed};

use crate::ready::Ready;
use tp_machine::TpRange;
use tp_range::UNUSED;

// Of ranges that are in order: how many end before a new one begins, and how many begin where it ends or before.
#[derive(Clone, Copy)]
pub(crate) struct Found {
    pub(crate) before: usize,
    pub(crate) behind: usize,
}

// One pass over the ranges: `None` where they are not in order, or one is bad. In order the last one reaches furthest: it alone is asked how far.
pub(crate) fn survey(stream: Ready<'_>, new: TpRange) -> Option<Found>
    ensures { MatchOption result (rising (bad_range (state_of stream.entry.words.now)) 0 (held stream.entry.words.now) ≡ false) (λ found. Surveyed stream.entry.words.now new found) }
{
    let accepted = stream.accepted();
    let mut low: usize = 0;
    let mut before: usize = 0;
    let mut behind: usize = 0;
    // by place: pieces of three words would be no plainer
    for i in 0..stream.count() {
        let r = stream.range_at(i);
        if (r.start as usize) < low || tp_rules::bad_range(r.end, accepted, r) {
            return None;
        }
        low = r.end as usize + 1;
        before += usize::from(r.end < new.start);
        behind += usize::from(r.start <= new.end);
    }
    if stream.top() as usize + 1 < low {
        return None;
    }
    Some(Found { before, behind })
}

// The first words, where they hold a stream that is not malformed, its ranges in order.
pub(crate) fn in_order(words: &[u32]) -> Option<Ready<'_>>
    ensures { MatchOption result (in_order words.now ≡ false) (λ stream. (in_order stream.words.now ≡ true) × (stream_of stream.words.now ≡ stream_of words.now)) }
{
    let stream = Ready::of(words.first_chunk()?)?;
    survey(stream, UNUSED)?;
    Some(stream)
}
