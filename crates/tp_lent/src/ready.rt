// Words that hold a stream, judged but for its ranges: what its five words in front tell, and its ranges where they stand.
ghost use Rattle.std.specs.Prelude.{◌≡◌, false, true, ◌<◌, get_or, MatchOption};
ghost use Rattle.tp_machine.specs.Machine.{most};
ghost use Rattle.tp_words.specs.Words.{end_of, range_at};
ghost use Rattle.tp_lent.specs.Lent.{unready as unready_of, top_of, last_end};

use crate::ranges::range_at;
use tp_machine::TpRange;
use tp_range::MAX_RANGES;
use tp_words::Words;

// How far the ranges may reach: to the end that is known, else to the limit.
fn top_of(words: &Words) -> u32
    ensures { result ≡ top_of words.now }
{
    if words[2] == 0 { words[0] } else { words[3] }
}

// Whether words are unfit, or tell of a malformed state before its ranges are looked at.
fn unready(words: &Words) -> bool
    ensures { result ≡ unready_of words.now }
{
    tp_words::unfit(words)
        || MAX_RANGES < words[1] as usize
        || tp_rules::MAX_LIMIT < words[0]
        || words[0] < top_of(words)
}

// Words that are not so.
#[derive(Clone, Copy)]
pub(crate) struct Ready<'a> {
    pub(crate) words: &'a Words,
    ghost ready: { unready_of words.now ≡ false },
}

impl<'a> Ready<'a> {
    // The words, where they are so.
    pub(crate) fn of(words: &'a Words) -> Option<Ready<'a>>
        ensures { MatchOption result (unready_of words.now ≡ true) (λ stream. stream.words.now ≡ words.now) }
    {
        if unready(words) {
            return None;
        }
        Some(Ready { words })
    }

    pub(crate) fn limit(self) -> u32
        ensures { result ≡ get_or self.entry.words.now 0 0 }
    {
        self.words[0]
    }

    // How many ranges are held.
    pub(crate) fn count(self) -> usize
        ensures { result ≡ get_or self.entry.words.now 1 0 }
    {
        self.words[1] as usize
    }

    pub(crate) fn end(self) -> Option<u32>
        ensures { result ≡ end_of (get_or self.entry.words.now 2 0) (get_or self.entry.words.now 3 0) }
    {
        tp_words::end_of(self.words[2], self.words[3])
    }

    // How many segments were accepted.
    pub(crate) fn accepted(self) -> u32
        ensures { result ≡ get_or self.entry.words.now 4 0 }
    {
        self.words[4]
    }

    pub(crate) fn top(self) -> u32
        ensures { result ≡ top_of self.entry.words.now }
    {
        top_of(self.words)
    }

    // The range at place i, which is asked to be one where it is used.
    pub(crate) fn range_at(self, i: usize) -> TpRange
        requires { i < most }
        ensures { result ≡ range_at self.entry.words.now i }
    {
        range_at(self.words, i)
    }

    // The end of the last range; 0 of none.
    pub(crate) fn last_end(self) -> u32
        ensures { result ≡ last_end self.entry.words.now (get_or self.entry.words.now 1 0) }
    {
        let count = self.count();
        if count == 0 {
            return 0;
        }
        self.range_at(count - 1).end
    }
}
