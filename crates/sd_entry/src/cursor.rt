// The entry cursor: a place among the bytes of the entries part, by value, that hands out one entry after the other.
ghost use Rattle.std.specs.Prelude.{◌≡◌};
ghost use Rattle.sd_format.specs.Entries.{next_entry};
ghost use Rattle.sd_entry.specs.Said.{answer_said};
ghost use Rattle.sd_entry.specs.Steps.{Stepped};

use crate::{ENTRY_LEN, SdEntry, read_entry};
use refusal::{Refusal, Step};

// The byte where the next entry starts.
#[derive(Clone, Copy)]
pub struct EntryCursor {
    pub at: usize,
}

impl EntryCursor {
    // The cursor before the first entry.
    pub fn new() -> Self
        ensures { result.at ≡ 0 }
    {
        EntryCursor { at: 0 }
    }

    // The entry at the cursor among the entries `s`; 20 with no bytes left, otherwise as `read_entry` refuses.
    #[tactic(auto, using(crate::proofs::Laws::entry_ended, crate::proofs::Laws::entry_within))]
    fn entry(self, s: &[u8]) -> Result<SdEntry, Refusal>
        ensures { answer_said result ≡ next_entry s.now self.at }
    {
        if s.len() <= self.at {
            return Err(Refusal::NothingThere);
        }
        read_entry(&s[self.at..])
    }

    // The entry at the cursor and the cursor behind it; where it is refused, the cursor where it was. (One function for all cursors would need a closure
    // for the step, and be no plainer. The match chooses the cursor alone: an answer as large as an entry that is taken apart and put together again is
    // copied, which costs a third of the call; those of the other cursors are small.)
    #[tactic(auto, using(crate::proofs::Laws::entry_fits))]
    pub fn next(self, s: &[u8]) -> Step<SdEntry, EntryCursor>
        ensures { Stepped s.now self.at result }
    {
        let answer = self.entry(s);
        let after = match answer {
            Ok(_) => EntryCursor {
                at: self.at + ENTRY_LEN,
            },
            Err(_) => self,
        };
        Step { answer, after }
    }
}
