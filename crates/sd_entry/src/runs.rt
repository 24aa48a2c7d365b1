// The rule for an entry's two runs of options: a run of no option may start anywhere, any other lies inside the list of options.
ghost use Rattle.std.specs.Prelude.{◌≡◌};
ghost use Rattle.numbers.specs.Answers.{verdict};
ghost use Rattle.refusal.specs.Said.{verdict_said};
ghost use Rattle.sd_format.specs.Entries.{inside, judge_run, placed_entry};

use crate::{ENTRY_LEN, halves};
use refusal::Refusal;

// A run of options: its number in the entry, 1 or 2, its first option's place in the list, and how many they are.
#[derive(Clone, Copy)]
struct Run {
    number: u8,
    start: u8,
    count: u8,
}

impl Run {
    // Whether it lies inside a list of so many options.
    #[tactic(auto, using(crate::proofs::Laws::run_empty, crate::proofs::Laws::run_held))]
    fn is_inside(self, options: usize) -> bool
        ensures { result ≡ inside options self.start self.count }
    {
        self.count == 0 || self.start as usize + self.count as usize <= options
    }

    // The verdict on it beside so many options: 12 where it leaves the list.
    #[tactic(auto, using(crate::proofs::Laws::run_in, crate::proofs::Laws::run_out))]
    fn judged(self, options: usize) -> Result<(), Refusal>
        ensures { verdict_said result ≡ judge_run self.number options self.start self.count }
    {
        if self.is_inside(options) {
            return Ok(());
        }
        Err(Refusal::RunOutOfBounds {
            run: self.number,
            start: self.start,
            count: self.count,
            options,
        })
    }
}

// The verdict on the entry in front of `s` beside so many options, without reading its other fields: 1 with 16, 11, 12 for run 1, 12 for run 2.
#[tactic(auto, using(crate::proofs::Laws::placed_short, crate::proofs::Laws::placed_unknown, crate::proofs::Laws::placed_first, crate::proofs::Laws::placed_second))]
pub fn judge_entry(s: &[u8], options: usize) -> Result<(), Refusal>
    ensures { verdict_said result ≡ verdict (placed_entry options s.now) }
{
    if s.len() < ENTRY_LEN {
        return Err(Refusal::UnexpectedEndOfSlice(ENTRY_LEN));
    }
    let code = s[0];
    match code {
        0x00..=0x01 | 0x06..=0x07 => {
            let (count_1, count_2) = halves(s[3]);
            let first = Run {
                number: 1,
                start: s[1],
                count: count_1,
            };
            let second = Run {
                number: 2,
                start: s[2],
                count: count_2,
            };
            first.judged(options)?;
            second.judged(options)
        }
        _ => Err(Refusal::UnknownEntry(code)),
    }
}
