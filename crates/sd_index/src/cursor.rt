// The cursors, by value: one over all options of an options part, by their bytes, and one over a run of them, by the table.
ghost use Rattle.std.specs.Prelude.{◌≡◌};
ghost use Rattle.numbers.specs.Answers.{given};
ghost use Rattle.sd_format.specs.Frames.{next_option, next_of_run};
ghost use Rattle.sd_option.specs.Settings.{settings_said};
ghost use Rattle.sd_option.specs.Reading.{head_of, option_said};
ghost use Rattle.sd_index.specs.Found.{found_said, by_table};
ghost use Rattle.sd_index.specs.Steps.{run_said, run_of, OptionStepped, RunStepped};

use crate::lookup::{Found, look_up, option_at};
use crate::{Offset, Ordinal};
use refusal::{Refusal, Step};
use sd_option::Settings;
use sd_option::reading::{OptionHead, read_option};

// Where the next option starts.
#[derive(Clone, Copy)]
pub struct OptionCursor {
    pub at: Offset,
}

impl OptionCursor {
    // The cursor before the first option.
    pub fn new() -> Self
        ensures { result.at.0 ≡ 0 }
    {
        OptionCursor { at: Offset(0) }
    }

    // The option at the cursor; 20 with no bytes left, otherwise as `read_option` refuses.
    #[tactic(auto, using(crate::proofs::StepLaws::option_ended, crate::proofs::StepLaws::option_within))]
    fn option(self, settings: Settings, options: &[u8]) -> Result<OptionHead, Refusal>
        ensures { option_said result ≡ given head_of (next_option (settings_said settings) options.now self.at.0) }
    {
        if options.len() <= self.at.0 {
            return Err(Refusal::NothingThere);
        }
        read_option(settings, option_at(options, self.at))
    }

    // The option at the cursor, and the cursor behind it; where it is refused, the cursor where it was. (As in `sd_entry`, and so below.)
    #[tactic(auto, using(crate::proofs::StepLaws::option_fits, crate::proofs::StepLaws::option_gave, crate::proofs::StepLaws::option_kept))]
    pub fn next(self, settings: Settings, options: &[u8]) -> Step<OptionHead, OptionCursor>
        ensures { OptionStepped (settings_said settings) options.now self.at.0 result }
    {
        match self.option(settings, options) {
            Ok(head) => Step {
                answer: Ok(head),
                after: OptionCursor {
                    at: Offset(self.at.0 + head.size),
                },
            },
            Err(refusal) => Step {
                answer: Err(refusal),
                after: self,
            },
        }
    }
}

// The number of the run's next option, and how many of the run are left.
#[derive(Clone, Copy)]
pub struct RunCursor {
    pub next: Ordinal,
    pub left: usize,
}

impl RunCursor {
    // The cursor before the first option of a run.
    pub fn new(start: u8, count: u8) -> Self
        ensures { run_said result ≡ run_of start count }
    {
        RunCursor {
            next: Ordinal(start as usize),
            left: count as usize,
        }
    }

    // The run's next option; 20 at the run's end, otherwise as `look_up` refuses.
    #[tactic(auto, using(crate::proofs::StepLaws::run_ended, crate::proofs::StepLaws::run_within))]
    fn option(self, options: &[u8], table: &[u16], count: usize) -> Result<Found, Refusal>
        ensures { found_said result ≡ by_table table.now self.next.0 (next_of_run options.now table.now count (run_said self)) }
    {
        if self.left == 0 {
            return Err(Refusal::NothingThere);
        }
        look_up(options, table, count, self.next)
    }

    // The run's next option, and the cursor behind it; where it is refused, the cursor where it was. The count stands beside the table, as C lends
    // both.
    #[tactic(auto, using(crate::proofs::StepLaws::run_some, crate::proofs::StepLaws::run_counted, crate::proofs::StepLaws::run_gave, crate::proofs::StepLaws::run_kept))]
    pub fn next(self, options: &[u8], table: &[u16], count: usize) -> Step<Found, RunCursor>
        ensures { RunStepped options.now table.now count (run_said self) result }
    {
        match self.option(options, table, count) {
            Ok(found) => Step {
                answer: Ok(found),
                after: RunCursor {
                    next: Ordinal(self.next.0 + 1),
                    left: self.left - 1,
                },
            },
            Err(refusal) => Step {
                answer: Err(refusal),
                after: self,
            },
        }
    }
}
