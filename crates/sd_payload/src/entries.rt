// All entries of a payload, judged from the front.
ghost use Rattle.std.specs.Prelude.{◌≡◌};
ghost use Rattle.numbers.specs.Answers.{verdict};
ghost use Rattle.sd_format.specs.Entries.{read_entries};
ghost use Rattle.refusal.specs.Said.{verdict_said};

use refusal::Refusal;
use sd_entry::{ENTRY_LEN, judge_entry};

// The first refusal of an entry beside so many options: 11, 12 for run 1, 12 for run 2.
#[tactic(auto, using(crate::proofs::EntryLoop::entries_end, crate::proofs::EntryLoop::entries_stop, crate::proofs::EntryLoop::entries_more))]
pub(crate) fn judge_entries(entries: &[u8], options: usize) -> Result<(), Refusal>
    ensures { verdict_said result ≡ verdict (read_entries options entries.now) }
{
    for entry in entries.chunks(ENTRY_LEN) {
        judge_entry(entry, options)?;
    }
    Ok(())
}
