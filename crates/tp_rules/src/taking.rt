// Whether a report can be taken of a stream that is not malformed: answers 37, 34.
ghost use Rattle.std.specs.Prelude.{◌≡◌};
ghost use Rattle.refusal.specs.Said.{count_said};
ghost use Rattle.tp_rules.specs.Taking.{one_whole, one_ready};

use crate::judging::needed;
use refusal::Refusal;
use tp_machine::TpRange;

// Whether an end is known, and there is exactly one range, beginning at 0.
pub fn whole(end: Option<u32>, count: usize, first: TpRange) -> bool
    ensures { result ≡ one_whole end count first }
{
    end.is_some() && count == 1 && first.start == 0
}

// Answers 37 and 34 of a stream that is not malformed, of so many ranges with that first one, for a buffer of `room` bytes; or where the one range
// ends.
#[tactic(auto, using(numbers::proofs::AnswerLaws::when_hit, numbers::proofs::AnswerLaws::when_pass), unfolding(crate::specs::Taking::one_ready))]
pub fn ready_of(
    end: Option<u32>,
    count: usize,
    first: TpRange,
    room: usize,
) -> Result<usize, Refusal>
    ensures { count_said result ≡ one_ready end count first room }
{
    if !whole(end, count, first) {
        return Err(Refusal::NotComplete);
    }
    let needed = needed(first.end);
    if room < needed {
        return Err(Refusal::BufferTooShort(needed));
    }
    Ok(first.end as usize)
}
