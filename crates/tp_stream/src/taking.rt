// Whether a stream's report can be taken: answers 38, 37, 34.
ghost use Rattle.std.specs.Prelude.{◌≡◌};
ghost use Rattle.refusal.specs.Said.{count_said};
ghost use Rattle.tp_machine.specs.Taking.{ready as ready_of};
ghost use Rattle.tp_stream.specs.Stream.{view};

use crate::TpStream;
use crate::malformed::well_formed;
use refusal::Refusal;

// Answers 38, 37 and 34 for a buffer of `room` bytes, or where the one range ends.
#[tactic(auto, using(crate::proofs::TakingLaws::ready_bad, crate::proofs::TakingLaws::ready_held, crate::proofs::StreamLaws::length_of_map))]
pub(crate) fn ready(s: &TpStream, room: usize) -> Result<usize, Refusal>
    ensures { count_said result ≡ ready_of (view s.now) room }
{
    well_formed(s)?;
    tp_rules::ready_of(s.end, s.count, s.ranges[0], room)
}
