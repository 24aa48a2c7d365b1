// The tests before a segment is joined, in the rules' order: 38, 30, 31, 32, 33, 34. Those of a header are `tp_rules`'.
ghost use Rattle.std.specs.Prelude.{◌≡◌, cond};
ghost use Rattle.tp_machine.specs.Ranges.{greatest_end};
ghost use Rattle.tp_stream.specs.Stream.{view};
ghost use Rattle.tp_stream.specs.Promises.{Judges};

use crate::TpStream;
use crate::malformed::well_formed;
use refusal::Refusal;
use tp_machine::TpRange;
use tp_segment::TpHeader;

// 33: how far a segment has to reach: a final one to the greatest end of the ranges held.
fn least_end(held: &[TpRange], more: bool) -> u32
    ensures { result ≡ cond more 0 (greatest_end held.now) }
{
    if more {
        return 0;
    }
    tp_range::greatest_end(held)
}

// The first refusal of a segment for a buffer of `room` bytes, the one after joining aside; or its header.
#[tactic(auto, using(crate::proofs::JudgingLaws::judged_malformed, crate::proofs::JudgingLaws::judged_unread))]
pub(crate) fn judge(s: &TpStream, seg: &[u8], room: usize) -> Result<TpHeader, Refusal>
    ensures { Judges (view s.now) seg.now room result }
{
    well_formed(s)?;
    let header = tp_segment::read(seg)?;
    let least = least_end(s.held(), header.more);
    tp_rules::judge_header(s.limit, s.end, least, header, room)?;
    Ok(header)
}
