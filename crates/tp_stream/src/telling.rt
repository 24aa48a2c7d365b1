// What a stream tells of itself: how many segments were accepted, and its ranges with their numbers, by where they begin. Answers 38 and 20.
ghost use Rattle.std.specs.Prelude.{◌≡◌};
ghost use Rattle.refusal.specs.Said.{count_said};
ghost use Rattle.tp_machine.specs.Telling.{first_from, range_told, count_told};
ghost use Rattle.tp_stream.specs.Stream.{view};
ghost use Rattle.tp_stream.specs.Telling.{range_said, in_hand, nearest};

use crate::TpStream;
use crate::malformed::well_formed;
use refusal::Refusal;
use tp_machine::TpRange;

// Answer 38, or how many segments were accepted since the stream was begun or cleared.
#[tactic(auto, using(crate::proofs::TellingLaws::count_bad, crate::proofs::TellingLaws::count_good))]
pub fn accepted(s: TpStream) -> Result<usize, Refusal>
    ensures { count_said result ≡ count_told (view s) }
{
    well_formed(&s)?;
    Ok(s.accepted as usize)
}

// Answers 38 and 20, or of the ranges that begin at `from` or behind it the one that begins first. Asked again with one more than its end, it tells
// the next.
#[tactic(auto, using(crate::proofs::TellingLaws::range_bad))]
pub fn range_from(s: TpStream, from: u32) -> Result<TpRange, Refusal>
    ensures { range_said result ≡ range_told (view s) from }
{
    well_formed(&s)?;
    first_from(s.held(), from).ok_or(Refusal::NothingThere)
}

// The range in hand once r was looked at too: r where it begins at `from` or behind it, and before the one in hand, if there was one.
fn nearest(from: u32, first: Option<TpRange>, r: TpRange) -> Option<TpRange>
    ensures { result ≡ nearest from first r }
{
    if from <= r.start && first.is_none_or(|f| r.start < f.start) {
        return Some(r);
    }
    first
}

// Of the ranges that begin at `from` or behind it the one that begins first.
fn first_from(held: &[TpRange], from: u32) -> Option<TpRange>
    ensures { in_hand result ≡ first_from from held.now }
{
    // not by `min_by_key`, whose promise is of keys and not of the ranges
    held.iter()
        .rev()
        .fold(None, |first, r| nearest(from, first, *r))
}
