// Answer 38: whether a stream's state is malformed, each rule a function.
ghost use Rattle.std.specs.Prelude.{◌≡◌, false};
ghost use Rattle.tp_machine.specs.Ranges.{any};
ghost use Rattle.tp_machine.specs.Machine.{State, bad_range, end_past, bad_state};
ghost use Rattle.tp_rules.specs.Malformed.{Reach};
ghost use Rattle.tp_stream.specs.Stream.{view};
ghost use Rattle.tp_stream.specs.Promises.{Formed};

use crate::TpStream;
use refusal::Refusal;
use tp_machine::TpRange;
use tp_range::MAX_RANGES;
use tp_rules::MAX_LIMIT;

// Whether a known end is past x.
fn end_past(end: Option<u32>, x: u32) -> bool
    ensures { result ≡ end_past end x }
{
    end.is_some_and(|e| x < e)
}

// How far ranges may reach: to the end that is known, which is not past the limit, else to the limit.
fn reach(limit: u32, end: Option<u32>) -> u32
    requires { end_past end limit ≡ false }
    ensures { (p : State) → p.limit ≡ limit → p.end ≡ end → Reach p result }
{
    end.unwrap_or(limit)
}

// Whether one of the ranges is bad.
fn any_bad(top: u32, accepted: u32, held: &[TpRange]) -> bool
    ensures { (p : State) → Reach p top → p.count ≡ accepted → result ≡ any (bad_range p) held.now }
{
    held.iter().any(|r| tp_rules::bad_range(top, accepted, *r))
}

// Whether the state is malformed.
pub(crate) fn malformed(s: &TpStream) -> bool
    ensures { result ≡ bad_state (view s.now) }
{
    if MAX_RANGES < s.count || MAX_LIMIT < s.limit || end_past(s.end, s.limit) {
        return true;
    }
    let held = s.held();
    let top = reach(s.limit, s.end);
    any_bad(top, s.accepted, held) || tp_range::some_touch(held)
}

// Answer 38, or the state is not malformed.
pub(crate) fn well_formed(s: &TpStream) -> Result<(), Refusal>
    ensures { Formed (view s.now) result }
{
    if malformed(s) {
        return Err(Refusal::MalformedState);
    }
    Ok(())
}
