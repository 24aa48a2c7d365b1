// Answer 38, of one range.
ghost use Rattle.std.specs.Prelude.{◌≡◌};
ghost use Rattle.tp_machine.specs.Machine.{State, never_given, bad_range};
ghost use Rattle.tp_rules.specs.Malformed.{Reach};

use tp_machine::TpRange;

// Whether no accepted segment has had that number.
fn never_given(accepted: u32, number: u32) -> bool
    ensures { result ≡ never_given accepted number }
{
    number == 0 || accepted < number
}

// Whether a range is bad in a state whose ranges may reach to `top`, after so many accepted segments.
pub fn bad_range(top: u32, accepted: u32, r: TpRange) -> bool
    ensures { (p : State) → Reach p top → p.count ≡ accepted → result ≡ bad_range p r }
{
    r.end < r.start || top < r.end || never_given(accepted, r.number)
}
