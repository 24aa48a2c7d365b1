// Whether an unknown option may stand: it needs the discardable bit, unless the discard setting is on.
ghost use Rattle.std.specs.Prelude.{◌≡◌, ◌≤◌};
ghost use Rattle.numbers.specs.Answers.{further};
ghost use Rattle.refusal.specs.Said.{verdict_said};
ghost use Rattle.sd_option.specs.Settings.{settings_said};
ghost use Rattle.sd_index.specs.Permission.{permit_told};

use crate::Offset;
use refusal::Refusal;
use sd_option::Settings;
use sd_option::kinds::OptionKind;
use sd_option::reading::{FRAME_LEN, OptionHead};

// Whether this option, which starts at `at`, may stand; where not, the byte with the discardable bit is told.
#[tactic(auto, using(crate::proofs::PermissionLaws::known_may, crate::proofs::PermissionLaws::set_may, crate::proofs::PermissionLaws::bit_may, crate::proofs::PermissionLaws::may_not))]
pub(crate) fn permission_of(settings: Settings, head: OptionHead, at: Offset) -> Result<(), Refusal>
    requires { at.0 ≤ 1388 }
    ensures { verdict_said result ≡ further at.0 (permit_told (settings_said settings) head) }
{
    let OptionKind::Unknown = OptionKind::from(head.code) else {
        return Ok(());
    };
    if settings.discard_unknown_option || head.discardable {
        return Ok(());
    }
    Err(Refusal::UnknownOption {
        code: head.code,
        place: at.0 + FRAME_LEN,
    })
}
