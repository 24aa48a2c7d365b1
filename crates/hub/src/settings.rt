// The settings of a reading as C tells them: one word of named bits.
ghost use Rattle.std.specs.Prelude.{◌≡◌};
ghost use Rattle.sd_option.specs.Settings.{settings_said};
ghost use Rattle.hub.specs.Settings.{settings_of};

use sd_option::Settings;

// Unknown options are accepted although they may not be discarded.
pub const DISCARD: u32 = 0x1;

// Options with an address are refused unless they carry TCP or UDP, and for multicast UDP.
pub const STRICT: u32 = 0x2;

// The settings that a word's bits tell; bits without a name are ignored. (No `From`: both types are another crate's.)
pub(crate) fn settings_of(word: u32) -> Settings
    ensures { settings_said result ≡ settings_of word }
{
    Settings {
        discard_unknown_option: word & DISCARD != 0,
        strict: word & STRICT != 0,
    }
}
