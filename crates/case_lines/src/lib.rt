// A case on a line, for the programs that run the rules' cases: what was read, and the answer with its number and values. Where an exported function
// told something else than the public one, the line says so.
#![tactic(auto)]

ghost use Rattle.std.specs.Prelude.{◌≡◌, cond};
ghost use Rattle.case_lines.specs.Told.{numbers};
ghost use Rattle.hub.specs.Settings.{settings_of};
ghost use Rattle.sd_option.specs.Settings.{settings_said};

use hub::answers::Answer;
use hub::payload::{viaductle_read, viaductle_read_message};
use print::{Told, out};
use refusal::{Numbers, Refusal};
use sd_index::SLOTS;
use sd_option::Settings;
use sd_payload::{SdHeaderFlags, SdPayload, read_message, read_payload};
use std::fmt;

// The settings of a case where one of the two is on.
pub const DISCARDING: Settings = Settings {
    discard_unknown_option: true,
    strict: false,
};

pub const STRICT: Settings = Settings {
    discard_unknown_option: false,
    strict: true,
};

// A bit's value where it is set; by a test, so that the sum of a few is seen to fit.
fn bit(set: bool, value: u32) -> u32
    ensures { result ≡ cond set value 0 }
{
    if set { value } else { 0 }
}

// The word by which C tells settings.
pub fn word(settings: Settings) -> u32
    ensures { settings_of result ≡ settings_said settings }
{
    bit(settings.discard_unknown_option, hub::settings::DISCARD)
        + bit(settings.strict, hub::settings::STRICT)
}

// What a public function said, as numbers: accepted, with the values that it gives, or the refusal.
pub fn said<const N: usize>(answer: Result<[u64; N], Refusal>) -> Numbers
    ensures { result ≡ numbers answer.entry }
{
    match answer {
        Ok(values) => Numbers::new(0, &values),
        Err(refusal) => Numbers::from(refusal),
    }
}

// That an exported function told something else than was said, where it did. (A type of its own, and so is the next: a type has one `Display`.)
#[derive(Clone, Copy)]
pub struct Exported {
    pub said: Numbers,
    pub told: Answer,
}

impl fmt::Display for Exported {
    fn fmt<W: fmt::Write>(&self, f: &mut fmt::Formatter<W>) -> fmt::Result {
        let told = self.told;
        if replay::same(self.said, told.number, told.values) {
            return Ok(());
        }
        f.write_str(", but C is told something else")
    }
}

// The same behind what was said: that it was accepted or refused.
#[derive(Clone, Copy)]
pub struct Judged {
    pub said: Numbers,
    pub told: Answer,
}

impl fmt::Display for Judged {
    fn fmt<W: fmt::Write>(&self, f: &mut fmt::Formatter<W>) -> fmt::Result {
        let said = self.said;
        let told = self.told;
        if said.number == 0 {
            f.write_str("accepted")?;
        } else {
            write!(f, "{}", Told(said))?;
        }
        write!(f, "{}", Exported { said, told })
    }
}

// A line begins with what was read, by its name: any bytes, as they are.
fn named(rt: &impl Print, name: &[u8]) {
    let _ = rt.write_all(name);
    out(rt, ": ");
}

// A line: what was read, and that it was accepted or refused.
pub fn answer(rt: &impl Print, name: &[u8], said: Numbers, told: Answer) {
    named(rt, name);
    out(rt, format_args!("{}\n", Judged { said, told }));
}

// The flags that are set.
#[derive(Clone, Copy)]
struct Flags(SdHeaderFlags);

impl fmt::Display for Flags {
    fn fmt<W: fmt::Write>(&self, f: &mut fmt::Formatter<W>) -> fmt::Result {
        let flags = self.0;
        if flags.reboot {
            f.write_str(", reboot")?;
        }
        if flags.unicast {
            f.write_str(", unicast")?;
        }
        if flags.explicit_initial_data_control {
            f.write_str(", explicit initial data control")?;
        }
        Ok(())
    }
}

// What an accepted payload has, as numbers: the flags where byte 0 has them, entries, options.
fn counted(p: SdPayload) -> Numbers {
    let f = p.flags;
    let bits = bit(f.reboot, 0x80)
        + bit(f.unicast, 0x40)
        + bit(f.explicit_initial_data_control, 0x20);
    Numbers::new(0, &[bits as u64, p.entries as u64, p.options as u64])
}

// A line of a payload, or of a message with one: what was accepted is told too.
fn reading(rt: &impl Print, name: &[u8], read: Result<SdPayload, Refusal>, told: Answer) {
    match read {
        Ok(p) => {
            let said = counted(p);
            named(rt, name);
            out(
                rt,
                format_args!(
                    "accepted{}, entries {}, options {}{}\n",
                    Flags(p.flags),
                    p.entries,
                    p.options,
                    Exported { said, told }
                ),
            );
        }
        Err(refusal) => answer(rt, name, Numbers::from(refusal), told),
    }
}

// A payload is read.
pub fn payload(rt: &impl Print, name: &[u8], payload: &[u8], settings: Settings) {
    let mut table = [0u16; SLOTS];
    let read = read_payload(settings, payload, &mut table);
    let told = viaductle_read(payload, &mut table, word(settings));
    reading(rt, name, read, told);
}

// A message is read: as above, by two calls of other names, which a closure each would not make plainer.
pub fn message(rt: &impl Print, name: &[u8], message: &[u8], settings: Settings) {
    let mut table = [0u16; SLOTS];
    let read = read_message(settings, message, &mut table);
    let told = viaductle_read_message(message, &mut table, word(settings));
    reading(rt, name, read, told);
}
