// The reading of a whole payload, and of the message that carries one. The first part that refuses ends the whole reading.
ghost use Rattle.std.specs.Prelude.{◌≡◌, ◌<◌, ◌≤◌, List, ℕ, length, Err};
ghost use Rattle.std.specs.Fn.{FnOnceReturnsAtMut};
ghost use Rattle.refusal.specs.declared.Refusal.TheVariants.{FewSlots};
ghost use Rattle.sd_format.specs.Payload.{flags, read_payload, read_message};
ghost use Rattle.sd_option.specs.Settings.{settings_said};
ghost use Rattle.sd_payload.specs.Reads.{flags_laid, settled, PayloadRead};

use crate::entries::judge_entries;
use crate::header::{HEADER_LEN, judge_header};
use crate::sizes::{ENTRIES_START, MIN_PAYLOAD_LEN, judge_sizes};
use refusal::{Refusal, refusal_of};
use sd_entry::ENTRY_LEN;
use sd_index::{SLOTS, clear_slots, read_options};
use sd_option::Settings;

// The three flags of byte 0, by the bits that they have there.
pub const REBOOT: u8 = 0x80;

pub const UNICAST: u8 = 0x40;

pub const EXPLICIT_INITIAL_DATA_CONTROL: u8 = 0x20;

#[derive(Clone, Copy)]
pub struct SdHeaderFlags {
    pub reboot: bool,
    pub unicast: bool,
    pub explicit_initial_data_control: bool,
}

// What an accepted payload has: its flags, and how many entries and options.
#[derive(Clone, Copy)]
pub struct SdPayload {
    pub flags: SdHeaderFlags,
    pub entries: usize,
    pub options: usize,
}

// The flags of byte 0, whose other bits are ignored. (No `From`: a byte is more than its flags.)
#[tactic(auto, using(crate::proofs::FlagsByName::flags_by_mask))]
fn flags_of(byte: u8) -> SdHeaderFlags
    ensures { result ≡ flags_laid (flags byte) }
{
    SdHeaderFlags {
        reboot: byte & REBOOT != 0,
        unicast: byte & UNICAST != 0,
        explicit_initial_data_control: byte & EXPLICIT_INITIAL_DATA_CONTROL != 0,
    }
}

// The sizes, the options, 10, the entries. Each answer is taken apart by `let .. else`, here and below: the rules' paper names this form. (347 slots are
// asked for, here and below, since a closure is handed the whole table, as `read_options` is.)
#[tactic(auto, using(crate::proofs::SizeLaws::there))]
fn read_parts(settings: Settings, payload: &[u8], table: &mut [u16]) -> Result<SdPayload, Refusal>
    requires { 347 ≤ length table.old }
    ensures { PayloadRead (read_payload (settings_said settings) payload.now) table.old (settled result table.new) result }
{
    let sizes = judge_sizes(payload);
    let Ok(entries_len) = sizes else {
        return Err(refusal_of(sizes));
    };
    let index = read_options(settings, &payload[MIN_PAYLOAD_LEN + entries_len..], table);
    let Ok(options) = index else {
        return Err(refusal_of(index));
    };
    let entries = &payload[ENTRIES_START..ENTRIES_START + entries_len];
    let verdict = judge_entries(entries, options);
    let Ok(()) = verdict else {
        return Err(refusal_of(verdict));
    };
    Ok(SdPayload {
        flags: flags_of(payload[0]),
        entries: entries_len / ENTRY_LEN,
        options,
    })
}

// The header, then all later bytes as the payload.
#[tactic(auto, using(crate::proofs::HeaderLaws::header_long))]
fn read_behind_header(
    settings: Settings,
    message: &[u8],
    table: &mut [u16],
) -> Result<SdPayload, Refusal>
    requires { 347 ≤ length table.old }
    ensures { PayloadRead (read_message (settings_said settings) message.now) table.old (settled result table.new) result }
{
    let verdict = judge_header(message);
    let Ok(()) = verdict else {
        return Err(refusal_of(verdict));
    };
    read_parts(settings, &message[HEADER_LEN..], table)
}

// A reading into a lent table: 22 before it, and after a refusal the table is cleared.
fn into_table<F: FnOnce(&mut [u16]) -> Result<SdPayload, Refusal>>(
    table: &mut [u16],
    read: F,
) -> Result<SdPayload, Refusal>
    requires { (lent : _) → 347 ≤ length lent.now → F.pre read lent }
    ensures few { length table.old < 347 → (result ≡ Err (FewSlots (length table.old))) × (table.new ≡ table.old) }
    ensures enough { 347 ≤ length table.old → (left : List ℕ) × FnOnceReturnsAtMut F.FnOnce read table.old result left × (table.new ≡ settled result left) }
{
    if table.len() < SLOTS {
        return Err(Refusal::FewSlots(table.len()));
    }
    let answer = read(table);
    if answer.is_err() {
        clear_slots(table);
    }
    answer
}

// A whole payload, with the offsets of its options in the lent table: 22, the sizes, the options, 10, the entries.
pub fn read_payload(
    settings: Settings,
    payload: &[u8],
    table: &mut [u16],
) -> Result<SdPayload, Refusal>
    ensures { PayloadRead (read_payload (settings_said settings) payload.now) table.old table.new result }
{
    into_table(table, |slots| read_parts(settings, payload, slots))
}

// The payload of a message with its SD header: 22, the header, then all later bytes as the payload.
pub fn read_message(
    settings: Settings,
    message: &[u8],
    table: &mut [u16],
) -> Result<SdPayload, Refusal>
    ensures { PayloadRead (read_message (settings_said settings) message.now) table.old table.new result }
{
    into_table(table, |slots| read_behind_header(settings, message, slots))
}
