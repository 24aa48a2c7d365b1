// A whole payload, and the message that carries one, as exported to C.
ghost use Rattle.std.specs.Prelude.{◌≡◌};
ghost use Rattle.sd_format.specs.Payload.{read_payload, read_message};
ghost use Rattle.hub.specs.Settings.{settings_of};
ghost use Rattle.hub.specs.Payload.{flag_bits, summary_values, nowhere, places_told, Reads};

use crate::answers::{Answer, told};
use crate::settings::settings_of;
use sd_payload::{
    EXPLICIT_INITIAL_DATA_CONTROL, REBOOT, SdHeaderFlags, SdPayload, UNICAST, judge_sizes,
    read_message, read_payload,
};

// The three flags where byte 0 has them.
fn flag_bits(flags: SdHeaderFlags) -> u64
    ensures { result ≡ flag_bits flags }
{
    u64::from(flags.reboot) * REBOOT as u64
        + u64::from(flags.unicast) * UNICAST as u64
        + u64::from(flags.explicit_initial_data_control) * EXPLICIT_INITIAL_DATA_CONTROL as u64
}

// A reading: its flags, how many entries, and how many options.
fn summary_values(payload: SdPayload) -> [u64; 3]
    ensures { result ≡ summary_values payload }
{
    [
        flag_bits(payload.flags),
        payload.entries as u64,
        payload.options as u64,
    ]
}

// A whole payload, with the offsets of its options in the lent table: 22, then 1 to 6, the options, 10, the entries.
pub fn viaductle_read(payload: &[u8], table: &mut [u16], settings: u32) -> Answer
    ensures { Reads (read_payload (settings_of settings) payload.now) table.old result table.new }
{
    told(read_payload(settings_of(settings), payload, table).map(summary_values))
}

// A message with its SD header: 22, then 1 with 16, 14 to 19, and then all later bytes as the payload.
pub fn viaductle_read_message(message: &[u8], table: &mut [u16], settings: u32) -> Answer
    ensures { Reads (read_message (settings_of settings) message.now) table.old result table.new }
{
    told(read_message(settings_of(settings), message, table).map(summary_values))
}

// Where the two parts of a payload start, and how long they are.
#[repr(C)]
#[derive(Clone, Copy)]
pub struct Places {
    pub entries_at: u64,
    pub entries_len: u64,
    pub options_at: u64,
    pub options_len: u64,
}

// Two empty parts.
fn nowhere() -> Places
    ensures { result ≡ nowhere }
{
    Places {
        entries_at: 0,
        entries_len: 0,
        options_at: 0,
        options_len: 0,
    }
}

// The parts of a payload that was read with this answer; they are empty after a refusal, and where the bytes' own sizes are refused.
#[tactic(auto, using(crate::proofs::PlaceLaws::none_after_refusal, crate::proofs::PlaceLaws::none_of_bad_sizes, crate::proofs::PlaceLaws::placed_there))]
pub fn viaductle_parts(payload: &[u8], answer: Answer) -> Places
    ensures { result ≡ places_told answer.number payload.now }
{
    if answer.number != 0 {
        return nowhere();
    }
    let Ok(entries) = judge_sizes(payload) else {
        return nowhere();
    };
    let from = 12 + entries;
    Places {
        entries_at: 8,
        entries_len: entries as u64,
        options_at: from as u64,
        options_len: (payload.len() - from) as u64,
    }
}
