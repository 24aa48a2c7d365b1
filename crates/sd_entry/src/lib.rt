// One entry of 16 bytes: read from the front of some bytes, judged beside a number of options, and handed out by a cursor. The names are
// the Rust crate's; what the two kinds of entries share stands once, in `EntryHead`.
#![tactic(auto)]

mod cursor;
mod runs;

ghost use Rattle.std.specs.Prelude.{◌≡◌, ◌/◌, ◌%◌};
ghost use Rattle.sd_format.specs.Entries.{head, group, head_of, read_entry};
ghost use Rattle.sd_entry.specs.Said.{head_said, group_said, entry_said, answer_said};
ghost use Rattle.sd_entry.specs.Types.{ServiceTyped, EventgroupTyped};

use big_endian::{be16, be24, be32};
pub use cursor::EntryCursor;
use refusal::Refusal;
pub use runs::judge_entry;

// The bytes of an entry.
pub const ENTRY_LEN: usize = 16;

// The bit of an eventgroup entry that asks for the initial data.
const INITIAL_DATA: u8 = 0x80;

#[derive(Clone, Copy)]
pub enum SdServiceEntryType {
    FindService,
    OfferService,
}

#[derive(Clone, Copy)]
pub enum EventGroupEntryType {
    SubscribeOrStop,
    SubscribeAckOrNack,
}

// What every entry has after its type: two runs of options, the service, and for how long.
#[derive(Clone, Copy)]
pub struct EntryHead {
    pub start_index_options_1: u8,
    pub start_index_options_2: u8,
    pub number_of_options_1: u8,
    pub number_of_options_2: u8,
    pub service_id: u16,
    pub instance_id: u16,
    pub major_version: u8,
    pub ttl: u32,
}

// The last four bytes of an eventgroup entry; `reserved` and `spare` are its reserved byte and its three reserved bits, as sent.
#[derive(Clone, Copy)]
pub struct EventGroup {
    pub reserved: u8,
    pub initial_data_requested: bool,
    pub spare: u8,
    pub counter: u8,
    pub eventgroup_id: u16,
}

#[derive(Clone, Copy)]
pub enum SdEntry {
    Service {
        entry_type: SdServiceEntryType,
        head: EntryHead,
        minor_version: u32,
    },
    Eventgroup {
        entry_type: EventGroupEntryType,
        head: EntryHead,
        group: EventGroup,
    },
}

// The high and the low four bits of a byte.
pub(crate) fn halves(byte: u8) -> (u8, u8)
    ensures { (result.0 ≡ byte / 16) × (result.1 ≡ byte % 16) }
{
    (byte >> 4, byte & 0x0f)
}

// The type of a service entry.
impl TryFrom<u8> for SdServiceEntryType {
    type Error = Refusal;

    ghost try_from_gives = { λ code answer. ServiceTyped code answer };

    fn try_from(code: u8) -> Result<Self, Refusal> {
        match code {
            0x00 => Ok(SdServiceEntryType::FindService),
            0x01 => Ok(SdServiceEntryType::OfferService),
            _ => Err(Refusal::UnknownEntry(code)),
        }
    }
}

// The type of an eventgroup entry.
impl TryFrom<u8> for EventGroupEntryType {
    type Error = Refusal;

    ghost try_from_gives = { λ code answer. EventgroupTyped code answer };

    fn try_from(code: u8) -> Result<Self, Refusal> {
        match code {
            0x06 => Ok(EventGroupEntryType::SubscribeOrStop),
            0x07 => Ok(EventGroupEntryType::SubscribeAckOrNack),
            _ => Err(Refusal::UnknownEntry(code)),
        }
    }
}

// What the bytes of an entry say, whatever its kind.
impl From<&[u8; ENTRY_LEN]> for EntryHead {
    ghost from_gives = { λ bytes said. head_said said ≡ head bytes.now };

    #[tactic(auto, unfolding(sd_format::specs::Entries::head, numbers::specs::Bytes::at16, numbers::specs::Bytes::at24))]
    fn from(bytes: &[u8; ENTRY_LEN]) -> EntryHead {
        let (count_1, count_2) = halves(bytes[3]);
        EntryHead {
            start_index_options_1: bytes[1],
            start_index_options_2: bytes[2],
            number_of_options_1: count_1,
            number_of_options_2: count_2,
            service_id: be16(bytes[4], bytes[5]),
            instance_id: be16(bytes[6], bytes[7]),
            major_version: bytes[8],
            ttl: be24(bytes[9], bytes[10], bytes[11]),
        }
    }
}

// What the bytes of an eventgroup entry say.
impl From<&[u8; ENTRY_LEN]> for EventGroup {
    ghost from_gives = { λ bytes said. group_said said ≡ group bytes.now };

    #[tactic(auto, unfolding(sd_format::specs::Entries::group, numbers::specs::Bytes::at16))]
    fn from(bytes: &[u8; ENTRY_LEN]) -> EventGroup {
        let bits = bytes[13];
        let (high, counter) = halves(bits);
        EventGroup {
            reserved: bytes[12],
            initial_data_requested: bits & INITIAL_DATA != 0,
            spare: high & 0x07,
            counter,
            eventgroup_id: be16(bytes[14], bytes[15]),
        }
    }
}

// The entry in front of `s`, whose later bytes are not read; 1 with 16 below 16 bytes, then 11.
#[tactic(auto, using(crate::proofs::Laws::read_short, crate::proofs::Laws::read_unknown, crate::proofs::Laws::read_service, crate::proofs::Laws::read_eventgroup))]
pub fn read_entry(s: &[u8]) -> Result<SdEntry, Refusal>
    ensures { answer_said result ≡ read_entry s.now }
{
    let Some(bytes) = s.first_chunk::<ENTRY_LEN>() else {
        return Err(Refusal::UnexpectedEndOfSlice(ENTRY_LEN));
    };
    let code = bytes[0];
    // codes in ranges, here and in `judge_entry`: the rules' paper names this form
    match code {
        0x00..=0x01 => Ok(SdEntry::Service {
            entry_type: SdServiceEntryType::try_from(code)?,
            head: EntryHead::from(bytes),
            minor_version: be32(bytes[12], bytes[13], bytes[14], bytes[15]),
        }),
        0x06..=0x07 => Ok(SdEntry::Eventgroup {
            entry_type: EventGroupEntryType::try_from(code)?,
            head: EntryHead::from(bytes),
            group: EventGroup::from(bytes),
        }),
        _ => Err(Refusal::UnknownEntry(code)),
    }
}

impl SdEntry {
    // What the entry has whatever its kind.
    pub fn head(self) -> EntryHead
        ensures { head_said result ≡ head_of (entry_said self) }
    {
        match self {
            SdEntry::Service { head, .. } | SdEntry::Eventgroup { head, .. } => head,
        }
    }
}
