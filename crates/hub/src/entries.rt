// One entry, as exported to C.
ghost use Rattle.std.specs.Prelude.{◌≡◌};
ghost use Rattle.sd_format.specs.Entries.{read_entry, next_entry};
ghost use Rattle.sd_entry.specs.Said.{head_said, entry_said, answer_said};
ghost use Rattle.hub.specs.Entries.{no_group, fields, entry_fields, no_entry, entry_told};

use crate::answers::{Answer, accepted};
use refusal::Refusal;
use sd_entry::{
    EntryCursor, EntryHead, EventGroupEntryType, SdEntry, SdServiceEntryType, read_entry,
};

// One entry: the answer of its reading, and then its fields. Those that its kind has not hold 0, and so do all after a refusal.
#[repr(C)]
#[derive(Clone, Copy)]
pub struct Entry {
    pub answer: Answer,
    pub code: u64,
    pub start1: u64,
    pub start2: u64,
    pub count1: u64,
    pub count2: u64,
    pub service: u64,
    pub instance: u64,
    pub major: u64,
    pub ttl: u64,
    pub minor: u64,
    pub initial_data: u64,
    pub counter: u64,
    pub eventgroup: u64,
    pub reserved: u64,
    pub spare: u64,
}

// An answer with no fields: each is written out, as in the definition.
fn no_entry(answer: Answer) -> Entry
    ensures { result ≡ no_entry answer }
{
    Entry {
        answer,
        code: 0,
        start1: 0,
        start2: 0,
        count1: 0,
        count2: 0,
        service: 0,
        instance: 0,
        major: 0,
        ttl: 0,
        minor: 0,
        initial_data: 0,
        counter: 0,
        eventgroup: 0,
        reserved: 0,
        spare: 0,
    }
}

// The fields of an entry of type `code` that every kind has.
fn headed(code: u64, head: EntryHead) -> Entry
    ensures { result ≡ fields code (head_said head) 0 no_group }
{
    Entry {
        code,
        start1: head.start_index_options_1 as u64,
        start2: head.start_index_options_2 as u64,
        count1: head.number_of_options_1 as u64,
        count2: head.number_of_options_2 as u64,
        service: head.service_id as u64,
        instance: head.instance_id as u64,
        major: head.major_version as u64,
        ttl: head.ttl as u64,
        ..no_entry(accepted(&[]))
    }
}

// The fields of an entry.
fn entry_fields(entry: SdEntry) -> Entry
    ensures { result ≡ entry_fields (entry_said entry) }
{
    match entry {
        SdEntry::Service {
            entry_type,
            head,
            minor_version,
        } => {
            // by hand: `sd_entry`, which reads a type from its code, has no use for the way back
            let code = match entry_type {
                SdServiceEntryType::FindService => 0x00,
                SdServiceEntryType::OfferService => 0x01,
            };
            Entry {
                minor: minor_version as u64,
                ..headed(code, head)
            }
        }
        SdEntry::Eventgroup {
            entry_type,
            head,
            group,
        } => {
            let code = match entry_type {
                EventGroupEntryType::SubscribeOrStop => 0x06,
                EventGroupEntryType::SubscribeAckOrNack => 0x07,
            };
            Entry {
                initial_data: u64::from(group.initial_data_requested),
                counter: group.counter as u64,
                eventgroup: group.eventgroup_id as u64,
                reserved: group.reserved as u64,
                spare: group.spare as u64,
                ..headed(code, head)
            }
        }
    }
}

// The answer of reading an entry, with its fields.
fn entry_answer(answer: Result<SdEntry, Refusal>) -> Entry
    ensures { result ≡ entry_told (answer_said answer) }
{
    match answer {
        Ok(entry) => entry_fields(entry),
        Err(refusal) => no_entry(Answer::from(refusal)),
    }
}

// One entry alone: 1 with 16 below 16 bytes, then 11; later bytes are not read.
pub fn viaductle_read_entry(entry: &[u8]) -> Entry
    ensures { result ≡ entry_told (read_entry entry.now) }
{
    entry_answer(read_entry(entry))
}

// The entry at a place among the entries part's bytes; 20 with no bytes left, otherwise as one entry alone.
pub fn viaductle_next_entry(entries: &[u8], at: usize) -> Entry
    ensures { result ≡ entry_told (next_entry entries.now at) }
{
    let cursor = EntryCursor { at };
    entry_answer(cursor.next(entries).answer)
}
