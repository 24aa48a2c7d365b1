// The entries, each with the numbers of the options of its two runs.
use crate::options::{Options, Run};
use print::{YesNo, out};
use sd_entry::{
    EntryCursor, EntryHead, EventGroup, EventGroupEntryType, SdEntry, SdServiceEntryType,
};
use sd_index::RunCursor;
use std::fmt;

// More than the entries that a payload has at most.
const MOST: usize = 100;

// What a service entry's type says; a TTL of 0 takes an offer back.
fn service_word(entry_type: SdServiceEntryType, ttl: u32) -> &'static str {
    match (entry_type, ttl) {
        (SdServiceEntryType::FindService, _) => "find service",
        (SdServiceEntryType::OfferService, 0) => "stop offer of service",
        (SdServiceEntryType::OfferService, _) => "offer of service",
    }
}

// What an eventgroup entry's type says; a TTL of 0 takes it back.
fn eventgroup_word(entry_type: EventGroupEntryType, ttl: u32) -> &'static str {
    match (entry_type, ttl) {
        (EventGroupEntryType::SubscribeOrStop, 0) => "stop subscription to service",
        (EventGroupEntryType::SubscribeOrStop, _) => "subscription to service",
        (EventGroupEntryType::SubscribeAckOrNack, 0) => "subscription refused by service",
        (EventGroupEntryType::SubscribeAckOrNack, _) => "subscription acknowledged by service",
    }
}

#[derive(Clone, Copy)]
struct Head(EntryHead);

impl fmt::Display for Head {
    fn fmt<W: fmt::Write>(&self, f: &mut fmt::Formatter<W>) -> fmt::Result {
        let EntryHead {
            service_id,
            instance_id,
            major_version,
            ttl,
            ..
        } = self.0;
        write!(
            f,
            "0x{service_id:04x}, instance 0x{instance_id:04x}, major version {major_version}, TTL {ttl}"
        )
    }
}

#[derive(Clone, Copy)]
struct Group(EventGroup);

impl fmt::Display for Group {
    fn fmt<W: fmt::Write>(&self, f: &mut fmt::Formatter<W>) -> fmt::Result {
        let EventGroup {
            eventgroup_id,
            counter,
            initial_data_requested,
            ..
        } = self.0;
        write!(
            f,
            "eventgroup 0x{eventgroup_id:04x}, counter {counter}, initial data requested {}",
            YesNo(initial_data_requested)
        )
    }
}

// An entry without its runs.
#[derive(Clone, Copy)]
struct Entry(SdEntry);

impl fmt::Display for Entry {
    fn fmt<W: fmt::Write>(&self, f: &mut fmt::Formatter<W>) -> fmt::Result {
        match self.0 {
            SdEntry::Service {
                entry_type,
                head,
                minor_version,
            } => {
                let word = service_word(entry_type, head.ttl);
                write!(f, "{word} {}, minor version {minor_version}", Head(head))
            }
            SdEntry::Eventgroup {
                entry_type,
                head,
                group,
            } => {
                let word = eventgroup_word(entry_type, head.ttl);
                write!(f, "{word} {}, {}", Head(head), Group(group))
            }
        }
    }
}

// One of an entry's runs, on a line; nothing of an empty one.
fn run(rt: &impl Print, number: usize, start: u8, count: u8, options: Options) {
    if count != 0 {
        let run = Run {
            options,
            start: RunCursor::new(start, count),
        };
        out(rt, format_args!("  run {number}{run}\n"));
    }
}

// All entries, by the cursor, each with its number and its runs.
pub fn all(rt: &impl Print, entries: &[u8], options: Options) {
    let mut cursor = EntryCursor::new();
    for place in 0..MOST {
        let step = cursor.next(entries);
        let Ok(entry) = step.answer else {
            return;
        };
        out(rt, format_args!("entry {place}: {}\n", Entry(entry)));
        let head = entry.head();
        run(
            rt,
            1,
            head.start_index_options_1,
            head.number_of_options_1,
            options,
        );
        run(
            rt,
            2,
            head.start_index_options_2,
            head.number_of_options_2,
            options,
        );
        cursor = step.after;
    }
}
