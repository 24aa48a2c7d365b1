// What is told of entries, in a check sum: the answer, then thirteen fields, of which those that a kind has not are 0.
use crate::answer::{add_answer, add_values};
use hub::entries::{Entry, viaductle_next_entry};
use sd_entry::ENTRY_LEN;

// More than the entries that a payload has at most.
const MOST: usize = 100;

// A sum with an entry, or why there is none.
pub(crate) fn add_entry(sum: u32, e: Entry) -> u32 {
    let fields = [
        e.code,
        e.start1,
        e.start2,
        e.count1,
        e.count2,
        e.service,
        e.instance,
        e.major,
        e.ttl,
        e.minor,
        e.initial_data,
        e.counter,
        e.eventgroup,
    ];
    add_values(add_answer(sum, e.answer), &fields)
}

// The sum of all entries from the front, with the closing answer.
pub(crate) fn sum_of_entries(entries: &[u8]) -> u32 {
    let mut sum = 0;
    for place in 0..MOST {
        let entry = viaductle_next_entry(entries, place * ENTRY_LEN);
        sum = add_entry(sum, entry);
        if entry.answer.number != 0 {
            break;
        }
    }
    sum
}
