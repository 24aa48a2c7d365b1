// What is told of options, in a check sum: one option with all its fields, all options one after the other, a run of them, a table.
use crate::answer::{add_answer, add_values};
use hub::options::{Option, viaductle_next_of_run, viaductle_next_option};
use replay::add_bytes;

// More than the options that an options part has at most.
const MOST: usize = 400;

// The sum of what reading one option told: the answer, then its eleven fields.
pub(crate) fn sum_of_option(o: Option) -> u32 {
    let fields = [
        o.code,
        o.size,
        o.discardable,
        o.priority,
        o.weight,
        o.address_at,
        o.address_len,
        o.protocol,
        o.port,
        o.string_at,
        o.string_len,
    ];
    add_values(add_answer(0, o.answer), &fields)
}

// The sum of a few options: where the next one starts is where this one ends.
pub(crate) fn sum_of_options(options: &[u8], settings: u32) -> u32 {
    let mut sum = 0;
    let mut at: u64 = 0;
    for _ in 0..MOST {
        let answer = viaductle_next_option(options, at as usize, settings);
        sum = add_answer(sum, answer);
        if answer.number != 0 {
            break;
        }
        let [_, offset, size, ..] = answer.values;
        at = offset.saturating_add(size);
    }
    sum
}

// How many options a run has, and the sum of what was told of them.
#[derive(Clone, Copy)]
pub(crate) struct RunSum {
    pub(crate) options: u64,
    pub(crate) sum: u32,
}

// A run from its start, with the closing answer, for which none is left.
pub(crate) fn sum_of_run(
    options: &[u8],
    table: &[u16],
    count: usize, // beside the table, as C lends both
    start: u8,
    left: u8,
) -> RunSum {
    let mut sum = 0;
    for turn in 0..=left {
        let next = start as usize + turn as usize;
        let answer = viaductle_next_of_run(options, table, count, next, (left - turn) as usize);
        sum = add_answer(sum, answer);
        if answer.number != 0 {
            return RunSum {
                options: turn as u64,
                sum,
            };
        }
    }
    RunSum {
        options: left as u64,
        sum,
    }
}

// The sum of a table's slots, each as its two bytes.
pub(crate) fn sum_of_table(table: &[u16]) -> u32 {
    table
        .iter()
        .fold(0, |sum, slot| add_bytes(sum, &slot.to_be_bytes()))
}
