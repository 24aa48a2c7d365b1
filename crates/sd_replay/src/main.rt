// Replays what the Rust crate said to payloads, messages, options parts, entries, options and strings (the file that the first argument names;
// compare/FORMAT.md), and prints how many records agree, by what was read and by answer, and the first that does not.
#![tactic(auto)]

use print::out;
use replay::{Judge, open_first, records_behind, replay_all};
use std::io::Read;

mod answer; // answer.rt: answers as numbers, and in a sum
mod entries; // entries.rt: entries in a sum
mod options; // options.rt: options, runs and tables in a sum
mod step; // step.rt: one record
mod tally; // tally.rt: what agreed, counted and printed

// What is lent to each record, and what agreed.
#[derive(Clone, Copy)]
struct Replay {
    table: [u16; sd_index::SLOTS],
    counts: [u32; tally::PLACES],
}

impl Judge for Replay {
    fn agrees(&mut self, record: &[u8]) -> bool {
        let agrees = step::agrees(record, &mut self.table);
        if agrees {
            tally::add(record, &mut self.counts);
        }
        agrees
    }
}

// Replays a file that is open, and prints what came of it. (`tp_replay` makes the same few calls, with other things lent to a record; one function for
// both would be no plainer.)
fn report(rt: &impl Print, from: &mut impl Read) {
    let Some(total) = records_behind(from, *b"VIADSD01") else {
        out(rt, "not a list of recorded payloads\n");
        return;
    };
    out(rt, format_args!("records: {total}\n"));
    let mut record = [0; 2048];
    let mut replay = Replay {
        table: [0; sd_index::SLOTS],
        counts: [0; tally::PLACES],
    };
    let first = replay_all(from, total, &mut record, &mut replay);
    print::tally(rt, &tally::LINES, &replay.counts);
    match first {
        Some(n) => out(rt, format_args!("the first that does not is record: {n}\n")),
        None => out(rt, "none that does not\n"),
    }
}

fn main(rt: HostRuntime) {
    let Some(mut file) = open_first(&rt, &rt.stderr()) else {
        return;
    };
    report(&rt, &mut file);
}
