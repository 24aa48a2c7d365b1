// Replays what the Rust crate said to sequences of segments (the file that the first argument names; compare/FORMAT.md), and prints the first
// record that does not agree, and how many do, by their answers. The exported functions are called, over a stream's words. After each step all is
// compared: the answer, the ranges, the end, the report, and how many segments were accepted.
#![tactic(auto)]

use print::out;
use replay::{Judge, open_first, records_behind, replay_all};
use std::io::Read;
use tp_words::WORDS;

mod state; // state.rt: whether a stream is as recorded
mod step; // step.rt: one record
mod tally; // tally.rt: what agreed, counted and printed

// What is lent to each record, and what agreed.
#[derive(Clone, Copy)]
struct Replay {
    words: [u32; WORDS],
    buffer: [u8; 4112],
    counts: [u32; tally::PLACES],
}

impl Judge for Replay {
    fn agrees(&mut self, record: &[u8]) -> bool {
        let agrees = step::agrees(record, &mut self.words, &mut self.buffer);
        if agrees {
            tally::add(record, &mut self.counts);
        }
        agrees
    }
}

// Replays a file that is open, and prints what came of it: as in `sd_replay`.
fn report(rt: &impl Print, from: &mut impl Read) {
    let Some(total) = records_behind(from, *b"VIADTP01") else {
        out(rt, "not a list of recorded segments\n");
        return;
    };
    out(rt, format_args!("records: {total}\n"));
    let mut record = [0; 2048];
    let mut replay = Replay {
        words: [0; WORDS],
        buffer: [0; 4112],
        counts: [0; tally::PLACES],
    };
    let first = replay_all(from, total, &mut record, &mut replay);
    print::tally(rt, &tally::LINES, &replay.counts);
    match first {
        Some(n) => out(rt, format_args!("the first that does not is record: {n}\n")),
        None => out(rt, "none that does not\n"),
    }
}

fn main(rt: HostRuntime) {
    let Some(mut file) = open_first(&rt, &rt.stderr()) else {
        return;
    };
    report(&rt, &mut file);
}
