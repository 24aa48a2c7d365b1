// sd_show [--message] [--discard] [--strict]: shows the service discovery payload that comes on standard input, as raw bytes, or with --message a
// whole message; with --discard by the discard setting, with --strict by the strict one. One line begins `accepted` or `refused, NUMBER:`. bin/show
// takes files, hex and many at once.
#![tactic(auto)]

use intake::fill;
use print::out;
use sd_option::{PLAIN, Settings};
use std::env::Env;

mod fault; // fault.rt: the byte at which an option was refused, among its neighbours
mod header; // header.rt: a message's header
mod payload; // payload.rt: a whole payload or message

// More bytes than a datagram can have.
const ROOM: usize = 65536;

// What is asked by the words that the program is started with.
#[derive(Clone, Copy)]
struct Asked {
    message: bool,
    settings: Settings,
}

// What is asked with a word more; nothing where the word is none of the three.
fn with_word(mut asked: Asked, word: &[u8]) -> Option<Asked> {
    match word {
        b"--message" => asked.message = true,
        b"--discard" => asked.settings.discard_unknown_option = true,
        b"--strict" => asked.settings.strict = true,
        _ => return None,
    }
    Some(asked)
}

// What is asked by all words: those behind the program's own name. One that is longer than the room for it is none of the three.
fn by_arguments(rt: &impl Env) -> Option<Asked> {
    let mut asked = Asked {
        message: false,
        settings: PLAIN,
    };
    let mut word = [0; 4096];
    for place in 1..usize::MAX {
        let Some(n) = intake::word(rt, place, &mut word) else {
            break;
        };
        asked = with_word(asked, &word[..n])?;
    }
    Some(asked)
}

// What comes on standard input: fewer bytes than there is room for, so that none is left out.
fn show_input(rt: &(impl Print + Input), asked: Asked) {
    let mut bytes = [0; ROOM];
    let n = fill(&mut rt.reader(), &mut bytes);
    if n == ROOM {
        out(
            rt,
            "not shown: more than 65535 bytes, and a message has 1416 at most\n",
        );
    } else if asked.message {
        payload::show_message(rt, asked.settings, &bytes[..n]);
    } else {
        payload::show(rt, asked.settings, &bytes[..n]);
    }
}

fn main(rt: HostRuntime) {
    match by_arguments(&rt) {
        Some(asked) => show_input(&rt, asked),
        None => out(
            &rt,
            "not shown: the words are --message, --discard and --strict\n",
        ),
    }
}
