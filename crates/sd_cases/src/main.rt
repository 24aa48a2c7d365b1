// Runs the rules' cases of service discovery through the public functions and the exported ones, and prints each on a
// line: what was read, and the answer with its number and values. The file stdout holds what the rules say; a string's error is told by its
// place among the six. Where an exported function told something else, the line says so.
#![tactic(auto)]

use case_lines::{DISCARDING, answer, payload, said};
use sd_option::PLAIN;

mod cases; // cases.rt: the bytes of the cases
mod parts; // parts.rt: what is told of a payload's parts

// A configuration string.
fn string(rt: &impl Print, name: &str, s: &[u8]) {
    let said = said(config_string::check_string(s).map(|()| []));
    answer(rt, name.as_bytes(), said, hub::options::viaductle_string(s));
}

// The cases of sizes: of the whole, and of its parts.
fn sizes(rt: &impl Print) {
    payload(rt, b"payload, 12 zero bytes", &[0; 12], PLAIN);
    payload(rt, b"payload, 11 zero bytes", &[0; 11], PLAIN);
    payload(rt, b"payload, 13 zero bytes", &[0; 13], PLAIN);
}

fn sizes_of_parts(rt: &impl Print) {
    payload(
        rt,
        b"payload, 12 bytes with entries length 17",
        &cases::twelve(17),
        PLAIN,
    );
    payload(
        rt,
        b"payload, 12 bytes with entries length 16",
        &cases::twelve(16),
        PLAIN,
    );
    payload(
        rt,
        b"payload, 28 bytes with entries length 16 and options length 1388",
        &cases::long_options(),
        PLAIN,
    );
}

// The cases of a whole payload.
fn whole(rt: &impl Print) {
    payload(rt, b"payload, the rules' whole one", &cases::WHOLE, PLAIN);
    parts::parts(rt, &cases::WHOLE);
    payload(
        rt,
        b"the same with run 1 from 1",
        &cases::whole_with(1, 0x10),
        PLAIN,
    );
    payload(
        rt,
        b"the same with empty runs, run 1 from 200",
        &cases::whole_with(200, 0),
        PLAIN,
    );
}

// The cases of unknown options.
fn unknown(rt: &impl Print) {
    payload(rt, b"option 00017780", &cases::unknown(0x80), PLAIN);
    payload(rt, b"option 00017700", &cases::unknown(0), PLAIN);
    payload(
        rt,
        b"option 00017700 when discarding",
        &cases::unknown(0),
        DISCARDING,
    );
    payload(rt, b"347 options of four bytes", &cases::many(), PLAIN);
}

// The cases of configuration strings: where they end, their keys, and what does not fit.
fn ends(rt: &impl Print) {
    string(rt, "string of no bytes", b"");
    string(rt, "string 00", b"\x00");
    string(rt, "string 0000", b"\x00\x00");
}

fn keys(rt: &impl Print) {
    string(rt, "string 013D00", b"\x01\x3d\x00");
    string(rt, "string 012000", b"\x01\x20\x00");
    string(rt, "string 0241FF00", b"\x02\x41\xff\x00");
    string(rt, "string 03413DFF00", b"\x03\x41\x3d\xff\x00");
}

fn lengths(rt: &impl Print) {
    string(rt, "string 054100", b"\x05\x41\x00");
    string(rt, "string 0141", b"\x01\x41");
}

fn main(rt: HostRuntime) {
    sizes(&rt);
    sizes_of_parts(&rt);
    whole(&rt);
    unknown(&rt);
    ends(&rt);
    keys(&rt);
    lengths(&rt);
}
