// The transport protocol of an option with an address. Under the strict setting it is TCP or UDP, and UDP alone for multicast; without it any is
// accepted. 23 comes where the option stands, behind what its own length breaks and before what later options, unknown ones and entries break.
ghost use Rattle.std.specs.Prelude.{◌≤◌};

use crate::readings::by_all;
use case_lines::{STRICT, payload};
use print::out;
use sd_option::PLAIN;

// A payload of no entries with an option of this type and protocol: of 24 bytes with an IPv4 option, of 36 with an IPv6 one.
fn addressed<const N: usize>(code: u8, protocol: u8) -> [u8; N]
    requires { (24 ≤ N) × (N ≤ 36) }
{
    let mut s = [0u8; N];
    s[11] = (N - 12) as u8;
    s[13] = (N - 15) as u8;
    s[14] = code;
    s[N - 3] = protocol;
    s
}

// A payload with an option of this type and protocol, with the setting on and off.
fn both(rt: &impl Print, code: u8, protocol: u8, bytes: &[u8]) {
    out(
        rt,
        format_args!("option {code:#04x} with protocol {protocol:#04x}"),
    );
    payload(rt, b", strict", bytes, STRICT);
    payload(rt, b"the same, not strict", bytes, PLAIN);
}

// The six kinds that have an address: endpoint, multicast and SD endpoint.
fn kinds(rt: &impl Print, protocol: u8) {
    for code in [0x04, 0x14, 0x24] {
        both(rt, code, protocol, &addressed::<24>(code, protocol));
    }
    for code in [0x06, 0x16, 0x26] {
        both(rt, code, protocol, &addressed::<36>(code, protocol));
    }
}

// Each time two rules are broken, and the first in order is told.
fn order(rt: &impl Print) {
    payload(
        rt,
        b"protocol 0x99 in front of an option below its whole length",
        b"\x00\x00\x00\x00\x00\x00\x00\x00\x00\x00\x00\x10\x00\x09\x04\x00\xc0\xa8\x01\x01\x00\x99\x1f\x90\x00\x05\x77\x00",
        STRICT,
    );
    payload(
        rt,
        b"protocol 0x99 in an option of another length than its kind's",
        b"\x00\x00\x00\x00\x00\x00\x00\x00\x00\x00\x00\x0d\x00\x0a\x04\x00\xc0\xa8\x01\x01\x00\x99\x1f\x90\x00",
        STRICT,
    );
    payload(
        rt,
        b"protocol 0x99 behind an unknown option that may not be discarded",
        b"\x00\x00\x00\x00\x00\x00\x00\x00\x00\x00\x00\x10\x00\x01\x77\x00\x00\x09\x04\x00\xc0\xa8\x01\x01\x00\x99\x1f\x90",
        STRICT,
    );
    payload(
        rt,
        b"protocol 0x99 beside an unknown entry",
        b"\x00\x00\x00\x00\x00\x00\x00\x10\x02\x00\x00\x00\x00\x00\x00\x00\x00\x00\x00\x00\x00\x00\x00\x00\x00\x00\x00\x0c\x00\x09\x04\x00\xc0\xa8\x01\x01\x00\x99\x1f\x90",
        STRICT,
    );
}

// Where each call counts the place from.
fn places(rt: &impl Print) {
    by_all(
        rt,
        "protocol 0x99 of an IPv4 endpoint alone",
        b"\xff\xff\x81\x00\x00\x00\x00\x24\x00\x00\x00\x01\x01\x01\x02\x00\x80\x00\x00\x00\x00\x00\x00\x00\x00\x00\x00\x10\x00\x01\x77\x80\x00\x09\x04\x00\xc0\xa8\x01\x01\x00\x99\x1f\x90",
        STRICT,
    );
    by_all(
        rt,
        "protocol 0x06 of an IPv6 multicast alone",
        b"\xff\xff\x81\x00\x00\x00\x00\x30\x00\x00\x00\x01\x01\x01\x02\x00\x80\x00\x00\x00\x00\x00\x00\x00\x00\x00\x00\x1c\x00\x01\x77\x80\x00\x15\x16\x00\xff\x02\x00\x00\x00\x00\x00\x00\x00\x00\x00\x00\x00\x00\x00\x01\x00\x06\x1f\x90",
        STRICT,
    );
}

pub(crate) fn all(rt: &impl Print) {
    for protocol in [0x99, 0x06, 0x11] {
        kinds(rt, protocol);
    }
    order(rt);
    places(rt);
}
