// What is told of the parts of a payload: its first entry, and the first option of that entry's run 1.
use print::{Told, out};
use refusal::{Numbers, Refusal};
use sd_entry::{EntryHead, SdEntry, SdServiceEntryType};
use sd_field::{IpAddress, SdOption, read_fields};
use sd_index::{Found, RunCursor, SLOTS};
use sd_option::PLAIN;

// The kind of an entry.
fn kind(entry: SdEntry) -> &'static str {
    match entry {
        SdEntry::Service {
            entry_type: SdServiceEntryType::FindService,
            ..
        } => "find",
        SdEntry::Service {
            entry_type: SdServiceEntryType::OfferService,
            ..
        } => "offer",
        SdEntry::Eventgroup { .. } => "eventgroup",
    }
}

// Prints the first of some entries, and answers the cursor of its run 1.
fn entry(rt: &impl Print, entries: &[u8]) -> RunCursor {
    match sd_entry::read_entry(entries) {
        Ok(entry) => {
            let EntryHead {
                service_id,
                ttl,
                number_of_options_1: many,
                start_index_options_1: start,
                ..
            } = entry.head();
            out(
                rt,
                format_args!(
                    "its first entry: {} of service {service_id:#06x}, TTL {ttl}, run 1 of {many} from {start}\n",
                    kind(entry)
                ),
            );
            RunCursor::new(start, many)
        }
        Err(refusal) => {
            out(
                rt,
                format_args!("its first entry: {}\n", Told(Numbers::from(refusal))),
            );
            RunCursor::new(0, 0)
        }
    }
}

// A transport protocol.
fn protocol_name(protocol: u8) -> &'static str {
    match protocol {
        0x06 => "TCP",
        0x11 => "UDP",
        _ => "another protocol",
    }
}

// An address of four bytes, dotted.
fn dotted(rt: &impl Print, bytes: [u8; 4]) {
    let [a, b, c, d] = bytes;
    out(rt, format_args!("IPv4 endpoint {a}.{b}.{c}.{d}"));
}

fn address(rt: &impl Print, address: IpAddress) {
    match address {
        IpAddress::V4(bytes) => dotted(rt, bytes),
        IpAddress::V6(_) => out(rt, "IPv6 endpoint"),
    }
}

// A transport protocol, and a port.
fn port(rt: &impl Print, protocol: u8, port: u16) {
    out(
        rt,
        format_args!(", {}, port {port}", protocol_name(protocol)),
    );
}

// An option by its fields.
fn option(rt: &impl Print, option: SdOption) {
    match option {
        SdOption::Address {
            address: a,
            protocol: p,
            port: n,
            ..
        } => {
            address(rt, a);
            port(rt, p, n);
        }
        _ => out(rt, "another kind"),
    }
}

// Prints an option of run 1 that was looked up among the options.
fn found(rt: &impl Print, options: &[u8], answer: Result<Found, Refusal>) {
    out(rt, "its run 1: ");
    match answer.and_then(|found| read_fields(PLAIN, sd_index::option_at(options, found.offset))) {
        Ok(fields) => option(rt, fields.option),
        Err(refusal) => out(rt, Told(Numbers::from(refusal))),
    }
    out(rt, "\n");
}

// The first entry of a payload, and the first option of its run 1.
pub(crate) fn parts(rt: &impl Print, payload: &[u8]) {
    let mut table = [0u16; SLOTS];
    let answer = sd_payload::read_payload(PLAIN, payload, &mut table);
    let Ok(p) = answer else {
        return;
    };
    let run = entry(rt, sd_payload::entries_part(payload, answer));
    let options = sd_payload::options_part(payload, answer);
    found(rt, options, run.next(options, &table, p.options).answer);
}
