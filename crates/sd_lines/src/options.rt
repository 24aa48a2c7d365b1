// Options: one in a few words beside an entry, one with all that it holds, the options of a run, and all of them.
use print::{Bytes, YesNo, out};
use sd_field::{IpAddress, SdOption};
use sd_index::{Offset, Ordinal, RunCursor};
use sd_option::PLAIN;
use sd_option::kinds::Role;
use std::fmt;
use std::net::{Ipv4Addr, Ipv6Addr};

// More than the items that a configuration string, or the options that a run, has at most.
const MOST: usize = 1400;

// A payload's options with the table of where they begin, and how many there are, as `look_up` asks for them.
#[derive(Clone, Copy)]
pub struct Options<'a> {
    pub bytes: &'a [u8],
    pub table: &'a [u16],
    pub count: usize,
}

impl<'a> Options<'a> {
    // The bytes from an option on.
    fn from(self, offset: Offset) -> &'a [u8] {
        sd_index::option_at(self.bytes, offset)
    }
}

#[derive(Clone, Copy)]
struct Address(IpAddress);

impl fmt::Display for Address {
    fn fmt<W: fmt::Write>(&self, f: &mut fmt::Formatter<W>) -> fmt::Result {
        match self.0 {
            IpAddress::V4(bytes) => write!(f, "{}", Ipv4Addr::from(bytes)),
            IpAddress::V6(bytes) => {
                // All eight groups: the library's own text leaves zeros out.
                let [a, b, c, d, p, q, r, s] = Ipv6Addr::from(bytes).segments();
                write!(f, "{a:x}:{b:x}:{c:x}:{d:x}:{p:x}:{q:x}:{r:x}:{s:x}")
            }
        }
    }
}

fn family_word(address: IpAddress) -> &'static str {
    match address {
        IpAddress::V4(..) => "IPv4",
        IpAddress::V6(..) => "IPv6",
    }
}

fn role_word(role: Role) -> &'static str {
    match role {
        Role::Endpoint => "endpoint",
        Role::Multicast => "multicast",
        Role::SdEndpoint => "SD endpoint",
    }
}

#[derive(Clone, Copy)]
struct Protocol(u8);

impl fmt::Display for Protocol {
    fn fmt<W: fmt::Write>(&self, f: &mut fmt::Formatter<W>) -> fmt::Result {
        match self.0 {
            0x06 => write!(f, "TCP"),
            0x11 => write!(f, "UDP"),
            code => write!(f, "protocol {code}"),
        }
    }
}

// An option in a few words: what it is, and where it points.
#[derive(Clone, Copy)]
struct Brief(SdOption);

impl fmt::Display for Brief {
    fn fmt<W: fmt::Write>(&self, f: &mut fmt::Formatter<W>) -> fmt::Result {
        match self.0 {
            SdOption::Configuration { .. } => write!(f, "configuration"),
            SdOption::LoadBalancing {
                priority,
                weight,
                ..
            } => write!(f, "load balancing, priority {priority}, weight {weight}"),
            SdOption::Address {
                role,
                address,
                protocol,
                port,
                ..
            } => {
                let (family, role) = (family_word(address), role_word(role));
                write!(
                    f,
                    "{family} {role} {}, {}, port {port}",
                    Address(address),
                    Protocol(protocol)
                )
            }
            SdOption::Unknown { code, .. } => write!(f, "unknown type 0x{code:02x}"),
        }
    }
}

// What lookup finds was judged when the payload was read, by the settings of that reading: here its fields are read with none on.

// The options of a run, by its cursor: their numbers, and each in a few words.
#[derive(Clone, Copy)]
pub(crate) struct Run<'a> {
    pub(crate) options: Options<'a>,
    pub(crate) start: RunCursor,
}

impl<'a> fmt::Display for Run<'a> {
    fn fmt<W: fmt::Write>(&self, f: &mut fmt::Formatter<W>) -> fmt::Result {
        let options = self.options;
        let mut cursor = self.start;
        let mut before = ": ";
        for _ in 0..MOST {
            let number = cursor.next.0;
            let step = cursor.next(options.bytes, options.table, options.count);
            let Ok(found) = step.answer else {
                return Ok(());
            };
            f.write_str(before)?;
            if let Ok(fields) = sd_field::read_fields(PLAIN, options.from(found.offset)) {
                write!(f, "option {number} ({})", Brief(fields.option))?;
            }
            before = ", ";
            cursor = step.after;
        }
        Ok(())
    }
}

// The items of a configuration string, each on a line.
fn items(rt: &impl Print, string: &[u8]) {
    let mut at = 0;
    for _ in 0..MOST {
        let Ok(next) = config_string::next_item(string, at) else {
            return;
        };
        let item = Bytes(config_string::item_part(string, at));
        out(rt, format_args!("  item {item}\n"));
        at = next;
    }
}

// What stands behind them in the list; `rest` are the option's bytes after its first.
fn details(rt: &impl Print, option: SdOption, rest: &[u8]) {
    match option {
        SdOption::Configuration { .. } => {
            out(rt, "\n");
            items(rt, rest);
        }
        SdOption::Unknown { first, .. } => out(
            rt,
            format_args!(
                ", bytes after the first {}, may be discarded {}\n",
                rest.len(),
                YesNo(first.discardable)
            ),
        ),
        _ => out(rt, "\n"),
    }
}

// An option of the list, by its number and the bytes from it on: the number, and all that it holds.
fn listed(rt: &impl Print, number: usize, bytes: &[u8]) {
    let Ok(fields) = sd_field::read_fields(PLAIN, bytes) else {
        return;
    };
    let option = fields.option;
    out(rt, format_args!("option {number}: {}", Brief(option)));
    details(rt, option, sd_field::option_rest(PLAIN, bytes));
}

// All options, whether an entry points at them or not, each with its number and all that it holds.
pub fn all(rt: &impl Print, options: Options) {
    for number in 0..options.count {
        let answer = sd_index::look_up(
            options.bytes,
            options.table,
            options.count,
            Ordinal(number),
        );
        let Ok(found) = answer else {
            return;
        };
        listed(rt, number, options.from(found.offset));
    }
}
