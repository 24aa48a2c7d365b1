// The byte at which an option was refused, among its neighbours: a line below the refusal.
use print::out;
use refusal::Refusal;
use std::fmt;

// Where the options of a payload stand that has no entries.
const OPTIONS_START: usize = 12;

// As many bytes as are shown before the one at fault, and behind it.
const BEFORE: usize = 16;

const BEHIND: usize = 15;

// The place among the options that a refusal tells: 7 to 10 and 23 do.
fn place_in(refusal: Refusal) -> Option<usize> {
    match refusal {
        Refusal::OptionLength { place, .. }
        | Refusal::OptionLengthZero { place }
        | Refusal::ConfigurationString { place, .. }
        | Refusal::UnknownOption { place, .. }
        | Refusal::WrongProtocol { place, .. } => Some(place),
        _ => None,
    }
}

// A payload's options; none where its sizes do not pass, which a refusal with a place rules out.
fn options_in(payload: &[u8]) -> Option<&[u8]> {
    let entries_len = sd_payload::judge_sizes(payload).ok()?;
    payload.get(OPTIONS_START..)?.get(entries_len..)
}

// Each byte behind a space.
#[derive(Clone, Copy)]
struct Row<'a>(&'a [u8]);

impl<'a> fmt::Display for Row<'a> {
    fn fmt<W: fmt::Write>(&self, f: &mut fmt::Formatter<W>) -> fmt::Result {
        for b in self.0 {
            write!(f, " {b:02x}")?;
        }
        Ok(())
    }
}

// The last of the bytes before the one at fault.
#[derive(Clone, Copy)]
struct Before<'a>(&'a [u8]);

impl<'a> fmt::Display for Before<'a> {
    fn fmt<W: fmt::Write>(&self, f: &mut fmt::Formatter<W>) -> fmt::Result {
        let (far, near) = self.0.split_at(self.0.len().saturating_sub(BEFORE));
        if !far.is_empty() {
            f.write_str(" ..")?;
        }
        write!(f, "{}", Row(near))
    }
}

// The first of the bytes behind it.
#[derive(Clone, Copy)]
struct Behind<'a>(&'a [u8]);

impl<'a> fmt::Display for Behind<'a> {
    fn fmt<W: fmt::Write>(&self, f: &mut fmt::Formatter<W>) -> fmt::Result {
        let (near, far) = self.0.split_at(self.0.len().min(BEHIND));
        write!(f, "{}", Row(near))?;
        if !far.is_empty() {
            f.write_str(" ..")?;
        }
        Ok(())
    }
}

// A place among the options: the bytes before it and those from it on, and where it is in the payload and in the message, which may be the same.
#[derive(Clone, Copy)]
struct Fault<'a> {
    before: &'a [u8],
    on: &'a [u8],
    of_payload: usize,
    of_message: usize,
}

impl<'a> fmt::Display for Fault<'a> {
    fn fmt<W: fmt::Write>(&self, f: &mut fmt::Formatter<W>) -> fmt::Result {
        let (of_options, of_payload, of_message) = (
            self.before.len(),
            self.of_payload,
            self.of_message,
        );
        write!(
            f,
            "  byte {of_options} of the options, byte {of_payload} of the payload"
        )?;
        if of_message != of_payload {
            write!(f, ", byte {of_message} of the message")?;
        }
        write!(f, ":{}", Before(self.before))?;
        match self.on.split_first() {
            Some((first, behind)) => write!(f, " [{first:02x}]{}", Behind(behind)),
            None => write!(f, " [end]"),
        }
    }
}

// What a refusal tells of a payload that stands in these bytes behind `ahead` others, a message's header or none: nothing where it tells no place, or
// one that the options do not have.
fn fault_in(refusal: Refusal, bytes: &[u8], ahead: usize) -> Option<Fault<'_>> {
    let place = place_in(refusal)?;
    let payload = bytes.get(ahead..)?;
    let (before, on) = options_in(payload)?.split_at_checked(place)?;
    Some(Fault {
        before,
        on,
        of_payload: payload.len().saturating_sub(on.len()),
        of_message: bytes.len().saturating_sub(on.len()),
    })
}

// The line, where there is one.
pub(crate) fn shown(rt: &impl Print, refusal: Refusal, bytes: &[u8], ahead: usize) {
    if let Some(fault) = fault_in(refusal, bytes, ahead) {
        out(rt, format_args!("{fault}\n"));
    }
}
