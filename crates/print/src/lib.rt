// What the programs print that no type of the library prints by itself: bytes, a refusal in numbers, yes or no. The logic has no word for what is
// written on standard output, so no contract says it: what a program prints is held to its file `stdout`. `out` is what they print with.
#![tactic(auto)]

use refusal::Numbers;
use std::fmt;

// A value on standard output, as the text of `format_args!`. What cannot be written is passed over, as when nobody reads it any more.
pub fn out(rt: &impl Print, shown: impl fmt::Display + Drop) {
    let _ = rt.print(shown);
}

// Counts on standard output, a line each: what was counted at a place, and how many there were.
pub fn tally(rt: &impl Print, lines: &[(u8, &str)], counts: &[u32]) {
    for (place, text) in lines {
        let n = counts.get(*place as usize).copied().unwrap_or(0);
        out(rt, format_args!("{text}: {n}\n"));
    }
}

// Bytes out of a payload: as they are where a terminal shows them, as \xNN otherwise. A backslash is spelt out too, since it stands in front of those
// that are.
#[derive(Clone, Copy)]
pub struct Bytes<'a>(pub &'a [u8]);

impl<'a> fmt::Display for Bytes<'a> {
    fn fmt<W: fmt::Write>(&self, f: &mut fmt::Formatter<W>) -> fmt::Result {
        for &b in self.0 {
            match b {
                b'\\' | ..0x20 | 0x7f.. => write!(f, "\\x{b:02x}")?,
                _ => f.write_char(char::from(b))?,
            }
        }
        Ok(())
    }
}

// A refusal: its number, and its values in brackets.
#[derive(Clone, Copy)]
pub struct Told(pub Numbers);

impl fmt::Display for Told {
    fn fmt<W: fmt::Write>(&self, f: &mut fmt::Formatter<W>) -> fmt::Result {
        let said = &self.0;
        let number = said.number;
        write!(f, "refused, {number}")?;
        if said.count == 0 {
            return Ok(());
        }
        f.write_str(" (")?;
        f.write_joined(said.values.iter().take(said.count), ", ")?;
        f.write_str(")")
    }
}

// Yes or no.
#[derive(Clone, Copy)]
pub struct YesNo(pub bool);

impl fmt::Display for YesNo {
    fn fmt<W: fmt::Write>(&self, f: &mut fmt::Formatter<W>) -> fmt::Result {
        f.write_str(if self.0 { "yes" } else { "no" })
    }
}
