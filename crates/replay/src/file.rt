// The file of records: opened, how many it has, a record out of it, and all of them.
ghost use Rattle.std.specs.Prelude.{◌≡◌, ◌≤◌, ◌++◌, ⊤, Bool, List, ℕ, length, take, IfSome, ◌<◌};
ghost use Rattle.std.specs.Io.KnownBytes.{Consumes};
ghost use Rattle.std.specs.List.{FoldsTo};
ghost use Rattle.numbers.specs.Bytes.{at32};
ghost use Rattle.replay.specs.Counts.{first_false};

use crate::record::number;
use big_endian::be16;
use intake::{fill, word};
use std::env::Env;
use std::io::{Cursor, Read, Write};
use std::rt::Files;
use std::str::from_utf8;
use std::{fs, io};

// The number of the system's error for a name that is no text: `std` opens files by text alone.
const NO_TEXT: i32 = 84;

// Opens a file for reading.
fn open<R: Files>(rt: &R, name: &[u8]) -> io::Result<R::File> {
    match from_utf8(name) {
        Ok(path) => fs::open(rt, path),
        Err(_) => Err(io::Error::from_raw_os_error(NO_TEXT)),
    }
}

// The system's words for an error, without its number behind them.
fn without_number(text: &str) -> &str {
    match text.split_once(" (os error ") {
        Some((words, _)) => words,
        None => text,
    }
}

// Room for the system's words for an error, and its number.
const ROOM: usize = 300;

// A line: what failed, and the system's words for it.
fn failed(to: &impl Print, what: &[u8], error: io::Error) {
    let mut words = Cursor::new([0u8; ROOM]);
    let _ = write!(words, "{error}");
    let n = words.position().min(ROOM as u64) as usize;
    let said = words.into_inner();
    let text = from_utf8(&said[..n]).unwrap_or("");
    let _ = to.write_all(what);
    let _ = to.write_all(b": ");
    let _ = to.print(without_number(text));
    let _ = to.write_all(b"\n");
}

// Opens the file that the first word names, for reading. Where it cannot be opened, a line on standard error, which is handed in, says why.
pub fn open_first<R: Files + Env>(rt: &R, errors: &impl Print) -> Option<R::File> {
    let mut name = [0u8; 4096];
    let n = word(rt, 1, &mut name).unwrap_or(0);
    match open(rt, &name[..n]) {
        Ok(file) => Some(file),
        Err(error) => {
            failed(errors, &name[..n], error);
            None
        }
    }
}

// The next record: how many bytes it has, which stand in front in the buffer; 0 where none comes that is whole and fits. (No `Option`: whoever
// called it is answered as before.)
pub fn next_record(from: &mut impl Read, buf: &mut [u8]) -> usize
    ensures in_bounds { result ≤ length buf.new }
    ensures front { result ≡ length (take result buf.new) }
{
    let mut size = [0u8; 2];
    fill(from, &mut size);
    let n = be16(size[0], size[1]) as usize;
    let Some(record) = buf.get_mut(..n) else {
        return 0;
    };
    if fill(from, record) < n { 0 } else { n }
}

// How many records the file has, which begins with this name and that number, in eight bytes each; none where another name stands there. Both are asked
// for at once, and bytes that do not come count as 0, those of the name too: a file that ends inside its name is not told from one with zeros there.
// `records_behind` tells them apart, and asks for no more than the name before it says that another stands there.
pub fn records<R: Read>(from: &mut R, name: [u8; 8]) -> Option<u32>
    ensures begins { IfSome result (λ n. (came : ℕ) × (rest : List ℕ) × Consumes (R.remaining from.old) (R.remaining from.new) (take came (name ++ rest)) × (n ≡ at32 rest 0)) }
    ensures told { IfSome result (λ n. (came : List ℕ) × Consumes (R.remaining from.old) (R.remaining from.new) came × (n ≡ at32 came 8)) }
{
    let mut head = [0u8; 16];
    let came = fill(from, &mut head);
    if !head.starts_with(&name) {
        return None;
    }
    Some(number(&head[..came], 8))
}

// The same, and none where less than the whole name is there; where there is none, no byte behind the name is asked for. Of a number that is cut short the
// bytes that are not there count as 0.
pub fn records_behind<R: Read>(from: &mut R, name: [u8; 8]) -> Option<u32>
    ensures { IfSome result (λ n. (told : List ℕ) × Consumes (R.remaining from.old) (R.remaining from.new) (name ++ told) × (n ≡ at32 told 0)) }
{
    let mut begins = [0u8; 8];
    if fill(from, &mut begins) < begins.len() || begins != name {
        return None;
    }
    let mut told = [0u8; 8];
    let came = fill(from, &mut told);
    Some(number(&told[..came], 0))
}

// Who says of each record whether it agrees. (No closure: a call of one would have to be asked for.)
pub trait Judge {
    // Relates the judge before a record, the record, the answer, and the judge after it.
    ghost judges: { Self → List ℕ → Bool → Self → Type 0 } = { λ _ _ _ _. ⊤ };

    fn agrees(&mut self, record: &[u8]) -> bool
        ensures { judges self.old record.now result self.new };
}

// All records of the file, each handed on; which is the first that does not agree, counted from 1.
pub fn replay_all<R: Read, J: Judge>(
    from: &mut R,
    total: u32,
    record: &mut [u8],
    judge: &mut J,
) -> Option<u32>
    ensures within { IfSome result (λ n. (0 < n) × (n ≤ total)) }
    ensures first { (answers : List Bool) × (length answers ≡ total) × FoldsTo (λ j answer k. (x : List ℕ) × J.judges j x answer k) judge.old answers judge.new × (result ≡ first_false 1 answers) }
{
    let mut first = None;
    for before in 0..total {
        let n = next_record(from, record);
        if !judge.agrees(&record[..n]) {
            first = first.or(Some(before + 1));
        }
    }
    first
}
