// What the programs read with: the words that they are started with, and bytes of a file or of standard input. Nothing is allocated: all is read into
// buffers that the caller lends. A read that fails ends the input, as its end does.
#![tactic(auto)]

ghost use Rattle.std.specs.Prelude.{◌≡◌, ◌≤◌, length, take, IfSome};
ghost use Rattle.std.specs.Io.KnownBytes.{Consumes};

use std::env::{Env, FillError};
use std::io::Read;

// Puts the word at a place at the start of the buffer; answers how many bytes it has, 0 where it does not fit, which is a word all the same. There is
// none past the last word.
pub fn word(rt: &impl Env, place: usize, buf: &mut [u8]) -> Option<usize>
    ensures { IfSome result (λ n. n ≤ length buf.new) }
{
    match rt.arg(place, buf) {
        Ok(n) => Some(n),
        Err(FillError::TooLong) => Some(0),
        Err(FillError::NotPresent) => None,
    }
}

// Reads until the buffer is full or the input ends; answers how many bytes came, which stand in front.
pub fn fill<R: Read>(from: &mut R, buf: &mut [u8]) -> usize
    ensures in_bounds { result ≤ length buf.new }
    ensures front { result ≡ length (take result buf.new) }
    ensures bytes { Consumes (R.remaining from.old) (R.remaining from.new) (take result buf.new) }
{
    let mut done = 0;
    // No method of `Read` that allocates nothing tells how many bytes came.
    while done < buf.len() {
        let Ok(n @ 1..) = from.read(&mut buf[done..]) else {
            break;
        };
        done += n;
    }
    done
}
