// What the programs read and write: buffers that are lent are filled, slices are written whole, and the arguments and a file to read are had.
// An error of a read or of a write is handed on.
#![tactic(auto)]

ghost use Rattle.std.specs.Prelude.{◌≡◌, ◌<◌, ◌≤◌, IfOk, IfSome, OnOk, length, take};
ghost use Rattle.std.specs.Io.{ReadsAtMost};
ghost use Rattle.std.specs.Io.KnownBytes.{Appends, Consumes, IsAtEnd};

use std::env::{Env, FillError};
use std::fs::Files;
use std::io::{ErrorKind, Read, Write};
use std::str::from_utf8;
use std::{fs, io};

// Reads until buf is full or the input ends, and answers how many bytes it put at the front of buf: the next ones of the input, and all that were left
// where they are fewer than buf has room for.
pub fn read_full<R: Read>(reader: &mut R, buf: &mut [u8]) -> io::Result<usize>
    ensures in_bounds { ReadsAtMost result buf.new }
    ensures bytes { IfOk result (λ n. Consumes (R.remaining reader.old) (R.remaining reader.new) (take n buf.new)) }
    ensures end { IfOk result (λ n. n < length buf.new → IsAtEnd (R.remaining reader.new)) }
    ensures front { IfOk result (λ n. IfSome (R.remaining reader.old) (λ xs. take n buf.new ≡ take (length buf.new) xs)) }
{
    let mut done = 0;
    while done < buf.len() {
        let n = reader.read(&mut buf[done..])?;
        if n == 0 {
            return Ok(done);
        }
        done += n;
    }
    Ok(done)
}

// Writes all of buf, and holds none of it back.
pub fn write_full<W: Write>(writer: &mut W, buf: &[u8]) -> io::Result<()>
    ensures { OnOk result (Appends (W.contents writer.old) (W.contents writer.new) buf.now) }
{
    writer.write_all(buf)?;
    writer.flush()
}

// Puts argument k at the front of buf, and answers how many bytes it has; None where there is no such argument, and where buf has no room for it.
// Argument 0 is the program's name.
pub fn arg<E: Env>(env: &E, k: usize, buf: &mut [u8]) -> Option<usize>
    ensures { IfSome result (λ n. (n ≤ length buf.new) × (n ≡ length (take n buf.new))) }
{
    env.arg(k, buf).ok()
}

// How many arguments the program was started with, its own name among them.
pub fn arg_count<E: Env>(env: &E) -> usize {
    for k in 0..usize::MAX {
        if is_missing(env, k) {
            return k;
        }
    }
    usize::MAX
}

fn is_missing<E: Env>(env: &E, k: usize) -> bool {
    let mut none = [0u8; 0];
    match env.arg(k, &mut none) {
        Err(FillError::NotPresent) => true,
        _ => false,
    }
}

// Opens a file to read. A path is text: bytes that are none name no file.
pub fn open<F: Files>(files: &F, path: &[u8]) -> io::Result<F::File> {
    match from_utf8(path) {
        Ok(text) => fs::open(files, text),
        Err(_) => Err(io::Error::from(ErrorKind::InvalidFilename)),
    }
}
