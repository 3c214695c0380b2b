// A book as it is read: its header, its directory and where its logs stand.
#![tactic(auto)]

ghost use Rattle.std.specs.Prelude.{◌≡◌, ◌≤◌, length, drop};
ghost use Rattle.std.specs.Iterator.{YieldsFirstRef, item_count};
ghost use Rattle.rules.specs.Bytes.{u16_at};
ghost use Rattle.rules.specs.Logs.{layout_ok};
ghost use Rattle.bookkeeping.specs.Layout as bookkeeping;
ghost use Rattle.bookkeeping.specs.Book.{is_book};
ghost use Rattle.bookkeeping.specs.Fields.{head_ok, entry_ok};
ghost use Rattle.book_layout.specs.Left.{left};

use log_call::recorded_in;
use wire::{byte_at, part, u16_at, u32_at};

// "at most 64 KiB"
pub const MOST: usize = 65536;

// Where the logs of a book begin that has so many; and where the entry so numbered stands.
pub fn start(count: u16) -> usize
    ensures { result ≡ bookkeeping.start count }
{
    20 + count as usize * 8
}

// How many logs the header says.
pub fn log_count(book: &[u8]) -> u16
    ensures { (result ≡ u16_at book.now 4) × (result ≤ 65535) }
{
    u16_at(book, 4)
}

// How long the log numbered i is, as the directory says.
pub fn log_size(book: &[u8], i: u16) -> usize
    ensures { (result ≡ u16_at (drop (bookkeeping.start i) book.now) 2) × (result ≤ 65535) }
{
    u16_at(book, start(i) + 2) as usize
}

// The call that a log is of.
pub fn call_in(log: &[u8]) -> u8
    ensures { result ≡ bookkeeping.call_byte log.now }
{
    byte_at(log, 2)
}

// The bytes from an index on, none where there are not so many.
fn behind<'a>(bytes: &'a [u8], at: usize) -> &'a [u8]
    ensures { result.now ≡ drop at bytes.now }
{
    part(bytes, at, bytes.len())
}

// Whether `udslog` takes a log, and does not call it bad.
fn sound(log: &[u8]) -> bool
    ensures { result ≡ layout_ok log.now }
{
    recorded_in(log).is_some()
}

// "0: `UB`, 5542; 2: version u16 = 1; 4, 6: directory: count u16, offset u16 = 20; 8, 12: logs: bytes u32, offset u32 = 20 + 8 × count; 16: total
// length u32, the file's length"
fn header_ok(book: &[u8]) -> bool
    ensures { result ≡ head_ok book.now }
{
    let length = book.len();
    let logs = u32_at(book, 8) as u64;
    let logs_at = u32_at(book, 12) as u64;
    let total = u32_at(book, 16) as u64;
    20 <= length
        && length <= MOST
        && u16_at(book, 0) == 0x5542
        && u16_at(book, 2) == 1
        && u16_at(book, 6) == 20
        && logs_at == start(log_count(book)) as u64
        && total == logs_at + logs
        && total == length as u64
}

// The entry numbered i, whose log begins at index `at`.
fn entry_ok(book: &[u8], i: u16, at: usize) -> bool
    ensures { result ≡ entry_ok (drop (bookkeeping.start i) book.now) at (drop at book.now) }
{
    let entry = behind(book, start(i));
    let rest = behind(book, at);
    let size = u16_at(entry, 2) as usize;
    let log = part(rest, 0, size);
    size <= rest.len()
        && byte_at(entry, 1) == 0
        && u32_at(entry, 4) as usize == at
        && sound(log)
        && call_in(log) == byte_at(entry, 0)
}

// The logs that are left, in the directory's order: the entries and the bytes from theirs on, and how many they are.
#[derive(Drop)]
pub struct Logs<'a> {
    entries: &'a [u8],
    bytes: &'a [u8],
    count: u16,
}

impl<'a> Iterator for Logs<'a> {
    type Item = &'a [u8];

    ghost next_gives = { YieldsFirstRef left };

    ghost remaining = { item_count left };

    fn next(&mut self) -> Option<&'a [u8]> {
        self.count = self.count.checked_sub(1)?;
        let size = u16_at(self.entries, 2) as usize;
        let log = part(self.bytes, 0, size);
        self.entries = behind(self.entries, 8);
        self.bytes = behind(self.bytes, size);
        Some(log)
    }
}

// The logs that bytes say, whether they are a book or not: "The logs follow end to end in the directory's order, no gaps, no alignment".
#[tactic(auto, using(crate::proofs::Walks::as_many))]
pub fn logs_in(book: &[u8]) -> Logs<'_>
    ensures all { left result ≡ bookkeeping.logs_in book.now }
    ensures few { length (left result) ≤ 65535 }
{
    let count = log_count(book);
    Logs {
        entries: behind(book, 20),
        bytes: behind(book, start(count)),
        count,
    }
}

// Whether bytes are a book.
pub fn is_book(book: &[u8]) -> bool
    ensures { result ≡ is_book book.now }
{
    if !header_ok(book) {
        return false;
    }
    let count = log_count(book);
    let mut at = start(count);
    // by number and place, which an entry is tested by: the iterator over the logs has neither
    for i in 0..count {
        if !entry_ok(book, i, at) {
            return false;
        }
        at += log_size(book, i);
    }
    at >= book.len()
}
