// A book as it is written: a log is put behind the others, which move on by an entry.
ghost use Rattle.std.specs.Prelude.{◌≡◌, true, List, [], ◌∷◌, ◌++◌, ◌+◌, ◌*◌, ◌≤◌, length, take, drop};
ghost use Rattle.rules.specs.Bytes.{two, four};
ghost use Rattle.rules.specs.Logs.{area};
ghost use Rattle.wire.specs.Buffers.{Copied, with};
ghost use Rattle.bookkeeping.specs.Book.{is_book};
ghost use Rattle.bookkeeping.specs.Layout as bookkeeping;
ghost use Rattle.bookkeeping.specs.Layout.{book_of, logs_in};
ghost use Rattle.book.specs.Moved.{moved};

use book_layout::{call_in, log_count, log_size, start};
use wire::copy_into;

// "`UB`, 5542; version u16 = 1; directory: count u16, offset u16 = 20; logs: bytes u32, offset u32 = 20 + 8 × count; total length u32"
fn header_bytes(count: u16, logs: u32) -> [u8; 20]
    requires { logs ≤ 65536 }
    ensures { result ≡ bookkeeping.header count logs }
{
    let at = start(count) as u32;
    let [count_1, count_2] = count.to_be_bytes();
    let [logs_1, logs_2, logs_3, logs_4] = logs.to_be_bytes();
    let [at_1, at_2, at_3, at_4] = at.to_be_bytes();
    let [total_1, total_2, total_3, total_4] = (at + logs).to_be_bytes();
    [
        0x55, 0x42, 0, 1, count_1, count_2, 0, 20, logs_1, logs_2, logs_3, logs_4, at_1, at_2,
        at_3, at_4, total_1, total_2, total_3, total_4,
    ]
}

// Puts the header of a book with so many logs, of so many bytes. Where it does not fit, nothing changes and the answer is false.
pub(crate) fn put_header(book: &mut [u8], count: u16, logs: u32) -> bool
    requires { logs ≤ 65536 }
    ensures { Copied book.old 0 (bookkeeping.header count logs) result book.new }
{
    let bytes = header_bytes(count, logs);
    copy_into(book, 0, &bytes)
}

// "Directory entry, 8 bytes: call u8, 0, length u16, offset u32 from the book's first byte"
fn entry_bytes(call: u8, size: u16, at: u32) -> [u8; 8]
    ensures { result ≡ call ∷ 0 ∷ two size ++ four at }
{
    let [size_1, size_2] = size.to_be_bytes();
    let [at_1, at_2, at_3, at_4] = at.to_be_bytes();
    [call, 0, size_1, size_2, at_1, at_2, at_3, at_4]
}

// The offsets of the first entries, anew for logs that follow each other from index `first` on.
fn put_offsets(book: &mut [u8], count: u16, first: usize)
    requires { (count ≤ 1489) × (first ≤ 65536) × (bookkeeping.start count ≤ length book.old) }
    ensures { book.new ≡ take 20 book.old ++ moved first count (drop 20 book.old) }
{
    let mut at = first;
    // by number: an iterator over the logs would hold the bytes that are written here
    for i in 0..count {
        let size = log_size(book, i);
        copy_into(book, start(i) + 4, &(at as u32).to_be_bytes());
        at += size;
    }
}

// Puts a log behind the others of the book that the first n bytes are: the log, the other logs on by an entry, its entry, the others' offsets,
// the header.
pub(crate) fn insert(book: &mut [u8], n: usize, log: &[u8])
    requires { (is_book (take n book.old) ≡ true) × (n + 8 + length log.now ≤ 65536) × (n + 8 + length log.now ≤ length book.old) }
    ensures { book.new ≡ with book.old 0 (book_of (logs_in (take n book.old) ++ (log.now ∷ []))) }
{
    let count = log_count(book);
    let logs_at = start(count);
    let logs = n - logs_at;
    copy_into(book, n + 8, log);
    book.copy_within(logs_at..n, logs_at + 8);
    let entry = entry_bytes(call_in(log), log.len() as u16, (n + 8) as u32);
    copy_into(book, logs_at, &entry);
    put_offsets(book, count, logs_at + 8);
    put_header(book, count + 1, (logs + log.len()) as u32);
}
