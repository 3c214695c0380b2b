// Request Thirteen, "A book of logs with a summary": a book in lent bytes, and its summary in lent counters. What they are, is said in `bookkeeping`.
#![tactic(auto)]

ghost use Rattle.std.specs.Prelude.{◌≡◌, ◌==◌, count_by, take};
ghost use Rattle.bookkeeping.specs.Book.{is_book};
ghost use Rattle.bookkeeping.specs.Layout.{call_byte, logs_in};
ghost use Rattle.book.specs.Answered.{Finds, Adds, Begins};
ghost use Rattle.book.specs.declared.BookError.TheVariants as error;

use book_counters::{counted_at, raise};
use book_layout::{MOST, call_in, is_book, log_count, logs_in, start};
use exchange::types::Place;
use wire::part;
use wire::refusal::Refusal;
use writer::{insert, put_header};

pub mod summary;
mod writer;

// Why a book is not added to, or not summed up.
#[derive(Clone, Copy)]
pub enum BookError {
    Refused(Refusal),
    // what is lent is shorter than the longer book, or has not as many counters as a summary; it is left as it was
    NoRoom,
}

impl From<Refusal> for BookError {
    ghost from_gives = { λ refusal r. r ≡ error.Refused refusal };

    fn from(refusal: Refusal) -> BookError {
        BookError::Refused(refusal)
    }
}

// Under which call and number the log is found, and the counter of the summary that counts it.
#[derive(Clone, Copy)]
pub struct Entry {
    pub call: u8,
    pub number: usize,
    pub place: usize,
}

// "Finding the k-th log (from 0) of a call gives that log and no other": where it stands in the book.
#[tactic(auto, using(crate::proofs::Walks::no_book, crate::proofs::Walks::behind, crate::proofs::Walks::whole, crate::proofs::Walks::finds))]
pub fn find(book: &[u8], call: u64, k: u64) -> Result<Place, Refusal>
    ensures { Finds book.now call k result }
{
    if !is_book(book) {
        return Err(Refusal::NoBook);
    }
    let mut at = start(log_count(book));
    let mut left = k;
    for log in logs_in(book) {
        if call_in(log) as u64 == call {
            if left == 0 {
                return Ok(Place { at, len: log.len() });
            }
            left -= 1;
        }
        at += log.len();
    }
    Err(Refusal::NoSuchLog)
}

// How many logs of a call are in the book.
fn count_of(book: &[u8], call: u8) -> usize
    ensures { result ≡ count_by (λ log. call_byte log == call) (logs_in book.now) }
{
    logs_in(book).filter(|log| call_in(log) == call).count()
}

// Adds a log to the book that the first n bytes of the buffer are, and raises its counter in the summary: how many bytes at the buffer's front
// are the book now, and the log's entry. "25 first, 23 before 22; the book unchanged", and the summary. Other counters than a book's summary are
// raised where they reach, and stay at 65,535.
pub fn add(
    book: &mut [u8],
    n: usize,
    log: &[u8],
    summary: &mut [u16],
) -> Result<(usize, Entry), BookError>
    ensures { Adds (take n book.old) log.now book.old summary.old result book.new summary.new }
{
    let old = part(book, 0, n);
    let length = old.len();
    if !is_book(old) {
        return Err(BookError::Refused(Refusal::NoBook));
    }
    let call = call_in(log);
    let number = count_of(old, call);
    let place = counted_at(log).ok_or(Refusal::BadLog)?;
    let longer = length + 8 + log.len();
    if longer > MOST {
        return Err(BookError::Refused(Refusal::BookFull));
    }
    if longer > book.len() {
        return Err(BookError::NoRoom);
    }
    insert(book, length, log);
    raise(summary, place);
    Ok((
        longer,
        Entry {
            call,
            number,
            place,
        },
    ))
}

// Puts the empty book at the buffer's front: how many bytes it is; or None, where they do not fit and nothing changes.
pub fn begin(book: &mut [u8]) -> Option<usize>
    ensures { Begins book.old result book.new }
{
    put_header(book, 0, 0).then_some(20)
}
