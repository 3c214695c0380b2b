// The summary of a book in lent counters: "for each call 0 to 15 a row of 261 counters u16". No counter of a book's summary gets to 65,535, since at
// most 1,489 logs fit in a book: a header has 36 bytes, an entry 8.
ghost use Rattle.book.specs.Answered.{Sums};

use crate::BookError;
use book_counters::count_log;
use book_layout::{is_book, logs_in};
use wire::refusal::Refusal;

pub const COUNTERS: usize = 4176;

// Works the summary of a book out afresh.
#[tactic(auto, using(crate::proofs::Walks::no_summary, crate::proofs::Walks::sums))]
pub fn summarize(book: &[u8], summary: &mut [u16]) -> Result<(), BookError>
    ensures { Sums book.now summary.old result summary.new }
{
    if !is_book(book) {
        return Err(BookError::Refused(Refusal::NoBook));
    }
    if summary.len() != COUNTERS {
        return Err(BookError::NoRoom);
    }
    summary.fill(0);
    for log in logs_in(book) {
        count_log(summary, log);
    }
    Ok(())
}
