// The text that `udsbook` writes: the lines of a summary, "added CALL K", "refused N", and how it is used.
#![tactic(auto)]

ghost use Rattle.std.specs.Prelude.{◌&&◌, leb, length};
ghost use Rattle.rules.specs.Lines.{spaced};
ghost use Rattle.text.specs.Written.{Adds};
ghost use Rattle.bookkeeping.specs.Said.{word, counter_line, lines_from, refusal};
ghost use Rattle.book_counters.specs.Counted.{meant};
ghost use Rattle.book_text.specs.Texts.{added_text, usage, Puts};

use book::Entry;
use book_counters::Class;
use text::{append, append_byte, append_decimal, put_counted};
use wire::copy_into;

// So many bytes have room for a line of each counter: a call of two digits, " negative CODE", a number of five digits, two spaces and the
// newline are 21.
pub const LONGEST: usize = 100224;

// So many have room for the other texts.
pub const SHORT: usize = 200;

// The counters of a summary.
const COUNTERS: usize = 4176;

// The word of a class, behind a space: "CODE two hex digits".
fn put_word(text: &mut [u8], at: usize, class: Class) -> usize
    ensures { Adds (spaced (word (meant class))) text.old at result text.new }
{
    match class {
        Class::Positive => append(text, at, b" positive"),
        Class::Negative(code) => {
            let n = append(text, at, b" negative");
            append_byte(text, n, code)
        }
        Class::Suppressed => append(text, at, b" suppressed"),
        Class::TimedOut => append(text, at, b" timeout"),
        Class::Deviating => append(text, at, b" deviation"),
        Class::Other => append(text, at, b" other"),
    }
}

// "a line for each counter that isn't 0", of the counter at a place.
fn put_counter(text: &mut [u8], at: usize, place: usize, number: u16) -> usize
    ensures { Adds (counter_line place number) text.old at result text.new }
{
    if number == 0 {
        return at;
    }
    let call = append_decimal(text, at, (place / 261) as u64);
    let class = put_word(text, call, Class::at(place % 261));
    let counted = put_counted(text, class, b"", number as u64);
    append(text, counted, b"\n")
}

// "by call and then in this order". Where there is no room for all, or there are more counters than a summary has, nothing changes and the
// answer is None.
pub fn put_summary(text: &mut [u8], summary: &[u16]) -> Option<usize>
    ensures { Puts (leb 100224 (length text.old) && leb (length summary.now) 4176)
        text.old (lines_from 0 summary.now) text.new result }
{
    if text.len() < LONGEST || summary.len() > COUNTERS {
        return None;
    }
    let mut n = 0;
    for (place, &number) in summary.iter().enumerate() {
        n = put_counter(text, n, place, number);
    }
    Some(n)
}

// "added CALL K", and "the summary's line that this log raised, with its new number". None as `put_summary` says it.
pub fn put_added(text: &mut [u8], entry: Entry, summary: &[u16]) -> Option<usize>
    ensures { Puts (leb 200 (length text.old) && leb (length summary.now) 4176)
        text.old (added_text entry.call entry.number entry.place summary.now) text.new result }
{
    if text.len() < SHORT || summary.len() > COUNTERS {
        return None;
    }
    let call = put_counted(text, 0, b"added", entry.call as u64);
    let number = put_counted(text, call, b"", entry.number as u64);
    let line = append(text, number, b"\n");
    let counter = summary.get(entry.place).copied().unwrap_or(0);
    Some(put_counter(text, line, entry.place, counter))
}

// "refused N"
pub fn put_refusal(text: &mut [u8], number: u8) -> Option<usize>
    ensures { Puts (leb 200 (length text.old)) text.old (refusal number) text.new result }
{
    if text.len() < SHORT {
        return None;
    }
    let n = put_counted(text, 0, b"refused", number as u64);
    Some(append(text, n, b"\n"))
}

pub fn put_usage(text: &mut [u8]) -> Option<usize>
    ensures { Puts (leb 64 (length text.old)) text.old usage text.new result }
{
    copy_into(
        text,
        0,
        b"usage: udsbook new | add BOOK | find BOOK CALL K | summary BOOK\n",
    )
    .then_some(64)
}
