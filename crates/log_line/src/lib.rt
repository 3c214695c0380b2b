// From a log to its answer, and from there to its line.
#![tactic(auto)]

ghost use Rattle.rules.specs.Logs.{line_of};
ghost use Rattle.text.specs.Written.{Wrote};
ghost use Rattle.log_line.specs.Answered.{AnsweredIn};

use answers::put_answer;
use exchange::types::{Answer, Timing};
use log_call::{ask_of, laid_in};
use logs::header::Header;
use logs::layout::{address_of, data_of, events_of, replies_of, size_of};
use text::put_line;

pub mod answers;

// The answer of the call that a log asks, with the log's header, which says where the reply bytes are that it names; None where it is no log.
pub fn answer_of(log: &[u8]) -> Option<(Header, Answer)>
    ensures { AnsweredIn log.now result }
{
    let h = laid_in(log)?;
    // before the call is looked at: the compiler then joins what it decides by the call's number
    let address = address_of(log, h);
    let size = size_of(log, h);
    let data = data_of(log, h);
    let events = events_of(log, h);
    let replies = replies_of(log, h);
    let session = Timing {
        p2: h.p2,
        star: h.star,
    };
    let ask = ask_of(h)?;
    // as much room as the longest request needs, so that refusal 9 cannot come up
    let answered = calls::unsent(session, ask, 4095, address, size, data, events, replies);
    Some((h, answered.answer))
}

// The line that `udslog` prints of a log, at the front of a lent buffer.
pub fn line_of(log: &[u8], line: &mut [u8]) -> Option<usize>
    ensures { Wrote (line_of log.now) line.old result line.new }
{
    match answer_of(log) {
        None => put_line(line, b"badlog", 0, 0, 0, b"", b""),
        Some((h, answer)) => put_answer(line, answer, replies_of(log, h)),
    }
}
