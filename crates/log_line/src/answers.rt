// The line of an answer: a word for each outcome, and its detail.
ghost use Rattle.rules.specs.Lines as lines;
ghost use Rattle.exchange.specs.Meaning.{answer_of};
ghost use Rattle.text.specs.Written.{Wrote};

use exchange::error::Fault;
use exchange::types::{Answer, Outcome};
use text::put_line;
use wire::part;

// "outcome, finishing time, events read, notices, detail"; the answer's places are parts of the lent reply bytes.
pub fn put_answer(line: &mut [u8], answer: Answer, replies: &[u8]) -> Option<usize>
    ensures { Wrote (lines.line (answer_of replies.now answer)) line.old result line.new }
{
    let outcome = answer.outcome;
    let time = answer.time;
    let events = answer.events as u64;
    let notices = answer.notices as u64;
    let place = answer.reply;
    let reply = part(replies, place.at, place.len);
    match outcome {
        Outcome::PositiveResponse(data) => {
            let bytes = part(replies, data.at, data.len);
            put_line(line, b"positive", time, events, notices, b"", bytes)
        }
        Outcome::Suppressed => put_line(line, b"suppressed", time, events, notices, b"", b""),
        Outcome::NegativeResponse(code) => put_line(
            line,
            b"negative",
            time,
            events,
            notices,
            &[code],
            b"",
        ),
        Outcome::Timeout => put_line(line, b"timeout", time, events, notices, b"", b""),
        Outcome::Disconnected => put_line(line, b"disconnected", time, events, notices, b"", b""),
        Outcome::Transport(error) => put_line(
            line,
            b"transport",
            time,
            events,
            notices,
            b"",
            &error.to_be_bytes(),
        ),
        Outcome::Fault(fault) => match fault {
            Fault::ProtocolDeviation(deviation) => {
                let number = u8::from(deviation);
                put_line(line, b"deviation", time, events, notices, &[number], reply)
            }
            Fault::InvalidResponseLength => put_line(
                line, b"length", time, events, notices, b"", b"",
            ),
            Fault::BlockLengthOverflow => put_line(
                line,
                b"overflow",
                time,
                events,
                notices,
                b"",
                reply,
            ),
        },
        Outcome::Refused(number) => {
            put_line(line, b"refused", time, events, notices, &[number], b"")
        }
        Outcome::PendingLimit => put_line(line, b"pendinglimit", time, events, notices, b"", b""),
    }
}
