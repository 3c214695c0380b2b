// Where the data that a positive hands out stands in the lent reply bytes.
ghost use Rattle.std.specs.Prelude.{◌≡◌};
ghost use Rattle.checks.specs.Answered.{Handed};
ghost use Rattle.checks.specs.Spans.{only, unbroken, span_of};

use crate::services::{length_bytes, rest};
use exchange::judging::head;
use exchange::types::Place;
use requests::Call;
use wire::part;

// Of a reply, behind its first .0 bytes at most .1 bytes.
#[derive(Clone, Copy)]
struct Span(usize, usize);

// n bytes, if exactly n follow SID and sub-function, and else none.
fn only(n: usize, reply: &[u8]) -> usize
    ensures { result ≡ only n reply.now }
{
    if rest(reply, 2).len() == n { n } else { 0 }
}

// Call 15: one byte behind SID and sub-function, and the whole records of four behind it; "lenient drops a broken tail".
fn unbroken(reply: &[u8]) -> usize
    ensures { result ≡ unbroken reply.now }
{
    if reply.len() < 3 {
        return 1;
    }
    (reply.len() - 3) / 4 * 4 + 1
}

// "In lenient, call 1 hands out its record only if exactly four bytes follow, call 2 its byte only if exactly one does, call 9 the first four, calls 5 and 6 all after the SID; the others as in the table."
fn hands_out(call: Call, reply: &[u8]) -> Span
    ensures { result ≡ span_of call reply.now }
{
    let all = reply.len();
    match call {
        Call::Request(_, sub, _) => Span(head(sub), all),
        Call::DiagnosticSessionControl(_) => Span(2, only(4, reply)),
        Call::EcuReset(_) => Span(2, only(1, reply)),
        Call::SecurityAccess(sub, _) => {
            if sub % 2 == 1 {
                Span(2, all)
            } else {
                Span(2, 0)
            }
        }
        Call::TesterPresent => Span(2, 0),
        Call::ReadMemoryByAddress => Span(1, all),
        Call::WriteMemoryByAddress => Span(1, all),
        Call::ReadDataByIdentifier(_) => Span(3, all),
        Call::WriteDataByIdentifier(_) => Span(3, 0),
        Call::ReadDTCInformation(_) => Span(2, 4),
        Call::RoutineControl(_, _, _) => Span(4, all),
        Call::RequestDownload(_, _) => Span(2, length_bytes(reply)),
        Call::RequestUpload(_, _) => Span(2, length_bytes(reply)),
        Call::TransferData(_, _) => Span(2, all),
        Call::RequestTransferExit(_) => Span(1, all),
        Call::ReadDTCInformationDTC(_) => Span(2, unbroken(reply)),
    }
}

// The place of the data in the reply at `place`. What would begin past the lent bytes, where no positive reply puts it, is nowhere: `at` + `skip` may pass 64 bits.
pub fn handed(call: Call, replies: &[u8], place: Place) -> Place
    ensures { Handed call replies.now place result }
{
    let at = place.at;
    let len = place.len;
    let reply = part(replies, at, len);
    let span = hands_out(call, reply);
    let skip = span.0;
    let count = span.1;
    if at > replies.len() {
        return Place::NOWHERE;
    }
    if skip > replies.len() - at {
        return Place::NOWHERE;
    }
    Place {
        at: at + skip,
        len: part(reply, skip, count).len(),
    }
}
