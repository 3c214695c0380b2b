// The call that a log asks: what the fields of its header say, and how it is made.
#![tactic(auto)]

ghost use Rattle.std.specs.Prelude.{true, cond, List, ◌≡◌, ℕ, ◌/◌, ◌%◌, ◌<◌, eqb};
ghost use Rattle.rules.specs.Calls.{Field};
ghost use Rattle.rules.specs.Logs as rules;
ghost use Rattle.rules.specs.Logs.{uses_of, fields_ok, some?};
ghost use Rattle.exchange.specs.Meaning.{option_of};
ghost use Rattle.requests.specs.declared.Data.TheVariants.{Absent, Present};
ghost use Rattle.requests.specs.Meaning.{call_from};
ghost use Rattle.logs.specs.Layout.{said};
ghost use Rattle.log_call.specs.Asking.{chosen, Asks, AskedBy, LaidIn, RecordedIn};

use calls::Ask;
use exchange::types::Channel;
use logs::header::{Header, form_in};
use logs::layout::{laid_out, suits};
use logs::reader::read_header;
use requests::{Call, Data};

// "flags u8 (1 strict, 2 server timing, 4 suppressed client, 8 T present, 16 sub-function present, call 0 only, 32 data present)"
fn flag(flags: u8, weight: u8) -> bool
    requires { 0 < weight }
    ensures { result ≡ eqb (flags / weight % 2) 1 }
{
    flags / weight % 2 == 1
}

fn sub_of(h: Header) -> Option<u8>
    ensures { option_of result ≡ some? (eqb (rules.flag 16 (said h)) 1) h.sub }
{
    if flag(h.flags, 16) { Some(h.sub) } else { None }
}

fn overall_of(h: Header) -> Option<u32>
    ensures { option_of result ≡ some? (eqb (rules.flag 8 (said h)) 1) h.overall }
{
    if flag(h.flags, 8) {
        Some(h.overall)
    } else {
        None
    }
}

// Flag 32: data present.
fn given_in(h: Header) -> Data
    ensures { result ≡ cond (eqb (rules.flag 32 (said h)) 1) Present Absent }
{
    if flag(h.flags, 32) {
        Data::Present
    } else {
        Data::Absent
    }
}

// "value u16 (SID, id, mask, counter, or compression × 256 + encryption)"; of calls 0, 9, 13 and 15 it is a byte.
fn call_of(h: Header) -> Call
    requires { fields_ok (said h) (uses_of h.call) ≡ true }
    ensures { (a s : Field) (d : List ℕ) → call_from result a s d ≡ chosen (said h) a s d }
{
    let call = h.call;
    let value = h.value;
    let sub = h.sub;
    let given = given_in(h);
    match call {
        0 => Call::Request(value as u8, sub_of(h), given),
        1 => Call::DiagnosticSessionControl(sub),
        2 => Call::EcuReset(sub),
        3 => Call::SecurityAccess(sub, given),
        4 => Call::TesterPresent,
        5 => Call::ReadMemoryByAddress,
        6 => Call::WriteMemoryByAddress,
        7 => Call::ReadDataByIdentifier(value),
        8 => Call::WriteDataByIdentifier(value),
        9 => Call::ReadDTCInformation(value as u8),
        10 => Call::RoutineControl(sub, value, given),
        11 => Call::RequestDownload((value / 256) as u8, (value % 256) as u8),
        12 => Call::RequestUpload((value / 256) as u8, (value % 256) as u8),
        13 => Call::TransferData(value as u8, given),
        14 => Call::RequestTransferExit(given),
        15 => Call::ReadDTCInformationDTC(value as u8),
        // no call: its callers turn it away (`laid_out`, and the door by its `fits`)
        _ => Call::TesterPresent,
    }
}

fn ask_for(h: Header) -> Ask
    requires { fields_ok (said h) (uses_of h.call) ≡ true }
    ensures { Asks (said h) result }
{
    let flags = h.flags;
    let call = call_of(h);
    let overall = overall_of(h);
    let form = form_in(h);
    let listens = h.listens;
    let channel = Channel { form, listens };
    Ask {
        call,
        quiet: flag(flags, 4),
        strict: flag(flags, 1),
        server: flag(flags, 2),
        overall,
        limit: None,
        channel,
    }
}

// What a header's fields ask; None where they do not suit their call.
pub fn ask_of(h: Header) -> Option<Ask>
    ensures { AskedBy (said h) result }
{
    if suits(h) { Some(ask_for(h)) } else { None }
}

// A log's header, where every test of the layout passes but that the fields suit the call; else it is no log.
pub fn laid_in(log: &[u8]) -> Option<Header>
    ensures { LaidIn log.now result }
{
    // shorter than either header; behind this the compiler knows that what it reads of a header is there
    if log.len() < 36 {
        return None;
    }
    let h = read_header(log);
    if laid_out(log, h) { Some(h) } else { None }
}

// What a log asks: its header and the call of its fields; None where it is no log.
pub fn recorded_in(log: &[u8]) -> Option<(Header, Ask)>
    ensures { RecordedIn log.now result }
{
    let h = laid_in(log)?;
    let ask = ask_of(h)?;
    Some((h, ask))
}
