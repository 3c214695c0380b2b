// The sixteen calls, their requests into a lent buffer, and refusals 1 to 9.
#![tactic(auto)]

ghost use Rattle.std.specs.Prelude.{◌+◌, ◌≤◌, cond, [], ◌++◌, ◌≡◌, length, Ok, Err};
ghost use Rattle.rules.specs.InOrder.{judge};
ghost use Rattle.wire.specs.Refusing.{numbered};
ghost use Rattle.requests.specs.Meaning.{data_bytes};
ghost use Rattle.requests.specs.Parameters.{bit7, opening_of, head_of};
ghost use Rattle.requests.specs.Prepared.{sizes, over, prepared_of, Written, pieces_of};

use rows::{Numbers, row_of};
use wire::refusal::Refusal;

mod parameters;
pub mod rows;

// Whether data is given beside a call: absent is not empty. No Option of the bytes, since a call outlives them in the state record of `steps`.
#[derive(Clone, Copy)]
pub enum Data {
    Absent,
    Present,
}

// The calls 0 to 15 with their numbers, under the names of the Rust's services. Address, size and data stand beside it as slices.
#[derive(Clone, Copy)]
pub enum Call {
    Request(u8, Option<u8>, Data),
    DiagnosticSessionControl(u8),
    EcuReset(u8),
    SecurityAccess(u8, Data),
    TesterPresent,
    ReadMemoryByAddress,
    WriteMemoryByAddress,
    ReadDataByIdentifier(u16),
    WriteDataByIdentifier(u16),
    ReadDTCInformation(u8),
    RoutineControl(u8, u16, Data),
    RequestDownload(u8, u8),
    RequestUpload(u8, u8),
    TransferData(u8, Data),
    RequestTransferExit(Data),
    ReadDTCInformationDTC(u8),
}

// A request, worked out once: its first bytes, which of the caller's slices stand behind them, and how long it is.
#[derive(Clone, Copy)]
pub struct Prepared {
    pub sid: u8,
    // as it is sent
    pub sub: Option<u8>,
    pub head_length: u8,
    pub head: [u8; 4],
    pub memory: bool,
    pub data: Data,
    pub length: usize,
}

// "The suppressed client sets bit 7"; `quiet` says that it is this client who calls.
pub fn with_bit7(quiet: bool, sub: Option<u8>) -> Option<u8>
    ensures { result ≡ bit7 quiet sub }
{
    match sub {
        None => None,
        Some(s) => { if quiet { Some(s % 128 + 128) } else { Some(s) } }
    }
}

// How many bytes of a request stand before its slices, and these with zeros behind them: an array with a length, since there is no heap.
#[derive(Clone, Copy)]
struct Head(u8, [u8; 4]);

// SID, sub-function and the parameters that are numbers.
fn opening(sid: u8, sub: Option<u8>, numbers: Numbers) -> Head
    ensures { result ≡ head_of (opening_of sid sub numbers) }
{
    match sub {
        None => match numbers {
            Numbers::Empty => Head(1, [sid, 0, 0, 0]),
            Numbers::One(a) => Head(2, [sid, a, 0, 0]),
            Numbers::Two(a, b) => Head(3, [sid, a, b, 0]),
        },
        Some(s) => match numbers {
            Numbers::Empty => Head(2, [sid, s, 0, 0]),
            Numbers::One(a) => Head(3, [sid, s, a, 0]),
            Numbers::Two(a, b) => Head(4, [sid, s, a, b]),
        },
    }
}

// All of the bytes or none.
fn when<'a>(sent: bool, bytes: &'a [u8]) -> &'a [u8]
    ensures { result.now ≡ cond sent bytes.now [] }
{
    if sent { bytes } else { &bytes[..0] }
}

fn when_given<'a>(data: Data, bytes: &'a [u8]) -> &'a [u8]
    ensures { result.now ≡ data_bytes «data» bytes.now }
{
    match data {
        Data::Absent => &bytes[..0],
        Data::Present => bytes,
    }
}

// How long a request in four pieces is, or refusal 8 or 9. One piece that is too long alone is refused first, so that the sum does not wrap.
fn total(
    head: usize,
    address: usize,
    size: usize,
    data: usize,
    room: usize,
) -> Result<usize, Refusal>
    ensures { numbered result ≡ judge Err (sizes (head + address + size + «data») room) (Ok (head + address + size + «data»)) }
{
    if head > 4095 {
        return Err(Refusal::RequestTooLong);
    }
    if address > 4095 {
        return Err(Refusal::RequestTooLong);
    }
    if size > 4095 {
        return Err(Refusal::RequestTooLong);
    }
    if data > 4095 {
        return Err(Refusal::RequestTooLong);
    }
    let len = head + address + size + data;
    if len > 4095 {
        return Err(Refusal::RequestTooLong);
    }
    if len > room {
        return Err(Refusal::RequestRoom);
    }
    Ok(len)
}

// The request of a call, or the first refusal of 1 to 9 in document 01's order; `room` is the length of the request buffer.
pub fn prepare(
    call: Call,
    quiet: bool,
    address: &[u8],
    size: &[u8],
    data: &[u8],
    room: usize,
) -> Result<Prepared, Refusal>
    ensures { numbered result ≡ prepared_of call quiet address.now size.now «data».now room }
{
    let row = row_of(call);
    let sub = with_bit7(quiet, row.sub);
    let sent = parameters::arguments(row.takes, address, size)?;
    let opened = opening(row.sid, sub, sent.numbers);
    let head = opened.1;
    let a = when(sent.memory, address).len();
    let s = when(sent.memory, size).len();
    let d = when_given(sent.data, data).len();
    let length = total(opened.0 as usize, a, s, d, room)?;
    Ok(Prepared {
        sid: row.sid,
        sub,
        head_length: opened.0,
        head,
        memory: sent.memory,
        data: sent.data,
        length,
    })
}

// The pieces of a request, one behind the other, at the buffer's front.
fn join(buffer: &mut [u8], head: &[u8], address: &[u8], size: &[u8], data: &[u8])
    requires { length head.now + length address.now + length size.now + length «data».now ≤ length buffer.old }
    ensures { buffer.new ≡ over (head.now ++ address.now ++ size.now ++ «data».now) buffer.old }
{
    let at_size = head.len() + address.len();
    let at_data = at_size + size.len();
    wire::copy_into(buffer, 0, head);
    wire::copy_into(buffer, head.len(), address);
    wire::copy_into(buffer, at_size, size);
    wire::copy_into(buffer, at_data, data);
}

// "the request stands at the buffer's front, the rest of it keeps its bytes." Where its pieces have no room, or are longer than
// any request, the answer is false and the buffer is untouched.
pub fn write(
    buffer: &mut [u8],
    prepared: Prepared,
    address: &[u8],
    size: &[u8],
    data: &[u8],
) -> bool
    ensures { Written (pieces_of prepared address.now size.now «data».now) buffer.old result buffer.new }
{
    let bytes = prepared.head;
    let memory = prepared.memory;
    let with_data = prepared.data;
    let head = wire::part(&bytes, 0, prepared.head_length as usize);
    let a = when(memory, address);
    let s = when(memory, size);
    let d = when_given(with_data, data);
    match total(head.len(), a.len(), s.len(), d.len(), buffer.len()) {
        Ok(_) => {
            join(buffer, head, a, s, d);
            true
        }
        Err(_) => false,
    }
}
