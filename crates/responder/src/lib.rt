// Document 02, request Five: the server end. "it takes a request and a small store .. and writes a reply, or stays silent under suppression."
// First it decides, and looks only; then it says the reply; and what was asked to be written is written last, where the reply has room.
#![tactic(auto)]

ghost use Rattle.std.specs.Prelude.{◌≡◌, ◌++◌, get_or};
ghost use Rattle.bench.specs.Stores.{store_of, counted};
ghost use Rattle.responder.specs.declared.Decision.TheVariants.{WriteRecord};
ghost use Rattle.responder.specs.Decided.{meaning, judged_as, functional_of, Unwritten, Written, Decides};
ghost use Rattle.responder.specs.Responding.{Puts, Responds};

use stores::{Place, memory_of, record_of};
use wire::constants::{
    NEGATIVE_RESPONSE, ReportType, ResetType, ServiceIdentifier, SessionType, ZERO_SUB_FUNCTION,
};
use wire::error::NegativeResponseCode;
use wire::refusal::Refusal;
use wire::{byte_at, copy_into, part, u16_at};

// What is decided of a request: a negative's code, silence, or a service's positive and where its data stands in the store.
// A negative code is a raw byte by "Wire enums with a NonStandard case become raw bytes and constants".
#[derive(Clone, Copy)]
enum Decision {
    Refuse(u8),
    KeepSilent,
    Session,
    Reset,
    Present,
    Count,
    ReadRecord(Place),
    WriteRecord(usize),
    ReadMemory(Place),
}

// A service with a sub-function, of these values and in a request of this length.
#[tactic(auto, unfolding(crate::specs::Decided::functional_of))]
fn with_sub_function(
    request: &[u8],
    least: u8,
    most: u8,
    len: usize,
    positive: Decision,
) -> Decision
    ensures { result ≡ functional_of request.now least most len positive }
{
    if request.len() < 2 {
        return Decision::Refuse(NegativeResponseCode::IncorrectMessageLengthOrInvalidFormat);
    }
    let sub = request[1];
    if sub % 128 < least || sub % 128 > most {
        return Decision::Refuse(NegativeResponseCode::SubFunctionNotSupported);
    }
    if request.len() != len {
        return Decision::Refuse(NegativeResponseCode::IncorrectMessageLengthOrInvalidFormat);
    }
    if sub >= 128 {
        return Decision::KeepSilent;
    }
    positive
}

// "Stored records have at least one byte", so that a reply has one behind the identifier.
fn read_record(store: &[u8], request: &[u8]) -> Decision
    ensures { (meaning store.now request.now result ≡ judged_as store.now request.now 0x22) × Unwritten result }
{
    if request.len() != 3 {
        return Decision::Refuse(NegativeResponseCode::IncorrectMessageLengthOrInvalidFormat);
    }
    let Some(place) = record_of(store, u16_at(request, 1)) else {
        return Decision::Refuse(NegativeResponseCode::RequestOutOfRange);
    };
    if place.size > 4092 {
        return Decision::Refuse(NegativeResponseCode::ResponseTooLong);
    }
    Decision::ReadRecord(place)
}

// "exact length (for 2E of a known identifier only)"
fn write_record(store: &[u8], request: &[u8]) -> Decision
    ensures { (meaning store.now request.now result ≡ judged_as store.now request.now 0x2e) × Written store.now request.now result }
{
    if request.len() < 4 {
        return Decision::Refuse(NegativeResponseCode::IncorrectMessageLengthOrInvalidFormat);
    }
    let Some(place) = record_of(store, u16_at(request, 1)) else {
        return Decision::Refuse(NegativeResponseCode::RequestOutOfRange);
    };
    if request.len() - 3 != place.size {
        return Decision::Refuse(NegativeResponseCode::IncorrectMessageLengthOrInvalidFormat);
    }
    Decision::WriteRecord(place.at)
}

fn read_memory(store: &[u8], request: &[u8]) -> Decision
    ensures { (meaning store.now request.now result ≡ judged_as store.now request.now 0x23) × Unwritten result }
{
    if request.len() < 4 {
        return Decision::Refuse(NegativeResponseCode::IncorrectMessageLengthOrInvalidFormat);
    }
    let format = request[1];
    let address = (format % 16) as usize;
    let size = (format / 16) as usize;
    if request.len() != 2 + address + size {
        return Decision::Refuse(NegativeResponseCode::IncorrectMessageLengthOrInvalidFormat);
    }
    if address < 1 || size < 1 {
        return Decision::Refuse(NegativeResponseCode::RequestOutOfRange);
    }
    let (address, size) = request[2..].split_at(address);
    let Some(place) = memory_of(store, address, size) else {
        return Decision::Refuse(NegativeResponseCode::RequestOutOfRange);
    };
    if place.size > 4094 {
        return Decision::Refuse(NegativeResponseCode::ResponseTooLong);
    }
    Decision::ReadMemory(place)
}

// "Checks in order: service, .."; "An empty request gets no reply."
fn decide(store: &[u8], request: &[u8]) -> Decision
    ensures { Decides store.now request.now result }
{
    if request.is_empty() {
        return Decision::KeepSilent;
    }
    match request[0] {
        ServiceIdentifier::DiagnosticSessionControl => with_sub_function(
            request,
            SessionType::Default,
            SessionType::SafetySystemDiagnostic,
            2,
            Decision::Session,
        ),
        ServiceIdentifier::EcuReset => with_sub_function(
            request,
            ResetType::HardReset,
            ResetType::EnableRapidPowerShutDown,
            2,
            Decision::Reset,
        ),
        ServiceIdentifier::TesterPresent => with_sub_function(
            request,
            ZERO_SUB_FUNCTION,
            ZERO_SUB_FUNCTION,
            2,
            Decision::Present,
        ),
        ServiceIdentifier::ReadDTCInformation => with_sub_function(
            request,
            ReportType::ReportNumberOfDTCByStatusMask,
            ReportType::ReportNumberOfDTCByStatusMask,
            3,
            Decision::Count,
        ),
        ServiceIdentifier::ReadDataByIdentifier => read_record(store, request),
        ServiceIdentifier::WriteDataByIdentifier => write_record(store, request),
        ServiceIdentifier::ReadMemoryByAddress => read_memory(store, request),
        _ => Decision::Refuse(NegativeResponseCode::ServiceNotSupported),
    }
}

// The reply at the buffer's front, `head` and then `rest`: "a reply buffer shorter than the reply is refused with 13, nothing written".
fn put(reply: &mut [u8], head: &[u8], rest: &[u8]) -> Result<Option<usize>, Refusal>
    ensures { Puts (head.now ++ rest.now) reply.old result reply.new }
{
    if head.len() > reply.len() || rest.len() > reply.len() - head.len() {
        return Err(Refusal::ReplyRoom);
    }
    copy_into(reply, 0, head);
    copy_into(reply, head.len(), rest);
    Ok(Some(head.len() + rest.len()))
}

// How many faults the request's mask selects, as far as two bytes say it.
fn count(store: &[u8], request: &[u8]) -> u16
    ensures { result ≡ counted (store_of store.now) (get_or request.now 2 0) }
{
    let faults = part(
        store,
        u16_at(store, 32) as usize,
        u16_at(store, 30) as usize * 4,
    );
    faults::count(byte_at(request, 2), faults).min(65535) as u16
}

// "the record's bytes become the request's, exactly where 6E id is written."
fn write(
    store: &mut [u8],
    at: usize,
    request: &[u8],
    reply: &mut [u8],
) -> Result<Option<usize>, Refusal>
    requires { Decides store.old request.now (WriteRecord at) }
    ensures { Responds store.old request.now reply.old result store.new reply.new }
{
    if reply.len() < 3 {
        return Err(Refusal::ReplyRoom);
    }
    copy_into(store, at, part(request, 3, request.len()));
    put(
        reply,
        &[0x6e, byte_at(request, 1), byte_at(request, 2)],
        b"",
    )
}

// Says what was decided.
fn answer(
    store: &mut [u8],
    request: &[u8],
    decision: Decision,
    reply: &mut [u8],
) -> Result<Option<usize>, Refusal>
    requires { Decides store.old request.now decision }
    ensures { Responds store.old request.now reply.old result store.new reply.new }
{
    let sid = byte_at(request, 0);
    let sub = byte_at(request, 1);
    let low = byte_at(request, 2);
    match decision {
        Decision::Refuse(code) => put(reply, &[NEGATIVE_RESPONSE, sid, code], b""),
        Decision::KeepSilent => Ok(None),
        Decision::Session => put(reply, &[0x50, sub % 128], part(store, 4, 4)),
        // "+1 exactly if s = 4"
        Decision::Reset if sub % 128 == 4 => put(reply, &[0x51, 4], &[byte_at(store, 8)]),
        Decision::Reset => put(reply, &[0x51, sub % 128], b""),
        Decision::Present => put(reply, &[0x7e, 0x00], b""),
        Decision::Count => {
            let n = count(store, request).to_be_bytes();
            put(
                reply,
                &[0x59, 0x01],
                &[byte_at(store, 2), byte_at(store, 3), n[0], n[1]],
            )
        }
        Decision::ReadRecord(place) => put(
            reply,
            &[0x62, sub, low],
            part(store, place.at, place.size),
        ),
        Decision::WriteRecord(at) => write(store, at, request, reply),
        Decision::ReadMemory(place) => put(reply, &[0x63], part(store, place.at, place.size)),
    }
}

// How long the reply is that stands at the buffer's front; or None, silence. Refusal 13: the buffer has no room for the reply.
// The store is any bytes: of a damaged one the responder makes what it can, and what is not there is unknown.
pub fn respond(store: &mut [u8], request: &[u8], reply: &mut [u8]) -> Result<Option<usize>, Refusal>
    ensures { Responds store.old request.now reply.old result store.new reply.new }
{
    let decision = decide(store, request);
    answer(store, request, decision, reply)
}
