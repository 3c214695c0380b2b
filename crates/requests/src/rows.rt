// One row a call: what document 01's table says of a request before address, size and data are known.
// Not in a row: the checks and the data handed out, which are functions of the reply, and a call's arguments in a log's header.
ghost use Rattle.std.specs.Prelude.{◌≡◌};
ghost use Rattle.requests.specs.Rows.{identifier, entry, row_of};

use crate::{Call, Data};
use wire::constants::{ReportType, ServiceIdentifier, ZERO_SUB_FUNCTION};

// The parameters that are numbers.
#[derive(Clone, Copy)]
pub enum Numbers {
    Empty,
    One(u8),
    Two(u8, u8),
}

// What stands behind SID and sub-function.
#[derive(Clone, Copy)]
pub enum Takes {
    // numbers, and data if it is given
    Plain(Numbers, Data),
    // a seed's record or a key, by the sub-function
    Key(u8, Data),
    // "f addr size", and data if it is given
    Memory(Data),
    // "m f addr size", by compression and encryption method
    Load(u8, u8),
}

// The call's number, its SID, the sub-function that the caller gives or the table fixes, and what it takes.
#[derive(Clone, Copy)]
pub struct Row {
    pub number: u8,
    pub sid: u8,
    pub sub: Option<u8>,
    pub takes: Takes,
}

// "Identifiers are two bytes, high first."
fn identifier(id: u16) -> Numbers
    ensures { result ≡ identifier id }
{
    Numbers::Two((id / 256) as u8, (id % 256) as u8)
}

fn entry(number: u8, sid: u8, sub: Option<u8>, takes: Takes) -> Row
    ensures { result ≡ entry number sid sub takes }
{
    Row {
        number,
        sid,
        sub,
        takes,
    }
}

// The calls and requests of document 01's table.
pub fn row_of(call: Call) -> Row
    ensures { result ≡ row_of call }
{
    let no_sub = None;
    let nothing = Takes::Plain(Numbers::Empty, Data::Absent);
    match call {
        Call::Request(sid, sub, data) => entry(0, sid, sub, Takes::Plain(Numbers::Empty, data)),
        Call::DiagnosticSessionControl(sub) => entry(
            1,
            ServiceIdentifier::DiagnosticSessionControl,
            Some(sub),
            nothing,
        ),
        Call::EcuReset(sub) => entry(2, ServiceIdentifier::EcuReset, Some(sub), nothing),
        Call::SecurityAccess(sub, data) => entry(
            3,
            ServiceIdentifier::SecurityAccess,
            Some(sub),
            Takes::Key(sub, data),
        ),
        Call::TesterPresent => entry(
            4,
            ServiceIdentifier::TesterPresent,
            Some(ZERO_SUB_FUNCTION),
            nothing,
        ),
        Call::ReadMemoryByAddress => entry(
            5,
            ServiceIdentifier::ReadMemoryByAddress,
            no_sub,
            Takes::Memory(Data::Absent),
        ),
        Call::WriteMemoryByAddress => entry(
            6,
            ServiceIdentifier::WriteMemoryByAddress,
            no_sub,
            Takes::Memory(Data::Present),
        ),
        Call::ReadDataByIdentifier(id) => entry(
            7,
            ServiceIdentifier::ReadDataByIdentifier,
            no_sub,
            Takes::Plain(identifier(id), Data::Absent),
        ),
        Call::WriteDataByIdentifier(id) => entry(
            8,
            ServiceIdentifier::WriteDataByIdentifier,
            no_sub,
            Takes::Plain(identifier(id), Data::Present),
        ),
        Call::ReadDTCInformation(mask) => entry(
            9,
            ServiceIdentifier::ReadDTCInformation,
            Some(ReportType::ReportNumberOfDTCByStatusMask),
            Takes::Plain(Numbers::One(mask), Data::Absent),
        ),
        Call::RoutineControl(sub, id, data) => entry(
            10,
            ServiceIdentifier::RoutineControl,
            Some(sub),
            Takes::Plain(identifier(id), data),
        ),
        Call::RequestDownload(c, e) => entry(
            11,
            ServiceIdentifier::RequestDownload,
            no_sub,
            Takes::Load(c, e),
        ),
        Call::RequestUpload(c, e) => entry(
            12,
            ServiceIdentifier::RequestUpload,
            no_sub,
            Takes::Load(c, e),
        ),
        Call::TransferData(counter, data) => entry(
            13,
            ServiceIdentifier::TransferData,
            no_sub,
            Takes::Plain(Numbers::One(counter), data),
        ),
        Call::RequestTransferExit(data) => entry(
            14,
            ServiceIdentifier::RequestTransferExit,
            no_sub,
            Takes::Plain(Numbers::Empty, data),
        ),
        Call::ReadDTCInformationDTC(mask) => entry(
            15,
            ServiceIdentifier::ReadDTCInformation,
            Some(ReportType::ReportDTCByStatusMask),
            Takes::Plain(Numbers::One(mask), Data::Absent),
        ),
    }
}
