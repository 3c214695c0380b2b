// The checks of each service, strict and lenient: document 01's "Checks after the positive, in order". `reply` is the whole reply.
ghost use Rattle.std.specs.Prelude.{◌≤◌, ◌<◌, ◌^◌, ◌&&◌, [], ◌∷◌, ◌≡◌, leb, ltb, eqb, length, get_or, drop};
ghost use Rattle.std.proofs.Math.Option.{none, some};
ghost use Rattle.rules.specs.After.{most, bounds, at_least, strictly, transfer_length, length_bytes, block_length, loading, service_checks};
ghost use Rattle.rules.specs.Answers.{overflow};
ghost use Rattle.rules.specs.Bytes.{value, u16_at, same};
ghost use Rattle.rules.specs.Calls.{given, read_memory, write_memory, fault_count, fault_list, routine};
ghost use Rattle.rules.specs.InOrder.{unless, judge, in_strict};
ghost use Rattle.exchange.specs.Meaning.{option_of, deviation_of, verdict_of, first_of};
ghost use Rattle.requests.specs.Meaning.{data_of};
ghost use Rattle.checks.specs.Answered.{asked};

use exchange::error::{Fault, ProtocolDeviation};
use exchange::judging::length_error;
use lengths::{block_length, record_length_is};
use requests::{Call, Data};
use wire::{byte_at, part, u16_at};

// What is left behind the first `from` bytes.
pub fn rest<'a>(bytes: &'a [u8], from: usize) -> &'a [u8]
    ensures { result.now ≡ drop from bytes.now }
{
    part(bytes, from, bytes.len())
}

// `==`, in the word of the definition.
fn same(a: &[u8], b: &[u8]) -> bool
    ensures { result ≡ same a.now b.now }
{
    a == b
}

fn within(len: usize, minimum: usize, maximum: Option<usize>) -> bool
    ensures { result ≡ (leb minimum len && most (option_of maximum) len) }
{
    if len < minimum {
        return false;
    }
    match maximum {
        None => true,
        Some(n) => len <= n,
    }
}

// "Strict bounds of total length"
fn validate_response_length(
    strict: bool,
    reply: &[u8],
    minimum: usize,
    maximum: Option<usize>,
) -> Result<(), Fault>
    ensures { verdict_of result ≡ first_of (bounds strict minimum (option_of maximum) reply.now ∷ []) }
{
    if strict && !within(reply.len(), minimum, maximum) {
        return Err(length_error(strict, minimum, maximum));
    }
    Ok(())
}

// "Both modes then": so many bytes in all. "Strict echoes": whether they repeat what the request has.
fn echoed(
    strict: bool,
    needed: usize,
    repeats: bool,
    deviation: ProtocolDeviation,
    reply: &[u8],
) -> Result<(), Fault>
    ensures { verdict_of result ≡ first_of (at_least strict needed reply.now ∷ unless (in_strict strict repeats) (deviation_of deviation) ∷ []) }
{
    if reply.len() < needed {
        return Err(length_error(strict, needed, None));
    }
    if strict && !repeats {
        return Err(Fault::ProtocolDeviation(deviation));
    }
    Ok(())
}

// "Call 5 strict: record length other than M, deviation 15; then empty, (2, none)."
fn read_memory_by_address(strict: bool, size: &[u8], reply: &[u8]) -> Result<(), Fault>
    ensures { verdict_of result ≡ first_of (service_checks strict (read_memory (given []) (given size.now)) reply.now) }
{
    if strict && !record_length_is(size, rest(reply, 1).len()) {
        return Err(Fault::ProtocolDeviation(ProtocolDeviation::InvalidMemoryRecordLength));
    }
    if strict && reply.len() < 2 {
        return Err(length_error(strict, 2, None));
    }
    Ok(())
}

// "6 (2 + both lengths, same)" .. "6 deviations 12, 13, 14 in that order"
fn write_memory_by_address(
    strict: bool,
    address: &[u8],
    size: &[u8],
    reply: &[u8],
) -> Result<(), Fault>
    requires { (length address.now ≤ 15) × (length size.now ≤ 15) }
    ensures { verdict_of result ≡ first_of (service_checks strict (write_memory (given address.now) (given size.now) []) reply.now) }
{
    let total = 2 + address.len() + size.len();
    if strict && !within(reply.len(), total, Some(total)) {
        return Err(length_error(strict, total, Some(total)));
    }
    if strict && byte_at(reply, 1) as usize != size.len() * 16 + address.len() {
        return Err(Fault::ProtocolDeviation(
            ProtocolDeviation::InvalidAddressAndLengthFormatIdentifier,
        ));
    }
    if strict && !same(part(reply, 2, address.len()), address) {
        return Err(Fault::ProtocolDeviation(ProtocolDeviation::InvalidMemoryAddress));
    }
    if strict && !same(rest(rest(reply, 2), address.len()), size) {
        return Err(Fault::ProtocolDeviation(ProtocolDeviation::InvalidMemorySize));
    }
    Ok(())
}

// "7 and 8 need two bytes after the SID, else (3, none)" .. "7 and 8 deviation 5"
fn identified(
    strict: bool,
    minimum: usize,
    maximum: Option<usize>,
    id: u16,
    reply: &[u8],
) -> Result<(), Fault>
    ensures { verdict_of result ≡ first_of
        (bounds strict minimum (option_of maximum) reply.now ∷
        at_least strict 3 reply.now ∷
        strictly strict (eqb (u16_at reply.now 1) id) 5 ∷ []) }
{
    validate_response_length(strict, reply, minimum, maximum)?;
    let repeats = u16_at(reply, 1) == id;
    echoed(
        strict,
        3,
        repeats,
        ProtocolDeviation::InvalidDataIdentifier,
        reply,
    )
}

// "9 four, strict exactly four, else (6, 6)"
fn read_dtc_information(strict: bool, reply: &[u8]) -> Result<(), Fault>
    ensures { verdict_of result ≡ first_of (service_checks strict (fault_count 0) reply.now) }
{
    if reply.len() < 6 {
        return Err(length_error(strict, 6, Some(6)));
    }
    if strict && reply.len() != 6 {
        return Err(length_error(strict, 6, Some(6)));
    }
    Ok(())
}

// Call 15: "total length must be 3 plus a multiple of 4, else deviation 8 (3, none)"; "fewer than one byte after the sub-function is a length outcome"
fn read_dtc_information_dtc(strict: bool, reply: &[u8]) -> Result<(), Fault>
    ensures { verdict_of result ≡ first_of (service_checks strict (fault_list 0) reply.now) }
{
    if strict && reply.len() % 4 != 3 {
        return Err(length_error(strict, 3, None));
    }
    if reply.len() < 3 {
        return Err(length_error(strict, 3, None));
    }
    Ok(())
}

// "10 two after the sub-function, else (4, none)" .. "10 deviation 6"
fn routine_control(strict: bool, id: u16, reply: &[u8]) -> Result<(), Fault>
    ensures { verdict_of result ≡ first_of (service_checks strict (routine 0 id none) reply.now) }
{
    let repeats = u16_at(reply, 2) == id;
    echoed(
        strict,
        4,
        repeats,
        ProtocolDeviation::InvalidRoutineIdentifier,
        reply,
    )
}

// "13 one, else (2, none)" .. "13 deviation 7"
fn transfer_data(strict: bool, minimum: usize, counter: u8, reply: &[u8]) -> Result<(), Fault>
    ensures { verdict_of result ≡ first_of
        (bounds strict minimum none reply.now ∷
        at_least strict 2 reply.now ∷
        strictly strict (eqb (get_or reply.now 1 0) counter) 7 ∷ []) }
{
    validate_response_length(strict, reply, minimum, None)?;
    let repeats = byte_at(reply, 1) == counter;
    echoed(
        strict,
        2,
        repeats,
        ProtocolDeviation::InvalidBlockSequenceCounter,
        reply,
    )
}

// "strict value under 3, deviation 11; value above 2^64 − 1, overflow"
fn loaded(strict: bool, bytes: &[u8]) -> Result<(), Fault>
    ensures { verdict_of result ≡ first_of (strictly strict (leb 3 (value bytes.now)) 11 ∷ unless (ltb (value bytes.now) (2 ^ 64)) overflow ∷ []) }
{
    match block_length(bytes) {
        None => Err(Fault::BlockLengthOverflow),
        Some(v) => {
            if strict && v < 3 {
                return Err(Fault::ProtocolDeviation(
                    ProtocolDeviation::InvalidMaxNumberOfBlockLength,
                ));
            }
            Ok(())
        }
    }
}

// The number of bytes that spell the block length, n of document 01.
pub fn length_bytes(reply: &[u8]) -> usize
    ensures { (result ≡ length_bytes reply.now) × (result < 16) }
{
    byte_at(reply, 1) as usize / 16
}

// "Calls 11 and 12: empty (2, none); strict low nibble not 0, deviation 10; strict n = 0, deviation 9; fewer than n bytes, or in strict more, (n + 2, n + 2)"
fn request_download_upload(strict: bool, reply: &[u8]) -> Result<(), Fault>
    ensures { verdict_of result ≡ first_of (loading strict reply.now (length_bytes reply.now) (value (block_length reply.now))) }
{
    if reply.len() < 2 {
        return Err(length_error(strict, 2, None));
    }
    if strict && byte_at(reply, 1) % 16 != 0 {
        return Err(Fault::ProtocolDeviation(ProtocolDeviation::InvalidLengthFormatIdentifier));
    }
    let n = length_bytes(reply);
    if strict && n == 0 {
        return Err(Fault::ProtocolDeviation(ProtocolDeviation::InvalidLengthFormat));
    }
    if reply.len() < n + 2 {
        return Err(length_error(strict, n + 2, Some(n + 2)));
    }
    if strict && reply.len() > n + 2 {
        return Err(length_error(strict, n + 2, Some(n + 2)));
    }
    loaded(strict, part(reply, 2, n))
}

// "13 (3 or 2, none)": the least length of a transfer's reply, by whether the request had data.
fn transfer_length(data: Data) -> usize
    ensures { result ≡ transfer_length (data_of «data» []) }
{
    match data {
        Data::Absent => 3,
        Data::Present => 2,
    }
}

// The checks of a call; of an address or a size the first fifteen bytes count, and no request has more (refusals 2 and 3).
pub fn verdict(
    strict: bool,
    call: Call,
    address: &[u8],
    size: &[u8],
    reply: &[u8],
) -> Result<(), Fault>
    ensures { verdict_of result ≡ first_of (service_checks strict (asked call address.now size.now) reply.now) }
{
    let address = part(address, 0, 15);
    let size = part(size, 0, 15);
    match call {
        Call::Request(_, _, _) => Ok(()),
        Call::DiagnosticSessionControl(_) => validate_response_length(strict, reply, 6, Some(6)),
        Call::EcuReset(sub) => {
            if sub % 128 == 4 {
                validate_response_length(strict, reply, 3, Some(3))
            } else {
                validate_response_length(strict, reply, 2, Some(2))
            }
        }
        Call::SecurityAccess(sub, _) => {
            if sub % 2 == 1 {
                validate_response_length(strict, reply, 3, None)
            } else {
                validate_response_length(strict, reply, 2, Some(2))
            }
        }
        Call::TesterPresent => validate_response_length(strict, reply, 2, Some(2)),
        Call::ReadMemoryByAddress => read_memory_by_address(strict, size, reply),
        Call::WriteMemoryByAddress => write_memory_by_address(strict, address, size, reply),
        Call::ReadDataByIdentifier(id) => identified(strict, 4, None, id, reply),
        Call::WriteDataByIdentifier(id) => identified(strict, 3, Some(3), id, reply),
        Call::ReadDTCInformation(_) => read_dtc_information(strict, reply),
        Call::RoutineControl(_, id, _) => routine_control(strict, id, reply),
        Call::RequestDownload(_, _) => request_download_upload(strict, reply),
        Call::RequestUpload(_, _) => request_download_upload(strict, reply),
        Call::TransferData(counter, data) => {
            transfer_data(strict, transfer_length(data), counter, reply)
        }
        Call::RequestTransferExit(_) => Ok(()),
        Call::ReadDTCInformationDTC(_) => read_dtc_information_dtc(strict, reply),
    }
}
