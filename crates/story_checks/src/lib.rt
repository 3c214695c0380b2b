// The checks behind a positive, each as it was passed or failed. What a reply was judged to be is known already: the answer says which check failed,
// and those before it in the call's row passed.
#![tactic(auto)]

ghost use Rattle.std.specs.Prelude.{[], ◌++◌, map, ◌≡◌, eqb};
ghost use Rattle.rules.specs.After.{reset_length};
ghost use Rattle.rules.specs.Lines.{ascii, decimal};
ghost use Rattle.exchange.specs.Meaning.{fault_of, outcome_of};
ghost use Rattle.telling.specs.Checks.{wanted_by, verdict, check_line, lenient_line, is_positive, too_wide, overflows, lenient_text};
ghost use Rattle.text.specs.Written.{Adds};
ghost use Rattle.story_checks.specs.Coded.{number, coded, wanted_of, failed_in, finding, told_by, transferred, security_code, codes_of, checks_by};

use exchange::error::{Fault, ProtocolDeviation};
use exchange::types::Outcome;
use requests::{Call, Data};
use text::{append, append_decimal};
use wire::byte_at;

// A check behind a positive, by what it wants of the reply.
#[derive(Clone, Copy)]
enum Check {
    // "(minimum, maximum)": so many bytes or more, or so many
    AtLeast(usize),
    Exactly(usize),
    // of call 15: 3 bytes and whole records of four
    WholeRecords,
    Identifier,
    Routine,
    Counter,
    // of calls 11 and 12
    LengthFormat,
    HalfByte,
    BlockLength,
    Overflow,
    // of call 6
    Format,
    Address,
    Size,
    // of call 5
    Memory,
}

// "2 (3, 3) or (2, 2)"
fn reset_length(sub: u8) -> usize
    ensures { result ≡ reset_length sub }
{
    if sub % 128 == 4 { 3 } else { 2 }
}

// "13 (3 or 2, none)"
fn transfer_length(given: Data) -> usize
    ensures { result ≡ transferred given }
{
    match given {
        Data::Absent => 3,
        Data::Present => 2,
    }
}

// "3 (3, none) or (2, 2)"
fn security_length(sub: u8) -> Check
    ensures { number result ≡ security_code sub }
{
    if sub % 2 == 1 {
        Check::AtLeast(3)
    } else {
        Check::Exactly(2)
    }
}

// What a check wants; a length is told with its number.
#[tactic(auto, unfolding(telling::specs::Checks::wanted_by))]
fn words_of(check: Check) -> &'static [u8]
    ensures { result.now ≡ wanted_by (number check) }
{
    match check {
        Check::WholeRecords => b"a length of 3 plus a multiple of 4",
        Check::Identifier => b"the identifier asked for",
        Check::Routine => b"the routine asked for",
        Check::Counter => b"the counter sent",
        Check::LengthFormat => b"a block length of one byte or more",
        Check::HalfByte => b"a low half byte of 0",
        Check::BlockLength => b"a block length of 3 or more",
        Check::Overflow => b"a block length of at most 64 bits",
        Check::Format => b"the format byte sent",
        Check::Address => b"the address sent",
        Check::Size => b"the size sent",
        Check::Memory => b"as many bytes as asked for",
        Check::AtLeast(_) | Check::Exactly(_) => b"a length",
    }
}

fn put_length(text: &mut [u8], at: usize, least: usize) -> usize
    ensures { Adds (ascii "length " ++ decimal least) text.old at result text.new }
{
    let a = append(text, at, b"length ");
    append_decimal(text, a, least as u64)
}

fn put_wanted(text: &mut [u8], at: usize, check: Check) -> usize
    ensures { Adds (wanted_of (number check)) text.old at result text.new }
{
    match check {
        Check::AtLeast(least) => {
            let a = put_length(text, at, least);
            append(text, a, b" or more")
        }
        Check::Exactly(length) => put_length(text, at, length),
        _ => append(text, at, words_of(check)),
    }
}

fn verdict(passed: bool) -> &'static [u8]
    ensures { result.now ≡ verdict passed }
{
    if passed {
        b": passed.\n"
    } else {
        b": failed.\n"
    }
}

fn put_check(text: &mut [u8], at: usize, check: Check, passed: bool) -> usize
    ensures { Adds (check_line (wanted_of (number check)) passed) text.old at result text.new }
{
    let a = append(text, at, b"Check, ");
    let b = put_wanted(text, a, check);
    append(text, b, verdict(passed))
}

// Whether a check finds this fault: both lengths of call 15 find the same.
fn finds(check: Check, wrong: Fault) -> bool
    ensures { result ≡ eqb (finding (number check)) (coded (fault_of wrong)) }
{
    match wrong {
        Fault::InvalidResponseLength => false,
        Fault::BlockLengthOverflow => matches!(check, Check::Overflow),
        Fault::ProtocolDeviation(deviation) => match deviation {
            ProtocolDeviation::InvalidResponseLength(least, None) => match check {
                Check::AtLeast(n) => n == least,
                Check::WholeRecords => least == 3,
                _ => false,
            },
            ProtocolDeviation::InvalidResponseLength(length, Some(_)) => {
                matches!(check, Check::Exactly(n) if n == length)
            }
            ProtocolDeviation::InvalidDataIdentifier => matches!(check, Check::Identifier),
            ProtocolDeviation::InvalidRoutineIdentifier => matches!(check, Check::Routine),
            ProtocolDeviation::InvalidBlockSequenceCounter => matches!(check, Check::Counter),
            ProtocolDeviation::InvalidLengthFormat => matches!(check, Check::LengthFormat),
            ProtocolDeviation::InvalidLengthFormatIdentifier => matches!(check, Check::HalfByte),
            ProtocolDeviation::InvalidMaxNumberOfBlockLength => {
                matches!(check, Check::BlockLength)
            }
            ProtocolDeviation::InvalidAddressAndLengthFormatIdentifier => {
                matches!(check, Check::Format)
            }
            ProtocolDeviation::InvalidMemoryAddress => matches!(check, Check::Address),
            ProtocolDeviation::InvalidMemorySize => matches!(check, Check::Size),
            ProtocolDeviation::InvalidMemoryRecordLength => matches!(check, Check::Memory),
            _ => false,
        },
    }
}

// Whether this check failed.
fn is_failed(check: Check, after: Outcome) -> bool
    ensures { result ≡ eqb (finding (number check)) (failed_in (outcome_of [] after)) }
{
    match after {
        Outcome::Fault(wrong) => finds(check, wrong),
        _ => false,
    }
}

// The checks of a row, as far as the one that failed.
fn put_row(text: &mut [u8], at: usize, checks: &[Check], after: Outcome) -> usize
    ensures { Adds (told_by (map number checks.now) (failed_in (outcome_of [] after))) text.old at result text.new }
{
    let mut n = at;
    for check in checks {
        if is_failed(*check, after) {
            return put_check(text, n, *check, false);
        }
        n = put_check(text, n, *check, true);
    }
    n
}

// The lengths without which lenient could not read the data.
fn put_lengths(text: &mut [u8], at: usize, passed: bool) -> usize
    ensures { Adds (lenient_line passed) text.old at result text.new }
{
    let a = append(text, at, b"Check, the lengths that lenient needs");
    append(text, a, verdict(passed))
}

fn is_positive(outcome: Outcome) -> bool
    ensures { result ≡ is_positive (outcome_of [] outcome) }
{
    matches!(outcome, Outcome::PositiveResponse(_))
}

fn is_overflow(outcome: Outcome) -> bool
    ensures { result ≡ overflows (outcome_of [] outcome) }
{
    matches!(outcome, Outcome::Fault(Fault::BlockLengthOverflow))
}

// Lenient makes only those checks without which it could not read the data.
fn put_lenient(text: &mut [u8], at: usize, after: Outcome) -> usize
    ensures { Adds (lenient_text (outcome_of [] after)) text.old at result text.new }
{
    if is_overflow(after) {
        let a = put_lengths(text, at, true);
        return put_check(text, a, Check::Overflow, false);
    }
    put_lengths(text, at, is_positive(after))
}

// Strict makes those of the call, by the lengths of address and size and the number of bytes that a reply to calls 11 and 12 announces.
#[tactic(auto, unfolding(crate::specs::Coded::codes_of))]
fn put_strict(
    text: &mut [u8],
    at: usize,
    call: Call,
    address: u8,
    size: u8,
    announced: u8,
    after: Outcome,
) -> usize
    ensures { Adds (told_by (codes_of call address size announced) (failed_in (outcome_of [] after))) text.old at result text.new }
{
    let fields = 2 + address as usize + size as usize;
    let bytes = announced as usize + 2;
    match call {
        Call::Request(_, _, _) | Call::RequestTransferExit(_) => put_row(text, at, &[], after),
        Call::DiagnosticSessionControl(_) | Call::ReadDTCInformation(_) => {
            put_row(text, at, &[Check::Exactly(6)], after)
        }
        Call::EcuReset(sub) => put_row(text, at, &[Check::Exactly(reset_length(sub))], after),
        Call::SecurityAccess(sub, _) => put_row(text, at, &[security_length(sub)], after),
        Call::TesterPresent => put_row(text, at, &[Check::Exactly(2)], after),
        Call::ReadMemoryByAddress => {
            put_row(text, at, &[Check::Memory, Check::AtLeast(2)], after)
        }
        Call::WriteMemoryByAddress => {
            let row = [
                Check::Exactly(fields),
                Check::Format,
                Check::Address,
                Check::Size,
            ];
            put_row(text, at, &row, after)
        }
        Call::ReadDataByIdentifier(_) => {
            let row = [Check::AtLeast(4), Check::AtLeast(3), Check::Identifier];
            put_row(text, at, &row, after)
        }
        Call::WriteDataByIdentifier(_) => {
            let row = [Check::Exactly(3), Check::AtLeast(3), Check::Identifier];
            put_row(text, at, &row, after)
        }
        Call::RoutineControl(_, _, _) => {
            put_row(text, at, &[Check::AtLeast(4), Check::Routine], after)
        }
        Call::RequestDownload(_, _) | Call::RequestUpload(_, _) => {
            let row = [
                Check::AtLeast(2),
                Check::HalfByte,
                Check::LengthFormat,
                Check::Exactly(bytes),
                Check::BlockLength,
                Check::Overflow,
            ];
            put_row(text, at, &row, after)
        }
        Call::TransferData(_, given) => {
            let row = [
                Check::AtLeast(transfer_length(given)),
                Check::AtLeast(2),
                Check::Counter,
            ];
            put_row(text, at, &row, after)
        }
        Call::ReadDTCInformationDTC(_) => {
            put_row(text, at, &[Check::WholeRecords, Check::AtLeast(3)], after)
        }
    }
}

// The checks of a reply that was heard as a positive, and what became of it.
pub fn put_checks(
    text: &mut [u8],
    at: usize,
    strict: bool,
    call: Call,
    address: u8,
    size: u8,
    reply: &[u8],
    heard: Outcome,
    after: Outcome,
) -> usize
    ensures { Adds (checks_by strict call address size reply.now (outcome_of [] heard) (outcome_of [] after))
        text.old at result text.new }
{
    if !is_positive(heard) {
        return at;
    }
    if !strict {
        return put_lenient(text, at, after);
    }
    put_strict(text, at, call, address, size, byte_at(reply, 1) / 16, after)
}
