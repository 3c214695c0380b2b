// Replays the lists of data/ and prints how many lines of each are right. In `NAME.bin` each case stands after its length as u32, big-endian;
// `NAME.expected` has the line of each.
#![tactic(auto)]

use std::io;
use std::io::Read;
use streams::{open, read_full};
use text::put_line;
use wire::part;

// The longest data that is cut; a line has its digits, and is longer than any line of a log.
const LONGEST_DATA: usize = 9000;

const LONGEST_LINE: usize = 18048;

// At the door, in place of a limit of notices: none.
const NO_LIMIT: u16 = 65535;

// The next byte, or None at the file's end.
fn read_byte<R: Read>(file: &mut R) -> io::Result<Option<u8>> {
    let mut byte = [0u8; 1];
    if read_full(file, &mut byte)? == 0 {
        return Ok(None);
    }
    Ok(Some(byte[0]))
}

// Reads up to a newline, which is kept, or to the end of the file or of the buffer.
fn read_line<R: Read>(file: &mut R, line: &mut [u8]) -> io::Result<usize> {
    for n in 0..line.len() {
        let Some(byte) = read_byte(file)? else {
            return Ok(n);
        };
        line[n] = byte;
        if byte == b'\n' {
            return Ok(n + 1);
        }
    }
    Ok(line.len())
}

// Reads n bytes to the buffer's front, and answers whether it could.
fn read_exactly<R: Read>(file: &mut R, buffer: &mut [u8], n: usize) -> io::Result<bool> {
    if n > buffer.len() {
        return Ok(false);
    }
    Ok(read_full(file, &mut buffer[..n])? == n)
}

// Data whose bytes count up to 250 and begin again, so that a block shows where it was cut.
fn counting(data: &mut [u8]) {
    for i in 0..data.len() {
        data[i] = (i % 251) as u8;
    }
}

// A number of up to eight bytes.
fn number(bytes: &[u8]) -> u64 {
    lengths::block_length(bytes).unwrap_or(0)
}

// The data's length, the block length and the block's number, eight bytes each. The line: refusal, counter, length and bytes of the block.
fn block_line(case: &[u8], line: &mut [u8]) -> Option<usize> {
    let mut counting_data = [0u8; LONGEST_DATA];
    counting(&mut counting_data);
    let data = part(&counting_data, 0, number(part(case, 0, 8)) as usize);
    let n = number(part(case, 8, 8));
    let k = number(part(case, 16, 8));
    let block = blocks::block(data, n, k);
    match blocks::counter(data, n, k) {
        Ok(counter) => {
            put_line(
                line,
                b"block",
                0,
                counter as u64,
                block.len() as u64,
                b"",
                block,
            )
        }
        Err(refusal) => put_line(line, b"block", u8::from(refusal) as u64, 0, 0, b"", block),
    }
}

// A negative code. The line: the code and the number of its name.
fn name_line(case: &[u8], line: &mut [u8]) -> Option<usize> {
    let code = wire::byte_at(case, 0);
    put_line(
        line,
        b"name",
        code as u64,
        codes::name_number(code) as u64,
        0,
        b"",
        b"",
    )
}

// A value and a width, eight bytes each, and the wide setting. The line: refusal, length and bytes.
fn memory_line(case: &[u8], line: &mut [u8]) -> Option<usize> {
    let width = number(part(case, 8, 8)) as usize;
    let wide = wire::byte_at(case, 16) == 1;
    match wire::memory_bytes(number(part(case, 0, 8)), width, wide) {
        Ok(memory) => {
            let bytes = memory.bytes;
            let len = memory.len;
            put_line(line, b"memory", 0, len as u64, 0, b"", part(&bytes, 0, len))
        }
        Err(refusal) => put_line(line, b"memory", u8::from(refusal) as u64, 0, 0, b"", b""),
    }
}

// The call and its flags, the methods, address, size and their widths, the wide setting and data, through the door. The line: refusal,
// length and bytes of the request.
fn alfid_line(case: &[u8], line: &mut [u8]) -> Option<usize> {
    let mut request = [0u8; 4095];
    let mut answer = [0u64; 15];
    alfid_door::bintrochis_door_call_alfid(
        wire::byte_at(case, 0),
        wire::byte_at(case, 1),
        wire::u16_at(case, 2),
        number(part(case, 4, 8)),
        number(part(case, 12, 8)),
        number(part(case, 20, 8)) as usize,
        number(part(case, 28, 8)) as usize,
        wire::byte_at(case, 36) == 1,
        50,
        5000,
        0,
        NO_LIMIT,
        false,
        0,
        part(case, 37, case.len()),
        &mut request,
        b"",
        b"",
        &mut answer,
    );
    let sent = answer[14];
    put_line(
        line,
        b"alfid",
        answer[1],
        sent,
        0,
        b"",
        part(&request, 0, sent as usize),
    )
}

// A mask and records. The line: how many are selected, and these.
fn select_line(case: &[u8], line: &mut [u8]) -> Option<usize> {
    let mask = wire::byte_at(case, 0);
    let records = part(case, 1, case.len());
    let n = faults::count(mask, records);
    if n > 1000 {
        return None;
    }
    let mut chosen = [0u8; 4000];
    for k in 0..n {
        let at = faults::selected(mask, records, k).unwrap_or(usize::MAX);
        wire::copy_into(&mut chosen, k * 4, part(records, at, 4));
    }
    put_line(
        line,
        b"select",
        n as u64,
        0,
        0,
        b"",
        part(&chosen, 0, n * 4),
    )
}

// A line of the door's numbers: the detail is the last so many bytes of its number, and then the bytes.
fn told(
    line: &mut [u8],
    word: &[u8],
    answer: &[u64; 15],
    digits: usize,
    bytes: &[u8],
) -> Option<usize> {
    let detail = answer[1];
    let number = [(detail / 256 % 256) as u8, (detail % 256) as u8];
    let skipped = if digits < 2 { 2 - digits } else { 0 };
    put_line(
        line,
        word,
        answer[4],
        answer[5],
        answer[6],
        part(&number, skipped, digits),
        bytes,
    )
}

fn data_in<'a>(answer: &[u64; 15], replies: &'a [u8]) -> &'a [u8] {
    part(replies, answer[7] as usize, answer[8] as usize)
}

fn reply_in<'a>(answer: &[u64; 15], replies: &'a [u8]) -> &'a [u8] {
    part(replies, answer[9] as usize, answer[10] as usize)
}

// The line of the door's numbers, which name parts of the reply bytes.
fn answer_line(answer: &[u64; 15], replies: &[u8], line: &mut [u8]) -> Option<usize> {
    let outcome = answer[0];
    match outcome {
        0 => told(line, b"positive", answer, 0, data_in(answer, replies)),
        1 => told(line, b"suppressed", answer, 0, b""),
        2 => told(line, b"negative", answer, 1, b""),
        3 => told(line, b"timeout", answer, 0, b""),
        4 => told(line, b"disconnected", answer, 0, b""),
        5 => told(line, b"transport", answer, 2, b""),
        6 => told(line, b"deviation", answer, 1, reply_in(answer, replies)),
        7 => told(line, b"length", answer, 0, b""),
        8 => told(line, b"overflow", answer, 0, reply_in(answer, replies)),
        9 => told(line, b"refused", answer, 1, b""),
        10 => told(line, b"pendinglimit", answer, 0, b""),
        _ => None,
    }
}

// A limit of notices, two bytes, and a log, through the door. The line: the log's under that limit.
fn limit_line(case: &[u8], line: &mut [u8]) -> Option<usize> {
    let log = part(case, 2, case.len());
    let h = logs::reader::read_header(log);
    let arguments = part(log, logs::header::header_size(h), h.arguments as usize);
    let events = logs::layout::events_of(log, h);
    let replies = logs::layout::replies_of(log, h);
    let mut request = [0u8; 4095];
    let mut answer = [0u64; 15];
    let result = host::bintrochis_door_call(
        h.call,
        h.flags,
        h.value,
        h.sub,
        h.address_length,
        h.size_length,
        h.p2,
        h.star,
        h.overall,
        wire::u16_at(case, 0),
        h.version == 2,
        h.listens,
        arguments,
        &mut request,
        events,
        replies,
        &mut answer,
    );
    if result != 0 {
        return None;
    }
    answer_line(&answer, replies, line)
}

// What makes the line of a list's case.
type LineOf = fn(&[u8], &mut [u8]) -> Option<usize>;

// Whether the line of the next case is right; None where both files are read. A file that ends early gives wrong lines.
fn replay_one<R: Read, S: Read>(
    line_of: LineOf,
    cases: &mut R,
    lines: &mut S,
) -> io::Result<Option<bool>>
    requires { IsAlwaysCallable line_of }
{
    let mut head = [0u8; 4];
    let got = read_full(cases, &mut head)?;
    let mut expected = [0u8; LONGEST_LINE];
    let n = read_line(lines, &mut expected)?;
    if got == 0 && n == 0 {
        return Ok(None);
    }
    if got < 4 {
        return Ok(Some(false));
    }
    // with room for a log that is too long
    let mut case = [0u8; 131072];
    let len = wire::u32_at(&head, 0) as usize;
    if !read_exactly(cases, &mut case, len)? {
        return Ok(Some(false));
    }
    let mut line = [0u8; LONGEST_LINE];
    Ok(Some(match line_of(part(&case, 0, len), &mut line) {
        Some(m) => part(&line, 0, m) == part(&expected, 0, n),
        None => false,
    }))
}

#[derive(Clone, Copy)]
struct Tally {
    right: u64,
    wrong: u64,
}

// A proved loop has to end, and nothing says that a file does: the loop takes as many turns as no list has cases.
fn replay<R: Read, S: Read>(line_of: LineOf, cases: &mut R, lines: &mut S) -> io::Result<Tally>
    requires { IsAlwaysCallable line_of }
{
    let mut right: u64 = 0;
    let mut wrong: u64 = 0;
    for _ in 0..u32::MAX {
        match replay_one(line_of, cases, lines)? {
            Some(true) => right = right.saturating_add(1),
            Some(false) => wrong = wrong.saturating_add(1),
            None => break,
        }
    }
    Ok(Tally { right, wrong })
}

fn say(rt: &impl Print, name: &str, tally: Tally) -> io::Result<()> {
    println!(rt; "{name}: {} right, {} wrong", tally.right, tally.wrong)
}

// A list of these cases, in two files.
fn play(rt: &HostRuntime, name: &str, line_of: LineOf, cases: &[u8], lines: &[u8]) -> io::Result<()>
    requires { IsAlwaysCallable line_of }
{
    let mut cases = open(rt, cases)?;
    let mut lines = open(rt, lines)?;
    say(rt, name, replay(line_of, &mut cases, &mut lines)?)
}

fn main(rt: HostRuntime) -> io::Result<()> {
    play(
        &rt,
        "logs",
        log_line::line_of,
        b"logs.bin",
        b"logs.expected",
    )?;
    play(
        &rt,
        "listings",
        log_line::line_of,
        b"listings.bin",
        b"listings.expected",
    )?;
    play(&rt, "blocks", block_line, b"blocks.bin", b"blocks.expected")?;
    play(&rt, "names", name_line, b"names.bin", b"names.expected")?;
    play(
        &rt,
        "memory",
        memory_line,
        b"memory.bin",
        b"memory.expected",
    )?;
    play(&rt, "alfid", alfid_line, b"alfid.bin", b"alfid.expected")?;
    play(
        &rt,
        "selections",
        select_line,
        b"selections.bin",
        b"selections.expected",
    )?;
    play(&rt, "limits", limit_line, b"limits.bin", b"limits.expected")?;
    play(
        &rt,
        "addressed",
        log_line::line_of,
        b"addressed.bin",
        b"addressed.expected",
    )?;
    Ok(())
}
