// From a request line of `udsbench` to the line that it gets.
#![tactic(auto)]

ghost use Rattle.std.specs.Prelude.{◌≡◌, true, ◌*◌, ◌/◌, ◌%◌, ◌≤◌, ◌<◌, length, take, replicate};
ghost use Rattle.bench.specs.Talk.{unended, space_at, answered, to_line};
ghost use Rattle.bench.specs.Responder as bench;
ghost use Rattle.responder.specs.Responding.{Response};
ghost use Rattle.text.specs.Written.{Put};
ghost use Rattle.bench_line.specs.Answered.{nibble_of, room_of, room_behind, told, Reads, Asks, Answers, Wrote};

use responder::respond;
use text::{append, append_hex};
use wire::part;
use wire::refusal::Refusal;

// A buffer of so many bytes has room for every line: a reply of 4,095 bytes in hex, and the newline.
pub const LONGEST: usize = 8191;

// What a hex digit of either case stands for; every other character for nothing.
fn nibble(c: u8) -> Option<u8>
    ensures { result ≡ nibble_of c }
{
    match c {
        b'0'..=b'9' => Some(c - b'0'),
        b'a'..=b'f' => Some(c - b'a' + 10),
        b'A'..=b'F' => Some(c - b'A' + 10),
        _ => None,
    }
}

// The bytes of pairs of hex digits, at the front of `request`, and how many they are. None: a character is no digit.
fn read_hex(digits: &[u8], request: &mut [u8]) -> Option<usize>
    requires { (length digits.now % 2 ≡ 0) × (length digits.now ≤ length request.old * 2) }
    ensures { Reads digits.now result request.new }
{
    let n = digits.len() / 2;
    for i in 0..n {
        request[i] = nibble(digits[i * 2])? * 16 + nibble(digits[i * 2 + 1])?;
    }
    Some(n)
}

// Where the first space stands, behind all where there is none.
fn space_at(line: &[u8]) -> usize
    ensures { (result ≡ space_at line.now) × (result ≤ length line.now) }
{
    line.iter().position(|&c| c == b' ').unwrap_or(line.len())
}

// "a decimal number of 1 to 4 digits up to 4095"
fn room_of(number: &[u8]) -> Option<usize>
    ensures { result ≡ room_of number.now }
{
    if number.is_empty() || number.len() > 4 {
        return None;
    }
    let mut value = 0;
    for &c in number {
        if !c.is_ascii_digit() {
            return None;
        }
        value = value * 10 + (c - b'0') as usize;
        if value > 4095 {
            return None;
        }
    }
    Some(value)
}

// "the length of the reply buffer for this request, 4095 where absent", of what a line has from its first space on.
fn room_in(behind: &[u8]) -> Option<usize>
    ensures { result ≡ room_behind behind.now }
{
    match behind {
        [_, number @ ..] => room_of(number),
        [] => Some(4095),
    }
}

// How many bytes a request has, and how many its reply buffer.
#[derive(Clone, Copy)]
struct Asked {
    size: usize,
    room: usize,
}

// The request of a line without its end, at the front of `request`. None: the line is no request.
fn read(asked: &[u8], request: &mut [u8]) -> Option<Asked>
    requires { length request.old ≡ 4095 }
    ensures { Asks asked.now result request.new }
{
    let (digits, behind) = asked.split_at(space_at(asked));
    if digits.len() % 2 != 0 || digits.len() > 8190 {
        return None;
    }
    let size = read_hex(digits, request)?;
    let room = room_in(behind)?;
    Some(Asked { size, room })
}

// "the reply in hex; `-` for silence; `refused 13`". The reply stands at the buffer's front.
fn tell(response: Result<Option<usize>, Refusal>, buffer: &[u8], line: &mut [u8]) -> usize
    requires { (length buffer.now ≤ 4095) × (8191 ≤ length line.old) }
    ensures { Put line.old 0 (told response buffer.now) line.new result }
{
    match response {
        Ok(Some(n)) => {
            let m = append_hex(line, 0, part(buffer, 0, n));
            append(line, m, b"\n")
        }
        Ok(None) => append(line, 0, b"-\n"),
        Err(_) => append(line, 0, b"refused 13\n"),
    }
}

// As many as a request or a reply has at most.
fn zeros() -> [u8; 4095]
    ensures { result ≡ replicate 4095 0 }
{
    [0; 4095]
}

// A request that was read, with a reply buffer of so many bytes.
fn serve(store: &mut [u8], request: &[u8], room: usize, line: &mut [u8]) -> usize
    requires { (room ≤ 4095) × (8191 ≤ length line.old) }
    ensures { Answers (answered (bench.respond store.old request.now (replicate room 0))) line.old result store.new line.new }
{
    let mut buffer = zeros();
    let reply = &mut buffer[..room];
    let response = respond(store, request, reply);
    tell(response, reply, line)
}

// Of a line without its end.
fn answer_to(store: &mut [u8], asked: &[u8], line: &mut [u8]) -> usize
    requires { 8191 ≤ length line.old }
    ensures { Answers (to_line store.old asked.now) line.old result store.new line.new }
{
    let mut request = zeros();
    match read(asked, &mut request) {
        Some(read) => serve(store, part(&request, 0, read.size), read.room, line),
        None => append(line, 0, b"badrequest\n"),
    }
}

// "A CR before the LF belongs to the line's end": the line without it.
fn unended(asked: &[u8]) -> &[u8]
    ensures { result.now ≡ unended asked.now }
{
    match asked {
        [front @ .., b'\r'] => front,
        _ => asked,
    }
}

// What a line of the input gets, at the front of a lent buffer of at least LONGEST bytes; its LF is no part of it. With a shorter buffer nothing
// is done: no line is written, and the store is left.
pub fn answer_line(store: &mut [u8], asked: &[u8], line: &mut [u8]) -> Option<usize>
    ensures { Wrote store.old asked.now line.old result store.new line.new }
{
    if line.len() < LONGEST {
        return None;
    }
    Some(answer_to(store, unended(asked), line))
}
