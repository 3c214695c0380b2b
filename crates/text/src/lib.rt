// Lines of text, written into a lent buffer. Document 01's: "outcome, finishing time, events read, notices, detail" and a newline.
#![tactic(auto)]

ghost use Rattle.std.specs.Prelude.{◌≡◌, [], ◌∷◌, ◌++◌, ◌+◌, ◌/◌, ◌%◌, ◌<◌, ◌≤◌, leb, length};
ghost use Rattle.rules.specs.Lines.{digit, decimal, hex, hex_or_dash, spaced};
ghost use Rattle.text.specs.Written.{Put, Wrote, Appended, text, counted, shown, room, behind, hex_behind, item};

// A buffer of so many bytes has room for every line of document 01. The longest is a deviation's: the word's 9 letters, 8,192 digits for its number and
// a reply of 4,095 bytes, 10 digits of time (2 · 4,294,967,295 at most), 3 digits each of events and notices, four spaces and the newline.
pub const LONGEST: usize = 8222;

fn put_byte(line: &mut [u8], at: usize, byte: u8) -> usize
    requires { at < length line.old }
    ensures { Put line.old at (byte ∷ []) line.new result }
{
    line[at] = byte;
    at + 1
}

fn put_word(line: &mut [u8], at: usize, word: &[u8]) -> usize
    requires { at + length word.now ≤ length line.old }
    ensures { Put line.old at word.now line.new result }
{
    let end = at + word.len();
    line[at..end].copy_from_slice(word);
    end
}

// A number below 16 as its digit in hex.
fn digit(d: u8) -> u8
    requires { d < 16 }
    ensures { result ≡ digit d }
{
    if d < 10 { d + 48 } else { d + 87 }
}

// The digits of bytes, from index `at` on.
fn put_hex(line: &mut [u8], at: usize, bytes: &[u8]) -> usize
    requires { at + length (hex bytes.now) ≤ length line.old }
    ensures { Put line.old at (hex bytes.now) line.new result }
{
    let mut n = at;
    for b in bytes {
        n = put_byte(line, n, digit(*b / 16));
        n = put_byte(line, n, digit(*b % 16));
    }
    n
}

fn decimal_length(value: u64) -> usize
    ensures { (result ≡ length (decimal value)) × (result ≤ 20) }
{
    if value < 10 {
        1
    } else {
        decimal_length(value / 10) + 1
    }
}

// Both digits of a number below 100.
fn put_two(line: &mut [u8], at: usize, value: u64) -> usize
    requires { (at + 2 ≤ length line.old) × (value < 100) }
    ensures { Put line.old at (digit (value / 10) ∷ digit (value % 10) ∷ []) line.new result }
{
    let n = put_byte(line, at, digit((value / 10) as u8));
    put_byte(line, n, digit((value % 10) as u8))
}

// Two digits a call, so that ten take five frames of stack.
fn put_decimal(line: &mut [u8], at: usize, value: u64) -> usize
    requires { at + length (decimal value) ≤ length line.old }
    ensures { Put line.old at (decimal value) line.new result }
{
    if value < 10 {
        return put_byte(line, at, digit(value as u8));
    }
    if value < 100 {
        return put_two(line, at, value);
    }
    let n = put_decimal(line, at, value / 100);
    put_two(line, n, value % 100)
}

fn put_number(line: &mut [u8], at: usize, value: u64) -> usize
    requires { at + length (spaced (decimal value)) ≤ length line.old }
    ensures { Put line.old at (spaced (decimal value)) line.new result }
{
    let n = put_byte(line, at, b' ');
    // most counts have one digit or two
    if value < 10 {
        return put_byte(line, n, digit(value as u8));
    }
    if value < 100 {
        return put_two(line, n, value);
    }
    put_decimal(line, n, value)
}

// The detail is `head` and `bytes`: a number or code, and the bytes of a reply.
fn put_detail(line: &mut [u8], at: usize, head: &[u8], bytes: &[u8]) -> usize
    requires { at + (1 + shown (length head.now + length bytes.now)) ≤ length line.old }
    ensures { Put line.old at (spaced (hex_or_dash (head.now ++ bytes.now))) line.new result }
{
    let n = put_byte(line, at, b' ');
    if head.len() + bytes.len() == 0 {
        return put_byte(line, n, b'-');
    }
    let m = put_hex(line, n, head);
    put_hex(line, m, bytes)
}

// What stands behind the word, from where that ends.
fn put_rest(
    line: &mut [u8],
    at: usize,
    time: u64,
    events: u64,
    notices: u64,
    head: &[u8],
    bytes: &[u8],
) -> usize
    requires { room at time events notices (length head.now + length bytes.now) ≤ length line.old }
    ensures { Put line.old at (text [] time events notices (head.now ++ bytes.now)) line.new result }
{
    let a = put_number(line, at, time);
    let b = put_number(line, a, events);
    let c = put_number(line, b, notices);
    let d = put_detail(line, c, head, bytes);
    put_byte(line, d, b'\n')
}

// Whether a line of these parts fits behind its first `front` characters; the lengths may be any, and their sum may pass 64 bits.
fn fits(line: usize, front: usize, long: usize, head: usize, bytes: usize) -> bool
    ensures { result ≡ leb (front + long + shown (head + bytes)) line }
{
    if front > line || long > line - front {
        return false;
    }
    let left = line - front - long;
    left > 0 && head <= left / 2 && bytes <= left / 2 - head
}

// Whether a line with these numbers fits. Most buffers have room for the longest, of 20 digits each, so digits are not counted there. The 5 are the
// spaces and the newline, and so are 5 of the 65.
fn has_room(
    line: usize,
    word: usize,
    time: u64,
    events: u64,
    notices: u64,
    head: usize,
    bytes: usize,
) -> bool
    ensures { result ≡ leb (room word time events notices (head + bytes)) line }
{
    if fits(line, word, 65, head, bytes) {
        return true;
    }
    let numbers = decimal_length(time) + decimal_length(events) + decimal_length(notices) + 5;
    fits(line, word, numbers, head, bytes)
}

// Writes the line at the buffer's front, or nothing where there is no room for it. Put into each caller, so that a word that stands there is stored in one
// move, and what a literal costs is paid by the outcome that has it.
#[inline(always)]
pub fn put_line(
    line: &mut [u8],
    word: &[u8],
    time: u64,
    events: u64,
    notices: u64,
    head: &[u8],
    bytes: &[u8],
) -> Option<usize>
    ensures { Wrote (text word.now time events notices (head.now ++ bytes.now)) line.old result line.new }
{
    if !has_room(
        line.len(),
        word.len(),
        time,
        events,
        notices,
        head.len(),
        bytes.len(),
    ) {
        return None;
    }
    let a = put_word(line, 0, word);
    Some(put_rest(line, a, time, events, notices, head, bytes))
}

// Whether so many characters fit from index `at` on, which may be any.
fn holds(line: usize, at: usize, characters: usize) -> bool
    ensures { result ≡ leb (at + characters) line }
{
    at <= line && characters <= line - at
}

// Writes a word, and a number behind a space, from index `at` on; the answer is where they end. Where there is no room, nothing changes and
// the answer is `at`.
pub fn put_counted(line: &mut [u8], at: usize, word: &[u8], number: u64) -> usize
    ensures { Appended (counted word.now number) line.old at result line.new }
{
    if !holds(line.len(), at, word.len() + decimal_length(number) + 1) {
        return at;
    }
    let n = put_word(line, at, word);
    put_number(line, n, number)
}

// A space and the bytes in hex; nothing where there are none.
fn put_bytes(line: &mut [u8], at: usize, bytes: &[u8]) -> usize
    requires { at + length (hex_behind bytes.now) ≤ length line.old }
    ensures { Put line.old at (hex_behind bytes.now) line.new result }
{
    if bytes.len() == 0 {
        return at;
    }
    let n = put_byte(line, at, b' ');
    put_hex(line, n, bytes)
}

// How many characters stand beside the word and the hex digits: the number's, the newline, and a space before the number and before the hex. One
// less where there are bytes to show, since `fits` counts a character for none.
fn beside(digits: usize, bytes: usize) -> usize
    requires { digits ≤ 20 }
    ensures { result + shown bytes ≡ digits + 2 + behind bytes }
{
    if bytes == 0 { digits + 1 } else { digits + 3 }
}

// Writes a line from index `at` on: a word, a number behind a space, and the bytes in hex behind another, if there are any. The answer is where it
// ends. Where there is no room, nothing changes and the answer is `at`.
pub fn put_item(line: &mut [u8], at: usize, word: &[u8], number: u64, bytes: &[u8]) -> usize
    ensures { Appended (item word.now number bytes.now) line.old at result line.new }
{
    let long = word.len() + beside(decimal_length(number), bytes.len());
    if !fits(line.len(), at, long, 0, bytes.len()) {
        return at;
    }
    let a = put_word(line, at, word);
    let b = put_number(line, a, number);
    let c = put_bytes(line, b, bytes);
    put_byte(line, c, b'\n')
}

// Writes a word from index `at` on; the answer and what is left where there is no room are those of `put_counted`.
pub fn append(line: &mut [u8], at: usize, word: &[u8]) -> usize
    ensures { Appended word.now line.old at result line.new }
{
    if !holds(line.len(), at, word.len()) {
        return at;
    }
    put_word(line, at, word)
}

// Writes a number, in the same way.
pub fn append_decimal(line: &mut [u8], at: usize, number: u64) -> usize
    ensures { Appended (decimal number) line.old at result line.new }
{
    if !holds(line.len(), at, decimal_length(number)) {
        return at;
    }
    put_decimal(line, at, number)
}

// Writes bytes as two digits each, in the same way.
pub fn append_hex(line: &mut [u8], at: usize, bytes: &[u8]) -> usize
    ensures { Appended (hex bytes.now) line.old at result line.new }
{
    if at > line.len() {
        return at;
    }
    if bytes.len() > (line.len() - at) / 2 {
        return at;
    }
    put_hex(line, at, bytes)
}

// Writes a byte as a space and two digits, in the same way.
pub fn append_byte(line: &mut [u8], at: usize, byte: u8) -> usize
    ensures { Appended (spaced (hex (byte ∷ []))) line.old at result line.new }
{
    let digits = [b' ', digit(byte / 16), digit(byte % 16)];
    append(line, at, &digits)
}
