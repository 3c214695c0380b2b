// `candump` reads a line of `candump -L` a byte at a time: no line is too long, and none is kept.
#![tactic(auto)]

ghost use Rattle.std.specs.Prelude.{◌||◌, ◌&&◌, cond, ◌≡◌, ◌+◌, ◌-◌, ◌*◌, ◌%◌, ◌≤◌, ◌<◌, eqb};
ghost use Rattle.candump.specs.declared.Found.TheVariants.{Other, Unreadable};
ghost use Rattle.candump.specs.declared.Phase.TheVariants.{Bad};
ghost use Rattle.rules.specs.Bytes.{every};
ghost use Rattle.candump.specs.Text.{Hex, is, worth};
ghost use Rattle.candump.specs.Lines.{is_identifier};
ghost use Rattle.candump.specs.Words.{names, identifier_in};
ghost use Rattle.candump.specs.Reading.{begun, more, microseconds, can_id, classic_found, after, stored, next, ended, hopeless};

// What a line is. Of a frame: its time in microseconds, its identifier (one of 29 bits is 80000000 hex more), and how many data bytes it has.
#[derive(Clone, Copy)]
pub enum Found {
    Blank,
    Unreadable,
    Other(u64),
    Frame(u64, u64, u8),
}

// How far a line was read. Numbers are, in this order: the time, or the seconds; the identifier; how many digits or data bytes; their number.
#[derive(Clone, Copy)]
pub enum Phase {
    Start,
    Blanks,
    Seconds(u8, u64),
    Micros(u64, u8, u64),
    Closed(u64),
    BeforeName(u64),
    Name(u64),
    BeforeIdentifier(u64),
    Identifier(u64, u8, u64),
    // whole bytes of data; and, behind them, a first digit
    Data(u64, u64, u8),
    Half(u64, u64, u8, u8),
    Remote(u64),
    Fd(u64, u8),
    // behind the content: at once; behind spaces; behind the direction
    Behind(Found),
    Spaced(Found),
    Directed(Found),
    Bad,
}

// A line under way: how far it was read, whether a CR stands there, the data bytes.
#[derive(Clone, Copy)]
pub struct Reader {
    pub phase: Phase,
    pub returned: bool,
    pub bytes: [u8; 8],
}

#[tactic(auto, unfolding(crate::specs::Text::worth))]
fn worth(c: u8) -> u8
    ensures { (result ≡ worth c) × (result < 16) }
{
    if c <= b'9' {
        c.saturating_sub(b'0') % 16
    } else if c <= b'F' {
        (c - (b'A' - 10)) % 16
    } else {
        c.saturating_sub(b'a' - 10) % 16
    }
}

// One digit more.
fn decimal(v: u64, c: u8) -> u64
    ensures { result ≡ more 10 v c }
{
    v % 0x100000000000000 * 10 + worth(c) as u64
}

fn hexadecimal(v: u64, c: u8) -> u64
    ensures { result ≡ more 16 v c }
{
    v % 0x100000000000000 * 16 + worth(c) as u64
}

fn microseconds(seconds: u64, v: u64) -> u64
    ensures { result ≡ microseconds seconds v }
{
    seconds % 0x10000000000 * 1000000 + v % 0x100000000000000
}

// "three hex digits up to 7FF, or eight up to 3FFFFFFF"
fn is_identifier(n: u8, v: u64) -> bool
    ensures { result ≡ is_identifier n v }
{
    n == 3 && v <= 0x7ff || n == 8 && v <= 0x3fffffff
}

fn can_id(n: u8, v: u64) -> u64
    ensures { result ≡ can_id n v }
{
    if n == 3 {
        v
    } else {
        0x80000000 + v % 0x100000000000000
    }
}

fn classic_found(time: u64, id: u64, n: u8) -> Found
    ensures { result ≡ classic_found time id n }
{
    if id <= 0x9fffffff {
        Found::Frame(time, id, n)
    } else {
        Found::Other(time)
    }
}

fn fd_found(time: u64, n: u8) -> Found
    ensures { result ≡ cond (eqb (n % 2) 1) (Other time) Unreadable }
{
    if n % 2 == 1 {
        Found::Other(time)
    } else {
        Found::Unreadable
    }
}

// By `if`: a `match` on the byte in each arm was tried, and the program took an eighth more time.
#[tactic(auto, unfolding(crate::specs::Reading::after, crate::specs::Text::is))]
fn after(phase: Phase, c: u8) -> Phase
    ensures { result ≡ after phase c }
{
    match phase {
        Phase::Start => {
            if c == b' ' {
                Phase::Blanks
            } else if c == b'(' {
                Phase::Seconds(0, 0)
            } else {
                Phase::Bad
            }
        }
        Phase::Blanks => { if c == b' ' { Phase::Blanks } else { Phase::Bad } }
        Phase::Seconds(n, v) => {
            if n < 10 && c.is_ascii_digit() {
                Phase::Seconds(n % 16 + 1, decimal(v, c))
            } else if c == b'.' && matches!(n, 1..=10) {
                Phase::Micros(v, 0, 0)
            } else {
                Phase::Bad
            }
        }
        Phase::Micros(s, n, v) => {
            if n < 6 && c.is_ascii_digit() {
                Phase::Micros(s, n % 16 + 1, decimal(v, c))
            } else if c == b')' && n == 6 {
                Phase::Closed(microseconds(s, v))
            } else {
                Phase::Bad
            }
        }
        Phase::Closed(t) => {
            if c == b' ' {
                Phase::BeforeName(t)
            } else {
                Phase::Bad
            }
        }
        Phase::BeforeName(t) => {
            if c == b' ' {
                Phase::BeforeName(t)
            } else if c.is_ascii_graphic() {
                Phase::Name(t)
            } else {
                Phase::Bad
            }
        }
        Phase::Name(t) => {
            if c.is_ascii_graphic() {
                Phase::Name(t)
            } else if c == b' ' {
                Phase::BeforeIdentifier(t)
            } else {
                Phase::Bad
            }
        }
        Phase::BeforeIdentifier(t) => {
            if c == b' ' {
                Phase::BeforeIdentifier(t)
            } else if c.is_ascii_hexdigit() {
                Phase::Identifier(t, 1, worth(c) as u64)
            } else {
                Phase::Bad
            }
        }
        Phase::Identifier(t, n, v) => {
            if n < 8 && c.is_ascii_hexdigit() {
                Phase::Identifier(t, n % 16 + 1, hexadecimal(v, c))
            } else if c == b'#' && is_identifier(n, v) {
                Phase::Data(t, can_id(n, v), 0)
            } else {
                Phase::Bad
            }
        }
        Phase::Data(t, id, n) => {
            if n < 8 && c.is_ascii_hexdigit() {
                Phase::Half(t, id, n, worth(c))
            } else if c == b' ' {
                Phase::Spaced(classic_found(t, id, n))
            } else if c == b'R' && n == 0 {
                Phase::Remote(t)
            } else if c == b'#' && n == 0 {
                Phase::Fd(t, 0)
            } else {
                Phase::Bad
            }
        }
        Phase::Half(t, id, n, _) => {
            if c.is_ascii_hexdigit() {
                Phase::Data(t, id, n % 8 + 1)
            } else {
                Phase::Bad
            }
        }
        Phase::Remote(t) => {
            if matches!(c, b'0'..=b'8') {
                Phase::Behind(Found::Other(t))
            } else if c == b' ' {
                Phase::Spaced(Found::Other(t))
            } else {
                Phase::Bad
            }
        }
        Phase::Fd(t, n) => {
            if n < 129 && c.is_ascii_hexdigit() {
                Phase::Fd(t, n % 129 + 1)
            } else if c == b' ' && n % 2 == 1 {
                Phase::Spaced(Found::Other(t))
            } else {
                Phase::Bad
            }
        }
        Phase::Behind(f) => {
            if c == b' ' {
                Phase::Spaced(f)
            } else {
                Phase::Bad
            }
        }
        Phase::Spaced(f) => {
            if c == b' ' {
                Phase::Spaced(f)
            } else if matches!(c, b'R' | b'T') {
                Phase::Directed(f)
            } else {
                Phase::Bad
            }
        }
        Phase::Directed(f) => {
            if c == b' ' {
                Phase::Directed(f)
            } else {
                Phase::Bad
            }
        }
        Phase::Bad => Phase::Bad,
    }
}

// A second digit makes a byte.
#[tactic(auto, unfolding(crate::specs::Reading::stored))]
fn stored(phase: Phase, bytes: [u8; 8], c: u8) -> [u8; 8]
    ensures { result ≡ stored phase bytes c }
{
    // by cases, so that the bytes stay where they are where none is stored: on long lines the program takes less time
    match phase {
        Phase::Half(_, _, n, h) => {
            let mut more = bytes;
            more[(n % 8) as usize] = h % 16 * 16 + worth(c);
            more
        }
        _ => bytes,
    }
}

// A line of which nothing was read.
pub fn begin() -> Reader
    ensures { result ≡ begun }
{
    Reader {
        phase: Phase::Start,
        returned: false,
        bytes: [0; 8],
    }
}

// Behind a CR nothing may follow.
fn stepped(returned: bool, phase: Phase, c: u8) -> Phase
    ensures { result ≡ cond returned Bad (cond (eqb c 13) phase (after phase c)) }
{
    if returned {
        Phase::Bad
    } else if c == b'\r' {
        phase
    } else {
        after(phase, c)
    }
}

// One byte more of the line, which has no LF.
pub fn next(reader: Reader, c: u8) -> Reader
    ensures { result ≡ next reader c }
{
    Reader {
        phase: stepped(reader.returned, reader.phase, c),
        returned: c == b'\r',
        bytes: stored(reader.phase, reader.bytes, c),
    }
}

// What the line is, if it ends here. The data bytes of a frame are the first of the reader's.
#[tactic(auto, unfolding(crate::specs::Reading::ended))]
pub fn ended(reader: Reader) -> Found
    ensures { result ≡ ended reader.phase }
{
    match reader.phase {
        Phase::Start | Phase::Blanks => Found::Blank,
        Phase::Data(t, id, n) => classic_found(t, id, n),
        Phase::Remote(t) => Found::Other(t),
        Phase::Fd(t, n) => fd_found(t, n),
        Phase::Behind(f) | Phase::Spaced(f) | Phase::Directed(f) => f,
        _ => Found::Unreadable,
    }
}

// Whether the line can't be read, whatever follows.
#[tactic(auto, unfolding(crate::specs::Reading::hopeless))]
pub fn hopeless(reader: Reader) -> bool
    ensures { result ≡ hopeless reader.phase }
{
    matches!(reader.phase, Phase::Bad)
}

// "three digits up to 7FF for 11 bits, eight up to 1FFFFFFF for 29 bits"
fn names(n: usize, v: u64) -> bool
    ensures { result ≡ names n v }
{
    n == 3 && v <= 0x7ff || n == 8 && v <= 0x1fffffff
}

fn all_hex(word: &[u8]) -> bool
    ensures { result ≡ every (is Hex) word.now }
{
    word.iter().all(|c| c.is_ascii_hexdigit())
}

// The identifier that a word names: hex digits, and nothing before or behind them.
pub fn identifier(word: &[u8]) -> Option<u64>
    ensures { result ≡ identifier_in word.now }
{
    let n = word.len();
    if n > 8 || !all_hex(word) {
        return None;
    }
    let mut v = 0;
    for &c in word {
        v = hexadecimal(v, c);
    }
    if names(n, v) {
        Some(can_id(n as u8, v))
    } else {
        None
    }
}
