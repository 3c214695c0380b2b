// The state of the engine that is handed one event at a time, as twenty-eight numbers that a host keeps.
// The first fifteen are an answer's. While the engine waits, 11 stands for the outcome, and the deadline, the events read and the notices stand where the answer's time and counts will.
#![tactic(auto)]

ghost use Rattle.std.specs.Prelude.{◌%◌, ◌≡◌, ◌++◌};
ghost use Rattle.logs.specs.Layout.{said};
ghost use Rattle.state_numbers.specs.Kept.{nine, fifteen, header_in, AskedIn, asking_in, engine_in, Told};

use calls::Ask;
use door::{fields, limited};
use exchange::types::{Count, State, Timing};
use log_call::ask_of;
use logs::header::Header;
use numbers::numbers;
use steps::{Begun, Engine, Phase};

pub const WAITING: u64 = 11;

pub fn byte(n: u64) -> u8
    ensures { result ≡ n % 256 }
{
    (n % 256) as u8
}

// What was asked as a log's header would have it, each number as wide as its field is.
fn header_in(state: [u64; 28]) -> Header
    ensures { said result ≡ header_in state }
{
    fields(
        byte(state[19]),
        byte(state[20]),
        (state[21] % 65536) as u16,
        byte(state[22]),
        0,
        0,
        (state[12] % 4294967296) as u32,
        (state[13] % 4294967296) as u32,
        (state[23] % 4294967296) as u32,
        true,
        (state[25] % 65536) as u16,
    )
}

// What the state's numbers ask.
pub fn ask_in(state: [u64; 28]) -> Option<Ask>
    ensures { AskedIn state result }
{
    let h = header_in(state);
    if h.call > 15 {
        return None;
    }
    let ask = ask_of(h)?;
    Some(limited(ask, (state[24] % 65536) as u16))
}

// The engine that waits, as the state has it.
pub fn engine_in(ask: Ask, state: [u64; 28]) -> Engine
    ensures { result ≡ engine_in ask state }
{
    Engine {
        begun: Begun {
            ask,
            session: Timing {
                p2: (state[12] % 4294967296) as u32,
                star: (state[13] % 4294967296) as u32,
            },
            sent: state[14] as usize,
        },
        last: state[15],
        phase: Phase::Waiting(State {
            hush: state[16] != 0,
            deadline: state[4],
            read: Count {
                all: state[5] as usize,
                early: state[17] as usize,
            },
            notices: Count {
                all: state[6] as usize,
                early: state[18] as usize,
            },
        }),
    }
}

// What the state's last nine numbers ask: call, flags, value, sub-function, overall timeout, limit, the address listened to, and the widths of
// address and size as they were sent.
pub fn asking(state: [u64; 28]) -> [u64; 9]
    ensures { result ≡ asking_in state }
{
    let mut asked = [0; 9];
    asked.copy_from_slice(&state[19..]);
    asked
}

// The state: an answer's numbers, then the last time, `hush` and the counts up to T, and what was asked.
fn laid(answer: [u64; 15], early: [u64; 4], asked: [u64; 9]) -> [u64; 28]
    ensures { result ≡ fifteen answer (early ++ nine asked) }
{
    let mut state = [0; 28];
    state[19..].copy_from_slice(&asked);
    state[15..19].copy_from_slice(&early);
    state[..15].copy_from_slice(&answer);
    state
}

// The engine as numbers.
pub fn told(engine: Engine, asked: [u64; 9]) -> [u64; 28]
    ensures { Told engine asked engine.phase result }
{
    let begun = engine.begun;
    match engine.phase {
        Phase::Waiting(s) => laid(
            [
                WAITING,
                0,
                0,
                0,
                s.deadline,
                s.read.all as u64,
                s.notices.all as u64,
                0,
                0,
                0,
                0,
                0,
                begun.session.p2 as u64,
                begun.session.star as u64,
                begun.sent as u64,
            ],
            [
                engine.last,
                u64::from(s.hush),
                s.read.early as u64,
                s.notices.early as u64,
            ],
            asked,
        ),
        Phase::Settled(x) => laid(numbers(x), [engine.last, 0, 0, 0], asked),
    }
}
