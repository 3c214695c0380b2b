// What an exchange is asked, what it reads, and what it answers: plain data by value, with places into the lent reply bytes.
use crate::error::Fault;

// A part of the lent reply bytes.
#[derive(Clone, Copy)]
pub struct Place {
    pub at: usize,
    pub len: usize,
}

impl Place {
    pub const NOWHERE: Place = Place { at: 0, len: 0 };
}

// "the session record, two numbers that the host lends": P2 and P2*, in milliseconds.
#[derive(Clone, Copy)]
pub struct Timing {
    pub p2: u32,
    pub star: u32,
}

// What the exchange knows of the request that was sent, the session's timing, and the limit of notices.
#[derive(Clone, Copy)]
pub struct Asked {
    pub sid: u8,
    pub sub: Option<u8>,
    pub timing: Timing,
    // "a limit of K notices, 0..255, or none"
    pub limit: Option<u8>,
}

// How events are lent: without a source address, or with one.
#[derive(Clone, Copy)]
pub enum Form {
    Plain,
    Addressed,
}

// How the events of a channel are lent, and the address that the call listens to.
#[derive(Clone, Copy)]
pub struct Channel {
    pub form: Form,
    pub listens: u16,
}

// "time u32, kind u16, offset into reply bytes u16, length u16; kind 3 puts its number in length"; then the source address u16.
// The kind is a number and no enum: a list may have an unknown one, which `within_limits` refuses and a log's layout still looks at.
#[derive(Clone, Copy)]
pub struct Event {
    pub time: u32,
    pub kind: u16,
    pub offset: u16,
    pub size: u16,
    pub source: u16,
}

#[derive(Clone, Copy)]
pub enum Outcome {
    PositiveResponse(Place),
    Suppressed,
    // the code as a raw byte, by document 01: a controller may send any
    NegativeResponse(u8),
    Timeout,
    Disconnected,
    Transport(u16),
    Fault(Fault),
    // its number: a `Refusal` would take fewer outcomes of whoever hands one in
    Refused(u8),
    PendingLimit,
}

// What a reply does: it asks for patience, or settles the exchange. An Option would call a notice None, and it is no absence.
#[derive(Clone, Copy)]
pub enum Step {
    Pending,
    Settles(Outcome),
}

// How many events or notices were read, and how many of them at times up to T.
#[derive(Clone, Copy)]
pub struct Count {
    pub all: usize,
    pub early: usize,
}

impl Count {
    pub const NONE: Count = Count { all: 0, early: 0 };
}

// An exchange that reads on. `hush`: suppressed, and no notice read; then what was read, and the notices among it.
#[derive(Clone, Copy)]
pub struct State {
    pub hush: bool,
    pub deadline: u64,
    pub read: Count,
    pub notices: Count,
}

// An exchange that is settled, before T is asked; `reply` is the reply that settled it.
#[derive(Clone, Copy)]
pub struct Settled {
    pub outcome: Outcome,
    pub time: u64,
    pub read: Count,
    pub notices: Count,
    pub reply: Place,
}

// What one event in time does: the exchange reads on, or ends. A Result would call one of them an error, and neither is.
#[derive(Clone, Copy)]
pub enum Turn {
    On(State),
    Ends(Settled),
}

// "Each answer carries the number of events read and of pending notices, the settling event included."
#[derive(Clone, Copy)]
pub struct Answer {
    pub outcome: Outcome,
    pub time: u64,
    pub events: usize,
    pub notices: usize,
    pub reply: Place,
}
