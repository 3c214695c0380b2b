// `isotp` joins the frames of one identifier into messages, by ISO 15765-2.
#![tactic(auto)]

ghost use Rattle.std.specs.Prelude.{◌≡◌};
ghost use Rattle.isotp.specs.Joining.{idle, singles, firsts, goes_on, feed};
ghost use Rattle.isotp.specs.Held.{joiner_of, settled, state_in, state_of, Changes, Does};

// "12-bit lengths": no message is longer.
pub const LONGEST: usize = 4095;

// A message under way: the bytes still due, the next frame's number, and how many bytes are there.
#[derive(Clone, Copy)]
pub struct Joiner {
    pub due: usize,
    pub next: u8,
    pub have: usize,
}

// What a frame does: the message under way from now on, if any, whether the one before is dropped, and the length of the message given.
#[derive(Clone, Copy)]
pub struct Heard {
    pub joiner: Option<Joiner>,
    pub drops: bool,
    pub gives: Option<usize>,
}

// No message is under way.
pub fn idle() -> Option<Joiner>
    ensures { result ≡ joiner_of idle }
{
    None
}

// Numbers that no message has mean that none is under way.
fn settled(joiner: Option<Joiner>) -> Option<Joiner>
    ensures { result ≡ settled joiner }
{
    let message = joiner?;
    if message.due < 1
        || message.due > LONGEST
        || message.have > LONGEST - message.due
        || message.next > 15
    {
        return None;
    }
    Some(message)
}

fn single(joiner: Option<Joiner>, frame: &[u8], buffer: &mut [u8; LONGEST]) -> Option<Heard>
    ensures { Changes (state_in joiner buffer.old) (singles (state_in joiner buffer.old) frame.now) buffer.old result buffer.new }
{
    let size = (wire::byte_at(frame, 0) % 16) as usize;
    if size < 1 || size > 7 || frame.len() < size + 1 {
        return None;
    }
    buffer[..size].copy_from_slice(&frame[1..size + 1]);
    Some(Heard {
        joiner: None,
        drops: joiner.is_some(),
        gives: Some(size),
    })
}

fn first(joiner: Option<Joiner>, frame: &[u8], buffer: &mut [u8; LONGEST]) -> Option<Heard>
    ensures { Changes (state_in joiner buffer.old) (firsts (state_in joiner buffer.old) frame.now) buffer.old result buffer.new }
{
    let size = (wire::byte_at(frame, 0) % 16) as usize * 256 + wire::byte_at(frame, 1) as usize;
    if size < 8 || frame.len() < 8 {
        return None;
    }
    buffer[..6].copy_from_slice(&frame[2..8]);
    Some(Heard {
        joiner: Some(Joiner {
            due: size - 6,
            next: 1,
            have: 6,
        }),
        drops: joiner.is_some(),
        gives: None,
    })
}

fn next(joiner: Option<Joiner>, frame: &[u8], buffer: &mut [u8; LONGEST]) -> Option<Heard>
    requires { settled joiner ≡ joiner }
    ensures { Changes (state_in joiner buffer.old) (goes_on (state_in joiner buffer.old) frame.now) buffer.old result buffer.new }
{
    let Joiner { due, next, have } = joiner?;
    if wire::byte_at(frame, 0) % 16 != next {
        return Some(Heard {
            joiner: None,
            drops: true,
            gives: None,
        });
    }
    let n = due.min(7);
    if frame.len() < n + 1 {
        return None;
    }
    buffer[have..have + n].copy_from_slice(&frame[1..n + 1]);
    let (joiner, gives) = if due <= 7 {
        (None, Some(have + n))
    } else {
        let more = Joiner {
            due: due - 7,
            next: (next + 1) % 16,
            have: have + n,
        };
        (Some(more), None)
    };
    Some(Heard {
        joiner,
        drops: false,
        gives,
    })
}

// By the first byte's high half: 0 is a single frame, 1 a first one, 2 a consecutive one. None where the frame changes nothing.
#[tactic(auto, unfolding(crate::specs::Joining::feed))]
fn changed(joiner: Option<Joiner>, frame: &[u8], buffer: &mut [u8; LONGEST]) -> Option<Heard>
    requires { settled joiner ≡ joiner }
    ensures { Changes (state_in joiner buffer.old) (feed (state_in joiner buffer.old) frame.now) buffer.old result buffer.new }
{
    match wire::byte_at(frame, 0) / 16 {
        0 => single(joiner, frame, buffer),
        1 => first(joiner, frame, buffer),
        2 => next(joiner, frame, buffer),
        _ => None,
    }
}

// One frame more. The bytes of the message under way stand at the front of `buffer`, and so does the message given.
pub fn feed(joiner: Option<Joiner>, frame: &[u8], buffer: &mut [u8; LONGEST]) -> Heard
    ensures { Does (feed (state_of joiner buffer.old) frame.now) buffer.old result buffer.new }
{
    let joiner = settled(joiner);
    changed(joiner, frame, buffer).unwrap_or(Heard {
        joiner,
        drops: false,
        gives: None,
    })
}
