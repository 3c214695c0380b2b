// What the door's numbers ask: the fields of a log's header with a limit of notices, for a whole call and for one event at a time.
#![tactic(auto)]

ghost use Rattle.std.specs.Prelude.{◌≡◌};
ghost use Rattle.logs.specs.Layout.{said};
ghost use Rattle.door.specs.Door.{fields, is_limit, fits, limit_for, limited_to, has_alfid, AskedFor};

use calls::Ask;
use log_call::ask_of;
use logs::header::Header;

pub fn fields(
    call: u8,
    flags: u8,
    value: u16,
    sub: u8,
    address_length: u8,
    size_length: u8,
    p2: u32,
    star: u32,
    overall: u32,
    addressed: bool,
    listens: u16,
) -> Header
    ensures { said result ≡ fields call flags value sub address_length size_length p2 star overall addressed listens }
{
    Header {
        // version 2 has its events addressed
        version: if addressed { 2 } else { 1 },
        call,
        flags,
        value,
        sub,
        address_length,
        size_length,
        listens,
        arguments: address_length as u16 + size_length as u16,
        arguments_at: 0,
        events: 0,
        events_at: 0,
        replies: 0,
        replies_at: 0,
        total: 0,
        p2,
        star,
        overall,
    }
}

// In place of a limit of notices: none.
const NO_LIMIT: u16 = 65535;

fn is_limit(limit: u16) -> bool
    ensures { result ≡ is_limit limit }
{
    limit <= 255 || limit == NO_LIMIT
}

// Whether there is such a call and such a limit, and n argument bytes are as many as its fields say.
#[tactic(auto, unfolding(crate::specs::Door::fits))]
pub fn fits(h: Header, limit: u16, n: usize) -> bool
    ensures { result ≡ fits (said h) limit n }
{
    let arguments = h.arguments as usize;
    h.call <= 15 && is_limit(limit) && arguments <= n && (h.flags / 32 % 2 == 1 || n <= arguments)
}

fn limit_for(limit: u16) -> Option<u8>
    ensures { result ≡ limit_for limit }
{
    u8::try_from(limit).ok()
}

pub fn limited(ask: Ask, limit: u16) -> Ask
    ensures { result ≡ limited_to (limit_for limit) ask }
{
    Ask {
        limit: limit_for(limit),
        ..ask
    }
}

// What the fields ask under this limit, with n argument bytes. None where they ask no call, or the limit or the bytes suit none.
pub fn ask_for(h: Header, limit: u16, n: usize) -> Option<Ask>
    ensures { AskedFor (said h) limit n result }
{
    let ask = ask_of(h)?;
    if !fits(h, limit, n) {
        return None;
    }
    Some(limited(ask, limit))
}

pub fn has_alfid(call: u8) -> bool
    ensures { result ≡ has_alfid call }
{
    matches!(call, 5 | 6 | 11 | 12)
}
