// Why nothing is done: the refusals of documents 01 and 02, in the order of their numbers.
ghost use Rattle.std.specs.Prelude.{◌≡◌};
ghost use Rattle.wire.specs.Refusing.{refusal_number};

#[derive(Clone, Copy)]
pub enum Refusal {
    // "call 3, even sub-function, data absent"
    KeyWithoutData,
    // "address length, size length outside 1..15"
    AddressLength,
    SizeLength,
    // "compression, encryption method above 15"
    Compression,
    Encryption,
    // "`alfid` form: a width outside 1..8", or outside 1..15 under the wide setting
    Width,
    // "`alfid` form: the value needs more bytes than its width"
    ValueTooWide,
    // "request longer than 4,095 bytes"
    RequestTooLong,
    // "request buffer shorter than the request"
    RequestRoom,
    // "event list breaks a limit above, an unknown kind, or a reply outside the lent bytes"
    Events,
    // "11 now means a block length below 3"
    BlockLength,
    // "block cutting: no block of that number"
    BlockNumber,
    // "a reply buffer shorter than the reply"
    ReplyRoom,
    // "unreadable line"
    UnreadableLine,
    // "no request found"
    NoRequest,
    // "any line's time goes back"
    TimeGoesBack,
    // "more than 512 events, a time above document 01's limit or reply bytes beyond the lent buffer"
    TooManyEvents,
    // "header shorter than its version's size or of unknown version or call"
    Header,
    // "argument bytes not whole"
    Arguments,
    // "20 for going back"
    GoingBack,
    // "21 after settling"
    Settled,
    // "no room for log and entry"
    BookFull,
    // "a log that `udslog` would call bad"
    BadLog,
    // "no such log"
    NoSuchLog,
    // "bytes that are no book"
    NoBook,
}

// "Refusal numbers"
impl From<Refusal> for u8 {
    ghost from_gives = { λ refusal r. r ≡ refusal_number refusal };

    fn from(refusal: Refusal) -> u8 {
        match refusal {
            Refusal::KeyWithoutData => 1,
            Refusal::AddressLength => 2,
            Refusal::SizeLength => 3,
            Refusal::Compression => 4,
            Refusal::Encryption => 5,
            Refusal::Width => 6,
            Refusal::ValueTooWide => 7,
            Refusal::RequestTooLong => 8,
            Refusal::RequestRoom => 9,
            Refusal::Events => 10,
            Refusal::BlockLength => 11,
            Refusal::BlockNumber => 12,
            Refusal::ReplyRoom => 13,
            Refusal::UnreadableLine => 14,
            Refusal::NoRequest => 15,
            Refusal::TimeGoesBack => 16,
            Refusal::TooManyEvents => 17,
            Refusal::Header => 18,
            Refusal::Arguments => 19,
            Refusal::GoingBack => 20,
            Refusal::Settled => 21,
            Refusal::BookFull => 22,
            Refusal::BadLog => 23,
            Refusal::NoSuchLog => 24,
            Refusal::NoBook => 25,
        }
    }
}
