// A log's header of either version, big-endian: its fields, read from a log at a place.
ghost use Rattle.std.specs.Prelude.{◌≡◌};
ghost use Rattle.rules.specs.Logs as rules;
ghost use Rattle.rules.specs.Logs.{header_size, form_in, listens_at9, header_of};
ghost use Rattle.exchange.specs.Meaning.{form_of};
ghost use Rattle.logs.specs.Layout.{said, header_at};

use exchange::types::Form;
use wire::{byte_at, part, u16_at, u32_at};

// Version 2 has its events addressed.
pub fn form_of(version: u16) -> Form
    ensures { form_of result ≡ rules.form_of version }
{
    if version == 2 {
        Form::Addressed
    } else {
        Form::Plain
    }
}

// "the listening address in place of the zero at byte 9 widened to u16": all after byte 9 stands so much further.
pub fn moved_by(form: Form) -> usize
    ensures { result ≡ rules.moved (form_of form) }
{
    match form {
        Form::Plain => 0,
        Form::Addressed => 1,
    }
}

// Of an area: how many (bytes or events), and where it begins.
#[derive(Clone, Copy)]
pub struct Header {
    pub version: u16,
    pub call: u8,
    pub flags: u8,
    pub value: u16,
    pub sub: u8,
    pub address_length: u8,
    pub size_length: u8,
    pub listens: u16,
    pub arguments: u16,
    pub arguments_at: u16,
    pub events: u16,
    pub events_at: u16,
    pub replies: u16,
    pub replies_at: u16,
    pub total: u16,
    pub p2: u32,
    pub star: u32,
    pub overall: u32,
}

pub fn form_in(h: Header) -> Form
    ensures { form_of result ≡ form_in (said h) }
{
    form_of(h.version)
}

// "Header, 36 bytes"; "which makes the header 37 bytes"
pub fn header_size(h: Header) -> usize
    ensures { result ≡ header_size (form_in (said h)) }
{
    36 + moved_by(form_in(h))
}

// The byte of version 1 that must be zero, or the listening address.
fn listens_in(form: Form, log: &[u8]) -> u16
    ensures { result ≡ listens_at9 (form_of form) log.now }
{
    match form {
        Form::Plain => byte_at(log, 9) as u16,
        Form::Addressed => u16_at(log, 9),
    }
}

// The header that the bytes begin with.
fn header_in(log: &[u8]) -> Header
    ensures { said result ≡ header_of log.now }
{
    let version = u16_at(log, 0);
    let form = form_of(version);
    let rest = part(log, moved_by(form), log.len());
    Header {
        version,
        call: byte_at(log, 2),
        flags: byte_at(log, 3),
        value: u16_at(log, 4),
        sub: byte_at(log, 6),
        address_length: byte_at(log, 7),
        size_length: byte_at(log, 8),
        listens: listens_in(form, log),
        arguments: u16_at(rest, 10),
        arguments_at: u16_at(rest, 12),
        events: u16_at(rest, 14),
        events_at: u16_at(rest, 16),
        replies: u16_at(rest, 18),
        replies_at: u16_at(rest, 20),
        total: u16_at(rest, 22),
        p2: u32_at(rest, 24),
        star: u32_at(rest, 28),
        overall: u32_at(rest, 32),
    }
}

// The header at a place of a log.
pub(crate) fn header_at(log: &[u8], at: usize) -> Header
    ensures { said result ≡ header_at log.now at }
{
    header_in(part(log, at, log.len()))
}
