// The report as text: "kept KEPT promised PROMISED", then "FIELD OLD NEW" for each header field rewritten; or "refused N".
ghost use Rattle.std.specs.Prelude.{◌+◌, ◌≤◌, [], ◌∷◌, ◌++◌, length};
ghost use Rattle.mending.specs.Mend.{refused};
ghost use Rattle.mending.specs.Said.{reported, said};
ghost use Rattle.mend.specs.Answered.{report_of};
ghost use Rattle.wire.specs.Refusing.{refusal_number};
ghost use Rattle.text.specs.Written.{Put, counted};
ghost use Rattle.udsmend.specs.Streams.{field_text};

use mend::Report;
use text::put_counted;
use wire::copy_into;
use wire::refusal::Refusal;

// So many bytes have room for every report: of the first line 26, and of each of six fields 29, its name's 16 letters, two numbers of five
// digits, two spaces and the newline.
pub(crate) const LONGEST: usize = 200;

// A line of two numbers, each behind a word.
fn put_pair(
    text: &mut [u8],
    at: usize,
    word: &[u8],
    first: u16,
    between: &[u8],
    second: u16,
) -> usize
    requires { at + length word.now + length between.now + 13 ≤ length text.old }
    ensures put { Put text.old at (counted word.now first ++ counted between.now second ++ (10 ∷ [])) text.new result }
    ensures upper_bound { result ≤ at + length word.now + length between.now + 13 }
{
    let a = put_counted(text, at, word, first as u64);
    let b = put_counted(text, a, between, second as u64);
    copy_into(text, b, b"\n");
    b + 1
}

// "each header field that it rewrote, old and new"
fn put_field(text: &mut [u8], at: usize, name: &[u8], old: u16, new: u16) -> usize
    requires { at + length name.now + 13 ≤ length text.old }
    ensures put { Put text.old at (field_text name.now old new) text.new result }
    ensures upper_bound { result ≤ at + length name.now + 13 }
{
    if old == new {
        return at;
    }
    put_pair(text, at, name, old, b"", new)
}

pub(crate) fn put_report(text: &mut [u8], report: Report) -> usize
    requires { 200 ≤ length text.old }
    ensures { Put text.old 0 (reported (report_of report)) text.new result }
{
    let old = report.old;
    let new = report.new;
    let a = put_pair(text, 0, b"kept", new.events, b" promised", old.events);
    let b = put_field(
        text,
        a,
        b"arguments-offset",
        old.arguments_at,
        new.arguments_at,
    );
    let c = put_field(text, b, b"events-count", old.events, new.events);
    let d = put_field(text, c, b"events-offset", old.events_at, new.events_at);
    let e = put_field(text, d, b"replies-count", old.replies, new.replies);
    let f = put_field(text, e, b"replies-offset", old.replies_at, new.replies_at);
    put_field(text, f, b"total", old.total, new.total)
}

pub(crate) fn put_refusal(text: &mut [u8], refusal: Refusal) -> usize
    requires { 200 ≤ length text.old }
    ensures { Put text.old 0 (said (refused (refusal_number refusal))) text.new result }
{
    let n = put_counted(text, 0, b"refused", u8::from(refusal) as u64);
    copy_into(text, n, b"\n");
    n + 1
}
