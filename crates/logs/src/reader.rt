// "a log reader that keeps the lent log and its place". The functions over it are thin: each takes it apart and leaves the work to a function of
// plain parameters. Other callers use `read_header` and `read_area`, whose parameters are a plain slice and numbers.
ghost use Rattle.std.specs.Prelude.{◌≡◌};
ghost use Rattle.rules.specs.Logs.{header_of, area};
ghost use Rattle.logs.specs.Layout.{said, header_at};

use crate::header::{Header, header_at};
use wire::part;

#[derive(Drop)]
pub struct LogReader<'a> {
    pub log: &'a [u8],
    pub at: usize,
}

pub fn new<'a>(log: &'a [u8]) -> LogReader<'a>
    ensures { (result.log ≡ log.entry) × (result.at ≡ 0) }
{
    LogReader { log, at: 0 }
}

// The same log at another place.
pub fn moved<'a>(r: LogReader<'a>, at: usize) -> LogReader<'a>
    ensures { (result.log ≡ r.entry.log) × (result.at ≡ at) }
{
    LogReader { log: r.log, at }
}

// The header at the reader's place.
pub fn header_of<'a>(r: LogReader<'a>) -> Header
    ensures { said result ≡ header_at r.entry.log.now r.entry.at }
{
    header_at(r.log, r.at)
}

// The n bytes at the reader's place, or as many of them as there are.
pub fn area_of<'a>(r: LogReader<'a>, n: usize) -> &'a [u8]
    ensures { result.now ≡ area r.entry.log.now r.entry.at n }
{
    part(r.log, r.at, n)
}

// The header that a log begins with.
pub fn read_header(log: &[u8]) -> Header
    ensures { said result ≡ header_of log.now }
{
    header_of(new(log))
}

pub fn read_area<'a>(log: &'a [u8], at: usize, n: usize) -> &'a [u8]
    ensures { result.now ≡ area log.now at n }
{
    area_of(moved(new(log), at), n)
}
