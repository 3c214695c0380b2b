// What a request has behind SID and sub-function, or the refusal of the arguments that say it: refusals 1 to 5.
ghost use Rattle.std.specs.Prelude.{◌≡◌};
ghost use Rattle.wire.specs.Refusing.{numbered};
ghost use Rattle.requests.specs.Parameters.{methods, lengths, arguments_of};

use crate::Data;
use crate::rows::{Numbers, Takes};
use wire::refusal::Refusal;
use wire::types::{CompressionMethod, EncryptionMethod, data_format};

// Numbers, whether address and size stand behind them, and whether the data do.
#[derive(Clone, Copy)]
pub struct Sent {
    pub numbers: Numbers,
    pub memory: bool,
    pub data: Data,
}

// "m = compression × 16 + encryption"; refusals 4 and 5.
fn methods(compression: u8, encryption: u8) -> Result<u8, Refusal>
    ensures { numbered result ≡ methods compression encryption }
{
    let c = CompressionMethod::new(compression)?;
    let e = EncryptionMethod::new(encryption)?;
    Ok(data_format(c, e))
}

// "f = size length × 16 + address length, both 1..15"; refusals 2 and 3.
fn lengths(address: &[u8], size: &[u8]) -> Result<u8, Refusal>
    ensures { numbered result ≡ lengths address.now size.now }
{
    if address.len() < 1 {
        return Err(Refusal::AddressLength);
    }
    if address.len() > 15 {
        return Err(Refusal::AddressLength);
    }
    if size.len() < 1 {
        return Err(Refusal::SizeLength);
    }
    if size.len() > 15 {
        return Err(Refusal::SizeLength);
    }
    Ok((size.len() * 16 + address.len()) as u8)
}

pub fn arguments(takes: Takes, address: &[u8], size: &[u8]) -> Result<Sent, Refusal>
    ensures { numbered result ≡ arguments_of takes address.now size.now }
{
    match takes {
        Takes::Plain(numbers, data) => Ok(Sent {
            numbers,
            memory: false,
            data,
        }),
        Takes::Key(sub, data) => match data {
            Data::Present => Ok(Sent {
                numbers: Numbers::Empty,
                memory: false,
                data,
            }),
            Data::Absent => {
                // "call 3, even sub-function, data absent"
                if sub % 2 == 0 {
                    return Err(Refusal::KeyWithoutData);
                }
                Ok(Sent {
                    numbers: Numbers::Empty,
                    memory: false,
                    data,
                })
            }
        },
        // "f addr size", and data behind them in call 6
        Takes::Memory(data) => {
            let f = lengths(address, size)?;
            Ok(Sent {
                numbers: Numbers::One(f),
                memory: true,
                data,
            })
        }
        // "m f addr size": 4 and 5 are refused before 2 and 3
        Takes::Load(c, e) => {
            let m = methods(c, e)?;
            let f = lengths(address, size)?;
            Ok(Sent {
                numbers: Numbers::Two(m, f),
                memory: true,
                data: Data::Absent,
            })
        }
    }
}
