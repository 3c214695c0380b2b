// What can be wrong with a reply: the Rust's `ProtocolDeviation`, in its order, which is document 01's numbering.
ghost use Rattle.std.specs.Prelude.{◌≡◌};
ghost use Rattle.exchange.specs.Meaning.{deviation_number};

#[derive(Clone, Copy)]
pub enum ProtocolDeviation {
    InvalidServiceId,
    InvalidRequestServiceId,
    InvalidSubFunction,
    UnexpectedPositiveResponse,
    InvalidDataIdentifier,
    InvalidRoutineIdentifier,
    InvalidBlockSequenceCounter,
    // minimum, maximum
    InvalidResponseLength(usize, Option<usize>),
    InvalidLengthFormat,
    InvalidLengthFormatIdentifier,
    InvalidMaxNumberOfBlockLength,
    InvalidAddressAndLengthFormatIdentifier,
    InvalidMemoryAddress,
    InvalidMemorySize,
    InvalidMemoryRecordLength,
}

// A reply that breaks a rule: a deviation (strict), a length that cannot be read (lenient), or a block length above 2^64 - 1.
#[derive(Clone, Copy)]
pub enum Fault {
    ProtocolDeviation(ProtocolDeviation),
    InvalidResponseLength,
    BlockLengthOverflow,
}

// "Deviations are numbered 1 to 15 in the order of `ProtocolDeviation`"
impl From<ProtocolDeviation> for u8 {
    ghost from_gives = { λ deviation r. r ≡ deviation_number deviation };

    fn from(deviation: ProtocolDeviation) -> u8 {
        match deviation {
            ProtocolDeviation::InvalidServiceId => 1,
            ProtocolDeviation::InvalidRequestServiceId => 2,
            ProtocolDeviation::InvalidSubFunction => 3,
            ProtocolDeviation::UnexpectedPositiveResponse => 4,
            ProtocolDeviation::InvalidDataIdentifier => 5,
            ProtocolDeviation::InvalidRoutineIdentifier => 6,
            ProtocolDeviation::InvalidBlockSequenceCounter => 7,
            ProtocolDeviation::InvalidResponseLength(_, _) => 8,
            ProtocolDeviation::InvalidLengthFormat => 9,
            ProtocolDeviation::InvalidLengthFormatIdentifier => 10,
            ProtocolDeviation::InvalidMaxNumberOfBlockLength => 11,
            ProtocolDeviation::InvalidAddressAndLengthFormatIdentifier => 12,
            ProtocolDeviation::InvalidMemoryAddress => 13,
            ProtocolDeviation::InvalidMemorySize => 14,
            ProtocolDeviation::InvalidMemoryRecordLength => 15,
        }
    }
}
