// Negative response codes under the Rust's names. What went wrong with a call is `exchange::types::Outcome`, a deviation `exchange::error::ProtocolDeviation`.
// Negative Response Codes returned by ECU as defined in ISO 14229
#[derive(Clone, Copy)]
pub struct NegativeResponseCode(pub u8);

impl NegativeResponseCode {
    pub const GeneralReject: u8 = 0x10;

    pub const ServiceNotSupported: u8 = 0x11;

    pub const SubFunctionNotSupported: u8 = 0x12;

    pub const IncorrectMessageLengthOrInvalidFormat: u8 = 0x13;

    pub const ResponseTooLong: u8 = 0x14;

    pub const BusyRepeatRequest: u8 = 0x21;

    pub const ConditionsNotCorrect: u8 = 0x22;

    pub const RequestSequenceError: u8 = 0x24;

    pub const NoResponseFromSubnetComponent: u8 = 0x25;

    pub const FailurePreventsExecutionOfRequestedAction: u8 = 0x26;

    pub const RequestOutOfRange: u8 = 0x31;

    pub const SecurityAccessDenied: u8 = 0x33;

    pub const InvalidKey: u8 = 0x35;

    pub const ExeedNumberOfAttempts: u8 = 0x36;

    pub const RequiredTimeDelayNotExpired: u8 = 0x37;

    pub const UploadDownloadNotAccepted: u8 = 0x70;

    pub const TransferDataSuspended: u8 = 0x71;

    pub const GeneralProgrammingFailure: u8 = 0x72;

    pub const WrongBlockSequenceCounter: u8 = 0x73;

    pub const RequestCorrectlyReceivedResponsePending: u8 = 0x78;

    pub const SubFunctionNotSupportedInActiveSession: u8 = 0x7e;

    pub const ServiceNotSupportedInActiveSession: u8 = 0x7f;
}
