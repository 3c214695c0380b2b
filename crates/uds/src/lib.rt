// Unified Diagnostic Services (UDS) client, implements ISO 14229. Every call takes, behind its arguments, the lent request buffer, the events (ten bytes
// each, or twelve with addresses) and the reply bytes. Above each is its row of document 01's table: request -> strict positive -> data handed out; s is the sub-function with bit 7 cleared.
#![tactic(auto)]

ghost use Rattle.std.specs.Prelude.{[], ◌≡◌};
ghost use Rattle.rules.specs.Calls as rules;
ghost use Rattle.rules.specs.Calls.{session, reset, security, tester_present, read_memory, write_memory, read_identifier, write_identifier, fault_count, fault_list, routine, download, upload, transfer, transfer_exit, alfid};
ghost use Rattle.exchange.specs.Meaning.{option_of};
ghost use Rattle.requests.specs.Meaning.{data_of, call_from, call_of};
ghost use Rattle.uds.specs.Clients.{session_of, kept_by, ask_of, given, Asks};
ghost use Rattle.uds.specs.Defaults.{defaults};

use calls::{Answered, Ask, run, run_alfid};
use config::UDSConfig;
use exchange::types::Timing;
use requests::{Call, Data};
use suppressed::SuppressedUDSClient;

pub mod config;
pub mod suppressed;
pub mod types;

// A configuration and the session's timing, by value. An answer has the timing afterwards. The view with `QUIET` suppresses positive responses: it sets
// bit 7 of the sub-function. A call without a sub-function is the same on both, and requires a response.
#[derive(Clone, Copy)]
pub struct Client<const QUIET: bool> {
    pub config: UDSConfig,
    pub session: Timing,
}

// UDS Client. Its view is `suppressed::SuppressedUDSClient`.
pub type UDSClient = Client<false>;

impl UDSClient {
    pub fn new() -> UDSClient
        ensures { (result.config ≡ defaults) × (result.session ≡ session_of defaults) }
    {
        UDSClient::with_config(UDSConfig::default())
    }

    // Create a client with custom response timing and validation settings.
    pub fn with_config(config: UDSConfig) -> UDSClient
        ensures { (result.config ≡ config) × (result.session ≡ session_of config) }
    {
        Client {
            config,
            session: Timing {
                p2: config.p2_timeout,
                star: config.p2_star_timeout,
            },
        }
    }

    // A view that suppresses positive responses for requests with a sub-function.
    pub fn suppress_positive_responses(self) -> SuppressedUDSClient
        ensures { (result.config ≡ self.config) × (result.session ≡ self.session) }
    {
        Client {
            config: self.config,
            session: self.session,
        }
    }
}

// Data as the calls take it: whether it is given, and its bytes.
fn lent<'a>(data: Option<&'a [u8]>) -> (Data, &'a [u8])
    ensures { data_of result.0 result.1.now ≡ given «data».entry }
{
    match data {
        None => (Data::Absent, b""),
        Some(bytes) => (Data::Present, bytes),
    }
}

impl<const QUIET: bool> Client<QUIET> {
    // The client behind a call: it keeps the session's timing, as the Rust's client does, whose views share it.
    pub fn after(self, answered: Answered) -> Client<QUIET>
        ensures { result ≡ kept_by self.entry answered }
    {
        Client {
            config: self.config,
            session: answered.timing,
        }
    }

    // How this client asks.
    fn ask(self, call: Call) -> Ask
        ensures { result ≡ ask_of self.entry QUIET call }
    {
        let config = self.config;
        Ask {
            call,
            quiet: QUIET,
            strict: config.strict,
            server: config.use_server_timing,
            overall: config.request_timeout,
            limit: config.notice_limit,
            channel: config.channel,
        }
    }

    // The calls with an address and a size as bytes, those without, and those with both as numbers.
    fn call_memory(
        self,
        call: Call,
        address: &[u8],
        size: &[u8],
        data: &[u8],
        request: &mut [u8],
        events: &[u8],
        replies: &[u8],
    ) -> Answered
        ensures { Asks self.entry QUIET (call_of call address.now size.now «data».now)
            request.old events.now replies.now result request.new }
    {
        run(
            self.session,
            self.ask(call),
            request,
            address,
            size,
            data,
            events,
            replies,
        )
    }

    fn call(
        self,
        call: Call,
        data: &[u8],
        request: &mut [u8],
        events: &[u8],
        replies: &[u8],
    ) -> Answered
        ensures { Asks self.entry QUIET (call_of call [] [] «data».now) request.old events.now replies.now result request.new }
    {
        self.call_memory(call, b"", b"", data, request, events, replies)
    }

    fn call_alfid(
        self,
        call: Call,
        address: u64,
        size: u64,
        address_width: usize,
        size_width: usize,
        data: &[u8],
        request: &mut [u8],
        events: &[u8],
        replies: &[u8],
    ) -> Answered
        ensures { Asks self.entry QUIET
            (call_from call (alfid address address_width self.entry.config.wide) (alfid size size_width self.entry.config.wide)
            «data».now) request.old events.now replies.now result
            request.new }
    {
        run_alfid(
            self.session,
            self.ask(call),
            request,
            address,
            size,
            address_width,
            size_width,
            self.config.wide,
            data,
            events,
            replies,
        )
    }

    // Make a custom UDS request. Setting bit 7 of `sub_function` suppresses positive responses.
    // SID sub? data? -> SID OR 40, s? + 0.. -> after these
    pub fn request(
        self,
        sid: u8,
        sub_function: Option<u8>,
        data: Option<&[u8]>,
        request: &mut [u8],
        events: &[u8],
        replies: &[u8],
    ) -> Answered
        ensures { Asks self.entry QUIET (rules.request sid (option_of sub_function) (given «data».entry))
            request.old events.now replies.now result request.new }
    {
        let (given, bytes) = lent(data);
        self.call(
            Call::Request(sid, sub_function, given),
            bytes,
            request,
            events,
            replies,
        )
    }

    // 0x10 - Diagnostic Session Control. Its timings apply to the session afterwards unless `use_server_timing` is off.
    // 10 sub -> 50 s + 4 -> the 4
    pub fn diagnostic_session_control(
        self,
        session_type: u8,
        request: &mut [u8],
        events: &[u8],
        replies: &[u8],
    ) -> Answered
        ensures { Asks self.entry QUIET (session session_type) request.old events.now replies.now result request.new }
    {
        self.call(
            Call::DiagnosticSessionControl(session_type),
            b"",
            request,
            events,
            replies,
        )
    }

    // 0x11 - ECU Reset.
    // 11 sub -> 51 s, + 1 exactly if s = 4 -> that 1
    pub fn ecu_reset(
        self,
        reset_type: u8,
        request: &mut [u8],
        events: &[u8],
        replies: &[u8],
    ) -> Answered
        ensures { Asks self.entry QUIET (reset reset_type) request.old events.now replies.now result request.new }
    {
        self.call(Call::EcuReset(reset_type), b"", request, events, replies)
    }

    // 0x27 - Security Access. Odd values request a seed; even values send a key, which must be given.
    // 27 sub data? -> odd: 67 s + 1.., even: 67 s -> odd: the rest
    pub fn security_access(
        self,
        access_type: u8,
        data: Option<&[u8]>,
        request: &mut [u8],
        events: &[u8],
        replies: &[u8],
    ) -> Answered
        ensures { Asks self.entry QUIET (security access_type (given «data».entry)) request.old
            events.now replies.now result request.new }
    {
        let (given, bytes) = lent(data);
        self.call(
            Call::SecurityAccess(access_type, given),
            bytes,
            request,
            events,
            replies,
        )
    }

    // 0x3E - Tester Present.
    // 3E 00 -> 7E 00 -> none
    pub fn tester_present(self, request: &mut [u8], events: &[u8], replies: &[u8]) -> Answered
        ensures { Asks self.entry QUIET (tester_present) request.old events.now replies.now result request.new }
    {
        self.call(Call::TesterPresent, b"", request, events, replies)
    }

    // 0x22 - Read Data By Identifier.
    // 22 id -> 62 id + 1.. -> after id
    pub fn read_data_by_identifier(
        self,
        data_identifier: u16,
        request: &mut [u8],
        events: &[u8],
        replies: &[u8],
    ) -> Answered
        ensures { Asks self.entry QUIET (read_identifier data_identifier) request.old events.now replies.now result request.new }
    {
        self.call(
            Call::ReadDataByIdentifier(data_identifier),
            b"",
            request,
            events,
            replies,
        )
    }

    // 0x23 - Read Memory By Address. Both fields are big-endian bytes.
    // 23 f addr size -> 63 + M, M the value of size and at least 1 -> the M
    pub fn read_memory_by_address(
        self,
        memory_address: &[u8],
        memory_size: &[u8],
        request: &mut [u8],
        events: &[u8],
        replies: &[u8],
    ) -> Answered
        ensures { Asks self.entry QUIET
            (read_memory (rules.given memory_address.now) (rules.given memory_size.now))
            request.old events.now replies.now result request.new }
    {
        self.call_memory(
            Call::ReadMemoryByAddress,
            memory_address,
            memory_size,
            b"",
            request,
            events,
            replies,
        )
    }

    // 0x23 - Read Memory By Address with numeric address and size. The widths are byte counts from 1 to 8, or to 15 with `wide`.
    pub fn read_memory_by_address_alfid(
        self,
        memory_address: u64,
        memory_size: u64,
        address_width: usize,
        size_width: usize,
        request: &mut [u8],
        events: &[u8],
        replies: &[u8],
    ) -> Answered
        ensures { Asks self.entry QUIET
            (read_memory (alfid memory_address address_width self.entry.config.wide)
            (alfid memory_size size_width self.entry.config.wide)) request.old events.now
            replies.now result request.new }
    {
        self.call_alfid(
            Call::ReadMemoryByAddress,
            memory_address,
            memory_size,
            address_width,
            size_width,
            b"",
            request,
            events,
            replies,
        )
    }

    // 0x2E - Write Data By Identifier.
    // 2E id data -> 6E id -> none
    pub fn write_data_by_identifier(
        self,
        data_identifier: u16,
        data_record: &[u8],
        request: &mut [u8],
        events: &[u8],
        replies: &[u8],
    ) -> Answered
        ensures { Asks self.entry QUIET (write_identifier data_identifier data_record.now) request.old
            events.now replies.now result request.new }
    {
        self.call(
            Call::WriteDataByIdentifier(data_identifier),
            data_record,
            request,
            events,
            replies,
        )
    }

    // 0x3D - Write Memory By Address.
    // 3D f addr size data -> 7D f addr size -> f addr size
    pub fn write_memory_by_address(
        self,
        memory_address: &[u8],
        memory_size: &[u8],
        data: &[u8],
        request: &mut [u8],
        events: &[u8],
        replies: &[u8],
    ) -> Answered
        ensures { Asks self.entry QUIET
            (write_memory (rules.given memory_address.now) (rules.given memory_size.now)
            «data».now) request.old events.now replies.now result
            request.new }
    {
        self.call_memory(
            Call::WriteMemoryByAddress,
            memory_address,
            memory_size,
            data,
            request,
            events,
            replies,
        )
    }

    // 0x3D - Write Memory By Address with numeric address and size.
    pub fn write_memory_by_address_alfid(
        self,
        memory_address: u64,
        memory_size: u64,
        address_width: usize,
        size_width: usize,
        data: &[u8],
        request: &mut [u8],
        events: &[u8],
        replies: &[u8],
    ) -> Answered
        ensures { Asks self.entry QUIET
            (write_memory (alfid memory_address address_width self.entry.config.wide)
            (alfid memory_size size_width self.entry.config.wide) «data».now) request.old
            events.now replies.now result request.new }
    {
        self.call_alfid(
            Call::WriteMemoryByAddress,
            memory_address,
            memory_size,
            address_width,
            size_width,
            data,
            request,
            events,
            replies,
        )
    }

    // 0x19, sub-function 0x01 - Report the number of DTCs matching `mask`.
    // 19 01 mask -> 59 01 + 4 -> the 4
    pub fn read_dtc_information_number_of_dtc_by_status_mask(
        self,
        mask: u8,
        request: &mut [u8],
        events: &[u8],
        replies: &[u8],
    ) -> Answered
        ensures { Asks self.entry QUIET (fault_count mask) request.old events.now replies.now result request.new }
    {
        self.call(
            Call::ReadDTCInformation(mask),
            b"",
            request,
            events,
            replies,
        )
    }

    // 0x19, sub-function 0x02 - Report the DTCs matching `mask`. Not one of the Rust's methods; `faults` selects among the records.
    // 19 02 mask -> 59 02 + 1 + 4 for each DTC -> after the sub-function
    pub fn read_dtc_information_dtc_by_status_mask(
        self,
        mask: u8,
        request: &mut [u8],
        events: &[u8],
        replies: &[u8],
    ) -> Answered
        ensures { Asks self.entry QUIET (fault_list mask) request.old events.now replies.now result request.new }
    {
        self.call(
            Call::ReadDTCInformationDTC(mask),
            b"",
            request,
            events,
            replies,
        )
    }

    // 0x31 - Routine Control.
    // 31 sub id data? -> 71 s id + 0.. -> after id
    pub fn routine_control(
        self,
        routine_control_type: u8,
        routine_identifier: u16,
        data: Option<&[u8]>,
        request: &mut [u8],
        events: &[u8],
        replies: &[u8],
    ) -> Answered
        ensures { Asks self.entry QUIET (routine routine_control_type routine_identifier (given «data».entry))
            request.old events.now replies.now result request.new }
    {
        let (given, bytes) = lent(data);
        self.call(
            Call::RoutineControl(routine_control_type, routine_identifier, given),
            bytes,
            request,
            events,
            replies,
        )
    }

    // 0x34 - Request Download. Initiates a transfer from the client to the ECU; its number is the block length.
    // 34 m f addr size -> 74 n0, n bytes -> the n
    pub fn request_download(
        self,
        compression_method: u8,
        encryption_method: u8,
        memory_address: &[u8],
        memory_size: &[u8],
        request: &mut [u8],
        events: &[u8],
        replies: &[u8],
    ) -> Answered
        ensures { Asks self.entry QUIET
            (download compression_method encryption_method (rules.given memory_address.now)
            (rules.given memory_size.now)) request.old events.now replies.now result
            request.new }
    {
        self.call_memory(
            Call::RequestDownload(compression_method, encryption_method),
            memory_address,
            memory_size,
            b"",
            request,
            events,
            replies,
        )
    }

    // 0x34 - Request Download with numeric address and size.
    pub fn request_download_alfid(
        self,
        compression_method: u8,
        encryption_method: u8,
        memory_address: u64,
        memory_size: u64,
        address_width: usize,
        size_width: usize,
        request: &mut [u8],
        events: &[u8],
        replies: &[u8],
    ) -> Answered
        ensures { Asks self.entry QUIET
            (download compression_method encryption_method (alfid memory_address address_width self.entry.config.wide)
            (alfid memory_size size_width self.entry.config.wide)) request.old events.now
            replies.now result request.new }
    {
        self.call_alfid(
            Call::RequestDownload(compression_method, encryption_method),
            memory_address,
            memory_size,
            address_width,
            size_width,
            b"",
            request,
            events,
            replies,
        )
    }

    // 0x35 - Request Upload. Initiates a transfer from the ECU to the client; its number is the block length.
    // 35 m f addr size -> 75 n0, n bytes -> the n
    pub fn request_upload(
        self,
        compression_method: u8,
        encryption_method: u8,
        memory_address: &[u8],
        memory_size: &[u8],
        request: &mut [u8],
        events: &[u8],
        replies: &[u8],
    ) -> Answered
        ensures { Asks self.entry QUIET
            (upload compression_method encryption_method (rules.given memory_address.now)
            (rules.given memory_size.now)) request.old events.now replies.now result
            request.new }
    {
        self.call_memory(
            Call::RequestUpload(compression_method, encryption_method),
            memory_address,
            memory_size,
            b"",
            request,
            events,
            replies,
        )
    }

    // 0x35 - Request Upload with numeric address and size.
    pub fn request_upload_alfid(
        self,
        compression_method: u8,
        encryption_method: u8,
        memory_address: u64,
        memory_size: u64,
        address_width: usize,
        size_width: usize,
        request: &mut [u8],
        events: &[u8],
        replies: &[u8],
    ) -> Answered
        ensures { Asks self.entry QUIET
            (upload compression_method encryption_method (alfid memory_address address_width self.entry.config.wide)
            (alfid memory_size size_width self.entry.config.wide)) request.old events.now
            replies.now result request.new }
    {
        self.call_alfid(
            Call::RequestUpload(compression_method, encryption_method),
            memory_address,
            memory_size,
            address_width,
            size_width,
            b"",
            request,
            events,
            replies,
        )
    }

    // 0x36 - Transfer Data. Data is given in a download and absent in an upload.
    // 36 counter data? -> 76 counter + 0.., 1.. if data absent -> after counter
    pub fn transfer_data(
        self,
        block_sequence_counter: u8,
        data: Option<&[u8]>,
        request: &mut [u8],
        events: &[u8],
        replies: &[u8],
    ) -> Answered
        ensures { Asks self.entry QUIET (transfer block_sequence_counter (given «data».entry))
            request.old events.now replies.now result request.new }
    {
        let (given, bytes) = lent(data);
        self.call(
            Call::TransferData(block_sequence_counter, given),
            bytes,
            request,
            events,
            replies,
        )
    }

    // 0x37 - Request Transfer Exit.
    // 37 data? -> 77 + 0.. -> all
    pub fn request_transfer_exit(
        self,
        data: Option<&[u8]>,
        request: &mut [u8],
        events: &[u8],
        replies: &[u8],
    ) -> Answered
        ensures { Asks self.entry QUIET (transfer_exit (given «data».entry)) request.old events.now replies.now result request.new }
    {
        let (given, bytes) = lent(data);
        self.call(
            Call::RequestTransferExit(given),
            bytes,
            request,
            events,
            replies,
        )
    }
}
