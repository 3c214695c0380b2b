// How a client makes its calls.
ghost use Rattle.std.specs.Prelude.{◌≡◌};
ghost use Rattle.uds.specs.Defaults.{defaults};

use exchange::types::{Channel, Form};

// Configuration for a `UDSClient`, times in milliseconds.
#[derive(Clone, Copy)]
pub struct UDSConfig {
    // Initial response wait. When suppression is requested, silence through this window is successful unless NRC 0x78 was received.
    pub p2_timeout: u32,
    // Response wait after each NRC 0x78; each pending response restarts this wait.
    pub p2_star_timeout: u32,
    // Overall limit, including all pending responses.
    pub request_timeout: Option<u32>,
    // Adopt P2/P2* reported by DiagnosticSessionControl.
    pub use_server_timing: bool,
    // Whether responses are validated against ISO 14229-1:2013.
    pub strict: bool,
    // Not the Rust's: the `alfid` forms take widths of 1 to 15 bytes, padded with zeros on the left, and not only of 1 to 8.
    pub wide: bool,
    // Not the Rust's: how many notices (NRC 0x78) a call bears; the one after ends it with `PendingLimit`.
    pub notice_limit: Option<u8>,
    // Not the Rust's: the address that is listened to on a channel that several controllers answer on, and how its events are lent.
    pub channel: Channel,
}

impl Default for UDSConfig {
    ghost is_default = { λ config. config ≡ defaults };

    // P2 50 ms, P2* five seconds, no overall limit, server timing and strict on, wide off, no limit of notices, events without addresses.
    fn default() -> UDSConfig {
        let channel = Channel {
            form: Form::Plain,
            listens: 0,
        };
        UDSConfig {
            p2_timeout: 50,
            p2_star_timeout: 5000,
            request_timeout: None,
            use_server_timing: true,
            strict: true,
            wide: false,
            notice_limit: None,
            channel,
        }
    }
}
