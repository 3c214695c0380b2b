// Types of what the calls hand out, and total functions from the bytes to them.
ghost use Rattle.std.specs.Prelude.{◌≡◌};
ghost use Rattle.uds.specs.Typed.{session_record, power_down, fault_report};

// Struct returned by DiagnosticSessionControl (0x10), in milliseconds
#[derive(Clone, Copy)]
pub struct SessionParameterRecord {
    pub p2_server_max: u32,
    pub p2_star_server_max: u32,
}

// Of four bytes: P2 is the first pair, P2* ten times the second.
pub fn session_parameter_record(bytes: &[u8]) -> Option<SessionParameterRecord>
    ensures { result ≡ session_record bytes.now }
{
    if bytes.len() == 4 {
        let p2 = wire::u16_at(bytes, 0) as u32;
        let star = wire::u16_at(bytes, 2) as u32 * 10;
        Some(SessionParameterRecord {
            p2_server_max: p2,
            p2_star_server_max: star,
        })
    } else {
        None
    }
}

// The byte of an ECUReset (0x11) that enables rapid power shut down.
pub fn power_down_time(bytes: &[u8]) -> Option<u8>
    ensures { result ≡ power_down bytes.now }
{
    if bytes.len() == 1 {
        Some(wire::byte_at(bytes, 0))
    } else {
        None
    }
}

// DTC format identifiers defined in ISO 14229, Annex D
#[derive(Clone, Copy)]
pub struct DTCFormatIdentifier(pub u8);

impl DTCFormatIdentifier {
    pub const SAE_J2012_DA_DTCFormat_00: u8 = 0x00;

    pub const ISO_14229_1_DTCFormat: u8 = 0x01;

    pub const SAE_J1939_73_DTCFormat: u8 = 0x02;

    pub const ISO_11992_4_DTCFormat: u8 = 0x03;

    pub const SAE_J2012_DA_DTCFormat_04: u8 = 0x04;
}

// Struct returned by ReadDTCInformation (0x19)
#[derive(Clone, Copy)]
pub struct DTCReportNumberByStatusMask {
    pub dtc_status_availability_mask: u8,
    pub dtc_format_identifier: u8,
    pub dtc_count: u16,
}

pub fn dtc_report_number_by_status_mask(bytes: &[u8]) -> Option<DTCReportNumberByStatusMask>
    ensures { result ≡ fault_report bytes.now }
{
    if bytes.len() == 4 {
        Some(DTCReportNumberByStatusMask {
            dtc_status_availability_mask: wire::byte_at(bytes, 0),
            dtc_format_identifier: wire::byte_at(bytes, 1),
            dtc_count: wire::u16_at(bytes, 2),
        })
    } else {
        None
    }
}
