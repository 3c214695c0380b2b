// Constants for the UDS client, under the Rust's names: "Wire enums with a NonStandard case become raw bytes and constants".
pub const POSITIVE_RESPONSE: u8 = 0x40;

pub const NEGATIVE_RESPONSE: u8 = 0x7f;

pub const ZERO_SUB_FUNCTION: u8 = 0x00;

// Service Identifiers (SIDs) as defined in ISO 14229
#[derive(Clone, Copy)]
pub struct ServiceIdentifier(pub u8);

impl ServiceIdentifier {
    // Diagnostic and Communication Management
    pub const DiagnosticSessionControl: u8 = 0x10;

    pub const EcuReset: u8 = 0x11;

    pub const SecurityAccess: u8 = 0x27;

    pub const CommunicationControl: u8 = 0x28;

    pub const TesterPresent: u8 = 0x3e;

    pub const AccessTimingParameter: u8 = 0x83;

    pub const SecuredDataTransmission: u8 = 0x84;

    pub const ControlDTCSetting: u8 = 0x85;

    pub const ResponseOnEvent: u8 = 0x86;

    pub const LinkControl: u8 = 0x87;
    // Data Transmission
    pub const ReadDataByIdentifier: u8 = 0x22;

    pub const ReadMemoryByAddress: u8 = 0x23;

    pub const ReadScalingDataByIdentifier: u8 = 0x24;

    pub const ReadDataByPeriodicIdentifier: u8 = 0x2a;

    pub const DynamicallyDefineDataIdentifier: u8 = 0x2c;

    pub const WriteDataByIdentifier: u8 = 0x2e;

    pub const WriteMemoryByAddress: u8 = 0x3d;
    // Stored Data Transmission
    pub const ClearDiagnosticInformation: u8 = 0x14;

    pub const ReadDTCInformation: u8 = 0x19;
    // Input/Output Control
    pub const InputOutputControlByIdentifier: u8 = 0x2f;
    // Routine
    pub const RoutineControl: u8 = 0x31;
    // Upload/Download
    pub const RequestDownload: u8 = 0x34;

    pub const RequestUpload: u8 = 0x35;

    pub const TransferData: u8 = 0x36;

    pub const RequestTransferExit: u8 = 0x37;

    pub const RequestFileTransfer: u8 = 0x38;
}

// Standard Data Identifiers (DIDs) as defined in ISO 14229
#[derive(Clone, Copy)]
pub struct DataIdentifier(pub u16);

impl DataIdentifier {
    pub const BootSoftwareIdentification: u16 = 0xf180;

    pub const ApplicationSoftwareIdentification: u16 = 0xf181;

    pub const ApplicationDataIdentification: u16 = 0xf182;

    pub const BootSoftwareFingerprint: u16 = 0xf183;

    pub const ApplicationSoftwareFingerprint: u16 = 0xf184;

    pub const ApplicationDataFingerprint: u16 = 0xf185;

    pub const ActiveDiagnosticSession: u16 = 0xf186;

    pub const VehicleManufacturerSparePartNumber: u16 = 0xf187;

    pub const VehicleManufacturerEcuSoftwareNumber: u16 = 0xf188;

    pub const VehicleManufacturerEcuSoftwareversionNumber: u16 = 0xf189;

    pub const SystemSupplierIdentifier: u16 = 0xf18a;

    pub const EcumanufacturingDate: u16 = 0xf18b;

    pub const EcuSerialNumber: u16 = 0xf18c;

    pub const SupportedFunctionalUnits: u16 = 0xf18d;

    pub const VehicleManufacturerKitAssemblyPartNumber: u16 = 0xf18e;

    pub const Vin: u16 = 0xf190;

    pub const VehicleManufacturerEcuHardwareNumber: u16 = 0xf191;

    pub const SystemSupplierEcuHardwareNumber: u16 = 0xf192;

    pub const SystemSupplierEcuHardwareVersionNumber: u16 = 0xf193;

    pub const SystemSupplierEcuSoftwareNumber: u16 = 0xf194;

    pub const SystemSupplierEcuSoftwareVersionNumber: u16 = 0xf195;

    pub const ExhaustRegulationOrTypeApprovalNumber: u16 = 0xf196;

    pub const SystemNameOrEngineType: u16 = 0xf197;

    pub const RepairShopCodeorTesterSerialNumber: u16 = 0xf198;

    pub const ProgrammingDate: u16 = 0xf199;

    pub const CalibrationRepairShopCodeOrCalibrationEquipmentSerialNumber: u16 = 0xf19a;

    pub const CalibrationDate: u16 = 0xf19b;

    pub const CalibrationEquipmentSoftwareNumber: u16 = 0xf19c;

    pub const EcuInstallationDate: u16 = 0xf19d;

    pub const OdxFile: u16 = 0xf19e;

    pub const Entity: u16 = 0xf19f;
}

// Diagnostic Session Type Sub-Function ID as defined in ISO 14229
#[derive(Clone, Copy)]
pub struct SessionType(pub u8);

impl SessionType {
    pub const Default: u8 = 0x01;

    pub const Programming: u8 = 0x02;

    pub const ExtendedDiagnostic: u8 = 0x03;

    pub const SafetySystemDiagnostic: u8 = 0x04;
}

// ECU Reset Sub-Function ID as defined in ISO 14229
#[derive(Clone, Copy)]
pub struct ResetType(pub u8);

impl ResetType {
    // Simulates power-on/start-up sequence after a power loss
    pub const HardReset: u8 = 0x01;
    // Simulates the driver turning the key off and then on again
    pub const KeyOffOnReset: u8 = 0x02;
    // Restart the application software
    pub const SoftRest: u8 = 0x03;
    // Applies to ECUs that are permanently powered. Forces the ECU to enter sleep mode.
    pub const EnableRapidPowerShutDown: u8 = 0x04;
}

// Security Access Type Sub-Function ID as defined in ISO 14229
#[derive(Clone, Copy)]
pub struct SecurityAccessType(pub u8);

impl SecurityAccessType {
    pub const RequestSeed: u8 = 0x01;

    pub const SendKey: u8 = 0x02;
}

// Routine Control Sub-Function ID as defined in ISO 14229
#[derive(Clone, Copy)]
pub struct RoutineControlType(pub u8);

impl RoutineControlType {
    pub const Start: u8 = 0x01;

    pub const Stop: u8 = 0x02;

    pub const RequestResults: u8 = 0x03;
}

// Read DTC Information Sub-Function ID as defined in ISO 14229
#[derive(Clone, Copy)]
pub struct ReportType(pub u8);

impl ReportType {
    pub const ReportNumberOfDTCByStatusMask: u8 = 0x01;

    pub const ReportDTCByStatusMask: u8 = 0x02;

    pub const ReportDTCSnapshotIdentification: u8 = 0x03;

    pub const ReportDTCSnapshotRecordByDTCNumber: u8 = 0x04;

    pub const ReportDTCStoredDataByRecordNumber: u8 = 0x05;

    pub const ReportDTCExtDataRecordByDTCNumber: u8 = 0x06;

    pub const ReportNumberOfDTCBySeverityMaskRecord: u8 = 0x07;

    pub const ReportDTCBySeverityMaskRecord: u8 = 0x08;

    pub const ReportSeverityInformationOfDTC: u8 = 0x09;

    pub const ReportSupportedDTC: u8 = 0x0a;

    pub const ReportFirstTestFailedDTC: u8 = 0x0b;

    pub const ReportFirstConfirmedDTC: u8 = 0x0c;

    pub const ReportMostRecentTestFailedDTC: u8 = 0x0d;

    pub const ReportMostRecentConfirmedDTC: u8 = 0x0e;

    pub const ReportMirrorMemoryDTCByStatusMask: u8 = 0x0f;

    pub const ReportMirrorMemoryDTCExtDataRecordByDTCNumber: u8 = 0x10;

    pub const ReportNumberOfMirrorMemoryDTCByStatusMask: u8 = 0x11;

    pub const ReportNumberOfEmissionsOBDDTCByStatusMask: u8 = 0x12;

    pub const ReportEmissionsOBDDTCByStatusMask: u8 = 0x13;

    pub const ReportDTCFaultDetectionCounter: u8 = 0x14;

    pub const ReportDTCWithPermanentStatus: u8 = 0x15;

    pub const ReportDTCExtDataRecordByRecordNumber: u8 = 0x16;

    pub const ReportUserDefMemoryDTCByStatusMask: u8 = 0x17;

    pub const ReportUserDefMemoryDTCSnapshotRecordByDTCNumber: u8 = 0x18;

    pub const ReportUserDefMemoryDTCExtDataRecordByDTCNumber: u8 = 0x19;

    pub const ReportWWHOBDDTCWithPermanentStatus: u8 = 0x55;
}

// Standard routine identifiers defined in ISO 14229, Annex F. Other routine identifiers can be passed as raw `u16` values
#[derive(Clone, Copy)]
pub struct RoutineIdentifier(pub u16);

impl RoutineIdentifier {
    pub const EraseMemory: u16 = 0xff00;

    pub const CheckProgrammingDependencies: u16 = 0xff01;

    pub const EraseMirrorMemoryDTCs: u16 = 0xff02;
}
