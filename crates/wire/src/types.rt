// "`CompressionMethod` and `EncryptionMethod` remain two separate nibble types", joined only in the data format byte; so they are no one generic type.
ghost use Rattle.std.specs.Prelude.{◌≡◌};
ghost use Rattle.wire.specs.Methods.{compression, encryption, data_format};
ghost use Rattle.wire.specs.Refusing.{numbered};

use crate::refusal::Refusal;

// Download/upload compression method, the high nibble of the data format byte. Zero means no compression.
#[derive(Clone, Copy)]
pub struct CompressionMethod(pub u8);

// Download/upload encryption method, the low nibble of the data format byte. Zero means no encryption.
#[derive(Clone, Copy)]
pub struct EncryptionMethod(pub u8);

impl CompressionMethod {
    pub const NONE: CompressionMethod = CompressionMethod(0);

    pub fn new(value: u8) -> Result<CompressionMethod, Refusal>
        ensures { numbered result ≡ compression value }
    {
        if value <= 15 {
            Ok(CompressionMethod(value))
        } else {
            Err(Refusal::Compression)
        }
    }

    pub fn as_raw(self) -> u8
        ensures { result ≡ self.0 }
    {
        self.0
    }
}

impl EncryptionMethod {
    pub const NONE: EncryptionMethod = EncryptionMethod(0);

    pub fn new(value: u8) -> Result<EncryptionMethod, Refusal>
        ensures { numbered result ≡ encryption value }
    {
        if value <= 15 {
            Ok(EncryptionMethod(value))
        } else {
            Err(Refusal::Encryption)
        }
    }

    pub fn as_raw(self) -> u8
        ensures { result ≡ self.0 }
    {
        self.0
    }
}

// "m = compression × 16 + encryption." Of a method above 15, which `new` never gives, the low nibble counts.
pub fn data_format(compression: CompressionMethod, encryption: EncryptionMethod) -> u8
    ensures { result ≡ data_format compression.0 encryption.0 }
{
    compression.0 % 16 * 16 + encryption.0 % 16
}
