//! The checksum of the first seven words of an EEPROM (ETG.1000.6, slave information interface; ETG.2010).

ghost use Rattle.std.specs.Prelude.{◌≡◌};
ghost use Rattle.ec_sii.specs.Crc.{crc8, shifted, with_byte};

/// The polynomial x^8 + x^2 + x + 1, without its highest power.
const POLYNOMIAL: u8 = 0x07;

/// The checksum of no byte.
const BEGIN: u8 = 0xFF;

/// The checksum, one bit further.
#[tactic(auto, unfolding(crate::specs::Crc::shifted))]
fn shifted(crc: u8) -> u8
    ensures { result ≡ shifted crc }
{
    if crc < 0x80 {
        2 * crc
    } else {
        2 * (crc - 0x80) ^ POLYNOMIAL
    }
}

/// The checksum, one byte further.
fn with_byte(crc: u8, byte: u8) -> u8
    ensures { result ≡ with_byte crc byte }
{
    let sum = shifted(shifted(shifted(shifted(crc ^ byte))));
    shifted(shifted(shifted(shifted(sum))))
}

/// The checksum of bytes: eight bits by the polynomial x^8 + x^2 + x + 1, begun with 0xFF, the highest bit of
/// each byte first. That of words 0 to 6 of an EEPROM stands in its word 7 (ETG.1000.6, slave information
/// interface).
pub fn crc8(bytes: &[u8]) -> u8
    ensures { result ≡ crc8 bytes.now }
{
    let mut crc = BEGIN;
    for byte in bytes {
        crc = with_byte(crc, *byte);
    }
    crc
}
