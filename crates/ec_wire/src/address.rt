//! The two halves of a physical command's address (IEC 61158-4-12, physical addressing).
ghost use Rattle.std.specs.Prelude.{◌≡◌};
ghost use Rattle.ec_wire.specs.Datagram.{address_of, adp_of, ado_of};

/// How many values each half has.
const HALF: u32 = 0x1_0000;

/// The address of this ADP and this ADO.
pub fn address_of(adp: u16, ado: u16) -> u32
    ensures { result ≡ address_of adp ado }
{
    u32::from(adp) + HALF * u32::from(ado)
}

/// The ADP of an address, which names the slave: the low half.
pub fn adp_of(address: u32) -> u16
    ensures { result ≡ adp_of address }
{
    (address % HALF) as u16
}

/// The ADO of an address, the first address in the slave's memory: the high half.
pub fn ado_of(address: u32) -> u16
    ensures { result ≡ ado_of address }
{
    (address / HALF) as u16
}
