//! Which registers of a slave are told byte by byte (IEC 61158-4-12, registers of the data link layer).

ghost use Rattle.std.specs.Prelude.{◌≡◌, ◌<◌, ◌≤◌, ◌+◌, IfSome};
ghost use Rattle.ecat_told.specs.Registers.{meets, place_of, touches};

/// How many bytes of a slave are kept.
pub const KEPT: usize = 200;

/// Where the station address is kept.
pub const STATION_PLACE: usize = 0;

/// Where AL status is kept, and four bytes behind it its code.
pub const STATUS_PLACE: usize = 2;

/// Where the records of FMMUs are kept.
pub const FMMU_PLACE: usize = 8;

/// Where those of sync managers are.
pub const SYNC_MANAGER_PLACE: usize = 136;

/// Where the byte at an address is kept, if it is.
#[tactic(auto, unfolding(crate::specs::Registers::place_of))]
pub fn place_of(address: u32) -> Option<usize>
    ensures value { result ≡ place_of address }
    ensures within { IfSome result (λ place. place < 200) }
{
    let place = match address {
        0x0010..=0x0011 => address - 0x0010,
        0x0130..=0x0135 => address - 0x0130 + 2,
        0x0600..=0x067f => address - 0x0600 + 8,
        0x0800..=0x083f => address - 0x0800 + 136,
        _ => return None,
    };
    Some(place as usize)
}

/// Does a run of so many bytes from an address on meet the registers from one to another?
pub(crate) fn meets(address: u32, count: u32, from: u32, to: u32) -> bool
    requires { address + count < 131072 }
    ensures { result ≡ meets address count from to }
{
    address < to && from < address + count
}

/// Has a run of so many bytes from an address on one that is kept?
#[tactic(auto, unfolding(crate::specs::Registers::touches))]
pub(crate) fn touches(address: u16, count: u16) -> bool
    ensures { result ≡ touches address count }
{
    let address = u32::from(address);
    let count = u32::from(count);
    meets(address, count, 0x0010, 0x0012)
        || meets(address, count, 0x0130, 0x0136)
        || meets(address, count, 0x0600, 0x0680)
        || meets(address, count, 0x0800, 0x0840)
}
