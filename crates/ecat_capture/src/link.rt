//! What the packets of a capture begin with, by its link type.
ghost use Rattle.std.specs.Prelude.{◌≡◌, ◌≤◌, ◌+◌};
ghost use Rattle.ecat_capture.specs.Links.{link_of, payload_place, sender_place, type_place};

/// The header that the packets of a capture begin with, as its link type tells it.
#[derive(Clone, Copy, Debug, PartialEq, Eq)]
pub enum Link {
    /// That of Ethernet (`LINKTYPE_ETHERNET`, 1).
    Ethernet,
    /// The first one of Linux's `any`, of 16 bytes (`LINKTYPE_LINUX_SLL`, 113).
    Cooked,
    /// The second one of Linux's `any`, of 20 bytes (`LINKTYPE_LINUX_SLL2`, 276).
    CookedTwo,
}

impl Link {
    /// The header of the link type with this number, if it is one of those that are read.
    #[tactic(auto, unfolding(crate::specs::Links::link_of))]
    pub fn of(number: u32) -> Option<Link>
        ensures { result ≡ link_of number }
    {
        match number {
            1 => Some(Link::Ethernet),
            113 => Some(Link::Cooked),
            276 => Some(Link::CookedTwo),
            _ => None,
        }
    }

    /// The place of the type of what a packet carries, where no VLAN tag stands there.
    pub fn type_place(self) -> usize
        ensures value { result ≡ type_place self }
        ensures near { result ≤ 14 }
    {
        match self {
            Link::Ethernet => 12,
            Link::Cooked => 14,
            Link::CookedTwo => 0,
        }
    }

    /// The place behind the header, where what a packet carries begins.
    pub fn payload_place(self) -> usize
        ensures value { result ≡ payload_place self }
        ensures behind { type_place self + 2 ≤ result }
        ensures near { result ≤ 20 }
    {
        match self {
            Link::Ethernet => 14,
            Link::Cooked => 16,
            Link::CookedTwo => 20,
        }
    }

    /// The place of the six bytes of its sender's address.
    pub fn sender_place(self) -> usize
        ensures value { result ≡ sender_place self }
        ensures near { result ≤ 12 }
    {
        match self {
            Link::Ethernet | Link::Cooked => 6,
            Link::CookedTwo => 12,
        }
    }
}
