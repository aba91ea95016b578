//! The plan of an FMMU: its record read once, in the form that datagrams use (IEC 61158-4-12, FMMU entity).

ghost use Rattle.std.specs.Prelude.{◌≡◌, ◌↔◌, ◌^◌, ◌<◌, ℕ};

use crate::fmmu::{Fmmu, LAST_BIT};
use crate::registers::FMMU_COUNT;
use std::marker::Model;

/// The run of bits that an FMMU maps, told by bytes: a logical byte of the run lies on one physical byte, or
/// on two neighbours. All fields are 0 where the FMMU maps nothing.
#[derive(Clone, Copy, Debug, PartialEq, Eq)]
pub struct Plan {
    /// Is any bit mapped?
    pub is_mapped: bool,
    /// The first logical byte.
    pub logical: u32,
    /// The first physical byte.
    pub physical: u16,
    /// How many logical bytes the run touches.
    pub length: u16,
    /// The mapped bits of the first logical byte.
    pub first_mask: u8,
    /// The mapped bits of the last logical byte, the same as the first mask where there is one byte alone.
    pub last_mask: u8,
    /// How many bits further on in its byte a physical bit stands than its logical bit, -7 to 7.
    pub distance: i8,
}

/// The plan of an FMMU that maps nothing.
const UNMAPPED: Plan = Plan {
    is_mapped: false,
    logical: 0,
    physical: 0,
    length: 0,
    first_mask: 0,
    last_mask: 0,
    distance: 0,
};

/// All bits of a byte.
const ALL_BITS: u8 = 0xFF;

impl Fmmu {
    ghost use Rattle.ec_regs.specs.Pairs.{IsPair};
    ghost use Rattle.ec_regs.specs.Plan.{plan_of, Pairs};

    /// What the record maps, told by bytes.
    pub fn plan(&self) -> Plan
        ensures value { result ≡ plan_of self.now }
        ensures pairs { (l p : ℕ) → Pairs result l p ↔ IsPair self.now l p }
    {
        if self.mapped_bits() == 0 {
            return UNMAPPED;
        }
        let first = ALL_BITS << self.start;
        let last = ALL_BITS >> (LAST_BIT - self.stop);
        let both = first & last;
        let is_one_byte = self.length == 1;
        Plan {
            is_mapped: true,
            logical: self.logical,
            physical: self.physical,
            length: self.length,
            first_mask: if is_one_byte { both } else { first },
            last_mask: if is_one_byte { both } else { last },
            distance: self.bit as i8 - self.start as i8,
        }
    }
}

/// An FMMU with its plan, made when the record is written and used by each datagram that comes by. Contracts
/// see the record.
#[derive(Clone, Copy, Debug)]
pub struct PlannedFmmu {
    fmmu: Fmmu,
    plan: Plan,
    bits: u32,
}

/// The FMMUs of a controller, by number.
pub type Fmmus = [PlannedFmmu; FMMU_COUNT];

impl Model for PlannedFmmu {
    ghost use Rattle.ec_regs.specs.declared.fmmu.Fmmu.{Fmmu};
    ghost use Rattle.ec_regs.specs.Pairs.{pair_count};
    ghost use Rattle.ec_regs.specs.Plan.{plan_of, IsPlanned};

    ghost Value = { Fmmu };

    ghost view = { λ planned. planned.fmmu };

    ghost invariant = { λ planned. IsPlanned planned.fmmu planned.plan planned.bits };

    ghost inverse = { λ f. record { fmmu = f; plan = plan_of f; bits = pair_count f } };

    ghost use Rattle.std.proofs.Common.{ap, sym, ◌∙◌};

    ghost inverse_ok = { λ planned is.
        ap (λ plan. record {
          fmmu = planned.fmmu;
          plan = plan;
          bits = pair_count planned.fmmu;
        }) (sym is.plan_is)
        ∙ ap (λ bits. record { fmmu = planned.fmmu; plan = planned.plan; bits = bits }) (sym is.bits_are) };
}

impl PlannedFmmu {
    ghost use Rattle.ec_regs.specs.Pairs.{reads, writes, first_logical, first_physical, pair_count};
    ghost use Rattle.ec_regs.specs.Plan.{plan_of};

    /// The record with its plan.
    pub fn new(fmmu: Fmmu) -> PlannedFmmu
        ensures { result ≡ fmmu }
    {
        PlannedFmmu {
            fmmu,
            plan: fmmu.plan(),
            bits: fmmu.mapped_bits(),
        }
    }

    /// The record.
    pub fn fmmu(&self) -> Fmmu
        ensures { result ≡ self.now }
    {
        self.fmmu
    }

    /// The plan of the record.
    pub fn plan(&self) -> Plan
        ensures { result ≡ plan_of self.now }
    {
        self.plan
    }

    /// Does the master read through this FMMU?
    pub fn reads(&self) -> bool
        ensures { result ≡ reads self.now }
    {
        self.fmmu.reads()
    }

    /// Does the master write through this FMMU?
    pub fn writes(&self) -> bool
        ensures { result ≡ writes self.now }
    {
        self.fmmu.writes()
    }

    /// The number of the first logical bit, 8 * byte + bit; below 2^36.
    pub fn first_logical(&self) -> u64
        ensures value { result ≡ first_logical self.now }
        ensures bound { result < 2 ^ 36 }
    {
        self.fmmu.first_logical()
    }

    /// The number of the first physical bit, 8 * byte + bit; below 2^20.
    pub fn first_physical(&self) -> u32
        ensures value { result ≡ first_physical self.now }
        ensures bound { result < 2 ^ 20 }
    {
        self.fmmu.first_physical()
    }

    /// How many bits the FMMU maps, below 2^20.
    pub fn mapped_bits(&self) -> u32
        ensures value { result ≡ pair_count self.now }
        ensures bound { result < 2 ^ 20 }
    {
        self.bits
    }
}
