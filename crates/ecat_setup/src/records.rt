//! The slaves of a scene by their records alone, for what asks no more of a line than how it is mapped.

use crate::failure::LineFailure;
use ec_check::Records;
use ecat_scene::{SceneSlave, Setting};
use std::alloc::Global;

/// What the slave that a scene describes is mapped by. Bytes of its process memory map nothing.
fn record_of(described: &SceneSlave) -> Records {
    let mut records = Records::of_station(described.station);
    for setting in described.settings.iter() {
        match setting {
            Setting::SyncMan(manager) => records.set_syncman(manager.index, &manager.record),
            Setting::Fmmu(fmmu) => records.set_fmmu(fmmu.index, &fmmu.record),
            Setting::Load(_) => {}
        }
    }
    records
}

/// The records of the slaves that a scene describes, from master port A to port B: mapped as the slaves that
/// `slaves_of` makes, at a hundredth of their memory.
pub fn records_of(alloc: Global, described: &[SceneSlave]) -> Result<Vec<Records>, LineFailure> {
    let mut all = Vec::new(alloc);
    for one in described {
        if all.push(record_of(one)).is_err() {
            return Err(LineFailure::NoMemory);
        }
    }
    Ok(all)
}
