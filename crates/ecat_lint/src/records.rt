//! The slaves of a scene by their records, by which they are mapped.

use ec_check::Records;
use ecat_scene::{SceneSlave, Setting};
use std::alloc::{AllocError, Global};

/// What a slave is mapped by, as its lines set it. Bytes of its process memory map nothing.
fn record_of(described: &SceneSlave) -> Records {
    let mut records = Records::of_station(described.station);
    for setting in described.settings.iter() {
        match setting {
            Setting::SyncMan(manager) => records.set_syncman(manager.index, &manager.record),
            Setting::Fmmu(fmmu) => records.set_fmmu(fmmu.index, &fmmu.record),
            Setting::Load(_) => {}
        }
    }
    records
}

/// What the slaves are mapped by, in their order.
pub(crate) fn records_of(
    alloc: Global,
    described: &[SceneSlave],
) -> Result<Vec<Records>, AllocError> {
    let mut all = Vec::new(alloc);
    for one in described {
        all.push(record_of(one))?;
    }
    Ok(all)
}
