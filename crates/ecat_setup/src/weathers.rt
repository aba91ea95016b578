//! What the frames of a scene's cycle meet.

use crate::failure::LineFailure;
use ec_ring::{Links, MAX_LINKS, Weather};
use ecat_scene::SceneWeather;
use std::alloc::Global;

/// The links of a line of which these are down.
fn links_of(down: &[u64]) -> Links {
    let mut links = Links::new();
    for link in down {
        let link = *link as usize;
        if link < MAX_LINKS {
            links.set(link, false);
        }
    }
    links
}

/// What the frames of a scene's cycle meet, in their order.
pub fn weathers_of(alloc: Global, described: &[SceneWeather]) -> Result<Vec<Weather>, LineFailure> {
    let mut weathers = Vec::new(alloc);
    for one in described {
        let weather = Weather {
            a: links_of(one.down_for_a.as_slice()),
            b: links_of(one.down_for_b.as_slice()),
            lost_a: one.lost_a,
            lost_b: one.lost_b,
            b_first: one.b_first,
        };
        if weathers.push(weather).is_err() {
            return Err(LineFailure::NoMemory);
        }
    }
    Ok(weathers)
}
