//! The use on the crate's page.

use crate::asserts::assert_same;
use ecat_scene::{Scene, SceneFault};

#[test]
fn a_scene_is_read_whole(rt: HostRuntime) {
    let text = b"slave 0x1001\nsm 3 0x1100 1 read\nlrd 0x10000 00\nlink 1 down";
    match Scene::read(rt.alloc(), text) {
        Ok(scene) => {
            assert_same(&rt, scene.slaves.len(), 1);
            assert_same(&rt, scene.items.len(), 1);
            assert_same(&rt, scene.links_down.as_slice(), [1].as_slice());
        }
        Err(fault) => assert_same(&rt, fault, SceneFault::NoMemory),
    }
}
