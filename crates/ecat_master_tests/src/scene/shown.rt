//! What a scene holds, as the tables of the tests write it: part by part, with `; ` between them.

use ec_map::Item;
use ecat_scene::{Action, Scene, SceneSlave, SceneWeather, Setting};
use std::alloc::{AllocError, Global};

/// Puts a part behind those before.
pub(super) fn put(text: &mut String, part: &str) -> Result<(), AllocError> {
    if !text.is_empty() {
        text.push_str("; ")?;
    }
    text.push_str(part)
}

/// All that a scene holds.
pub(super) fn shown(alloc: Global, scene: &Scene) -> Result<String, AllocError> {
    let mut text = String::new(alloc);
    for slave in scene.slaves.iter() {
        put_slave(alloc, &mut text, slave)?;
    }
    let links = scene.links_down.as_slice();
    if !links.is_empty() {
        put(&mut text, format!(in alloc; "links {links:?}")?.as_str())?;
    }
    for action in scene.actions.iter() {
        put(&mut text, shown_action(alloc, action)?.as_str())?;
    }
    for item in scene.items.iter() {
        put(&mut text, shown_item(alloc, item)?.as_str())?;
    }
    for weather in scene.weathers.iter() {
        put(&mut text, shown_weather(alloc, weather)?.as_str())?;
    }
    Ok(text)
}

/// A slave: its station and state; whether it is simple, its lengths and its number of objects, where these
/// are not those of a slave with no lines; its settings; and its behaviours and startup objects, if it has
/// any.
fn put_slave(alloc: Global, text: &mut String, slave: &SceneSlave) -> Result<(), AllocError> {
    let station = slave.station;
    let state = slave.state;
    put(
        text,
        format!(in alloc; "slave {station} {state:?}")?.as_str(),
    )?;
    if slave.simple {
        text.push_str(" simple")?;
    }
    let outputs = slave.output_length;
    let inputs = slave.input_length;
    if outputs != 0 || inputs != 0 {
        text.push_str(format!(in alloc; " areas {outputs} {inputs}")?.as_str())?;
    }
    let objects = slave.objects.count();
    if objects != 0 {
        text.push_str(format!(in alloc; " objects {objects}")?.as_str())?;
    }
    for setting in slave.settings.iter() {
        put(text, shown_setting(alloc, setting)?.as_str())?;
    }
    let behaviours = slave.behaviours.as_slice();
    if !behaviours.is_empty() {
        put(text, format!(in alloc; "{behaviours:?}")?.as_str())?;
    }
    let startup = slave.startup.as_slice();
    if !startup.is_empty() {
        put(text, format!(in alloc; "{startup:?}")?.as_str())?;
    }
    Ok(())
}

/// A setting: its number and record, or its address and bytes.
fn shown_setting(alloc: Global, setting: &Setting) -> Result<String, AllocError> {
    match setting {
        Setting::SyncMan(manager) => {
            let index = manager.index;
            let record = manager.record;
            format!(in alloc; "sm {index} {record:?}")
        }
        Setting::Fmmu(fmmu) => {
            let index = fmmu.index;
            let record = fmmu.record;
            format!(in alloc; "fmmu {index} {record:?}")
        }
        Setting::Load(load) => {
            let address = load.address;
            let bytes = load.bytes.as_slice();
            format!(in alloc; "mem {address} {bytes:?}")
        }
    }
}

/// A step, or a frame with its bytes.
fn shown_action(alloc: Global, action: &Action) -> Result<String, AllocError> {
    match action {
        Action::Frame(frame) => {
            let bytes = frame.bytes();
            format!(in alloc; "frame {bytes:?}")
        }
        Action::Step => format!(in alloc; "step"),
    }
}

/// An item: its kind, address, data, counter and ADP.
fn shown_item(alloc: Global, item: &Item) -> Result<String, AllocError> {
    let kind = item.kind();
    let address = item.address();
    let data = item.data();
    let counter = item.counter();
    let adp = item.adp();
    format!(in alloc; "{kind:?} {address} {data:?} counter {counter} adp {adp}")
}

/// A weather: the links that are down for each copy, whether each is lost, and whether copy A is the second.
fn shown_weather(alloc: Global, weather: &SceneWeather) -> Result<String, AllocError> {
    let down_for_a = weather.down_for_a.as_slice();
    let down_for_b = weather.down_for_b.as_slice();
    let lost_a = weather.lost_a;
    let lost_b = weather.lost_b;
    let second = weather.b_first;
    format!(in alloc;
        "weather {down_for_a:?} {down_for_b:?} lost {lost_a} {lost_b} second {second}"
    )
}
