//! Writes that fail, each in turn, and what is told of each failure.

use super::packets::{Fake, Way};
use crate::outputs::{ROOM, Stops, written};
use crate::reading::EXAMPLE;
use ec_run::{ImageFault, ImagesFault};
use ecat_acts::failure::{Failure, report, unbound};
use ecat_acts::udp::{act_udp, prepare_udp};
use ecat_scene::{LineFault, Scene, SceneFault};
use ecat_serve::BindFault;
use ecat_setup::LineFailure;
use ecat_source::PcapFault;
use std::io::Cursor;
use std::process::Abort;

#[test]
fn each_write_that_fails_ends_a_cycle_over_packets(rt: HostRuntime) {
    for writes in 0..4usize {
        let mut err = Cursor::new([0u8; ROOM]);
        let mut out = Stops { left: writes };
        let scene = Scene::read(rt.alloc(), EXAMPLE);
        let answer = match prepare_udp(rt.alloc(), scene, &mut out, &mut err) {
            Ok(prepared) => {
                let line = Fake::new(Way::Loses);
                act_udp(prepared, false, line, &mut out, &mut err)
            }
            Err(status) => status,
        };
        assert_eq!(rt; answer, 3, "write {writes}");
        assert!(rt; !written(&err).is_empty());
    }
}

/// Asserts that a failure is told by this line of standard error, and that the status is 3.
fn fails(rt: &impl Abort, failure: Failure, line: &[u8]) {
    let mut out = Cursor::new([0u8; ROOM]);
    let mut err = Cursor::new([0u8; ROOM]);
    assert_eq!(rt; report(&failure, &mut out, &mut err), 3);
    assert_eq!(rt; written(&err), line);
    assert!(rt; written(&out).is_empty());
}

/// Asserts that a refusal is told by this line of standard output, and that the status is 1; and where the
/// output takes nothing that this is told, with the status 3.
fn refuses(rt: &impl Abort, failure: Failure, line: &[u8]) {
    let mut out = Cursor::new([0u8; ROOM]);
    let mut err = Cursor::new([0u8; ROOM]);
    assert_eq!(rt; report(&failure, &mut out, &mut err), 1);
    assert_eq!(rt; written(&out), line);
    assert!(rt; written(&err).is_empty());
    assert_eq!(rt; report(&failure, &mut Stops { left: 0 }, &mut err), 3);
    assert_eq!(rt; written(&err), b"output: Write\n".as_slice());
}

#[test]
fn what_fails_is_told_to_standard_error(rt: HostRuntime) {
    fails(&rt, Failure::NoMemoryForWords, b"arguments: NoMemory\n");
    fails(&rt, Failure::Open, b"file: Open\n");
    fails(&rt, Failure::Line(LineFailure::Read), b"file: Read\n");
    fails(
        &rt,
        Failure::Line(LineFailure::NoMemory),
        b"scene: NoMemory\n",
    );
    fails(
        &rt,
        Failure::Line(LineFailure::Scene(SceneFault::NoMemory)),
        b"scene: NoMemory\n",
    );
    fails(&rt, Failure::Capture(PcapFault::Read), b"capture: Read\n");
    fails(
        &rt,
        Failure::Capture(PcapFault::NoMemory),
        b"capture: NoMemory\n",
    );
    fails(&rt, Failure::Line(LineFailure::Output), b"output: Write\n");
    fails(&rt, Failure::Outputs, b"outputs: Open\n");
    fails(&rt, Failure::Eeprom, b"sii: Open\n");
    fails(&rt, Failure::EepromExists, b"sii: Exists\n");
    fails(&rt, Failure::EepromWrite, b"sii: Write\n");
    fails(&rt, Failure::Unanswered, b"through: NoAnswer\n");
    fails(
        &rt,
        Failure::Images(ImagesFault::NoMemory),
        b"outputs: NoMemory\n",
    );
    fails(&rt, unbound(BindFault::NoSocket), b"socket: Bind\n");
    fails(&rt, unbound(BindFault::NoSuchPort), b"socket: Bind\n");
    fails(&rt, unbound(BindFault::NoMemory), b"socket: NoMemory\n");
    fails(&rt, Failure::Line(LineFailure::Port), b"cycle: Port\n");
}

#[test]
fn what_is_refused_is_told_to_standard_output(rt: HostRuntime) {
    let fault = SceneFault::Line {
        line: 7,
        fault: LineFault::Twin,
    };
    refuses(
        &rt,
        Failure::Line(LineFailure::Scene(fault)),
        b"scene: line 7: Twin\n",
    );
    let fault = ImagesFault::Line(3, ImageFault::Length(2));
    refuses(&rt, Failure::Images(fault), b"outputs: line 3: Length\n");
    refuses(
        &rt,
        Failure::Line(LineFailure::Scene(SceneFault::TooLong)),
        b"scene: TooLong\n",
    );
    refuses(
        &rt,
        Failure::Capture(PcapFault::Failed),
        b"capture: Failed\n",
    );
    refuses(
        &rt,
        Failure::Line(LineFailure::TooMany),
        b"scene: TooMany\n",
    );
    refuses(
        &rt,
        Failure::Line(LineFailure::Stranger),
        b"cycle: Stranger\n",
    );
    refuses(
        &rt,
        Failure::Line(LineFailure::Actions),
        b"scene: actions\n",
    );
}
