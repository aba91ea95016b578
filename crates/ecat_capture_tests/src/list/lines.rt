//! The use on the crate's page: a capture of one packet.
use super::samples::{LINE, ONE};
use super::{ROOM, asked, written};
use ecat_list::{Form, Listed, list};
use ecat_source::Bytes;
use std::io::Cursor;

#[test]
fn a_packet_is_listed(rt: HostRuntime) {
    let mut out = Cursor::new([0u8; ROOM]);
    let mut err = Cursor::new([0u8; ROOM]);
    let asked = asked(Form::Lines);
    let listed = list(rt.alloc(), Bytes::new(&ONE), asked, &mut out, &mut err);
    if listed != Listed::NoMemory {
        assert_eq!(rt; listed, Listed::Whole);
        assert_eq!(rt; written(&out), LINE);
        assert_eq!(rt; written(&err), "");
    }
}
