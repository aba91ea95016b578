//! Two sockets on this machine that speak with each other alone: one stands for a packet socket, and at the
//! other a test is the cable.

use crate::sockets::PacketSocket;
use std::net::{Net, UdpSocket};
use std::process::Abort;
use std::time::Duration;

/// What stands for a packet socket, and its cable.
pub fn cabled(rt: &(impl Abort + Net)) -> (PacketSocket, UdpSocket) {
    let socket = UdpSocket::bind(rt, "127.0.0.1:0").expect(rt, "a socket");
    let cable = UdpSocket::bind(rt, "127.0.0.1:0").expect(rt, "a socket");
    let near = socket.local_addr().expect(rt, "an address");
    let far = cable.local_addr().expect(rt, "an address");
    socket.connect(far).expect(rt, "a peer");
    cable.connect(near).expect(rt, "a peer");
    socket.set_nonblocking(true).expect(rt, "no waiting");
    cable
        .set_read_timeout(Some(Duration::from_millis(20)))
        .expect(rt, "a limit");
    (PacketSocket { socket }, cable)
}

/// Puts a packet on the cable.
pub fn put(rt: &impl Abort, cable: &UdpSocket, packet: &[u8]) {
    assert_eq!(rt; cable.send(packet).ok(), Some(packet.len()));
}

/// Asserts what is on the cable next, if anything is.
pub fn assert_on(rt: &impl Abort, cable: &UdpSocket, wanted: Option<&[u8]>) {
    let mut room = [0; 2000];
    match cable.recv(&mut room) {
        Ok(count) => assert_eq!(rt; room.get(..count), wanted),
        Err(_) => assert_eq!(rt; None, wanted),
    }
}
