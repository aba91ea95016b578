//! The laws of services over a ring, each the contract of a function that does nothing.

ghost use Rattle.std.specs.Prelude.{◌≡◌, ◌≤◌, ℕ, true, false, List, Result, Ok, None, Some};
ghost use Rattle.std.specs.List.{AllByRecursion};
ghost use Rattle.ec_regs.specs.declared.al.AlState.{AlState};
ghost use Rattle.ec_regs.specs.declared.sync_man.SyncMan.{SyncMan};
ghost use Rattle.ec_wire.specs.Datagram.{DatagramRecord};
ghost use Rattle.ec_esc.specs.Application.{al_status};
ghost use Rattle.ec_esc.specs.Pass.{pass};
ghost use Rattle.ec_esc.specs.State.{ControllerState, IsFresh};
ghost use Rattle.ec_app.specs.Objects.{object_at};
ghost use Rattle.ec_app.specs.State.{ApplicationState, SlaveState};
ghost use Rattle.ec_app.specs.Value.{may_read, may_write, size_of};
ghost use Rattle.ec_app.specs.declared.sdo.Sdo.{Sdo};
ghost use Rattle.ec_app.specs.declared.sdo.Sdo.TheVariants.{Upload, Download};
ghost use Rattle.ec_app.specs.declared.value.Rights.{Rights};
ghost use Rattle.ec_app.specs.declared.value.Value.{Value};
ghost use Rattle.ec_ring.specs.Ring.{RingState, line_of, stepped};
ghost use Rattle.ec_master.specs.RingTrips.{RingTrips};
ghost use Rattle.ec_master.specs.Travelled.{AtMostOneDown};
ghost use Rattle.ec_services.specs.Acknowledgement.{IsAcknowledged};
ghost use Rattle.ec_services.specs.Ask.{Answer, Asks};
ghost use Rattle.ec_services.specs.Mailbox.{skipped};
ghost use Rattle.ec_services.specs.Settling.{IsSettled};
ghost use Rattle.ec_services.specs.States.{IsRequested};
ghost use Rattle.ec_services.specs.Transfer.{IsTransferred, uploading, downloading};
ghost use Rattle.ec_services.specs.declared.fault.MasterFault.{MasterFault};
ghost use Rattle.ec_services.specs.declared.mailbox.Peer.{Peer};
ghost use Rattle.ec_over_ring.specs.Question.{IsByStation, IsOther, ReachesOne, Tells, ring_after};
ghost use Rattle.ec_over_ring.specs.States.{HasStation, acknowledged_ring, acknowledged_slave, asked_slave};
ghost use Rattle.ec_over_ring.specs.States.{asked_ring, told_state};
ghost use Rattle.ec_over_ring.specs.Transfers.{HasPeer, IsAnswered, IsRequest, IsSlave, answered};
ghost use Rattle.ec_over_ring.specs.Transfers.{AreMailboxes, IsReady, answered_ring, download_of};
ghost use Rattle.ec_over_ring.specs.Transfers.{objects_after, prepared, two_steps, upload_of};

/// A datagram that names its slave by station address, not circulating, goes out alone in a frame over a ring
/// with at most one link down, and one slave alone may have that station: what the question answers is that
/// slave's own pass of the datagram, data and working counter, wherever the cable is broken; and the ring is
/// left as that pass leaves the slave, the others as they were, and each has taken its step.
pub fn one_question()
    ensures answer { (d : DatagramRecord) (r : RingState) (before behind : List SlaveState) (s : SlaveState)
        (answer : Answer) (later : RingState)
        → ReachesOne d r before s behind → Asks RingTrips r d answer later
        → Tells (pass s.controller d).datagram answer }
    ensures ring { (d : DatagramRecord) (r : RingState) (before behind : List SlaveState) (s : SlaveState)
        (answer : Answer) (later : RingState)
        → ReachesOne d r before s behind → Asks RingTrips r d answer later
        → later ≡ ring_after d r before s behind }
{}

/// A datagram that names a station which no slave of the ring has, with at most one link down, comes back as
/// it was sent, counted by nobody; and each slave has taken its step and else stays.
pub fn no_station()
    ensures answer { (d : DatagramRecord) (r : RingState) (answer : Answer) (later : RingState)
        → AtMostOneDown r → IsByStation d → AllByRecursion (IsOther d) (line_of r)
        → Asks RingTrips r d answer later
        → Tells d answer }
    ensures ring { (d : DatagramRecord) (r : RingState) (answer : Answer) (later : RingState)
        → AtMostOneDown r → IsByStation d → AllByRecursion (IsOther d) (line_of r)
        → Asks RingTrips r d answer later
        → later ≡ stepped r }
{}

/// A slave is asked for a state over a ring with at most one link down, of which it alone has the station,
/// and at least one read is allowed (`request_state`): AL control is written to it, every slave takes its
/// step, and what the slave's AL status tells then is the result, Refused with its code where an error
/// stands. Without an error it is in the state that was asked for. Behind the read every slave took one step
/// more, and nothing else has changed. The other slaves may have whatever to do; the values of all objects
/// fit their bytes.
pub fn states_over_ring()
    ensures result { (station limit : ℕ) (state : AlState) (r : RingState) (before behind : List SlaveState)
        (s : SlaveState) (result : Result (Unit {0}) MasterFault) (later : RingState)
        → HasStation station r before s behind
        → AllByRecursion IsSlave r.slaves
        → 1 ≤ limit → IsRequested RingTrips r station state limit result later
        → result ≡ told_state (asked_slave station state s).controller }
    ensures entered { (station : ℕ) (state : AlState) (r : RingState) (before behind : List SlaveState)
        (s : SlaveState) → HasStation station r before s behind
        → (al_status (asked_slave station state s).controller).error ≡ false
        → (al_status (asked_slave station state s).controller).state ≡ state }
    ensures ring { (station limit : ℕ) (state : AlState) (r : RingState) (before behind : List SlaveState)
        (s : SlaveState) (result : Result (Unit {0}) MasterFault) (later : RingState)
        → HasStation station r before s behind
        → AllByRecursion IsSlave r.slaves
        → 1 ≤ limit → IsRequested RingTrips r station state limit result later
        → later ≡ stepped (asked_ring station state r before s behind) }
{}

/// An error of such a slave is acknowledged (`acknowledge`), and at least one read of AL status is allowed
/// behind the write. AL status is read, and each slave takes its step; the state that was read is asked for
/// with the acknowledgement, and each takes its step. Where the slave has no error then, it is in the state
/// that was read (`entered`), and that is the result: behind the read that tells so every slave took one step
/// more, and nothing else has changed. A slave that had a request to serve when AL status was read may be in
/// another state by the time it is asked, and refuse.
pub fn acknowledged_over_ring()
    ensures result { (station limit : ℕ) (r : RingState) (before behind : List SlaveState) (s : SlaveState)
        (result : Result AlState MasterFault) (later : RingState)
        → HasStation station r before s behind
        → AllByRecursion IsSlave r.slaves
        → 1 ≤ limit → IsAcknowledged RingTrips r station limit result later
        → (al_status (acknowledged_slave station s).controller).error ≡ false
        → result ≡ Ok (al_status s.controller).state }
    ensures entered { (station : ℕ) (r : RingState) (before behind : List SlaveState) (s : SlaveState)
        → HasStation station r before s behind
        → AllByRecursion IsSlave r.slaves
        → (al_status (acknowledged_slave station s).controller).error ≡ false
        → (al_status (acknowledged_slave station s).controller).state ≡ (al_status s.controller).state }
    ensures ring { (station limit : ℕ) (r : RingState) (before behind : List SlaveState) (s : SlaveState)
        (result : Result AlState MasterFault) (later : RingState)
        → HasStation station r before s behind
        → AllByRecursion IsSlave r.slaves
        → 1 ≤ limit → IsAcknowledged RingTrips r station limit result later
        → (al_status (acknowledged_slave station s).controller).error ≡ false
        → later ≡ stepped (acknowledged_ring station r before s behind) }
{}

/// An object of one slave is read or written over a ring with at most one link down (`sdo_upload` and
/// `sdo_download`), where that slave alone has the station, is in Pre-Op or above, and has the peer's areas
/// as its two mailboxes, both empty; the mail that it took last has another counter than the peer's, and at
/// least one read is allowed. The others may have whatever to do. Then the first read of the mailbox finds
/// the answer: an upload comes to the object's value, a download to Ok, or each to the abort code that says
/// why not. Only a download that comes to Ok changes objects, and only the one that it names. The peer's
/// counter moves on, every slave took two steps, and all that is asked for here holds again for the next
/// transfer.
pub fn transfers_over_ring()
    ensures upload { (peer peer_later : Peer) (index sub limit : ℕ) (r : RingState)
        (before behind : List SlaveState) (s : SlaveState) (result : Result Value MasterFault)
        (later : RingState)
        → HasPeer peer r before s behind → IsRequest (Upload index sub) → 1 ≤ limit
        → IsTransferred RingTrips r peer (uploading index sub) limit result peer_later later
        → (result ≡ upload_of index sub s.application.objects)
        × IsAnswered peer (Upload index sub) r before s behind peer_later later }
    ensures download { (peer peer_later : Peer) (index sub : ℕ) (value : Value) (limit : ℕ) (r : RingState)
        (before behind : List SlaveState) (s : SlaveState) (result : Result (Unit {0}) MasterFault)
        (later : RingState)
        → HasPeer peer r before s behind → IsRequest (Download index sub value) → 1 ≤ limit
        → IsTransferred RingTrips r peer (downloading index sub value) limit result peer_later
        later
        → (result ≡ download_of index sub value s.application.objects)
        × IsAnswered peer (Download index sub value) r before s behind peer_later later }
    ensures objects { (peer : Peer) (asked : Sdo) (r : RingState) (before behind : List SlaveState)
        (s : SlaveState) → HasPeer peer r before s behind → IsRequest asked
        → (answered peer asked s).application.objects ≡ objects_after asked s.application.objects }
    ensures again { (peer : Peer) (asked : Sdo) (r : RingState) (before behind : List SlaveState)
        (s : SlaveState) → HasPeer peer r before s behind → IsRequest asked
        → HasPeer (skipped peer) (answered_ring peer asked r before s behind) (two_steps before)
        (answered peer asked s) (two_steps behind) }
{}

/// Over such a ring both mailboxes of that slave are seen empty (`settle`) by the first look at them: it
/// comes to Ok, and every slave took one step.
pub fn settled_over_ring()
    ensures { (peer : Peer) (limit : ℕ) (r : RingState) (before behind : List SlaveState)
        (s : SlaveState) (result : Result (Unit {0}) MasterFault) (later : RingState)
        → HasPeer peer r before s behind → 1 ≤ limit → IsSettled RingTrips r peer limit result later
        → (result ≡ Ok tt) × (later ≡ stepped r) }
{}

/// Over such a ring an upload of an object that may be read is Ok of its value; a download to an object that
/// may be written, of a value of its length, is Ok, and the object holds that value then.
pub fn objects_over_ring()
    ensures read { (peer peer_later : Peer) (index sub limit : ℕ) (r : RingState)
        (before behind : List SlaveState) (s : SlaveState) (result : Result Value MasterFault)
        (later : RingState) (rights : Rights) (value : Value)
        → HasPeer peer r before s behind → IsRequest (Upload index sub) → 1 ≤ limit
        → IsTransferred RingTrips r peer (uploading index sub) limit result peer_later later
        → object_at index sub s.application.objects ≡ Some (rights, value) → may_read rights ≡ true
        → result ≡ Ok value }
    ensures written { (peer peer_later : Peer) (index sub : ℕ) (value : Value) (limit : ℕ) (r : RingState)
        (before behind : List SlaveState) (s : SlaveState) (result : Result (Unit {0}) MasterFault)
        (later : RingState) (rights : Rights) (old : Value)
        → HasPeer peer r before s behind → IsRequest (Download index sub value) → 1 ≤ limit
        → IsTransferred RingTrips r peer (downloading index sub value) limit result peer_later
        later
        → object_at index sub s.application.objects ≡ Some (rights, old) → may_write rights ≡ true
        → size_of value ≡ size_of old
        → result ≡ Ok tt }
    ensures holds { (peer : Peer) (index sub : ℕ) (value : Value) (r : RingState)
        (before behind : List SlaveState) (s : SlaveState) (rights : Rights) (old : Value)
        → HasPeer peer r before s behind → IsRequest (Download index sub value)
        → object_at index sub s.application.objects ≡ Some (rights, old) → may_write rights ≡ true
        → size_of value ≡ size_of old
        → object_at index sub (answered peer (Download index sub value) s).application.objects
        ≡ Some (rights, value) }
{}

/// A slave as `Slave::new` makes it that is put into Pre-Op and given two mailboxes, as sync managers 0 and
/// 1, which share no byte, is ready for a peer's first request, whatever its counter.
pub fn ready_at_first()
    ensures { (station : ℕ) (c : ControllerState) (requests answers : SyncMan)
        (application : ApplicationState) (peer : Peer) → IsFresh station c
        → AreMailboxes peer requests answers → application.kept ≡ None
        → IsReady peer (record { controller = prepared c requests answers; application = application }) }
{}
