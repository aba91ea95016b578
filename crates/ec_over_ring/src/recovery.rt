//! What a call that recovers comes to in any weather, as laws, each the contract of a function that does
//! nothing: first of the one slave that it asks, then over a ring.

ghost use Rattle.std.specs.Prelude.{◌≡◌, ◌≤◌, ◌⊎◌, ℕ, List, length, Result, Ok, Err, Some};
ghost use Rattle.std.specs.List.{AllByRecursion};
ghost use Rattle.ec_wire.specs.Datagram.{DatagramRecord};
ghost use Rattle.ec_app.specs.State.{SlaveState};
ghost use Rattle.ec_app.specs.declared.mail.Mail.{Mail};
ghost use Rattle.ec_app.specs.declared.sdo.Sdo.{Sdo};
ghost use Rattle.ec_app.specs.declared.sdo.Sdo.TheVariants.{Upload, Download};
ghost use Rattle.ec_app.specs.declared.value.Value.{Value};
ghost use Rattle.ec_ring.specs.Ring.{RingState};
ghost use Rattle.ec_ring.specs.declared.weather.Weather.{Weather};
ghost use Rattle.ec_master.specs.RingTrips.{RingTrips};
ghost use Rattle.ec_master.specs.Travelled.{AtMostOneDown};
ghost use Rattle.ec_services.specs.Ask.{Answer, Asks};
ghost use Rattle.ec_services.specs.Mailbox.{IsPeer};
ghost use Rattle.ec_services.specs.Progress.{Known};
ghost use Rattle.ec_services.specs.Surely.{IsSure, begun, next_decides, next_known, next_sent};
ghost use Rattle.ec_services.specs.Transfer.{uploading, downloading};
ghost use Rattle.ec_services.specs.declared.fault.MasterFault.{MasterFault};
ghost use Rattle.ec_services.specs.declared.fault.MasterFault.TheVariants.{Abort};
ghost use Rattle.ec_services.specs.declared.mailbox.Peer.{Peer};
ghost use Rattle.ec_over_ring.specs.Question.{IsAlone, IsByStation};
ghost use Rattle.ec_over_ring.specs.Recovery.{CalmTrips, Decides, HasFate, HasNoAnswer, HasSlave, History};
ghost use Rattle.ec_over_ring.specs.Recovery.{IsCall, IsOfPeer, IsStored, OneIs, RingHistory, SlaveTrips};
ghost use Rattle.ec_over_ring.specs.Recovery.{TakesMail, WeatherSteps, begun_at, begun_ring, history_at};
ghost use Rattle.ec_over_ring.specs.Recovery.{HoldsStored, slave_at, times_of, value_at};
ghost use Rattle.ec_over_ring.specs.Transfers.{HasPeer, IsRequest, download_of, upload_of};

/// A call that recovers (`upload_surely` and `download_surely`) keeps this in each of its trips, whatever
/// befalls the two copies of a frame and however many steps the slave takes behind it: where both mailboxes
/// are known to be empty they are; and once a request was posted, the slave holds nothing but that request,
/// or the answer to it, which it took behind some time of the call. It holds at first of every slave of the
/// peer, in whatever state and with whatever in its mailboxes. A mail that decides the call is such an
/// answer, and what was asked for is stored then.
pub fn calls_keep_their_own()
    ensures begins { (asked : Sdo) (peer : Peer) (s : SlaveState) → IsPeer peer → IsOfPeer peer s
        → IsCall asked (begun peer) (begun_at s) }
    ensures keeps { (asked : Sdo) (p : Known) (h later : History) (answer : Answer)
        → IsRequest asked → IsCall asked p h → Asks SlaveTrips h (next_sent asked p) answer later
        → IsCall asked (next_known p answer) later }
    ensures decides { (asked : Sdo) (p : Known) (h later : History) (answer : Answer) (mail : Mail)
        → IsRequest asked → IsCall asked p h → Asks SlaveTrips h (next_sent asked p) answer later
        → next_decides asked p answer ≡ Ok (Some mail)
        → Decides asked mail later }
{}

/// An upload that recovers (`upload_surely`), in any weather and from any state of the slave's mailboxes:
/// where the slave answered it, it comes to what the objects say that the slave has at the end of the call,
/// the value or the abort code that says why not. Else a trip failed, a copy was a stranger, or in so many
/// trips no answer came. So a value that it brings is the one that the object holds.
pub fn uploads_recover()
    ensures result { (peer peer_later : Peer) (index sub limit : ℕ) (s : SlaveState)
        (result : Result Value MasterFault) (later : History)
        → IsPeer peer → IsOfPeer peer s → IsRequest (Upload index sub)
        → IsSure SlaveTrips (begun_at s) peer (uploading index sub) limit result peer_later later
        → HasNoAnswer result ⊎ (result ≡ upload_of index sub later.now.application.objects) }
    ensures held { (peer peer_later : Peer) (index sub limit : ℕ) (s : SlaveState) (value : Value)
        (later : History)
        → IsPeer peer → IsOfPeer peer s → IsRequest (Upload index sub)
        → IsSure SlaveTrips (begun_at s) peer (uploading index sub) limit (Ok value) peer_later later
        → value_at index sub later.now.application.objects ≡ Some value }
{}

/// A download that recovers (`download_surely`), likewise: where the slave answered it, it took the request
/// in this call, behind some time of it; the download comes to Ok or to the abort code by the objects that
/// the slave had at that time; and at the end of the call the slave has those objects, on Ok with the value
/// stored. Else a trip failed, a copy was a stranger, or in so many trips no answer came. On Ok the object
/// holds the value at the end of the call. On an abort the slave would have refused the value so at all times
/// of the call: this call never stored it.
pub fn downloads_recover()
    ensures result { (peer peer_later : Peer) (index sub : ℕ) (value : Value) (limit : ℕ) (s : SlaveState)
        (result : Result (Unit {0}) MasterFault) (later : History)
        → IsPeer peer → IsOfPeer peer s → IsRequest (Download index sub value)
        → IsSure SlaveTrips (begun_at s) peer (downloading index sub value) limit result
        peer_later later
        → HasNoAnswer result ⊎ OneIs (IsStored index sub value result later.now) (times_of later) }
    ensures held { (peer peer_later : Peer) (index sub : ℕ) (value : Value) (limit : ℕ) (s : SlaveState)
        (later : History)
        → IsPeer peer → IsOfPeer peer s → IsRequest (Download index sub value)
        → IsSure SlaveTrips (begun_at s) peer (downloading index sub value) limit (Ok tt)
        peer_later later
        → value_at index sub later.now.application.objects ≡ Some value }
    ensures throughout { (peer peer_later : Peer) (index sub : ℕ) (value : Value) (limit : ℕ)
        (s : SlaveState) (result : Result (Unit {0}) MasterFault) (later : History)
        → IsPeer peer → IsOfPeer peer s → IsRequest (Download index sub value)
        → IsSure SlaveTrips (begun_at s) peer (downloading index sub value) limit result
        peer_later later
        → HasNoAnswer result
        ⊎ AllByRecursion (λ (t : SlaveState). result ≡ download_of index sub value t.application.objects)
        (times_of later) }
{}

/// Where nothing is lost, ten trips are enough, from any state of the mailboxes of a slave in Pre-Op or above
/// that takes at least one step behind each trip: one copy of each frame passes it and comes back. An upload
/// then comes to what the objects say, and a download is stored or refused as they say.
pub fn ten_trips_are_enough()
    ensures upload { (peer peer_later : Peer) (index sub limit : ℕ) (s : SlaveState)
        (result : Result Value MasterFault) (later : History)
        → IsPeer peer → IsOfPeer peer s → IsRequest (Upload index sub) → TakesMail s → 10 ≤ limit
        → IsSure CalmTrips (begun_at s) peer (uploading index sub) limit result peer_later later
        → result ≡ upload_of index sub later.now.application.objects }
    ensures download { (peer peer_later : Peer) (index sub : ℕ) (value : Value) (limit : ℕ) (s : SlaveState)
        (result : Result (Unit {0}) MasterFault) (later : History)
        → IsPeer peer → IsOfPeer peer s → IsRequest (Download index sub value) → TakesMail s → 10 ≤ limit
        → IsSure CalmTrips (begun_at s) peer (downloading index sub value) limit result peer_later
        later
        → OneIs (IsStored index sub value result later.now) (times_of later) }
{}

/// A datagram that names its slave by station address, not circulating, goes out alone in a frame over a
/// ring in any weather: any links may be down, others for copy A than for copy B, and either copy may be
/// lost. What comes back is what comes back where it meets the one slave alone with some fate; that slave is
/// left so, and every slave takes its step.
pub fn one_question_in_weather()
    ensures { (w : Weather) (d : DatagramRecord) (r : RingState) (before behind : List SlaveState)
        (s : SlaveState) → IsByStation d → IsAlone d r before s behind → HasFate w d r before s behind }
{}

/// A call that recovers over a ring, in any weather from trip to trip, is such a call of the one slave that
/// it asks, whatever the other slaves have to do: what `uploads_recover` and `downloads_recover` say of the
/// slave alone holds of that slave of the ring, at all times of the call. A ring over which a transfer is
/// done (`transfers_over_ring`) is such a ring.
pub fn calls_over_a_ring()
    ensures upload { (peer peer_later : Peer) (index sub limit : ℕ) (r : RingState)
        (before behind : List SlaveState) (s : SlaveState) (result : Result Value MasterFault)
        (later : RingHistory)
        → IsPeer peer → HasSlave peer r before s behind → IsRequest (Upload index sub)
        → IsSure WeatherSteps (begun_ring r) peer (uploading index sub) limit result peer_later later
        → IsSure SlaveTrips (begun_at s) peer (uploading index sub) limit result peer_later
        (history_at (length before) s later) }
    ensures download { (peer peer_later : Peer) (index sub : ℕ) (value : Value) (limit : ℕ) (r : RingState)
        (before behind : List SlaveState) (s : SlaveState) (result : Result (Unit {0}) MasterFault)
        (later : RingHistory)
        → IsPeer peer → HasSlave peer r before s behind → IsRequest (Download index sub value)
        → IsSure WeatherSteps (begun_ring r) peer (downloading index sub value) limit result
        peer_later later
        → IsSure SlaveTrips (begun_at s) peer (downloading index sub value) limit result peer_later
        (history_at (length before) s later) }
    ensures ready { (peer : Peer) (r : RingState) (before behind : List SlaveState) (s : SlaveState)
        → HasPeer peer r before s behind → HasSlave peer r before s behind }
{}

/// So over a ring in any weather, whatever stood in the mailboxes of the slave at first: a value that
/// `upload_surely` brings is the one that the object holds at the end of the call; Ok of `download_surely`
/// means that the object holds the value then; and an abort means that the slave would have refused it so at
/// all times of the call.
pub fn recovery_over_a_ring()
    ensures uploaded { (peer peer_later : Peer) (index sub limit : ℕ) (r : RingState)
        (before behind : List SlaveState) (s : SlaveState) (value : Value) (later : RingHistory)
        → IsPeer peer → HasSlave peer r before s behind → IsRequest (Upload index sub)
        → IsSure WeatherSteps (begun_ring r) peer (uploading index sub) limit (Ok value) peer_later
        later
        → value_at index sub (slave_at (length before) s later.now).application.objects ≡ Some value }
    ensures downloaded { (peer peer_later : Peer) (index sub : ℕ) (value : Value) (limit : ℕ)
        (r : RingState) (before behind : List SlaveState) (s : SlaveState) (later : RingHistory)
        → IsPeer peer → HasSlave peer r before s behind → IsRequest (Download index sub value)
        → IsSure WeatherSteps (begun_ring r) peer (downloading index sub value) limit (Ok tt)
        peer_later later
        → value_at index sub (slave_at (length before) s later.now).application.objects ≡ Some value }
    ensures refused { (peer peer_later : Peer) (index sub : ℕ) (value : Value) (limit code : ℕ)
        (r : RingState) (before behind : List SlaveState) (s : SlaveState) (later : RingHistory)
        → IsPeer peer → HasSlave peer r before s behind → IsRequest (Download index sub value)
        → IsSure WeatherSteps (begun_ring r) peer (downloading index sub value) limit
        (Err (Abort code)) peer_later later
        → AllByRecursion (λ (t : SlaveState). Err (Abort code) ≡ download_of index sub value
        t.application.objects) (times_of (history_at (length before) s later)) }
{}

/// Over a ring with at most one link down, of which nothing else is lost (`ec_master::RingPorts`), ten trips
/// are enough, from any state of the mailboxes of a slave in Pre-Op or above: an upload comes to what the
/// objects say, and a download to what they said at first; on Ok the object holds the value.
pub fn ten_trips_over_a_ring()
    ensures upload { (peer peer_later : Peer) (index sub limit : ℕ) (r : RingState)
        (before behind : List SlaveState) (s : SlaveState) (result : Result Value MasterFault)
        (later : RingState)
        → IsPeer peer → HasSlave peer r before s behind → AtMostOneDown r → TakesMail s
        → IsRequest (Upload index sub) → 10 ≤ limit
        → IsSure RingTrips r peer (uploading index sub) limit result peer_later later
        → result ≡ upload_of index sub (slave_at (length before) s later).application.objects }
    ensures download { (peer peer_later : Peer) (index sub : ℕ) (value : Value) (limit : ℕ) (r : RingState)
        (before behind : List SlaveState) (s : SlaveState) (result : Result (Unit {0}) MasterFault)
        (later : RingState)
        → IsPeer peer → HasSlave peer r before s behind → AtMostOneDown r → TakesMail s
        → IsRequest (Download index sub value) → 10 ≤ limit
        → IsSure RingTrips r peer (downloading index sub value) limit result peer_later later
        → HoldsStored index sub value result s (slave_at (length before) s later) }
{}

/// Over the ports of a ring (`ec_master::RingPorts`), whatever links of it are down, a value that
/// `upload_surely` brings is the one that the object holds at the end of the call, and Ok of
/// `download_surely` means that the object holds the value then.
pub fn recovery_over_ring_ports()
    ensures uploaded { (peer peer_later : Peer) (index sub limit : ℕ) (r : RingState)
        (before behind : List SlaveState) (s : SlaveState) (value : Value) (later : RingState)
        → IsPeer peer → HasSlave peer r before s behind → IsRequest (Upload index sub)
        → IsSure RingTrips r peer (uploading index sub) limit (Ok value) peer_later later
        → value_at index sub (slave_at (length before) s later).application.objects ≡ Some value }
    ensures downloaded { (peer peer_later : Peer) (index sub : ℕ) (value : Value) (limit : ℕ)
        (r : RingState) (before behind : List SlaveState) (s : SlaveState) (later : RingState)
        → IsPeer peer → HasSlave peer r before s behind → IsRequest (Download index sub value)
        → IsSure RingTrips r peer (downloading index sub value) limit (Ok tt) peer_later later
        → value_at index sub (slave_at (length before) s later).application.objects ≡ Some value }
{}
