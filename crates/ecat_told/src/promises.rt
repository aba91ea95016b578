//! The laws of what is told, each the contract of a function that does nothing.

ghost use Rattle.std.specs.Prelude.{◌≡◌, ◌⊎◌, ◌<◌, ℕ, Bool, true, false, List, [], ◌∷◌, length, slice_index};
ghost use Rattle.std.specs.Prelude.{Some};
ghost use Rattle.std.specs.List.{AllByRecursion};
ghost use Rattle.ec_regs.specs.declared.registers.TheConstants.{AL_STATUS, PROCESS_MEMORY};
ghost use Rattle.ec_wire.specs.Datagram.{DatagramRecord, ado};
ghost use Rattle.ec_wire.specs.declared.command.Command.TheVariants.{Aprd, Brd, Fprd};
ghost use Rattle.ec_esc.specs.Pass.{pass};
ghost use Rattle.ec_esc.specs.State.{ControllerState, IsController};
ghost use Rattle.ec_line.specs.Trip.{front_pass, line_pass};
ghost use Rattle.ec_app.specs.Slave.{step};
ghost use Rattle.ec_app.specs.State.{SlaveState};
ghost use Rattle.ec_ring.specs.Links.{is_whole};
ghost use Rattle.ec_ring.specs.Reach.{front};
ghost use Rattle.ec_ring.specs.Walk.{walked_from_a, walked_from_b};
ghost use Rattle.ec_ring.specs.declared.links.Links.{Links};
ghost use Rattle.ec_ring.specs.declared.port.Port.TheVariants.{A, B};
ghost use Rattle.ecat_trips.specs.Copies.{joined, moved};
ghost use Rattle.ecat_told.specs.declared.byte.How.TheVariants.{Read, Written, Lost};
ghost use Rattle.ecat_told.specs.declared.slave.Slave.{Slave};
ghost use Rattle.ecat_told.specs.Known.{KnownState, first_of, is_logical, is_write, nothing};
ghost use Rattle.ecat_told.specs.Known.{tells_states};
ghost use Rattle.ecat_told.specs.Slave.{told_run};
ghost use Rattle.ecat_told.specs.So.{IsClaimed, IsSlaveSo, IsSo};
ghost use Rattle.ecat_told.specs.Journeys.{AreJourneys, IsGuarding, IsLine, IsSent, Journey};
ghost use Rattle.ecat_told.specs.Journeys.{behind, found, told_of, writes_registers};

/// What is told of one slave stays so where one datagram passes its controller: a read tells the bytes that
/// it brings, a write that was counted those that it carries, and of what may have been written, whether the
/// datagram came there or not, nothing is told any more but what can't be. A logical datagram, and one that
/// was not counted, change nothing that is told.
pub fn one_told_run()
    ensures read { (states : Bool) (s : Slave) (c : ControllerState) (d : DatagramRecord)
        → IsController c → IsSent d → (d.command ≡ Aprd) ⊎ (d.command ≡ Fprd)
        → moved d (pass c d).datagram ≡ 1 → IsSlaveSo states s c
        → IsSlaveSo states (told_run Read (ado d) (pass c d).datagram.payload s) (pass c d).state }
    ensures written { (states : Bool) (s : Slave) (c : ControllerState) (d : DatagramRecord)
        → IsController c → IsSent d → is_write d.command ≡ true → moved d (pass c d).datagram ≡ 1
        → IsGuarding c → IsSlaveSo states s c
        → IsSlaveSo states (told_run Written (ado d) d.payload s) (pass c d).state }
    ensures lost { (states : Bool) (s : Slave) (c : ControllerState) (d : DatagramRecord)
        → IsController c → IsSent d → (writes_registers d.command ≡ true → IsGuarding c)
        → IsSlaveSo states s c
        → IsSlaveSo states (told_run Lost (ado d) d.payload s) (pass c d).state }
    ensures lost_before { (states : Bool) (s : Slave) (c : ControllerState) (d : DatagramRecord)
        → IsSlaveSo states s c → IsSlaveSo states (told_run Lost (ado d) d.payload s) c }
    ensures uncounted { (states : Bool) (s : Slave) (c : ControllerState) (d : DatagramRecord)
        → IsController c → IsSent d → is_logical d.command ≡ false → moved d (pass c d).datagram ≡ 0
        → IsSlaveSo states s c → IsSlaveSo states s (pass c d).state }
    ensures logical { (states : Bool) (s : Slave) (c : ControllerState) (d : DatagramRecord)
        → IsController c → is_logical d.command ≡ true
        → IsSlaveSo states s c → IsSlaveSo states s (pass c d).state }
{}

/// What is told is so: over a line of simulated controllers, and behind any number of frames that are lost,
/// wherever that is, or come back from the whole line, each byte that is told is that of the controller at
/// its place (`later`). And each byte of the line that is kept, the one that `learn` prints once a logical
/// datagram has moved, is that of the controller as the last such datagram found it (`line`). At first
/// nothing is told (`at_first`).
///
/// What it rests on: a frame came back from the whole line, or it is lost; lost too where a copy alone came
/// back that no slave processed. A copy back from a part of the line is neither, so of a capture in which a
/// cable was broken at any time nothing is said from that frame on. When a datagram comes that writes
/// registers, each enabled sync manager must guard an area; and of those that a datagram by station finds at
/// most one may have that station. Of AL status it is said where nothing changes it between the frames, of
/// the status bytes of sync managers never.
pub fn told_is_so()
    ensures at_first { (states : Bool) (line : List ControllerState) → IsSo states nothing.slaves line }
    ensures none_at_first { (states : Bool) (line : List ControllerState) → IsSo states nothing.line line }
    ensures later { (states : Bool) (js : List Journey) (line : List ControllerState) (k : KnownState)
        → IsLine line → IsSo states k.slaves line → AreJourneys states js line
        → IsSo states (told_of js k).slaves (behind js line) }
    ensures line { (states : Bool) (js : List Journey) (line last : List ControllerState) (k : KnownState)
        → IsLine line → IsSo states k.slaves line → IsSo states k.line last → AreJourneys states js line
        → IsSo states (told_of js k).line (found js line last) }
{}

/// A step of a slave's application leaves each byte of what is claimed without AL status. So it may stand
/// between two frames, where it leaves a controller that is in a state.
pub fn steps_leave_it()
    ensures { (s : SlaveState) (a : ℕ) → IsController s.controller → a < PROCESS_MEMORY → IsClaimed false a
        → slice_index (step s).controller.memory a ≡ slice_index s.controller.memory a }
{}

/// Where a broadcast read of AL status is counted by all controllers of a line and brings one state alone,
/// each of them is in it when the read passes.
pub fn one_state_heard()
    ensures { (line : List ControllerState) (d c : DatagramRecord) → IsLine line → IsSent d → d.command ≡ Brd
        → (line_pass line (d ∷ [])).frame ≡ c ∷ [] → tells_states (length line) d c ≡ true
        → AllByRecursion (λ (x : ControllerState). slice_index x.memory AL_STATUS ≡ first_of c.payload) line }
{}

/// Over a ring whose links are all up a frame that port A sends passes the whole line, and arrives at port B
/// as the line left it; and one that port B sends arrives at port A as it was sent. Over any ring a frame
/// that port A sends leaves the line as one that passed the first controllers alone.
pub fn rings_are_passed()
    ensures back { (links : Links) (frame : List DatagramRecord) (line : List ControllerState)
        → is_whole links (length line) ≡ true
        → (walked_from_a links frame line).arrived
        ≡ Some ((front_pass (length line) line frame).frame, B) }
    ensures whole { (links : Links) (frame : List DatagramRecord) (line : List ControllerState)
        → is_whole links (length line) ≡ true
        → (walked_from_a links frame line).line ≡ (front_pass (length line) line frame).line }
    ensures other { (links : Links) (frame : List DatagramRecord) (line : List ControllerState)
        → is_whole links (length line) ≡ true
        → walked_from_b links frame line ≡ record { arrived = Some (frame, A); line = line } }
    ensures lost { (links : Links) (frame : List DatagramRecord) (line : List ControllerState)
        → (walked_from_a links frame line).line
        ≡ (front_pass (front links (length line)) line frame).line }
{}

/// A copy that slaves processed, joined with one that none did, is that copy: what comes back of a frame that
/// a master with two ports sends over a closed ring.
pub fn still_copies_add_nothing()
    ensures last { (n : ℕ) (frame : List DatagramRecord) (line : List ControllerState)
        → AllByRecursion IsSent frame
        → joined frame (front_pass n line frame).frame frame ≡ (front_pass n line frame).frame }
    ensures first { (n : ℕ) (frame : List DatagramRecord) (line : List ControllerState)
        → AllByRecursion IsSent frame
        → joined frame frame (front_pass n line frame).frame ≡ (front_pass n line frame).frame }
{}
