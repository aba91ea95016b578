//! What it means that answers are alike, and that what is counted adds up.

ghost use Rattle.std.specs.Prelude.{◌≡◌, ℕ, List, Option, None, length};
ghost use Rattle.ec_wire.specs.Datagram.{DatagramRecord};
ghost use Rattle.ecat_serve.specs.State.{ServedState};
ghost use Rattle.ecat_trips.specs.declared.marks.Marks.{Marks};
ghost use Rattle.ecat_trips.specs.declared.packet.Outline.{Outline};
ghost use Rattle.ecat_trips.specs.declared.trip.Trip.{Trip};
ghost use Rattle.ecat_replay.specs.declared.part.Part.{Part};
ghost use Rattle.ecat_replay.specs.Comparing.{AddsUp, AreCompared, ComparisonState};
ghost use Rattle.ecat_replay.specs.Differences.{AreAlike, difference_of};
ghost use Rattle.ecat_replay.specs.Findings.{none_found};
ghost use Rattle.ecat_replay.specs.Replaying.{ReplayState, Takes};
ghost use Rattle.ecat_replay.specs.Tallies.{nothing_sent};

/// Answers to a datagram, with data of one length, differ in nothing exactly where they are alike: in how far
/// the counter moved, in how many slaves were passed where the address counts them, and in the data where
/// these are compared.
pub fn alike_answers()
    ensures alike { (sent there here : DatagramRecord) (part : Part) (mailbox : Option ℕ)
        → length there.payload ≡ length here.payload
        → difference_of sent there here part mailbox ≡ None → AreAlike sent there here part mailbox }
    ensures none { (sent there here : DatagramRecord) (part : Part) (mailbox : Option ℕ)
        → AreAlike sent there here part mailbox → difference_of sent there here part mailbox ≡ None }
{}

/// Behind any packets, as far as the numbers go: each frame that was sent was answered or lost in the
/// capture; each datagram that was compared was answered alike, or differs by clocks or by anything else; and
/// each that differs by anything else is found under its kind (`first`, `taken`, `ended`).
pub fn sums_add_up()
    ensures first { (line : ServedState)
        → AddsUp (record { line = line; findings = none_found; tally = nothing_sent }) }
    ensures taken { (m : Marks) (packet : Outline) (frame : List DatagramRecord) (before later : ReplayState)
        → Takes m packet frame before later → AddsUp before.comparison → AddsUp later.comparison }
    ensures ended { (trips : List Trip) (before later : ComparisonState) → AreCompared trips before later
        → AddsUp before → AddsUp later }
{}
