//! What the trips of any capture keep.

ghost use Rattle.std.specs.Prelude.{◌≡◌, ◌+◌, ◌%◌, ◌<◌, ◌≤◌, ℕ, true, List, length, sum_by};
ghost use Rattle.ecat_trips.specs.declared.packet.Outline.{Outline};
ghost use Rattle.ecat_trips.specs.declared.marks.Marks.{Marks};
ghost use Rattle.ecat_trips.specs.declared.trips.TheConstants.{MAX_ON_THE_WAY};
ghost use Rattle.ec_wire.specs.Datagram.{DatagramRecord};
ghost use Rattle.ecat_trips.specs.Alike.{moves_adp};
ghost use Rattle.ecat_trips.specs.Copies.{grown, joined_or, moved, same_size_at};
ghost use Rattle.ecat_trips.specs.Steps.{TripsState};
ghost use Rattle.ecat_trips.specs.Runs.{Happened, Runs, nothing, of_astray, of_copies, of_ended, of_taken};
ghost use Rattle.ecat_trips.specs.Runs.{lost_trip, returned_trip, sent_trip};

/// Each packet that is taken is one copy of one trip, or late, or stray: by any measure of packets those that
/// were taken measure as much as the copies of the trips that ended, of those that are on the way, and those
/// that are late or stray together.
pub fn each_packet_once()
    ensures { (measure : Outline → ℕ) (m : Marks) (hs : List Happened) (s : TripsState) → Runs m nothing hs s
        → sum_by (of_taken measure) hs ≡ sum_by (of_ended measure) hs + sum_by (of_astray measure) hs
        + sum_by (of_copies measure) s.on_the_way }
{}

/// As many trips were sent as returned, were lost and are on the way together, and no more than 4,096 are on
/// the way.
pub fn each_trip_once()
    ensures once { (m : Marks) (hs : List Happened) (s : TripsState) → Runs m nothing hs s
        → sum_by sent_trip hs ≡ sum_by returned_trip hs + sum_by lost_trip hs + length s.on_the_way }
    ensures most { (m : Marks) (hs : List Happened) (s : TripsState) → Runs m nothing hs s
        → length s.on_the_way ≤ MAX_ON_THE_WAY }
{}

/// Two copies of a datagram that are joined have moved its counter, and grown an ADP that slaves count up, as
/// far as each of them together.
pub fn copies_add_up()
    ensures moved { (s a b : DatagramRecord) → s.counter < 65536 → same_size_at s a ≡ true
        → same_size_at s b ≡ true → moved s (joined_or s a b) ≡ (moved s a + moved s b) % 65536 }
    ensures grown { (s a b : DatagramRecord) → moves_adp s.command ≡ true → same_size_at s a ≡ true
        → same_size_at s b ≡ true → grown s (joined_or s a b) ≡ (grown s a + grown s b) % 65536 }
{}
