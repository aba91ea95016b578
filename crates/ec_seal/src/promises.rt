//! The laws of numbers over lines.

ghost use Rattle.std.specs.Prelude.{◌≡◌, ℕ, ◌<◌, ◌^◌, false, List, Some, IfSome};
ghost use Rattle.std.specs.List.{AllByRecursion};
ghost use Rattle.ec_wire.specs.Datagram.{DatagramRecord};
ghost use Rattle.ec_esc.specs.State.{ControllerState, IsController};
ghost use Rattle.ec_line.specs.Moving.{Visit, when_a, when_b, copy_a, copy_b};
ghost use Rattle.ec_line.specs.Trip.{Trip};
ghost use Rattle.ec_ring.specs.Travel.{travelled};
ghost use Rattle.ec_ring.specs.Walk.{walked};
ghost use Rattle.ec_ring.specs.declared.links.Links.{Links};
ghost use Rattle.ec_ring.specs.declared.port.Port.{Port};
ghost use Rattle.ec_ring.specs.declared.weather.Came.{Came};
ghost use Rattle.ec_ring.specs.declared.weather.Weather.{Weather};
ghost use Rattle.ec_number.specs.Number.{numbered, with_number, opened, Bears, CameUnder, number_a, number_b};
ghost use Rattle.ec_seal.specs.Moving.{numbered_copy_a, numbered_copy_b, MeetsMoving};
ghost use Rattle.ec_seal.specs.Taken.{Made, IsMade, Meets, going_back, losing};
ghost use Rattle.ec_seal.specs.Trips.{CountersFit, numbered_trip, both_opened, opened_walk, opened_trip};

/// A walk of a numbered frame, or a trip of numbered copies, opened, is that of the frame, and leaves the
/// same controllers.
pub fn numbers_go_through()
    ensures walk { (n : ℕ) (ds : List DatagramRecord) (from : Port) (links : Links)
        (line : List ControllerState) → AllByRecursion IsController line
        → opened_walk (walked from links (numbered n ds) line) ≡ walked from links ds line }
    ensures trip { (n : ℕ) (w : Weather) (ds : List DatagramRecord) (line : List ControllerState)
        → AllByRecursion IsController line
        → opened_trip (numbered_trip n w ds line) ≡ travelled w ds line }
{}

/// Over a line that moves each copy of a trip comes back with its number behind it, and leaves the line as
/// the copy of the frame does.
pub fn numbers_go_through_moving()
    ensures a { (n : ℕ) (t : Trip) (vs : List Visit) → AllByRecursion IsController (when_a vs)
        → numbered_copy_a n t vs
        ≡ record { frame = with_number false (number_a n) (copy_a t vs).frame; line = (copy_a t vs).line } }
    ensures b { (n : ℕ) (t : Trip) (vs : List Visit) → AllByRecursion IsController (when_b vs)
        → numbered_copy_b n t vs
        ≡ record
        { frame = with_number t.turned (number_b n) (copy_b t vs).frame; line = (copy_b t vs).line } }
{}

/// What arrives of a numbered frame bears its number and came of the frame under it, whatever lines and
/// weathers there were; so every true copy is taken, under its own number alone (`one`).
pub fn true_copies_are_taken()
    ensures bears { (n : ℕ) (ds : List DatagramRecord) (from : Port) (links : Links)
        (line : List ControllerState) → n < 2 ^ 64 → AllByRecursion IsController line
        → IfSome (walked from links (numbered n ds) line).arrived (λ x. Bears n x.0) }
    ensures taken { (n : ℕ) (ds : List DatagramRecord) (from : Port) (links : Links)
        (line : List ControllerState) → AllByRecursion IsController line → CountersFit ds
        → IfSome (walked from links (numbered n ds) line).arrived (λ x. CameUnder n ds x.0) }
    ensures one { (m n : ℕ) (f g : List DatagramRecord) (from : Port) (links : Links)
        (line : List ControllerState) → AllByRecursion IsController line → CountersFit f → m < 2 ^ 64
        → n < 2 ^ 64
        → IfSome (walked from links (numbered m f) line).arrived (λ x. CameUnder n g x.0 → m ≡ n) }
    ensures trip_a { (n : ℕ) (w : Weather) (ds : List DatagramRecord) (line : List ControllerState)
        → AllByRecursion IsController line → CountersFit ds
        → IfSome (numbered_trip n w ds line).came.a (CameUnder (number_a n) ds) }
    ensures trip_b { (n : ℕ) (w : Weather) (ds : List DatagramRecord) (line : List ControllerState)
        → AllByRecursion IsController line → CountersFit ds
        → IfSome (numbered_trip n w ds line).came.b (CameUnder (number_b n) ds) }
{}

/// Of other trips' copies none is taken: where what bears a number of a trip is one of its two copies, what
/// is taken on the trip is its own. Opened, it is what a trip of the frame brings on which those copies are
/// lost that were not taken (`brings`), and that trip leaves the line as the numbered one has left it
/// (`line`).
pub fn only_its_own()
    ensures a { (m : Made) (taken : Came) → Meets m taken
        → IfSome taken.a (λ copy. (going_back m).a ≡ Some copy) }
    ensures b { (m : Made) (taken : Came) → Meets m taken
        → IfSome taken.b (λ copy. (going_back m).b ≡ Some copy) }
    ensures brings { (m : Made) (taken : Came) → Meets m taken
        → both_opened taken ≡ (travelled (losing taken m.weather) m.frame m.line).came }
    ensures line { (m : Made) (taken : Came) → IsMade m
        → (travelled (losing taken m.weather) m.frame m.line).line
        ≡ (numbered_trip m.number m.weather m.frame m.line).line }
{}

/// Over a line that moves too: what is taken, opened, is the trip's own copy, which did not get lost.
pub fn only_its_own_moving()
    ensures a { (n : ℕ) (t : Trip) (vs : List Visit) (taken : Came) → MeetsMoving n t vs taken
        → IfSome taken.a (λ copy. (t.lost_a ≡ false) × (opened copy ≡ (copy_a t vs).frame)) }
    ensures b { (n : ℕ) (t : Trip) (vs : List Visit) (taken : Came) → MeetsMoving n t vs taken
        → IfSome taken.b (λ copy. (t.lost_b ≡ false) × (opened copy ≡ (copy_b t vs).frame)) }
{}
