//! The laws of diagnosis, each the contract of a function that does nothing.

ghost use Rattle.std.specs.Prelude.{◌≡◌, ◌≤◌, ℕ, None, List, [], ◌∷◌, length, if◌then◌else◌};
ghost use Rattle.ec_wire.specs.Datagram.{DatagramRecord};
ghost use Rattle.ec_esc.specs.State.{ControllerState};
ghost use Rattle.ec_ring.specs.Arrivals.{arrivals_of};
ghost use Rattle.ec_ring.specs.Walk.{walked_from_a, walked_from_b};
ghost use Rattle.ec_ring.specs.declared.links.Links.{Links};
ghost use Rattle.ec_ring.specs.declared.weather.Weather.{Weather};
ghost use Rattle.ec_diag.specs.Arrivals.{heard_arrival, with_arrivals};
ghost use Rattle.ec_diag.specs.Located.{Tells};
ghost use Rattle.ec_diag.specs.Heard.{IsProbe, heard_a, heard_b, heard_walk};

use crate::located::Located;
use ec_esc::MOST_CONTROLLERS;

/// Over any line of controllers, fit or not, a broadcast read of registers that goes alone in a frame is
/// heard of each copy as the links have it; of a copy that they lose nothing is heard.
pub fn walks_are_heard()
    ensures a { (links : Links) (line : List ControllerState) (d : DatagramRecord)
        → length line ≤ MOST_CONTROLLERS → IsProbe d
        → heard_walk d (walked_from_a links (d ∷ []) line) ≡ heard_a links (length line) }
    ensures b { (links : Links) (line : List ControllerState) (d : DatagramRecord)
        → length line ≤ MOST_CONTROLLERS → IsProbe d
        → heard_walk d (walked_from_b links (d ∷ []) line) ≡ heard_b links (length line) }
{}

/// So is each copy of a trip that the weather does not lose, whichever goes first. Where both travel under
/// the same links, lost or not, what they tell is so.
pub fn trips_are_heard()
    ensures a { (w : Weather) (line : List ControllerState) (d : DatagramRecord)
        → length line ≤ MOST_CONTROLLERS → IsProbe d
        → heard_arrival (d ∷ []) (arrivals_of w (d ∷ []) line).a
        ≡ (if w.lost_a then None else heard_a w.a (length line)) }
    ensures b { (w : Weather) (line : List ControllerState) (d : DatagramRecord)
        → length line ≤ MOST_CONTROLLERS → IsProbe d
        → heard_arrival (d ∷ []) (arrivals_of w (d ∷ []) line).b
        ≡ (if w.lost_b then None else heard_b w.b (length line)) }
    ensures so { (w : Weather) (line : List ControllerState) (d : DatagramRecord)
        → length line ≤ MOST_CONTROLLERS → IsProbe d → w.a ≡ w.b
        → Tells (with_arrivals (length line) Located.Unknown (d ∷ []) (arrivals_of w (d ∷ []) line)) w.a
        (length line) }
{}
