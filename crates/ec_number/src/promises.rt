//! The laws of numbers on frames, each the contract of a function that does nothing.

ghost use Rattle.std.specs.Prelude.{◌≡◌, ℕ, ◌<◌, ◌^◌, List};
ghost use Rattle.ec_wire.specs.Datagram.{DatagramRecord};
ghost use Rattle.ec_merge.specs.Frames.{IsOwn};
ghost use Rattle.ec_number.specs.Number.{Bears, CameUnder, numbered, opened};

/// A number that was put on comes off again, and is the one that the frame bears.
pub fn numbers_come_off()
    ensures off { (n : ℕ) (ds : List DatagramRecord) → opened (numbered n ds) ≡ ds }
    ensures bears { (n : ℕ) (ds : List DatagramRecord) → n < 2 ^ 64 → Bears n (numbered n ds) }
{}

/// A copy came of a frame under one number alone, whatever frames went out, and bears it. Without its number
/// it is no stranger to the frame.
pub fn numbers_are_apart()
    ensures apart { (m n : ℕ) (f g copy : List DatagramRecord) → m < 2 ^ 64 → n < 2 ^ 64 → CameUnder m f copy
        → CameUnder n g copy → m ≡ n }
    ensures bears { (n : ℕ) (f copy : List DatagramRecord) → n < 2 ^ 64 → CameUnder n f copy → Bears n copy }
    ensures own { (n : ℕ) (f copy : List DatagramRecord) → CameUnder n f copy → IsOwn f (opened copy) }
{}
