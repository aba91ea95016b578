//! What is written is read again: the contract of a function that does nothing.
ghost use Rattle.ecat_capture.specs.File.{IsCapture};
ghost use Rattle.ecat_record.specs.Written.{AllFit, Copy, capture_of, packets_of};
ghost use Rattle.ecat_record.specs.declared.format.Unit.{Unit};
ghost use Rattle.std.specs.Prelude.{List};

/// What was written, a header and the records of packets, is a capture with just these packets, each with its
/// time and its bytes.
pub fn reads_back()
    ensures { (unit : Unit) (copies : List Copy) → AllFit copies
        → IsCapture (capture_of unit copies) (packets_of unit copies) }
{}
