//! The laws of a whole capture, each the contract of a function that does nothing.
ghost use Rattle.std.specs.Prelude.{◌≡◌, ℕ, [], IfSome, List, Some};
ghost use Rattle.ecat_capture.specs.File.{GivesAll, Holds, IsCapture, Stored};
ghost use Rattle.ecat_capture.specs.Input.{ahead};
ghost use Rattle.ecat_capture.specs.Progress.{Progress};
ghost use Rattle.ecat_capture.specs.declared.blocks.Interface.{Interface};
ghost use Rattle.ecat_capture.specs.declared.capture.Stage.{Stage};
ghost use Rattle.ecat_capture.specs.declared.capture.Stage.TheVariants.{Start};
ghost use Rattle.ecat_source.specs.Source.{CanFail};

/// What [`Capture::next`] gives one after another, up to the end, are the packets of the file, in their
/// order, and all of them. That the file ends is known only while a failure of its source can be counted.
///
/// [`Capture::next`]: crate::Capture::next
pub fn whole_file()
    ensures { (old new : Progress) (bytes : List ℕ) (packets : List Stored) → old.stage ≡ Start
        → old.interfaces ≡ [] → ahead old.input ≡ Some bytes → GivesAll old packets new
        → CanFail new.input.count → IsCapture bytes packets }
{}

/// A file is a capture in one way: it has the packets that it has, and no others.
pub fn one_reading()
    ensures { (stage : Stage) (interfaces : List Interface) (bytes : List ℕ) (packets others : List Stored)
        → Holds stage interfaces bytes packets → Holds stage interfaces bytes others → packets ≡ others }
{}
