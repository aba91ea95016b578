//! What tests assert stands in functions, which are proved once: an assertion that stands in a test is proved
//! again in each, which takes longer than all else of it.

use std::fmt::Debug;
use std::process::Abort;

/// Asserts that what was found is what was wanted.
pub fn assert_same<T: PartialEq + Debug + Drop>(rt: &impl Abort, found: T, wanted: T) {
    assert_eq!(rt; found, wanted);
}
