//! The room for an answer.

use crate::text::Text;
use std::fmt::Debug;
use std::io::Write;
use std::process::Abort;
use std::test::Fail;

/// Asserts that what was found is what was wanted; once for all tests.
fn assert_same<T: PartialEq + Debug + Drop>(rt: &impl Abort, found: T, wanted: T) {
    assert_eq!(rt; found, wanted);
}

#[test]
fn a_text_is_what_was_written(rt: HostRuntime) -> Result<(), Fail> {
    let mut text = Text::with_room(rt.alloc(), 5)?;
    assert_same(&rt, text.is_empty(), true);
    text.write_all(b"ok")?;
    text.write_all(b"\nok")?;
    assert_same(&rt, text.as_slice(), b"ok\nok".as_slice());
    text.clear();
    assert_same(&rt, text.is_empty(), true);
    Ok(())
}

#[test]
fn a_text_without_room_says_so(rt: HostRuntime) -> Result<(), Fail> {
    let mut text = Text::with_room(rt.alloc(), 5)?;
    text.write_all(b"abcdef")?;
    text.write_all(b"ok\n")?;
    let wanted = b"failed: the answer is longer than there is room\n".as_slice();
    assert_same(&rt, text.as_slice(), wanted);
    text.clear();
    text.write_all(b"ok\n")?;
    assert_same(&rt, text.as_slice(), b"ok\n".as_slice());
    Ok(())
}
