//! What the tests assert by.
use std::fmt::{Debug, Display};
use std::process::Abort;

/// Asserts in one place for all tests, since each `assert_eq!` makes the proof of the function around
/// it dearer, and so does each reference that is made for it.
pub fn assert_same<T: PartialEq + Debug + Copy>(
    rt: &impl Abort,
    row: impl Display + Copy,
    given: T,
    wanted: T,
) {
    assert!(rt; given == wanted, "{row}: {given:?}, not {wanted:?}");
}
