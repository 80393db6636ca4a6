//! How a test sees that what it finds is what it expects. A comparison with its words is proved once here, and no test has one of its
//! own. A test that lets values go leaves the comparisons to functions that borrow them.

use std::fmt::Debug;
use std::process::Abort;

/// Sees that a value is the expected one.
pub(crate) fn see<T: Debug + PartialEq>(rt: &impl Abort, found: &T, expected: &T) {
    assert_eq!(rt; found, expected);
}

/// Sees that a list has the expected items.
pub(crate) fn see_list<T: Debug + PartialEq>(rt: &impl Abort, found: &[T], expected: &[T]) {
    assert_eq!(rt; found, expected);
}
