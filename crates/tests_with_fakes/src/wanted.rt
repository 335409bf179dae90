//! What tests compare.
use std::fmt::Debug;
use std::process::Abort;

/// Ends the test if something else is seen than what is wanted.
pub(crate) fn same<T: Debug + PartialEq>(rt: &impl Abort, seen: &T, wanted: &T) {
    assert_eq!(rt; seen, wanted);
}
