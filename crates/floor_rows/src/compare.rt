//! What every test here ends with: in one function, since each assertion is dear to prove in a test of its own.

use std::fmt::Debug;
use std::process::Abort;

/// Ends the test, and tells both, if what was found is not what was worked out.
pub(crate) fn compare<R: Abort, T: PartialEq + Debug>(rt: &R, found: &T, wanted: &T) {
    assert_eq!(*rt; *found, *wanted);
}
