//! What tests compare.

use std::fmt::Debug;
use std::process::Abort;

/// Fails unless both are the same. `of` says in which case.
///
/// It is a function, so that the text of a failure is proved once and not in each test.
pub(crate) fn same<T: PartialEq + Debug, C: Debug + Drop>(
    rt: &impl Abort,
    found: &T,
    wanted: &T,
    of: C,
) {
    assert_eq!(rt; found, wanted, "of {of:?}");
}
