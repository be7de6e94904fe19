//! Assertions as calls. A call is proved in no time, where each assertion of the macros adds branches to the proof of the whole test.

use std::fmt::Debug;
use std::process::Abort;

/// The two are equal.
pub(crate) fn equal<T: Drop + PartialEq + Debug>(rt: &impl Abort, got: T, wanted: T) {
    assert_eq!(rt; got, wanted);
}

/// The two are equal, in this row of a table.
pub(crate) fn equal_at<T: Drop + PartialEq + Debug, Row: Debug>(
    rt: &impl Abort,
    got: T,
    wanted: T,
    row: &Row,
) {
    assert_eq!(rt; got, wanted, "{row:?}");
}

/// The fact holds.
pub(crate) fn holds(rt: &impl Abort, fact: bool) {
    assert!(rt; fact);
}
