//! What the tests claim. An assertion costs a proof as much as a function of its own, so one serves for all.

use std::fmt::Debug;
use std::process::Abort;

pub(super) fn holds(rt: &impl Abort, is: bool) {
    assert!(rt; is);
}

// The same of a case, which is told where it does not hold.
pub(super) fn holds_for(rt: &impl Abort, is: bool, case: &impl Debug) {
    assert!(rt; is, "{case:?}");
}
