//! How tables of cases are checked.

use std::alloc::Global;
use std::process::Abort;

/// A case of a table.
pub(crate) trait Case {
    /// Whether the calls answer as the case says.
    fn holds(&self, alloc: Global) -> bool;
}

/// Each case of a table holds; the first that doesn't is named by its place, from 0.
pub(crate) fn all_hold<C: Case>(rt: &impl Abort, alloc: Global, cases: &[C]) {
    for (i, case) in cases.iter().enumerate() {
        assert!(rt; case.holds(alloc), "case {i}");
    }
}
