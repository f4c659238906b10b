//! Facts by their names.
use std::process::Abort;

/// Stops at the first that isn't so.
pub fn agree(rt: &impl Abort, facts: &[(&str, bool)]) {
    for (name, is) in facts {
        assert!(rt; *is, "{name}");
    }
}
