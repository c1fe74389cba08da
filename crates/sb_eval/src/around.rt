//! The surroundings of a condition while it is evaluated.

use sb_plan::{Scope, Sources};

/// The sources of a statement, and the combinations of the queries around a condition.
#[derive(Drop)]
pub(crate) struct Around<'w, 'r, S: Sources> {
    pub(crate) sources: &'r S,
    pub(crate) scope: &'w Scope<'w, 'r>,
}
