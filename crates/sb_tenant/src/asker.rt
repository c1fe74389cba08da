//! Who asks for a step, and by which line.

use crate::bound::Bound;
use sb_process::StepWatch;
use sb_value::SessionId;

/// The session whose line is answered, how much the step may do, the line, and who watches the step.
#[derive(Drop)]
pub(crate) struct Asker<'a, 'w> {
    pub(crate) session: SessionId,
    pub(crate) bound: Bound,
    pub(crate) line: &'a [u8],
    pub(crate) watch: Option<&'w StepWatch>,
}
