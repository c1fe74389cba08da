//! What a request is for.
ghost use Rattle.sb_monitor.specs.Targets.{Aims};

use sb_status::{Route, route_of};

/// A page, or what a server is asked or told.
#[derive(Clone, Copy)]
pub(crate) enum Target {
    /// A page of the host or of a tenant, the end of a session, or a renewal.
    Page(Route),
    /// The question whether clients are let in.
    Ready,
    /// The end of the server.
    Stop,
}

/// What the target of a request names.
pub(crate) fn target_of(text: &[u8]) -> Target
    ensures { Aims text.now result }
{
    if text == b"/ready".as_slice() {
        return Target::Ready;
    }
    if text == b"/stop".as_slice() {
        return Target::Stop;
    }
    Target::Page(route_of(text))
}
