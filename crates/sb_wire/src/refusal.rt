//! Refusals of lines that become no step.
ghost use Rattle.std.specs.Prelude.{◌≡◌};

/// Why a line became no step.
#[derive(Clone, Copy, Debug, PartialEq, Eq)]
pub enum WireRefusal {
    TooLong,
    BadLine,
    NoTenant,
    NoSession,
    /// The key is none of the tenant's, or there is none.
    BadKey,
    /// Memory ran out before the step was begun.
    NotBegun,
}

impl WireRefusal {
    ghost use Rattle.sb_wire.specs.Seen.{refusal_line, wire_number, wire_name};

    /// Its number and its name in a reply.
    pub(crate) fn number_and_name(&self) -> (u8, &'static str)
        ensures number { result.0 ≡ wire_number self.now }
        ensures name { result.1.now ≡ wire_name self.now }
    {
        match self {
            WireRefusal::TooLong => (11, "TooLong"),
            WireRefusal::BadLine => (12, "BadLine"),
            WireRefusal::NoTenant => (13, "NoTenant"),
            WireRefusal::NoSession => (14, "NoSession"),
            WireRefusal::BadKey => (15, "BadKey"),
            WireRefusal::NotBegun => (92, "NotBegun"),
        }
    }

    /// Its number in a reply.
    pub fn number(&self) -> u8
        ensures { result ≡ wire_number self.now }
    {
        self.number_and_name().0
    }

    /// The line that says it.
    pub(crate) fn text(&self) -> &'static str
        ensures { result.now ≡ refusal_line self.now }
    {
        match self {
            WireRefusal::TooLong => "no 11 TooLong",
            WireRefusal::BadLine => "no 12 BadLine",
            WireRefusal::NoTenant => "no 13 NoTenant",
            WireRefusal::NoSession => "no 14 NoSession",
            WireRefusal::BadKey => "no 15 BadKey",
            WireRefusal::NotBegun => "no 92 NotBegun",
        }
    }
}
