//! A journal begins with a header.
ghost use Rattle.std.specs.Prelude.{◌≡◌, unwrap_or};

use sb_tenant::Bound;
use std::fmt;

/// Journal header: the settings that a replay must share.
#[derive(Clone, Copy, Debug)]
pub struct Head {
    pub tenants: u32,
    /// The budget of a step in units of work. 0: any.
    pub work: u32,
    /// The most rules that are considered at one assertion point.
    pub bound: u32,
}

impl Head {
    /// The settings of so many tenants whose steps have this bound.
    pub fn new(tenants: u32, bound: Bound) -> Head
        ensures tenants { result.tenants ≡ tenants }
        ensures work { result.work ≡ unwrap_or bound.work 0 }
        ensures bound { result.bound ≡ bound.considerations }
    {
        Head {
            tenants,
            work: bound.work.unwrap_or(0),
            bound: bound.considerations,
        }
    }
}

impl fmt::Display for Head {
    fn fmt<W: fmt::Write>(&self, f: &mut fmt::Formatter<W>) -> fmt::Result {
        write!(f, "{} tenants, bound {}", self.tenants, self.bound)?;
        match self.work {
            0 => Ok(()),
            work => write!(f, ", step work {work}"),
        }
    }
}
