//! How much a step may do.
ghost use Rattle.std.specs.Prelude.{◌≡◌, None};

/// The bound of a step: a step that would go past it is refused, or ends its transaction.
#[derive(Clone, Copy, Debug, PartialEq, Eq)]
pub struct Bound {
    /// The consideration limit: the most rules that are considered at one assertion point. At most 1,000.
    pub considerations: u32,
    /// The most units of work, if there is a budget.
    pub work: Option<u32>,
}

impl Bound {
    /// So many considerations, and any work.
    pub fn without_budget(considerations: u32) -> Bound
        ensures is { result ≡ record { considerations = considerations; work = None } }
        ensures considerations { result.considerations ≡ considerations }
    {
        Bound {
            considerations,
            work: None,
        }
    }
}
