//! Lists whose elements are the same.
ghost use Rattle.std.specs.Prelude.{◌≡◌, IsTrue};

/// A type that has a test of equality for its model.
pub(crate) trait Same {
    /// True if the two are the same.
    fn is_same(&self, other: &Self) -> bool
        ensures { IsTrue result → self.now ≡ other.now };
}

/// True if two lists are the same, element by element.
pub(crate) fn are_same<T: Same>(one: &[T], other: &[T]) -> bool
    ensures { IsTrue result → one.now ≡ other.now }
{
    match one {
        [] => other.is_empty(),
        [first, rest @ ..] => match other {
            [second, others @ ..] => first.is_same(second) && are_same(rest, others),
            [] => false,
        },
    }
}
