//! Terms over the columns of a row.

/// A number that a row gives. Columns go by their numbers; one that isn't there is zero.
pub enum Term {
    Constant(i64),
    Column(usize),
    Negation(Box<Term>),
    Sum(Box<Term>, Box<Term>),
    Difference(Box<Term>, Box<Term>),
    Product(Box<Term>, Box<Term>),
}

impl Drop for Term {
    #[cycle(release_term)]
    fn drop(self) {
        match self {
            Self::Constant(_) => {}
            Self::Column(_) => {}
            Self::Negation(_) => {}
            Self::Sum(_, _) => {}
            Self::Difference(_, _) => {}
            Self::Product(_, _) => {}
        }
    }
}
