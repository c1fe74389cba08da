//! Conditions over the columns of a row.
use crate::term::Term;

/// A comparison of two integers.
#[derive(Clone, Copy)]
pub enum IntegerComparison {
    Equal,
    NotEqual,
    Less,
    LessEqual,
    Greater,
    GreaterEqual,
}

/// A test of a row.
pub enum Test {
    Always,
    Compare(Term, IntegerComparison, Term),
    Both(Box<Test>, Box<Test>),
    Either(Box<Test>, Box<Test>),
    Negation(Box<Test>),
}

impl Drop for Test {
    #[cycle(release_test)]
    fn drop(self) {
        match self {
            Self::Always => {}
            Self::Compare(_, _, _) => {}
            Self::Both(_, _) => {}
            Self::Either(_, _) => {}
            Self::Negation(_) => {}
        }
    }
}
