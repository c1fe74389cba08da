//! Values as they are while an expression is evaluated.
ghost use Rattle.std.specs.Prelude.{◌≡◌, IfOk};
ghost use Rattle.std.specs.Ordering.{is_lt};
ghost use Rattle.sb_plan.specs.Meaning.{integer, compared, compares};
ghost use Rattle.sb_plan.specs.Scopes.{value_seen};
ghost use Rattle.sb_value.specs.Values.{value_cmp};

use sb_syntax::Comparison;
use sb_value::{Text, Value};
use std::alloc::AllocError;
use std::cmp::Ordering;

/// A number, or a text that stands in a row or in the statement.
#[derive(Clone, Copy)]
pub enum ValueRef<'r> {
    Int(i64),
    Text(&'r Text),
}

/// Zero. An unused place of a list holds it.
impl<'r> Default for ValueRef<'r> {
    fn default() -> ValueRef<'r> {
        ValueRef::Int(0)
    }
}

impl<'r> ValueRef<'r> {
    /// The value, where it stands.
    #[inline(always)]
    pub fn of(value: &'r Value) -> ValueRef<'r>
        ensures { value_seen result ≡ value.now }
    {
        match value {
            Value::Int(number) => ValueRef::Int(*number),
            Value::Text(text) => ValueRef::Text(text),
        }
    }

    /// The number that it is. Names and types leave no text where a number is asked for.
    #[inline(always)]
    pub fn number(self) -> i64
        ensures { result ≡ integer (value_seen self.entry) }
    {
        match self {
            ValueRef::Int(number) => number,
            ValueRef::Text(_) => 0,
        }
    }

    /// A value of its own. Error: out of memory.
    pub fn to_value(self) -> Result<Value, AllocError>
        ensures { IfOk result (λ value. value ≡ value_seen self.entry) }
    {
        match self {
            ValueRef::Int(number) => Ok(Value::Int(number)),
            ValueRef::Text(text) => Ok(Value::Text(text.clone()?)),
        }
    }

    /// Its order beside another value: texts by their bytes.
    #[inline(always)]
    pub fn order(self, other: ValueRef<'_>) -> Ordering
        ensures { result ≡ value_cmp (value_seen self.entry) (value_seen other.entry) }
    {
        match self {
            ValueRef::Int(one) => match other {
                ValueRef::Int(two) => one.cmp(&two),
                ValueRef::Text(_) => Ordering::Less,
            },
            ValueRef::Text(one) => match other {
                ValueRef::Int(_) => Ordering::Greater,
                ValueRef::Text(two) => one.as_slice().cmp(two.as_slice()),
            },
        }
    }

    /// True if it comes before another value.
    #[inline(always)]
    pub fn precedes(self, other: ValueRef<'_>) -> bool
        ensures { result ≡ is_lt (value_cmp (value_seen self.entry) (value_seen other.entry)) }
    {
        match self {
            ValueRef::Int(one) => match other {
                ValueRef::Int(two) => one < two,
                ValueRef::Text(_) => true,
            },
            ValueRef::Text(one) => match other {
                ValueRef::Int(_) => false,
                ValueRef::Text(two) => one.as_slice().cmp(two.as_slice()).is_lt(),
            },
        }
    }

    /// True if it compares so with another value.
    #[inline(always)]
    pub fn compares(self, comparison: Comparison, other: ValueRef<'_>) -> bool
        ensures { result ≡ compared comparison (value_seen self.entry) (value_seen other.entry) }
    {
        takes(comparison, self.order(other))
    }
}

/// True if a comparison takes the order as true.
#[inline(always)]
fn takes(comparison: Comparison, order: Ordering) -> bool
    ensures { result ≡ compares comparison order }
{
    match comparison {
        Comparison::Equal => order.is_eq(),
        Comparison::NotEqual => order.is_ne(),
        Comparison::Less => order.is_lt(),
        Comparison::LessEqual => order.is_le(),
        Comparison::Greater => order.is_gt(),
        Comparison::GreaterEqual => order.is_ge(),
    }
}
