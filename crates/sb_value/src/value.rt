//! Values and texts, and the columns that hold them.
ghost use Rattle.std.specs.Prelude.{◌≡◌, ◌≤◌, length, IfOk};
ghost use Rattle.std.specs.List.{AllPass};
ghost use Rattle.sb_value.specs.Printable.{is_printable};

use crate::name::Name;
use std::alloc::{AllocError, Global};
use std::cmp::Ordering;
use std::marker::Model;
use std::sync::Arc;

/// The most bytes that a text value has.
pub const TEXT_LIMIT: usize = 255;

/// The bytes of a text value: at most 255, all printable ASCII. Its copies share them.
#[derive(Drop)]
pub struct Text {
    bytes: Arc<Vec<u8>>,
}

impl Model for Text {
    ghost use Rattle.std.specs.Prelude.{List, ℕ};
    ghost use Rattle.std.specs.Arc.{arc_value};
    ghost use Rattle.sb_value.specs.Printable.{AreTextBytes};

    ghost Value = { List ℕ };

    ghost view = { λ t. (arc_value t.bytes).items };

    ghost invariant = { λ t. AreTextBytes (arc_value t.bytes).items };
}

impl Text {
    /// The text of these bytes. Error: out of memory.
    pub fn new(alloc: Global, bytes: Vec<u8>) -> Result<Text, AllocError>
        requires short { length bytes.items ≤ 255 }
        requires printable { AllPass is_printable bytes.items }
        ensures { IfOk result (λ text. text ≡ bytes.items) }
    {
        Ok(Text {
            bytes: Arc::new(alloc, bytes)?,
        })
    }

    /// Its bytes.
    pub fn as_slice(&self) -> &[u8]
        ensures bytes { result.now ≡ self.now }
        ensures short { length self.now ≤ 255 }
        ensures printable { AllPass is_printable self.now }
    {
        self.bytes.as_slice()
    }

    /// A text with the same bytes. Error: out of memory.
    pub fn clone(&self) -> Result<Text, AllocError>
        ensures { IfOk result (λ copy. copy ≡ self.now) }
    {
        Ok(Text {
            bytes: self.bytes.clone()?,
        })
    }
}

/// A value of a column.
pub enum Value {
    Int(i64),
    Text(Text),
}

impl Drop for Value {
    fn drop(self) {
        match self {
            Self::Int(_) => {}
            Self::Text(_) => {}
        }
    }
}

impl Value {
    ghost use Rattle.sb_value.specs.Values.{type_of, same_value, value_cmp};

    /// A value equal to this one. Error: out of memory.
    pub fn clone(&self) -> Result<Value, AllocError>
        ensures { IfOk result (λ copy. copy ≡ self.now) }
    {
        match self {
            Value::Int(number) => Ok(Value::Int(*number)),
            Value::Text(text) => Ok(Value::Text(text.clone()?)),
        }
    }

    /// Its order beside another value.
    pub fn compare(&self, other: &Value) -> Ordering
        ensures { result ≡ value_cmp self.now other.now }
    {
        match (self, other) {
            (Value::Int(one), Value::Int(two)) => one.cmp(two),
            (Value::Text(one), Value::Text(two)) => one.as_slice().cmp(two.as_slice()),
            (Value::Int(_), Value::Text(_)) => Ordering::Less,
            (Value::Text(_), Value::Int(_)) => Ordering::Greater,
        }
    }

    /// True if it equals another value.
    pub fn is_same(&self, other: &Value) -> bool
        ensures { result ≡ same_value self.now other.now }
    {
        self.compare(other).is_eq()
    }

    /// The type of the columns that hold it.
    pub fn column_type(&self) -> ColumnType
        ensures { result ≡ type_of self.now }
    {
        match self {
            Value::Int(_) => ColumnType::Int,
            Value::Text(_) => ColumnType::Text,
        }
    }
}

/// Zero. An unused place of a row holds it.
impl Default for Value {
    ghost use Rattle.std.specs.Prelude.{◌≡◌, pos};
    ghost use Rattle.sb_value.specs.declared.value.Value.TheVariants.{Int};

    ghost is_default = { λ v. v ≡ Int (pos 0) };

    fn default() -> Value {
        Value::Int(0)
    }
}

/// The type of a column.
#[derive(Clone, Copy, Debug, PartialEq, Eq)]
pub enum ColumnType {
    Int,
    Text,
}

/// A column of a table.
#[derive(Clone, Copy, PartialEq, Eq)]
pub struct ColumnDefinition {
    pub name: Name,
    pub of: ColumnType,
}
