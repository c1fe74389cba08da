//! Items of a message's lists, and how they are written.
ghost use Rattle.std.specs.Prelude.{◌≡◌, ◌++◌, ℕ, List, option_copied};
ghost use Rattle.std.specs.List.{flat_map, AllByRecursion};
ghost use Rattle.sb_postgres.specs.Answers.{IsColumn, IsField, column, column_seen, field, field_seen, minus_one};
ghost use Rattle.sb_postgres.specs.Fields.{AreCounted, IsHalf, IsText, IsValue, IsWord, counted, half, text, value, word};
ghost use Rattle.sb_postgres.specs.Writing.{Pushes};

use crate::error::WriteError;
use crate::server_message::{Column, Field};

/// The length of a value that isn't there.
const NO_VALUE: u32 = u32::MAX;

/// The modifier of a type without one.
const NO_MODIFIER: u32 = u32::MAX;

pub(crate) fn push_half(out: &mut Vec<u8>, number: u16) -> Result<(), WriteError>
    ensures { Pushes (IsHalf number) (half number) out.old.items out.new.items result }
{
    out.extend_from_slice(&number.to_be_bytes())?;
    Ok(())
}

pub(crate) fn push_word(out: &mut Vec<u8>, number: u32) -> Result<(), WriteError>
    ensures { Pushes (IsWord number) (word number) out.old.items out.new.items result }
{
    out.extend_from_slice(&number.to_be_bytes())?;
    Ok(())
}

pub(crate) fn push_text(out: &mut Vec<u8>, bytes: &[u8]) -> Result<(), WriteError>
    ensures { Pushes (IsText bytes.now) (text bytes.now) out.old.items out.new.items result }
{
    if bytes.iter().any(|byte| *byte == 0) {
        return Err(WriteError::Unsayable);
    }
    out.extend_from_slice(bytes)?;
    out.push(0)?;
    Ok(())
}

fn push_value(out: &mut Vec<u8>, bytes: Option<&[u8]>) -> Result<(), WriteError>
    ensures { Pushes (IsValue (option_copied bytes.entry)) (value (option_copied bytes.entry)) out.old.items out.new.items result }
{
    let Some(bytes) = bytes else {
        return push_word(out, NO_VALUE);
    };
    if bytes.len() >= NO_VALUE as usize {
        return Err(WriteError::Unsayable);
    }
    push_word(out, bytes.len() as u32)?;
    out.extend_from_slice(bytes)?;
    Ok(())
}

/// Adds a type without a modifier, and the format of its values.
fn push_type(out: &mut Vec<u8>, id: u32, len: u16, format: u16) -> Result<(), WriteError>
    ensures { Pushes (IsWord id × (IsHalf len × IsHalf format)) (word id ++ (half len ++ (word minus_one ++ half format))) out.old.items out.new.items result }
{
    push_word(out, id)?;
    push_half(out, len)?;
    push_word(out, NO_MODIFIER)?;
    push_half(out, format)
}

/// An item of a message's list.
pub(crate) trait Item {
    // its bytes
    ghost bytes: { Self → List ℕ };

    // what has such bytes
    ghost IsItem: { Self → Type 0 };

    /// Adds it.
    fn push(&self, out: &mut Vec<u8>) -> Result<(), WriteError>
        ensures { Pushes (IsItem self.now) (bytes self.now) out.old.items out.new.items result };
}

impl Item for Column<'_> {
    ghost bytes = { λ c. column (column_seen c) };

    ghost IsItem = { λ c. IsColumn (column_seen c) };

    fn push(&self, out: &mut Vec<u8>) -> Result<(), WriteError> {
        push_text(out, self.name)?;
        push_word(out, 0)?;
        push_half(out, 0)?;
        push_type(out, self.type_id, self.type_len, self.format)
    }
}

impl Item for Field<'_> {
    ghost bytes = { λ f. field (field_seen f) };

    ghost IsItem = { λ f. IsField (field_seen f) };

    fn push(&self, out: &mut Vec<u8>) -> Result<(), WriteError> {
        if self.letter == 0 {
            return Err(WriteError::Unsayable);
        }
        out.push(self.letter)?;
        push_text(out, self.text)
    }
}

impl Item for Option<&[u8]> {
    ghost bytes = { λ v. value (option_copied v) };

    ghost IsItem = { λ v. IsValue (option_copied v) };

    fn push(&self, out: &mut Vec<u8>) -> Result<(), WriteError> {
        push_value(out, *self)
    }
}

impl Item for &[u8] {
    ghost bytes = { λ o. text o.now };

    ghost IsItem = { λ o. IsText o.now };

    fn push(&self, out: &mut Vec<u8>) -> Result<(), WriteError> {
        push_text(out, self)
    }
}

impl Item for u32 {
    ghost bytes = { word };

    ghost IsItem = { IsWord };

    fn push(&self, out: &mut Vec<u8>) -> Result<(), WriteError> {
        push_word(out, *self)
    }
}

/// Adds each item.
pub(crate) fn push_all<T: Item>(out: &mut Vec<u8>, items: &[T]) -> Result<(), WriteError>
    ensures { Pushes (AllByRecursion T.IsItem items.now) (flat_map T.bytes items.now) out.old.items out.new.items result }
{
    for item in items {
        item.push(out)?;
    }
    Ok(())
}

/// Adds how many items there are, and then each.
pub(crate) fn push_counted<T: Item>(out: &mut Vec<u8>, items: &[T]) -> Result<(), WriteError>
    ensures { Pushes (AreCounted T.IsItem items.now) (counted T.bytes items.now) out.old.items out.new.items result }
{
    if items.len() > u16::MAX as usize {
        return Err(WriteError::Unsayable);
    }
    push_half(out, items.len() as u16)?;
    push_all(out, items)
}
