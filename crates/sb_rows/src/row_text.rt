//! Rows as one text, built value by value.
ghost use Rattle.std.specs.Prelude.{◌≡◌, ◌∷◌, [], ◌↔◌, length, IsTrue, OnOk, OnErr};
ghost use Rattle.sb_rows.specs.Lines.{nothing, with_value, with_values, with_row_ended};
ghost use Rattle.sb_rows.specs.RowText.{rows_text, line_ended, HaveNoNewline};
ghost use Rattle.sb_value.specs.declared.value.Value.TheVariants.{Int, Text as ItsText};

use crate::print::{print_integer, print_text};
use sb_value::{Text, Value, literals_give_values_back};
use std::alloc::{AllocError, Global};
use std::marker::Model;

/// The text of rows, a line for each, and of the values of a row that is open. The text alone is kept: each value is
/// read back from it.
pub struct RowText {
    text: Vec<u8>,
    count: usize,
}

impl Drop for RowText {
    fn drop(self) {
        let Self { text: _, count: _ } = self;
    }
}

impl Model for RowText {
    ghost use Rattle.sb_rows.specs.Lines.{Lines};

    ghost Value = { Lines };

    ghost use Rattle.sb_rows.specs.Reading.{lines_in, IsWhole};

    ghost view = { λ r. lines_in r.text.items };

    ghost invariant = { λ r. IsWhole r.text.items r.count };
}

impl RowText {
    /// No row, and none open.
    pub fn new(alloc: Global) -> RowText
        ensures { result ≡ nothing }
    {
        RowText {
            text: Vec::new(alloc),
            count: 0,
        }
    }

    /// The number of rows that have ended.
    pub fn len(&self) -> usize
        ensures { result ≡ length self.now.rows }
    {
        self.count
    }

    /// Adds an integer to the open row. Error: out of memory.
    pub fn add_integer(&mut self, number: i64) -> Result<(), AllocError>
        ensures ok { OnOk result (self.new ≡ with_value self.old (Int number)) }
        ensures err { OnErr result (self.new ≡ self.old) }
    {
        // for the proof: what is printed reads back
        literals_give_values_back();
        print_integer(number, &mut self.text)?;
        Ok(())
    }

    /// Adds a text to the open row. Error: out of memory.
    pub fn add_text(&mut self, text: &Text) -> Result<(), AllocError>
        ensures ok { OnOk result (self.new ≡ with_value self.old (ItsText text.now)) }
        ensures err { OnErr result (self.new ≡ self.old) }
    {
        // for the proof: what is printed reads back
        literals_give_values_back();
        let _bytes = text.as_slice();
        print_text(text, &mut self.text)?;
        Ok(())
    }

    /// Adds a value to the open row. Error: out of memory.
    pub fn add(&mut self, value: &Value) -> Result<(), AllocError>
        ensures ok { OnOk result (self.new ≡ with_value self.old value.now) }
        ensures err { OnErr result (self.new ≡ self.old) }
    {
        match value {
            Value::Int(number) => self.add_integer(*number),
            Value::Text(text) => self.add_text(text),
        }
    }

    /// Adds values to the open row. Where memory runs out, some of them may have been added. Error: out of memory.
    pub fn add_all(&mut self, values: &[Value]) -> Result<(), AllocError>
        ensures { OnOk result (self.new ≡ with_values self.old values.now) }
    {
        for value in values {
            self.add(value)?;
        }
        Ok(())
    }

    /// Ends the open row. Error: out of memory.
    pub fn end_row(&mut self) -> Result<(), AllocError>
        ensures ok { OnOk result (self.new ≡ with_row_ended self.old) }
        ensures err { OnErr result (self.new ≡ self.old) }
    {
        let Some(count) = self.count.checked_add(1) else {
            return Err(AllocError);
        };
        end_line(&mut self.text)?;
        self.count = count;
        Ok(())
    }

    /// The text of the rows, where none is open.
    pub(crate) fn text(&self) -> &[u8]
        requires closed { self.now.begun ≡ [] }
        ensures text { result.now ≡ rows_text self.now.rows }
        ensures lines { HaveNoNewline self.now.rows }
    {
        self.text.as_slice()
    }

    /// True if the two are the same rows.
    pub(crate) fn is_same(&self, other: &RowText) -> bool
        ensures { IsTrue result ↔ (self.now ≡ other.now) }
    {
        self.text.as_slice() == other.text.as_slice()
    }

    /// Gives room back that isn't needed.
    pub(crate) fn fit(&mut self)
        ensures { self.new ≡ self.old }
    {
        self.text.shrink_to_fit();
    }
}

/// The comma behind the last value of a row becomes the end of its line. A row of no value is an empty line.
fn end_line(text: &mut Vec<u8>) -> Result<(), AllocError>
    ensures ok { OnOk result (text.new.items ≡ line_ended text.old.items) }
    ensures err { OnErr result (text.new.items ≡ text.old.items) }
{
    let end = text.len();
    if end > 0 && text[end - 1] == b',' {
        text[end - 1] = b'\n';
        return Ok(());
    }
    text.push(b'\n')?;
    Ok(())
}
