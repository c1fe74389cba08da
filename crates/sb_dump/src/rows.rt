//! The rows of a table as lines.

use crate::draft::Draft;
use sb_syntax::COMMAND_LIMIT;
use sb_tables::Table;
use sb_value::{Name, Value, print_value};
use std::alloc::{AllocError, Global};

/// Writes the rows in one transaction, as many a line as it holds.
pub(crate) fn write_rows(
    alloc: Global,
    draft: &mut Draft,
    name: &Name,
    table: &Table,
) -> Result<(), AllocError> {
    if table.len() == 0 {
        return Ok(());
    }
    draft.line(&[b"begin"])?;
    let mut rows = RowWriter {
        name,
        table,
        row: Vec::new(alloc),
        marker: None,
    };
    for (_, row) in table.rows() {
        rows.write(alloc, draft, row.values())?;
    }
    if !draft.is_empty() {
        draft.end()?;
    }
    draft.line(&[b"commit"])
}

/// What an insert of rows says before the table's name and behind it.
const INSERT: &[u8] = b"insert into ";

const VALUES: &[u8] = b" values ";

/// The table whose rows are written, the text of the row that is written, and the marker of long rows once there was one.
#[derive(Drop)]
struct RowWriter<'a> {
    name: &'a Name,
    table: &'a Table,
    row: Vec<u8>,
    marker: Option<u32>,
}

impl RowWriter<'_> {
    /// Writes one row.
    fn write(
        &mut self,
        alloc: Global,
        draft: &mut Draft,
        values: &[Value],
    ) -> Result<(), AllocError> {
        self.print(values)?;
        let more = self.row.as_slice().len().saturating_add(2);
        if !draft.is_empty() && !draft.has_room(more) {
            draft.end()?;
        }
        if !draft.is_empty() {
            draft.put(b", ")?;
            return draft.put(self.row.as_slice());
        }
        draft.put(INSERT)?;
        draft.put(self.name.as_slice())?;
        draft.put(VALUES)?;
        if draft.len().saturating_add(more) > COMMAND_LIMIT {
            self.write_long(alloc, draft, values)
        } else {
            draft.put(self.row.as_slice())
        }
    }

    /// Prints a row in parentheses.
    fn print(&mut self, values: &[Value]) -> Result<(), AllocError> {
        self.row.clear();
        let mut before = b'(';
        for value in values {
            self.row.push(before)?;
            print_value(value, &mut self.row)?;
            before = b',';
        }
        self.row.push(b')')?;
        Ok(())
    }

    /// Ends an insert with a row that is too long for it: with a marker in place of its first text, which a line of its
    /// own puts there.
    fn write_long(
        &mut self,
        alloc: Global,
        draft: &mut Draft,
        values: &[Value],
    ) -> Result<(), AllocError> {
        let Some(place) = first_text(values) else {
            return draft.put(self.row.as_slice());
        };
        let marker = self.marker(alloc, place)?;
        put_marked(draft, values, place, marker)?;
        draft.end()?;
        let (Some(column), Some(value)) = (self.table.columns().get(place), values.get(place))
        else {
            return Ok(());
        };
        draft.put(b"update ")?;
        draft.put(self.name.as_slice())?;
        draft.put(b" set ")?;
        draft.put(column.name.as_slice())?;
        draft.put(b" = ")?;
        draft.put_value(value)?;
        draft.put(b" where ")?;
        draft.put(column.name.as_slice())?;
        draft.put(b" = ")?;
        put_quoted(draft, marker)?;
        draft.end()
    }

    /// A number that no row has as its text in that column.
    fn marker(&mut self, alloc: Global, place: usize) -> Result<u32, AllocError> {
        if let Some(marker) = self.marker {
            return Ok(marker);
        }
        let marker = free_number(alloc, self.table, place)?;
        self.marker = Some(marker);
        Ok(marker)
    }
}

/// The first place of a row that has a text.
fn first_text(values: &[Value]) -> Option<usize> {
    for (place, value) in values.iter().enumerate() {
        if let Value::Text(_) = value {
            return Some(place);
        }
    }
    None
}

/// Puts a row with the marker at a place.
fn put_marked(
    draft: &mut Draft,
    values: &[Value],
    place: usize,
    marker: u32,
) -> Result<(), AllocError> {
    let mut before: &[u8] = b"(";
    for (at, value) in values.iter().enumerate() {
        draft.put(before)?;
        if at == place {
            put_quoted(draft, marker)?;
        } else {
            draft.put_value(value)?;
        }
        before = b",";
    }
    draft.put(b")")
}

/// Puts a number as a text.
fn put_quoted(draft: &mut Draft, number: u32) -> Result<(), AllocError> {
    draft.put(b"'")?;
    draft.put_number(number)?;
    draft.put(b"'")
}

/// The least number that no row has as its text in that column. Each row has one number at most, so there is one that
/// is no larger than their count.
fn free_number(alloc: Global, table: &Table, place: usize) -> Result<u32, AllocError> {
    let mut taken = vec![in alloc; false; table.len()]?;
    for (_, row) in table.rows() {
        if let Some(Value::Text(text)) = row.values().get(place) {
            take(&mut taken, text.as_slice());
        }
    }
    for number in 0..u16::MAX {
        if taken.get(usize::from(number)) != Some(&true) {
            return Ok(u32::from(number));
        }
    }
    Ok(0)
}

/// Marks the number that a text is, if it has a mark.
fn take(taken: &mut Vec<bool>, text: &[u8]) {
    if let Some(number) = number_of(text) {
        if let Some(is_taken) = taken.get_mut(number) {
            *is_taken = true;
        }
    }
}

/// The number that a text of digits is.
fn number_of(text: &[u8]) -> Option<usize> {
    if text.is_empty() {
        return None;
    }
    let mut number: usize = 0;
    for byte in text {
        if !byte.is_ascii_digit() {
            return None;
        }
        number = number
            .saturating_mul(10)
            .saturating_add((*byte - b'0') as usize);
    }
    Some(number)
}
