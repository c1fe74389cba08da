//! How much memory a tenant's rows and open transactions take, by estimates. Nothing rests on them but the share of memory
//! that a tenant has.
use sb_value::{Change, Row, SESSION_LIMIT, SessionId, TABLE_LIMIT, TableId, Value};

/// A row of a table takes so many bytes beside its values: its place, with that which a growing list keeps free.
const ROW_BYTES: u64 = 96;

/// A value takes so many bytes.
const VALUE_BYTES: u64 = 16;

/// A text takes so many bytes beside its characters. Its copies share them.
const TEXT_BYTES: u64 = 80;

/// A change of an open transaction takes so many bytes: its record in the log, and the places that find it.
const CHANGE_BYTES: u64 = 256;

/// Rows may fill a share but for one part of so many: the rest is for deletes, and for the entries that tell of them.
const SPARE_PART: u64 = 16;

/// The bytes that a tenant's rows and open transactions take, and the most that they may.
#[derive(Clone, Copy)]
pub struct MemoryUse {
    room: Option<u64>,
    taken: u64,
    rows: [u64; TABLE_LIMIT],
    records: [u64; SESSION_LIMIT],
}

impl MemoryUse {
    /// Of a tenant without rows, which may take any number of bytes.
    pub(crate) fn new() -> MemoryUse {
        MemoryUse {
            room: None,
            taken: 0,
            rows: [0; TABLE_LIMIT],
            records: [0; SESSION_LIMIT],
        }
    }

    /// Sets the most bytes that rows and open transactions may take, if there is a limit.
    pub fn set_room(&mut self, room: Option<u64>) {
        self.room = room;
    }

    /// The bytes that are taken.
    pub fn taken(&self) -> u64 {
        self.taken
    }

    /// True if so many bytes more may be taken.
    pub fn has_room_for(&self, bytes: u64) -> bool {
        match self.room {
            Some(room) => self.taken.saturating_add(bytes) <= room,
            None => true,
        }
    }

    /// True if these changes may be made. What grows rows leaves some of the room for deletes.
    pub(crate) fn allows(&self, changes: &[Change]) -> bool {
        let Some(room) = self.room else {
            return true;
        };
        let rows = growth(changes);
        let spare = if rows > 0 { room / SPARE_PART } else { 0 };
        let records = CHANGE_BYTES.saturating_mul(changes.len() as u64);
        self.has_room_for(rows.saturating_add(records).saturating_add(spare))
    }

    /// Counts a change that a session makes: its new row in the table, and its record, which has the old row.
    pub(crate) fn count(&mut self, session: SessionId, change: &Change) {
        let (new, old) = (bytes_of(&change.new), bytes_of(&change.old));
        let record = CHANGE_BYTES.saturating_add(old);
        let rows = self.rows[change.table.index()].saturating_add(new);
        self.rows[change.table.index()] = rows.saturating_sub(old);
        self.records[session.index()] = self.records[session.index()].saturating_add(record);
        self.taken = self.taken.saturating_add(new).saturating_add(CHANGE_BYTES);
    }

    /// Counts a change that is undone: its old row is in the table again. Its record counts until the transaction's end.
    pub(crate) fn count_undone(&mut self, change: &Change) {
        let (new, old) = (bytes_of(&change.new), bytes_of(&change.old));
        let rows = self.rows[change.table.index()].saturating_add(old);
        self.rows[change.table.index()] = rows.saturating_sub(new);
        self.taken = self.taken.saturating_add(old).saturating_sub(new);
    }

    /// Counts the end of a session's transaction: the log has no record of it any more.
    pub(crate) fn count_end(&mut self, session: SessionId) {
        self.taken = self.taken.saturating_sub(self.records[session.index()]);
        self.records[session.index()] = 0;
    }

    /// Counts a table that is dropped with its rows.
    pub fn count_drop(&mut self, table: TableId) {
        self.taken = self.taken.saturating_sub(self.rows[table.index()]);
        self.rows[table.index()] = 0;
    }
}

/// The bytes of all new rows.
fn growth(changes: &[Change]) -> u64 {
    let mut bytes: u64 = 0;
    for change in changes {
        bytes = bytes.saturating_add(bytes_of(&change.new));
    }
    bytes
}

/// The bytes of a row, if there is one.
fn bytes_of(row: &Option<Row>) -> u64 {
    match row {
        Some(row) => row_bytes(row.values()),
        None => 0,
    }
}

/// The bytes of a row of these values.
fn row_bytes(values: &[Value]) -> u64 {
    let mut bytes = ROW_BYTES;
    for value in values {
        bytes = bytes.saturating_add(value_bytes(value));
    }
    bytes
}

/// The bytes of a value.
fn value_bytes(value: &Value) -> u64 {
    match value {
        Value::Int(_) => VALUE_BYTES,
        Value::Text(text) => VALUE_BYTES + TEXT_BYTES + text.as_slice().len() as u64,
    }
}
