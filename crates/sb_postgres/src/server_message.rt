//! Messages of a server.

/// True if a session is in a transaction.
#[derive(Clone, Copy, Debug, PartialEq, Eq)]
pub enum TransactionStatus {
    Idle,
    Open,
}

/// A column of rows. It belongs to no table, and its type has no modifier.
#[derive(Clone, Copy, Debug)]
pub struct Column<'a> {
    pub name: &'a [u8],
    /// The number of the type's object.
    pub type_id: u32,
    /// The bytes of a value, or 65,535 where they vary.
    pub type_len: u16,
    /// 0 for text, 1 for binary.
    pub format: u16,
}

/// A field of an error or a notice: its letter ('Error and Notice Message Fields' of PostgreSQL's documentation) and its
/// text.
#[derive(Clone, Copy, Debug)]
pub struct Field<'a> {
    pub letter: u8,
    pub text: &'a [u8],
}

/// A message of a server ('Message Formats' of PostgreSQL's documentation).
#[derive(Clone, Copy, Debug)]
pub enum ServerMessage<'a> {
    AuthenticationOk,
    /// A password is asked for, as it is.
    AuthenticationCleartextPassword,
    ParameterStatus { name: &'a [u8], value: &'a [u8] },
    /// What a client names when it cancels a statement of this session.
    BackendKeyData { process: u32, key: u32 },
    /// The newest minor version that is spoken, and the options that aren't known.
    NegotiateProtocolVersion { minor: u32, options: &'a [&'a [u8]] },
    ReadyForQuery(TransactionStatus),
    RowDescription(&'a [Column<'a>]),
    DataRow(&'a [Option<&'a [u8]>]),
    /// What was done, as 'INSERT 0 1'.
    CommandComplete(&'a [u8]),
    EmptyQueryResponse,
    ErrorResponse(&'a [Field<'a>]),
    NoticeResponse(&'a [Field<'a>]),
    ParseComplete,
    BindComplete,
    CloseComplete,
    /// A statement or a portal gives no rows.
    NoData,
    /// A portal has more rows than were asked for.
    PortalSuspended,
    /// The types of a prepared statement's parameters.
    ParameterDescription(&'a [u32]),
}
