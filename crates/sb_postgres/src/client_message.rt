//! Messages of a client.

/// A prepared statement or a portal.
#[derive(Clone, Copy, Debug, PartialEq, Eq)]
pub enum Target {
    Statement,
    Portal,
}

/// A message of a client behind its start ('ClientMessage Formats' of PostgreSQL's documentation). Names and texts have no
/// zero byte.
#[derive(Debug, Drop)]
pub enum ClientMessage<'a> {
    /// Statements as text.
    Query {
        text: &'a [u8],
    },
    /// A statement is prepared under a name. Of its first parameters the types are given, each by its object's number or 0.
    Parse {
        name: &'a [u8],
        text: &'a [u8],
        types: Vec<u32>,
    },
    /// A portal is made of a prepared statement and values. A format is 0 for text, 1 for binary.
    Bind {
        portal: &'a [u8],
        statement: &'a [u8],
        formats: Vec<u16>,
        values: Vec<Option<&'a [u8]>>,
        results: Vec<u16>,
    },
    Describe {
        target: Target,
        name: &'a [u8],
    },
    /// A portal is run. At most so many rows are asked for, or all of them where that is 0.
    Execute {
        portal: &'a [u8],
        rows: u32,
    },
    Close {
        target: Target,
        name: &'a [u8],
    },
    Flush,
    Sync,
    Terminate,
    Password {
        key: &'a [u8],
    },
}
