//! Messages one behind the other.
ghost use Rattle.std.specs.Prelude.{◌≡◌};
ghost use Rattle.sb_postgres.specs.Frames.{IsFramed, IsFramedStartup};

/// The most bytes of a message behind its length.
pub const MESSAGE_LIMIT: usize = 1_048_576;

/// The first message of a buffer.
#[derive(Clone, Copy, Debug)]
pub enum Framed<'a> {
    /// A message: its first byte, what is behind its length, and what follows.
    Whole {
        kind: u8,
        body: &'a [u8],
        rest: &'a [u8],
    },
    /// The first message isn't there as a whole.
    Partial,
    /// Its length is less than its own bytes, or past the limit.
    BadLength,
}

/// The first message of the bytes that have come.
pub fn read_frame(bytes: &[u8]) -> Framed<'_>
    ensures { IsFramed bytes.now result }
{
    let [kind, l0, l1, l2, l3, behind @ ..] = bytes else {
        return Framed::Partial;
    };
    let len = u32::from_be_bytes([*l0, *l1, *l2, *l3]) as usize;
    if len < 4 || len - 4 > MESSAGE_LIMIT {
        return Framed::BadLength;
    }
    if behind.len() < len - 4 {
        return Framed::Partial;
    }
    let (body, rest) = behind.split_at(len - 4);
    Framed::Whole {
        kind: *kind,
        body,
        rest,
    }
}

/// The most bytes of a connection's first packet behind its length.
pub const STARTUP_LIMIT: usize = 10_000;

/// The first packet of a connection's buffer.
#[derive(Clone, Copy, Debug)]
pub enum FramedStartup<'a> {
    /// The first packet: what is behind its length, and what follows.
    Whole { body: &'a [u8], rest: &'a [u8] },
    /// The first packet isn't there as a whole.
    Partial,
    /// Its length is less than its own bytes, or past the limit.
    BadLength,
}

/// The first packet of the bytes that have come.
pub fn read_startup_frame(bytes: &[u8]) -> FramedStartup<'_>
    ensures { IsFramedStartup bytes.now result }
{
    let [l0, l1, l2, l3, behind @ ..] = bytes else {
        return FramedStartup::Partial;
    };
    let len = u32::from_be_bytes([*l0, *l1, *l2, *l3]) as usize;
    if len < 4 || len - 4 > STARTUP_LIMIT {
        return FramedStartup::BadLength;
    }
    if behind.len() < len - 4 {
        return FramedStartup::Partial;
    }
    let (body, rest) = behind.split_at(len - 4);
    FramedStartup::Whole { body, rest }
}
