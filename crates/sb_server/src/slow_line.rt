//! A line that took long.
ghost use Rattle.std.specs.Prelude.{◌≡◌, ◌≤◌, take};

use sb_connection::SessionName;

/// The most bytes of a line that are recorded.
const MOST_BYTES: usize = 200;

/// A line that took long.
#[derive(Clone, Copy)]
pub struct SlowLine {
    pub named: SessionName,
    pub nanos: u64,
    text: [u8; MOST_BYTES],
    len: usize,
    ghost fits: { len ≤ 200 },
}

impl SlowLine {
    pub(crate) fn new(named: SessionName, line: &[u8], nanos: u64) -> SlowLine
        ensures of { (result.named ≡ named) × (result.nanos ≡ nanos) }
        ensures text { take result.len result.text ≡ take 200 line.now }
    {
        let mut text = [0u8; MOST_BYTES];
        let len = line.len().min(MOST_BYTES);
        text[..len].copy_from_slice(&line[..len]);
        SlowLine {
            named,
            nanos,
            text,
            len,
        }
    }

    /// The first bytes of the line.
    pub fn text(&self) -> &[u8]
        ensures { result.now ≡ take self.now.len self.now.text }
    {
        &self.text[..self.len]
    }
}
