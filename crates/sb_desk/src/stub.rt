//! What a closed session leaves.
ghost use Rattle.std.specs.Prelude.{◌≡◌};

use crate::receipts::Receipt;
use sb_value::SessionId;

/// The receipts of a closed session.
#[derive(Drop)]
pub struct Stub {
    pub tenant: u32,
    pub session: SessionId,
    pub receipts: Vec<Receipt>,
}

impl Stub {
    /// The receipts, in order.
    pub fn list(&self) -> &[Receipt]
        ensures { result.now ≡ self.now.receipts.items }
    {
        self.receipts.as_slice()
    }
}
