//! Stand-ins: what is made new has the least free number, so numbers below that are to stay free are held meanwhile.

use crate::draft::Draft;
use sb_value::{Name, RULE_LIMIT};
use std::alloc::AllocError;

/// How many letters there are.
const LETTERS: usize = 26;

/// The first two letters of names.
#[derive(Drop)]
pub(crate) struct Beginnings {
    taken: [u32; LETTERS],
}

impl Beginnings {
    /// No name.
    pub(crate) fn new() -> Beginnings {
        Beginnings {
            taken: [0; LETTERS],
        }
    }

    /// Notes how a name begins.
    pub(crate) fn note(&mut self, name: &Name) {
        if let [first, second, ..] = name.as_slice() {
            if first.is_ascii_lowercase() && second.is_ascii_lowercase() {
                self.taken[(*first - b'a') as usize] |= 1 << (*second - b'a');
            }
        }
    }

    /// Two letters that no noted name begins with. There are more of them than a tenant has names.
    pub(crate) fn free(&self) -> [u8; 2] {
        for first in 0..LETTERS {
            for second in 0..LETTERS {
                if self.taken[first] >> second & 1 == 0 {
                    return [b'a' + first as u8, b'a' + second as u8];
                }
            }
        }
        [b'z', b'z']
    }
}

/// Who has a number.
#[derive(Clone, Copy, PartialEq, Eq)]
enum Holder {
    Nobody,
    StandIn,
    Own,
}

/// The numbers of what is made so far, and the stand-ins among them.
#[derive(Drop)]
pub(crate) struct StandIns<'a> {
    /// `table` or `rule`.
    what: &'a [u8],
    /// What `create` says of a stand-in behind its name.
    body: &'a [u8],
    beginning: [u8; 2],
    holders: [Holder; RULE_LIMIT],
}

impl<'a> StandIns<'a> {
    /// Nothing is made so far. A stand-in's name is the beginning with its number.
    pub(crate) fn new(what: &'a [u8], body: &'a [u8], beginning: [u8; 2]) -> StandIns<'a> {
        StandIns {
            what,
            body,
            beginning,
            holders: [Holder::Nobody; RULE_LIMIT],
        }
    }

    /// Makes that number the least free one, for what is made next.
    pub(crate) fn make_way(&mut self, draft: &mut Draft, number: u8) -> Result<(), AllocError> {
        for below in 0..number {
            if self.holders[below as usize] == Holder::Nobody {
                self.create(draft, below)?;
            }
        }
        if self.holders[number as usize] == Holder::StandIn {
            self.drop_one(draft, number)?;
        }
        self.holders[number as usize] = Holder::Own;
        Ok(())
    }

    /// Drops all stand-ins.
    pub(crate) fn leave(&mut self, draft: &mut Draft) -> Result<(), AllocError> {
        for number in 0..=u8::MAX {
            if self.holders[number as usize] == Holder::StandIn {
                self.drop_one(draft, number)?;
            }
        }
        Ok(())
    }

    fn create(&mut self, draft: &mut Draft, number: u8) -> Result<(), AllocError> {
        draft.put(b"create ")?;
        self.put_name(draft, number)?;
        draft.put(self.body)?;
        draft.end()?;
        self.holders[number as usize] = Holder::StandIn;
        Ok(())
    }

    fn drop_one(&mut self, draft: &mut Draft, number: u8) -> Result<(), AllocError> {
        draft.put(b"drop ")?;
        self.put_name(draft, number)?;
        draft.end()?;
        self.holders[number as usize] = Holder::Nobody;
        Ok(())
    }

    fn put_name(&self, draft: &mut Draft, number: u8) -> Result<(), AllocError> {
        draft.put(self.what)?;
        draft.put(b" ")?;
        draft.put(&self.beginning)?;
        draft.put_number(u32::from(number))
    }
}
