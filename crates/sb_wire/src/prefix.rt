//! What stands before each line of a reply.
ghost use Rattle.std.specs.Prelude.{◌≡◌, ◌+◌, ◌≤◌, [], ◌∷◌, ◌++◌, decimal};
ghost use Rattle.arrayvec.specs.ArrayVec.{array_vec_len};
ghost use Rattle.sb_wire.specs.Lines.{space};
ghost use Rattle.sb_wire.specs.ReplyText.{words};
ghost use Rattle.sb_wire.specs.Output.{no_address};

use arrayvec::ArrayVec;
use itoa::Buffer;
use std::marker::Model;

/// Two numbers of at most ten digits, with a space behind each.
const START_LIMIT: usize = 22;

/// The words that stand before each line of a reply.
#[derive(Drop)]
pub struct Prefix {
    start: ArrayVec<u8, START_LIMIT>,
}

impl Model for Prefix {
    ghost use Rattle.std.specs.Prelude.{List, ℕ, ◌≡◌, ◌++◌, [], ◌∷◌};
    ghost use Rattle.sb_wire.specs.Lines.{space};
    ghost use Rattle.sb_wire.specs.Written.{without_last};

    ghost Value = { List ℕ };

    ghost view = { λ p. without_last p.start.items };

    ghost invariant = { λ p. p.start.items ≡ without_last p.start.items ++ space ∷ [] };
}

impl Prefix {
    /// The numbers of a tenant and a session.
    pub fn new(tenant: u32, session: u32) -> Prefix
        ensures { result ≡ words (decimal tenant ∷ decimal session ∷ []) }
    {
        let mut start = ArrayVec::new();
        push_number(&mut start, tenant);
        push_number(&mut start, session);
        Prefix { start }
    }

    /// In place of the numbers, where there are none.
    pub fn none() -> Prefix
        ensures { result ≡ no_address }
    {
        let mut start = ArrayVec::new();
        // There is room for four bytes.
        let _ = start.try_extend_from_slice(b"- - ");
        Prefix { start }
    }

    /// What each line begins with: the words and a space.
    pub(crate) fn start(&self) -> &[u8]
        ensures { result.now ≡ self.now ++ space ∷ [] }
    {
        self.start.as_slice()
    }
}

/// Adds the number and a space.
#[tactic(auto, using(crate::proofs::Numbers::one_digit))]
fn push_number(start: &mut ArrayVec<u8, START_LIMIT>, number: u32)
    requires { array_vec_len start.old + 11 ≤ 22 }
    ensures items { start.new.items ≡ start.old.items ++ decimal number ++ space ∷ [] }
    ensures len { array_vec_len start.new ≤ array_vec_len start.old + 11 }
{
    if number < 10 {
        start.push(b'0' + number as u8);
    } else {
        let mut buffer = Buffer::new();
        // There is room for ten digits.
        let _ = start.try_extend_from_slice(buffer.format(number).as_bytes());
    }
    start.push(b' ');
}
