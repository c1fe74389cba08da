//! The actions of a rule in parentheses.
ghost use Rattle.std.specs.Prelude.{◌≡◌, ◌≤◌, ◌<◌, ◌+◌, ◌^◌};
ghost use Rattle.sb_postgres.specs.Actions as spec;
ghost use Rattle.sb_postgres.specs.Depths.{depth_of};

use crate::query::bytes::folded;
use crate::query::piece::PieceKind;

/// Where a piece stands with respect to the actions of a rule.
#[derive(Clone, Copy, Debug, PartialEq, Eq)]
pub(crate) enum Scope {
    Outside,
    /// Behind the word `then`.
    BehindThen,
    /// Between the parentheses of actions, and inside of so many others.
    InActions(usize),
}

fn is_byte(byte: u8, bytes: &[u8]) -> bool
    ensures { result ≡ spec.is_byte byte bytes.now }
{
    match bytes {
        [b] => *b == byte,
        _ => false,
    }
}

fn is_then(bytes: &[u8]) -> bool
    ensures { result ≡ spec.is_then bytes.now }
{
    let [a, b, c, d] = bytes else {
        return false;
    };
    folded(*a) == b't' && (folded(*b) == b'h' && (folded(*c) == b'e' && folded(*d) == b'n'))
}

impl Scope {
    /// What a piece is here.
    pub(crate) fn kind_in(self, kind: PieceKind, bytes: &[u8]) -> PieceKind
        ensures { result ≡ spec.kind_in self kind bytes.now }
    {
        match (self, kind) {
            (Scope::BehindThen, PieceKind::Byte) if is_byte(b'(', bytes) => PieceKind::Blank,
            (Scope::InActions(0), PieceKind::Byte) if is_byte(b')', bytes) => PieceKind::Blank,
            (Scope::InActions(_), PieceKind::Semicolon) => PieceKind::Byte,
            _ => kind,
        }
    }

    /// Where the text goes on behind a piece.
    pub(crate) fn after(self, kind: PieceKind, bytes: &[u8]) -> Scope
        requires { depth_of self + 1 < 2 ^ 64 }
        ensures is { result ≡ spec.scope_after self kind bytes.now }
        ensures deep { depth_of result ≤ depth_of self + 1 }
    {
        match (self, kind) {
            (_, PieceKind::Blank) => self,
            (Scope::InActions(depth), PieceKind::Byte) => inside(depth, bytes),
            (Scope::InActions(_), _) => self,
            (Scope::BehindThen, PieceKind::Byte) if is_byte(b'(', bytes) => Scope::InActions(0),
            (_, PieceKind::Word) if is_then(bytes) => Scope::BehindThen,
            _ => Scope::Outside,
        }
    }
}

/// Behind a byte between the parentheses of actions.
fn inside(depth: usize, bytes: &[u8]) -> Scope
    requires { depth + 1 < 2 ^ 64 }
    ensures is { result ≡ spec.scope_after (Scope.InActions depth) PieceKind.Byte bytes.now }
    ensures deep { depth_of result ≤ depth + 1 }
{
    if is_byte(b'(', bytes) {
        Scope::InActions(depth + 1)
    } else if !is_byte(b')', bytes) {
        Scope::InActions(depth)
    } else if depth == 0 {
        Scope::Outside
    } else {
        Scope::InActions(depth - 1)
    }
}
