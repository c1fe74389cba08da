//! Lists of one or more items, with a separator between each two.

ghost use Rattle.std.specs.Prelude.{◌≡◌, ◌≤◌, length, IfOk, IfErr, OnOk};
ghost use Rattle.sb_syntax.specs.Lists.{has_room, follows, HasRead, EndsAt, IsRefused};

use crate::cursor::Cursor;
use crate::error::Fault;
use crate::kind::TokenKind;
use std::alloc::Global;

/// The items of a list.
pub trait Item: Drop {
    ghost use Rattle.std.specs.Prelude.{Result};
    ghost use Rattle.sb_syntax.specs.declared.error.Fault.{Fault};
    ghost use Rattle.sb_syntax.specs.Input.{Input};

    /// The item that may be read between the tokens before it and those after it.
    ghost gives: { Input → Result Self Fault → Input → Type 0 };

    fn read(alloc: Global, tokens: &mut Cursor<'_>) -> Result<Self, Fault>
        ensures given { gives tokens.old result tokens.new }
        ensures shorter { OnOk result (length tokens.new ≤ length tokens.old) };
}

/// True if a list of `len` items, of which there may be a limit, may have one more.
fn has_room(most: Option<usize>, len: usize) -> bool
    ensures { result ≡ has_room most len }
{
    match most {
        Some(most) => len < most,
        None => true,
    }
}

/// True if one more item follows those `len` of a list.
fn follows(tokens: &Cursor<'_>, separator: TokenKind, most: Option<usize>, len: usize) -> bool
    ensures { result ≡ follows separator most len tokens.now }
{
    tokens.sees(separator) && has_room(most, len)
}

/// One item, and one more behind each separator, of `most` items at most. Error: the tokens aren't that (Refused), or
/// out of memory.
pub fn list<T: Item>(
    alloc: Global,
    tokens: &mut Cursor<'_>,
    separator: TokenKind,
    most: Option<usize>,
) -> Result<Vec<T>, Fault>
    ensures read { IfOk result (λ v. HasRead separator most T.gives tokens.old v.items tokens.new) }
    ensures all { IfOk result (λ v. EndsAt separator most v.items tokens.new) }
    ensures refused { IfErr result (λ e. IsRefused separator most T.gives tokens.old e) }
{
    let mut all = Vec::new(alloc);
    let first = T::read(alloc, tokens)?;
    all.push(first)?;
    'more: while follows(tokens, separator, most, all.len()) {
        tokens.skip();
        let item = T::read(alloc, tokens)?;
        all.push(item)?;
    }
    Ok(all)
}
