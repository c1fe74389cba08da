//! The pieces of a page.
ghost use Rattle.std.specs.Prelude.{◌≡◌, ◌++◌, IfOk, OnOk, decimal};
ghost use Rattle.sb_status.specs.Pages.{piece_text, rendered};

use crate::markup::Markup;
use crate::text::{Escaping, push_text};
use itoa::Buffer;
use std::alloc::{AllocError, Global};

/// A piece of a page: its own markup, a text of others, or a number.
#[derive(Clone, Copy)]
pub enum Fragment<'a> {
    Markup(Markup),
    Text(&'a [u8]),
    Number(u64),
}

/// The bytes of a page.
pub(crate) fn render(
    alloc: Global,
    escaping: Escaping,
    pieces: &[Fragment<'_>],
) -> Result<Vec<u8>, AllocError>
    ensures { IfOk result (λ page. page.items ≡ rendered escaping pieces.now) }
{
    let mut out = Vec::new(alloc);
    for piece in pieces {
        push_piece(&mut out, escaping, *piece)?;
    }
    Ok(out)
}

fn push_piece(out: &mut Vec<u8>, escaping: Escaping, piece: Fragment<'_>) -> Result<(), AllocError>
    ensures { OnOk result (out.new.items ≡ out.old.items ++ piece_text escaping piece.entry) }
{
    match piece {
        Fragment::Markup(mark) => out.extend_from_slice(mark.text().as_bytes()),
        Fragment::Text(text) => push_text(out, escaping, text),
        Fragment::Number(number) => push_number(out, number),
    }
}

pub(crate) fn push_number(out: &mut Vec<u8>, number: u64) -> Result<(), AllocError>
    ensures { OnOk result (out.new.items ≡ out.old.items ++ decimal number) }
{
    let mut buffer = Buffer::new();
    out.extend_from_slice(buffer.format(number).as_bytes())
}
