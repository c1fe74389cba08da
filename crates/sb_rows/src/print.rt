//! Values as text, each with a comma behind it.
ghost use Rattle.std.specs.Prelude.{◌≡◌, ◌++◌, ◌∷◌, [], flat_map, OnOk, OnErr};
ghost use Rattle.sb_rows.specs.RowText.{comma, IsInFront};
ghost use Rattle.sb_value.specs.Literal.{doubled, value_text};
ghost use Rattle.sb_value.specs.declared.value.Value.TheVariants.{Int, Text as ItsText};

use itoa::Buffer;
use memchr::memchr;
use sb_value::Text;
use std::alloc::AllocError;

const QUOTE: u8 = b'\'';

/// Adds an integer and a comma, or nothing.
pub(crate) fn print_integer(number: i64, out: &mut Vec<u8>) -> Result<(), AllocError>
    ensures ok { OnOk result (out.new.items ≡ out.old.items ++ (value_text (Int number) ++ comma ∷ [])) }
    ensures err { OnErr result (out.new.items ≡ out.old.items) }
{
    let before = out.len();
    let printed = push_integer(number, out);
    if printed.is_err() {
        out.truncate(before);
    }
    printed
}

fn push_integer(number: i64, out: &mut Vec<u8>) -> Result<(), AllocError>
    ensures ok { OnOk result (out.new.items ≡ out.old.items ++ (value_text (Int number) ++ comma ∷ [])) }
    ensures err { OnErr result (IsInFront out.old.items out.new.items) }
{
    let mut buffer = Buffer::new();
    out.extend_from_slice(buffer.format(number).as_bytes())?;
    out.push(b',')?;
    Ok(())
}

/// Adds a text in quotes and a comma, or nothing.
pub(crate) fn print_text(text: &Text, out: &mut Vec<u8>) -> Result<(), AllocError>
    ensures ok { OnOk result (out.new.items ≡ out.old.items ++ (value_text (ItsText text.now) ++ comma ∷ [])) }
    ensures err { OnErr result (out.new.items ≡ out.old.items) }
{
    let before = out.len();
    let printed = push_text(text.as_slice(), out);
    if printed.is_err() {
        out.truncate(before);
    }
    printed
}

fn push_text(text: &[u8], out: &mut Vec<u8>) -> Result<(), AllocError>
    ensures ok { OnOk result (out.new.items ≡ out.old.items ++ (value_text (ItsText text.now) ++ comma ∷ [])) }
    ensures err { OnErr result (IsInFront out.old.items out.new.items) }
{
    out.push(QUOTE)?;
    push_doubled(text, out)?;
    out.extend_from_slice(b"',")
}

/// Adds the bytes of a text, each quote in it doubled. Few texts have one.
fn push_doubled(text: &[u8], out: &mut Vec<u8>) -> Result<(), AllocError>
    ensures ok { OnOk result (out.new.items ≡ out.old.items ++ flat_map doubled text.now) }
    ensures err { OnErr result (IsInFront out.old.items out.new.items) }
{
    match memchr(QUOTE, text) {
        None => {
            out.extend_from_slice(text)?;
            Ok(())
        }
        Some(_) => push_each(text, out),
    }
}

fn push_each(text: &[u8], out: &mut Vec<u8>) -> Result<(), AllocError>
    ensures ok { OnOk result (out.new.items ≡ out.old.items ++ flat_map doubled text.now) }
    ensures err { OnErr result (IsInFront out.old.items out.new.items) }
{
    for byte in text {
        if *byte == QUOTE {
            out.push(QUOTE)?;
        }
        out.push(*byte)?;
    }
    Ok(())
}
