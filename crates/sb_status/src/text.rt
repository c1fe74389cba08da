//! Texts of others, as they stand in a page and in a label.
ghost use Rattle.std.specs.Prelude.{◌≡◌, ◌++◌, [], ◌∷◌, OnOk};
ghost use Rattle.std.specs.List.{flat_map};
ghost use Rattle.std.specs.Option.{option_map_or};
ghost use Rattle.sb_status.specs.Escape.{escaped, escaped_byte};

use std::alloc::AllocError;

/// How texts are kept apart from what stands around them.
#[derive(Clone, Copy)]
pub enum Escaping {
    /// In HTML: between tags, or in the quotes of an attribute.
    Html,
    /// In the quotes of a label of Prometheus.
    Label,
}

/// Writes a text.
pub(crate) fn push_text(
    out: &mut Vec<u8>,
    escaping: Escaping,
    text: &[u8],
) -> Result<(), AllocError>
    ensures { OnOk result (out.new.items ≡ out.old.items ++ escaped escaping text.now) }
{
    for byte in text {
        push_byte(out, escaping, *byte)?;
    }
    Ok(())
}

fn push_byte(out: &mut Vec<u8>, escaping: Escaping, byte: u8) -> Result<(), AllocError>
    ensures { OnOk result (out.new.items ≡ out.old.items ++ escaped_byte escaping byte) }
{
    match escape(escaping, byte) {
        Some(text) => out.extend_from_slice(text.as_bytes()),
        None => {
            out.push(byte)?;
            Ok(())
        }
    }
}

/// What stands for a byte that can't stand for itself.
fn escape(escaping: Escaping, byte: u8) -> Option<&'static str>
    ensures { option_map_or (λ text. text.now) result (byte ∷ []) ≡ escaped_byte escaping byte }
{
    match escaping {
        Escaping::Html => match byte {
            b'&' => Some("&amp;"),
            b'<' => Some("&lt;"),
            b'>' => Some("&gt;"),
            b'"' => Some("&quot;"),
            b'\'' => Some("&#39;"),
            _ => None,
        },
        Escaping::Label => match byte {
            b'\\' => Some("\\\\"),
            b'"' => Some("\\\""),
            b'\n' => Some("\\n"),
            _ => None,
        },
    }
}
