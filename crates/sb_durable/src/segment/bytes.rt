//! Heads and blocks as bytes.
ghost use Rattle.std.specs.Prelude.{◌≡◌, ◌<◌, ◌≤◌, ◌^◌, ◌++◌, [], ◌∷◌, length, IfOk};
ghost use Rattle.std.specs.Int.{w32, w64, to_be_bytes};
ghost use Rattle.sb_durable.specs.SegmentBlocks.{body, IsContent};
ghost use Rattle.sb_durable.specs.Head.{head_text};

use std::alloc::{AllocError, Global};

/// The bytes before the content of a block.
#[derive(Clone, Copy)]
pub(crate) struct Opening {
    /// 0 if it is shut.
    pub gate: u8,
    /// The length of the content, in bytes.
    pub size: usize,
    pub chain: u64,
}

/// The bytes of a head without its gate and its digest.
pub(crate) fn text_of_head(
    alloc: Global,
    number: u64,
    before: u64,
    settings: &[u8],
) -> Result<Vec<u8>, AllocError>
    requires { length settings.now ≤ 4096 }
    ensures { IfOk result (λ bytes. bytes.items ≡ head_text (record { number = number; before = before; settings = settings.now })) }
{
    let mut bytes = Vec::with_capacity(alloc, settings.len() + 27)?;
    bytes.extend_from_slice(b"ILGJRN2")?;
    bytes.extend_from_slice(&number.to_be_bytes())?;
    bytes.extend_from_slice(&before.to_be_bytes())?;
    bytes.extend_from_slice(&(settings.len() as u32).to_be_bytes())?;
    bytes.extend_from_slice(settings)?;
    Ok(bytes)
}

/// A body with its digest, and the shut gate behind it.
pub(crate) fn behind_gate(alloc: Global, own: u64, content: &[u8]) -> Result<Vec<u8>, AllocError>
    requires { IsContent content.now }
    ensures { IfOk result (λ bytes. bytes.items ≡ body own content.now ++ 0 ∷ []) }
{
    let mut bytes = Vec::with_capacity(alloc, content.len() + 13)?;
    bytes.extend_from_slice(&(content.len() as u32).to_be_bytes())?;
    bytes.extend_from_slice(&own.to_be_bytes())?;
    bytes.extend_from_slice(content)?;
    bytes.push(0)?;
    Ok(bytes)
}

/// The gate, the length and the digest that these bytes are.
pub(crate) fn opening_of(bytes: [u8; 13]) -> Opening
    ensures whole { bytes ≡ result.gate ∷ (to_be_bytes w32 result.size ++ to_be_bytes w64 result.chain) }
    ensures size { result.size < 2 ^ 32 }
    ensures chain { result.chain < 2 ^ 64 }
{
    let [gate, s0, s1, s2, s3, c0, c1, c2, c3, c4, c5, c6, c7] = bytes;
    Opening {
        gate,
        size: word_of([s0, s1, s2, s3]) as usize,
        chain: number_of([c0, c1, c2, c3, c4, c5, c6, c7]),
    }
}

/// The number that these bytes are, the first of them the highest.
pub(crate) fn word_of(bytes: [u8; 4]) -> u32
    ensures { to_be_bytes w32 result ≡ bytes }
{
    u32::from_be_bytes(bytes)
}

/// The number that these bytes are, the first of them the highest.
pub(crate) fn number_of(bytes: [u8; 8]) -> u64
    ensures { to_be_bytes w64 result ≡ bytes }
{
    u64::from_be_bytes(bytes)
}
