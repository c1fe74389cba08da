//! Records as bytes, one behind the other.
ghost use Rattle.std.specs.Prelude.{◌≡◌, ◌↔◌, ◌≤◌, ◌++◌, List, ℕ, length, IfOk, IfSome, IsTrue};
ghost use Rattle.std.specs.Int.{w32, to_be_bytes};
ghost use Rattle.sb_durable.specs.Recording.{renewal_of};
ghost use Rattle.sb_durable.specs.Records.{Entry, IsEntry, entry_bytes, entry_of, Takes};

use sb_value::SESSION_LIMIT;
use std::alloc::{AllocError, Global};

/// The text of a renewal.
const RENEW: &[u8] = b"renew";

/// The bytes of a renewal.
pub(crate) const RENEWAL_SIZE: usize = 14;

/// A recorded line: tenant, session and text. A renewal of the tenant has the session 8, which no tenant has.
#[derive(Clone, Copy, Debug)]
pub struct Record<'a> {
    pub tenant: u32,
    pub session: u8,
    pub text: &'a [u8],
}

/// The renewal of a tenant.
pub(crate) fn renewal(tenant: u32) -> Record<'static>
    ensures { entry_of result ≡ renewal_of tenant }
{
    Record {
        tenant,
        session: SESSION_LIMIT as u8,
        text: RENEW,
    }
}

/// True if it is the renewal of its tenant.
pub(crate) fn is_renewal(line: Record) -> bool
    ensures { IsTrue result ↔ entry_of line.entry ≡ renewal_of line.entry.tenant }
{
    line.session as usize == SESSION_LIMIT && line.text == RENEW
}

pub(crate) fn record_bytes(alloc: Global, line: Record) -> Result<Vec<u8>, AllocError>
    requires { length line.text.now ≤ 4096 }
    ensures { IfOk result (λ bytes. bytes.items ≡ entry_bytes (entry_of line.entry)) }
{
    let mut bytes = Vec::with_capacity(alloc, line.text.len() + 9)?;
    bytes.extend_from_slice(&line.tenant.to_be_bytes())?;
    bytes.push(line.session)?;
    bytes.extend_from_slice(&(line.text.len() as u32).to_be_bytes())?;
    bytes.extend_from_slice(line.text)?;
    Ok(bytes)
}

/// The first record of these bytes, and the bytes behind it.
pub fn first_record(bytes: &[u8]) -> Option<(Record, &[u8])>
    ensures found { IfSome result (λ found. bytes.now ≡ entry_bytes (entry_of found.0) ++ found.1.now) }
    ensures only { (entry : Entry) (rest : List ℕ) → IsEntry entry → bytes.now ≡ entry_bytes entry ++ rest → Takes result entry rest }
{
    let [t0, t1, t2, t3, session, l0, l1, l2, l3, behind @ ..] = bytes else {
        return None;
    };
    let len = word_of([*l0, *l1, *l2, *l3]) as usize;
    if len > behind.len() {
        return None;
    }
    let (text, rest) = behind.split_at(len);
    let tenant = word_of([*t0, *t1, *t2, *t3]);
    Some((
        Record {
            tenant,
            session: *session,
            text,
        },
        rest,
    ))
}

/// The number that these bytes are, the first of them the highest.
fn word_of(bytes: [u8; 4]) -> u32
    ensures { to_be_bytes w32 result ≡ bytes }
{
    u32::from_be_bytes(bytes)
}
