//! The table of a server's keys.
ghost use Rattle.std.specs.Prelude.{◌≡◌, ◌↔◌, ◌⊎◌, ℕ, IfErr, IfOk, IsTrue, OnOk, None, Some, Ok, Err};
ghost use Rattle.sb_keys.specs.Keys.{Admits, no_keys, with_key};
ghost use Rattle.sb_keys.specs.Text.{keys_of, with_line};

use crate::compare::has_digest;
use crate::digest::{Digest, digest_of, is_key};
use crate::halves::Halves;
use crate::line::{KeyEntry, said};
use std::alloc::{AllocError, Global};
use std::collections::HashMap;

/// The most keys of one tenant, all of which are compared with each key that comes.
const MOST: usize = 64;

/// The digests of the keys of each tenant.
pub struct Keys {
    by_tenant: HashMap<u32, Vec<Digest>>,
}

impl Drop for Keys {
    fn drop(self) {
        let Self { by_tenant: _ } = self;
    }
}

/// Why a text gives no table.
#[derive(Clone, Copy, Debug, PartialEq, Eq)]
pub enum KeysError {
    /// The first line that names no key, says something and isn't a comment; or that names one too many of its tenant.
    BadLine { line: usize },
    NoMemory,
}

impl Keys {
    ghost use Rattle.sb_keys.specs.Seen.{table_of};

    /// Of no tenant. It allocates nothing.
    pub fn new(alloc: Global) -> Keys
        ensures { table_of result ≡ no_keys }
    {
        Keys {
            by_tenant: HashMap::new(alloc),
        }
    }

    /// The keys that a text names. Error: BadLine with the first line that names no key, or NoMemory.
    pub fn read(alloc: Global, text: &[u8]) -> Result<Keys, KeysError>
        ensures ok { IfOk result (λ keys. keys_of text.now ≡ Ok (table_of keys)) }
        ensures err { IfErr result (λ e. (e ≡ KeysError.NoMemory)
            ⊎ ((line : ℕ) × (e ≡ KeysError.BadLine line) × (keys_of text.now ≡ Err line))) }
    {
        let mut keys = Keys::new(alloc);
        let mut rest = text;
        let mut line = 0;
        while !rest.is_empty() {
            let cut = Halves::at(b'\n', rest);
            line += 1;
            keys.add_line(alloc, cut.before, line)?;
            rest = cut.behind;
        }
        Ok(keys)
    }

    /// True if this is a key of the tenant. All its keys are compared, to their last bytes.
    pub fn admits(&self, tenant: u32, key: &[u8]) -> bool
        ensures { IsTrue result ↔ Admits (table_of self.now) tenant key.now }
    {
        is_key(key) && has_digest(self.digests(tenant), &digest_of(key))
    }

    fn digests(&self, tenant: u32) -> &[Digest]
        ensures { result.now ≡ table_of self.now tenant }
    {
        match self.by_tenant.get(&tenant) {
            Some(digests) => digests.as_slice(),
            None => &[],
        }
    }

    /// Adds the key that the line of this number names, if it says anything.
    fn add_line(&mut self, alloc: Global, line: &[u8], number: usize) -> Result<(), KeysError>
        ensures ok { OnOk result (with_line (table_of self.old) line.now ≡ Some (table_of self.new)) }
        ensures err { IfErr result (λ e. (e ≡ KeysError.NoMemory)
            ⊎ ((e ≡ KeysError.BadLine number) × (with_line (table_of self.old) line.now ≡ None))) }
    {
        let said = said(line);
        if said.is_empty() {
            return Ok(());
        }
        let Some(named) = KeyEntry::read(said) else {
            return Err(KeysError::BadLine { line: number });
        };
        if self.digests(named.holder).len() >= MOST {
            return Err(KeysError::BadLine { line: number });
        }
        match self.add(alloc, named.holder, named.digest) {
            Ok(()) => Ok(()),
            Err(AllocError) => Err(KeysError::NoMemory),
        }
    }

    fn add(&mut self, alloc: Global, tenant: u32, digest: Digest) -> Result<(), AllocError>
        ensures { OnOk result (table_of self.new ≡ with_key (table_of self.old) tenant digest) }
    {
        let mut digests = match self.by_tenant.remove(&tenant) {
            Some(digests) => digests,
            None => Vec::new(alloc),
        };
        digests.push(digest)?;
        self.by_tenant.insert(tenant, digests)?;
        Ok(())
    }
}
