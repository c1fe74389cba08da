//! A list of keys, and whom it admits.
ghost use Rattle.sb_keys.specs.KeyTexts.{AreReadKeys};
ghost use Rattle.sb_keys.specs.Seen.{table_of};

use crate::key_source::KeyFiles;
use crate::keys::Keys;
use sb_connection::Admission;
use std::marker::PhantomData;
use std::mem;
use std::sync::{Mutex, Wait};

/// A list of keys that was read.
#[derive(Drop)]
struct CurrentKeys<L: KeyFiles> {
    keys: Keys,
    lists: PhantomData<L>,
    ghost read: { ∥ AreReadKeys L.is_opened (table_of keys) ∥₁ },
}

/// Admits whoever brings a key of the list that was read last.
#[derive(Drop)]
pub struct KeyList<L: KeyFiles> {
    held: Mutex<CurrentKeys<L>>,
}

impl<L: KeyFiles> KeyList<L> {
    /// Admits by this list.
    pub fn new(keys: Keys) -> KeyList<L>
        requires { AreReadKeys L.is_opened (table_of keys) }
    {
        KeyList {
            held: Mutex::new(CurrentKeys {
                keys,
                lists: PhantomData,
            }),
        }
    }

    /// Replaces the list. The old one is dropped outside the lock.
    pub(crate) fn renew<R: Wait>(&self, rt: &R, keys: Keys)
        requires { AreReadKeys L.is_opened (table_of keys) }
    {
        let held = CurrentKeys {
            keys,
            lists: PhantomData,
        };
        let _before = mem::replace(&mut *self.held.lock(rt), held);
    }
}

impl<L: KeyFiles> Admission for KeyList<L> {
    ghost use Rattle.std.specs.Prelude.{true};
    ghost use Rattle.sb_keys.specs.KeyTexts.{IsReadKey};

    ghost admits = { λ _. IsReadKey L.is_opened };

    ghost wants = { λ _. true };

    fn wants_key(&self) -> bool {
        true
    }

    fn admits<R: Wait>(&self, rt: &R, tenant: u32, key: &[u8]) -> bool {
        self.held.lock(rt).keys.admits(tenant, key)
    }
}
