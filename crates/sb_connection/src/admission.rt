//! Who is admitted to a tenant.
ghost use Rattle.std.specs.Prelude.{◌≡◌, ℕ, Bool, List, IsTrue};

use std::sync::Wait;

/// Says by which key a tenant is opened.
pub trait Admission {
    // the key is one of the tenant's
    ghost admits: { Self → ℕ → List ℕ → Type 0 };

    // whether keys are wanted
    ghost wants: { Self → Bool };

    /// True if first lines bring a key.
    fn wants_key(&self) -> bool
        ensures { result ≡ wants self.now };

    /// True if the key is one of the tenant's, by the number that a line names.
    fn admits<T: Wait>(&self, rt: &T, tenant: u32, key: &[u8]) -> bool
        ensures { IsTrue result → admits self.now tenant key.now };
}

/// Decides by one policy, which its type names, who may open a session.
pub trait Doorkeeper {
    ghost use Rattle.sb_connection.specs.Policies.{Policy};

    ghost policy: { Policy };

    /// True if it asks for a key.
    fn asks_for_key(&self) -> bool
        ensures { result ≡ policy.keyed };

    /// True if it lets in who brings this key of a tenant, by the number that a line names.
    fn lets_in<T: Wait>(&self, rt: &T, tenant: u32, key: &[u8]) -> bool
        ensures { IsTrue result → policy.admits tenant key.now };
}

/// Every tenant is open, and first lines bring no key.
pub struct Open;

impl Admission for Open {
    ghost use Rattle.std.specs.Prelude.{false, ⊤};

    ghost admits = { λ _ _ _. ⊤ };

    ghost wants = { λ _. false };

    fn wants_key(&self) -> bool {
        false
    }

    fn admits<T: Wait>(&self, _rt: &T, _tenant: u32, _key: &[u8]) -> bool
        ensures { IsTrue result }
    {
        true
    }
}

impl Doorkeeper for Open {
    ghost use Rattle.std.specs.Prelude.{false};
    ghost use Rattle.sb_connection.specs.Policies.{anyone, policy};

    ghost policy = { policy false anyone };

    fn asks_for_key(&self) -> bool {
        self.wants_key()
    }

    fn lets_in<T: Wait>(&self, rt: &T, tenant: u32, key: &[u8]) -> bool
        ensures { IsTrue result }
    {
        self.admits(rt, tenant, key)
    }
}
