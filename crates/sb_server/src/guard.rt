//! An admission under a name.
ghost use Rattle.std.specs.Prelude.{◌≡◌, ℕ, List};

use sb_connection::{Admission, Doorkeeper};
use std::marker::{Brand, Model, PhantomData};
use std::sync::Wait;

/// Names a policy.
pub(crate) trait PolicyName {
    ghost use Rattle.sb_connection.specs.Policies.{Policy};

    ghost policy: { Policy };
}

impl PolicyName for Brand {
    ghost use Rattle.std.specs.Prelude.{false};
    ghost use Rattle.sb_connection.specs.Policies.{anyone, policy};

    ghost policy = { policy false anyone };
}

/// Lets in whom an admission admits, under the name of its policy.
pub(crate) struct Guard<'a, A: Admission, N: PolicyName> {
    admission: &'a A,
    name: PhantomData<N>,
}

impl<'a, A: Admission, N: PolicyName> Drop for Guard<'a, A, N> {
    fn drop(self) {
        let Self {
            admission: _,
            name: _,
        } = self;
    }
}

impl<'a, A: Admission, N: PolicyName> Model for Guard<'a, A, N> {
    ghost use Rattle.std.specs.Prelude.{◌≡◌, ℕ, List};

    ghost Value = { A };

    ghost view = { λ g. g.admission.now };

    ghost invariant = { λ g. (A.wants g.admission.now ≡ N.policy.keyed)
        × ((tenant : ℕ) (key : List ℕ) → A.admits g.admission.now tenant key → N.policy.admits tenant key) };
}

impl<'a, A: Admission, N: PolicyName> Guard<'a, A, N> {
    pub(crate) fn new(admission: &'a A) -> Guard<'a, A, N>
        requires wants { A.wants admission.now ≡ N.policy.keyed }
        requires admits { (tenant : ℕ) (key : List ℕ) → A.admits admission.now tenant key → N.policy.admits tenant key }
    {
        Guard {
            admission,
            name: PhantomData,
        }
    }
}

impl<'a, A: Admission, N: PolicyName> Doorkeeper for Guard<'a, A, N> {
    ghost policy = { N.policy };

    fn asks_for_key(&self) -> bool {
        self.admission.wants_key()
    }

    fn lets_in<T: Wait>(&self, rt: &T, tenant: u32, key: &[u8]) -> bool {
        self.admission.admits(rt, tenant, key)
    }
}
