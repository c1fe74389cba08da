//! Small numbers that name tenants, sessions, tables and rules, each a type of its own.
ghost use Rattle.std.specs.Prelude.{◌≡◌, ◌<◌};
ghost use Rattle.sb_value.specs.Limits.{rule_limit};

use std::marker::Model;

/// The most tenants of a host.
pub const TENANT_LIMIT: usize = 256;

/// The number of sessions of a tenant.
pub const SESSION_LIMIT: usize = 8;

/// The most tables of a tenant.
pub const TABLE_LIMIT: usize = 16;

/// The most columns of a table.
pub const COLUMN_LIMIT: usize = 8;

/// The most rules of a tenant.
pub const RULE_LIMIT: usize = 256;

/// The number of a tenant, 0 to 255.
#[derive(Clone, Copy, Debug, PartialEq, Eq)]
pub struct TenantId {
    number: u8,
}

impl Model for TenantId {
    ghost use Rattle.std.specs.Prelude.{ℕ, ◌<◌};

    ghost Value = { ℕ };

    ghost view = { λ id. id.number };

    ghost invariant = { λ id. id.number < 256 };

    ghost inverse = { λ n. record { number = n } };
}

impl TenantId {
    /// The id of that number.
    pub const fn new(number: u8) -> TenantId
        requires { number < 256 }
        ensures { result ≡ number }
    {
        TenantId { number }
    }

    /// Its number.
    pub const fn number(self) -> u8
        ensures value { result ≡ self }
        ensures in_range { result < 256 }
    {
        self.number
    }

    /// Its number as an index.
    pub const fn index(self) -> usize
        ensures value { result ≡ self }
        ensures in_range { result < 256 }
    {
        self.number as usize
    }
}

/// The number of a session of a tenant, 0 to 7.
#[derive(Clone, Copy, Debug, PartialEq, Eq)]
pub struct SessionId {
    number: u8,
}

impl Model for SessionId {
    ghost use Rattle.std.specs.Prelude.{ℕ, ◌<◌};

    ghost Value = { ℕ };

    ghost view = { λ id. id.number };

    ghost invariant = { λ id. id.number < 8 };

    ghost inverse = { λ n. record { number = n } };
}

impl SessionId {
    /// The id of that number.
    pub const fn new(number: u8) -> SessionId
        requires { number < 8 }
        ensures { result ≡ number }
    {
        SessionId { number }
    }

    /// Its number.
    pub const fn number(self) -> u8
        ensures value { result ≡ self }
        ensures in_range { result < 8 }
    {
        self.number
    }

    /// Its number as an index.
    pub const fn index(self) -> usize
        ensures value { result ≡ self }
        ensures in_range { result < 8 }
    {
        self.number as usize
    }
}

/// The number of a table of a tenant, 0 to 15.
#[derive(Clone, Copy, Debug, PartialEq, Eq)]
pub struct TableId {
    number: u8,
}

impl Model for TableId {
    ghost use Rattle.std.specs.Prelude.{ℕ, ◌<◌};

    ghost Value = { ℕ };

    ghost view = { λ id. id.number };

    ghost invariant = { λ id. id.number < 16 };

    ghost inverse = { λ n. record { number = n } };
}

impl TableId {
    /// The id of that number.
    pub const fn new(number: u8) -> TableId
        requires { number < 16 }
        ensures { result ≡ number }
    {
        TableId { number }
    }

    /// Its number.
    pub const fn number(self) -> u8
        ensures value { result ≡ self }
        ensures in_range { result < 16 }
    {
        self.number
    }

    /// Its number as an index.
    pub const fn index(self) -> usize
        ensures value { result ≡ self }
        ensures in_range { result < 16 }
    {
        self.number as usize
    }
}

/// The number of a rule of a tenant, 0 to 255.
#[derive(Clone, Copy, Debug, PartialEq, Eq)]
pub struct RuleId {
    number: u8,
}

impl Model for RuleId {
    ghost use Rattle.std.specs.Prelude.{ℕ, ◌<◌};
    ghost use Rattle.sb_value.specs.Limits.{rule_limit};

    ghost Value = { ℕ };

    ghost view = { λ id. id.number };

    ghost invariant = { λ id. id.number < rule_limit };

    ghost inverse = { λ n. record { number = n } };
}

impl RuleId {
    /// The id of that number.
    pub const fn new(number: u8) -> RuleId
        requires { number < rule_limit }
        ensures { result ≡ number }
    {
        RuleId { number }
    }

    /// Its number.
    pub const fn number(self) -> u8
        ensures value { result ≡ self }
        ensures in_range { result < rule_limit }
    {
        self.number
    }

    /// Its number as an index.
    pub const fn index(self) -> usize
        ensures value { result ≡ self }
        ensures in_range { result < rule_limit }
    {
        self.number as usize
    }
}

/// A session of a tenant.
#[derive(Clone, Copy, Debug, PartialEq, Eq)]
pub struct Who {
    pub tenant: TenantId,
    pub session: SessionId,
}
