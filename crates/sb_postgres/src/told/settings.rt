//! Settings of a session, as a client is told of them.
ghost use Rattle.std.specs.Prelude.{◌≡◌, map, option_copied};
ghost use Rattle.sb_postgres.specs.Settings as spec;

/// A setting's name and its value.
pub type Setting = (&'static [u8], &'static [u8]);

/// What a client is told of at its start.
pub const REPORTED: [Setting; 11] = [
    (b"server_version", b"15.0 (Filgwesha)"),
    (b"server_encoding", b"UTF8"),
    (b"client_encoding", b"UTF8"),
    (b"DateStyle", b"ISO, MDY"),
    (b"IntervalStyle", b"postgres"),
    (b"TimeZone", b"UTC"),
    (b"integer_datetimes", b"on"),
    (b"standard_conforming_strings", b"on"),
    (b"application_name", b""),
    (b"is_superuser", b"off"),
    (b"default_transaction_read_only", b"off"),
];

/// What `show` tells.
pub const SHOWN: [Setting; 18] = [
    (b"server_version", b"15.0 (Filgwesha)"),
    (b"server_version_num", b"150000"),
    (b"server_encoding", b"UTF8"),
    (b"client_encoding", b"UTF8"),
    (b"datestyle", b"ISO, MDY"),
    (b"intervalstyle", b"postgres"),
    (b"timezone", b"UTC"),
    (b"integer_datetimes", b"on"),
    (b"standard_conforming_strings", b"on"),
    (b"application_name", b""),
    (b"is_superuser", b"off"),
    (b"search_path", b"public"),
    (b"transaction isolation level", b"serializable"),
    (b"transaction_isolation", b"serializable"),
    (b"default_transaction_isolation", b"serializable"),
    (b"default_transaction_read_only", b"off"),
    (b"transaction_read_only", b"off"),
    (b"max_identifier_length", b"32"),
];

/// `select version()`
pub const VERSION: &[u8] = b"PostgreSQL 15.0 (Filgwesha)";

fn first_named<'a>(settings: &'a [Setting], name: &[u8]) -> Option<&'a [u8]>
    ensures { option_copied result ≡ spec.first_named (map (λ s. (s.0.now, s.1.now)) settings.now) name.now }
{
    let mut left = settings;
    while let [setting, rest @ ..] = left {
        if setting.0 == name {
            return Some(setting.1);
        }
        left = rest;
    }
    None
}

/// The value of a setting.
#[tactic(auto, unfolding(crate::specs::Settings::setting_of))]
pub fn setting_of(name: &[u8]) -> Option<&'static [u8]>
    ensures { option_copied result ≡ spec.setting_of name.now }
{
    first_named(&SHOWN, name)
}
