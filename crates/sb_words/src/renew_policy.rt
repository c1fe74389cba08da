//! Which tenants a server renews by itself.

/// Which tenants a server renews by itself. An operator may ask for any of them.
#[derive(Clone, Copy, Debug)]
pub enum RenewPolicy {
    /// Those whose trail or memory is nearly full.
    Auto,
    /// None.
    Never,
}
