//! What holds of the definitions alone: each law is the contract of a function that does nothing.
ghost use Rattle.std.specs.Prelude.{ℕ};
ghost use Rattle.sb_tenant.specs.declared.bound.Bound.{Bound};
ghost use Rattle.sb_wire.specs.Stream.{SameLinesAreToldTheSame};

/// Whatever the others send, a tenant's lines of output depend on its own lines alone.
pub fn same_lines_are_told_the_same()
    ensures { (bound : Bound) → SameLinesAreToldTheSame bound }
{}
