//! What a type knows of one host.
use std::marker::Brand;
use std::sync::ledger::Ledger;

/// Names one host: its ledger, the table of its sessions' seats, its tenants, its cells and its
/// bound.
pub trait Naming: Ledger {
    ghost use Rattle.std.specs.Prelude.{ℕ};
    ghost use Rattle.atomic_table.specs.Seated.{TableId};
    ghost use Rattle.sb_tenant.specs.declared.bound.Bound.{Bound};

    ghost table: { TableId };

    ghost tenants: { ℕ };

    ghost cells: { ℕ };

    ghost bound: { Bound };
}

impl Naming for Brand {
    ghost use Rattle.std.specs.Prelude.{None};
    ghost use Rattle.sb_desk.specs.Seats.{no_table};

    ghost table = { no_table };

    ghost tenants = { 0 };

    ghost cells = { 0 };

    ghost bound = { record { considerations = 0; work = None } };
}
