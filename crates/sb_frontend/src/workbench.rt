//! Prepared statements and portals.
ghost use Rattle.std.specs.Prelude.{◌≡◌, [], IfErr, IfOk, option_copied, option_map};
ghost use Rattle.sb_frontend.specs.Denials.{Comes};
ghost use Rattle.sb_frontend.specs.Names.{named};
ghost use Rattle.sb_frontend.specs.Outcomes.{outcome, taken_by, with_line};
ghost use Rattle.sb_frontend.specs.Portals as spec;

use crate::denial::Denial;
use crate::names::Names;
use sb_postgres::Target;
use sb_postgres::query::Statement;
use std::alloc::{AllocError, Global};
use std::marker::Model;

/// A prepared statement: its line, if its text has one, and the types of its parameters.
#[derive(Drop)]
pub(crate) struct PreparedStatement {
    pub(crate) statement: Option<Statement>,
    pub(crate) types: Vec<u32>,
}

impl Model for PreparedStatement {
    ghost use Rattle.std.specs.Prelude.{option_map};
    ghost use Rattle.sb_frontend.specs.Portals.{Prepared};

    ghost Value = { Prepared };

    ghost view = { λ p. record { line = option_map (λ s. s.line.items) p.statement; types = p.types.items } };
}

/// A statement with its values.
#[derive(Drop)]
pub(crate) struct BoundPortal {
    pub(crate) statement: Option<Statement>,
    pub(crate) played: bool,
}

impl Model for BoundPortal {
    ghost use Rattle.std.specs.Prelude.{option_map};
    ghost use Rattle.sb_frontend.specs.Portals.{Portal};

    ghost Value = { Portal };

    ghost view = { λ p. record { line = option_map (λ s. s.line.items) p.statement; played = p.played } };
}

impl BoundPortal {
    /// A portal that wasn't played.
    pub(crate) fn unplayed(statement: Option<Statement>) -> BoundPortal
        ensures { result ≡ spec.unplayed (option_map (λ s. s.line.items) statement) }
    {
        BoundPortal {
            statement,
            played: false,
        }
    }

    /// The rest of a portal that was played.
    fn over() -> BoundPortal
        ensures { result ≡ spec.over }
    {
        BoundPortal {
            statement: None,
            played: true,
        }
    }
}

/// The prepared statements and the portals of a connection.
#[derive(Drop)]
pub(crate) struct Workbench {
    alloc: Global,
    statements: Names<PreparedStatement>,
    portals: Names<BoundPortal>,
}

impl Model for Workbench {
    ghost use Rattle.sb_frontend.specs.Portals.{Workbench as Seen};

    ghost Value = { Seen };

    ghost view = { λ w. record { statements = w.statements; portals = w.portals } };
}

/// A statement once more.
fn copy_of(alloc: Global, statement: &Statement) -> Result<Statement, AllocError>
    ensures { IfOk result (λ s. s.line.items ≡ statement.now.line.items) }
{
    Ok(Statement {
        line: statement.line.to_vec(alloc)?,
        origins: statement.origins.to_vec(alloc)?,
    })
}

impl Workbench {
    pub(crate) fn new(alloc: Global) -> Workbench
        ensures { result ≡ spec.nothing_prepared }
    {
        Workbench {
            alloc,
            statements: Names::new(alloc),
            portals: Names::new(alloc),
        }
    }

    /// The prepared statement of this name.
    pub(crate) fn statement(&self, name: &[u8]) -> Option<&PreparedStatement>
        ensures { option_copied result ≡ named name.now self.now.statements }
    {
        self.statements.get(name)
    }

    /// The portal of this name.
    pub(crate) fn portal(&self, name: &[u8]) -> Option<&BoundPortal>
        ensures { option_copied result ≡ named name.now self.now.portals }
    {
        self.portals.get(name)
    }

    /// Puts a prepared statement under a name.
    pub(crate) fn prepare(
        &mut self,
        name: &[u8],
        made: Result<PreparedStatement, Denial>,
    ) -> Result<(), Denial>
        ensures stored { Comes (spec.prepared name.now made self.old) (outcome self.new result) }
        ensures kept { IfErr result (λ _. self.new ≡ self.old) }
    {
        match made {
            Ok(prepared) => self
                .statements
                .store(name, prepared, Denial::StatementExists),
            Err(denial) => Err(denial),
        }
    }

    /// Puts a portal under a name.
    pub(crate) fn bind(
        &mut self,
        name: &[u8],
        made: Result<BoundPortal, Denial>,
    ) -> Result<(), Denial>
        ensures stored { Comes (spec.bound name.now made self.old) (outcome self.new result) }
        ensures kept { IfErr result (λ _. self.new ≡ self.old) }
    {
        match made {
            Ok(portal) => self.portals.store(name, portal, Denial::PortalExists),
            Err(denial) => Err(denial),
        }
    }

    /// The statement of a portal that is to be played, if it has one.
    fn next_of(&self, name: &[u8], rows: u32) -> Result<Option<Statement>, Denial>
        ensures { Comes (spec.started name.now rows self.now) (taken_by self.now name.now result) }
    {
        let Some(portal) = self.portals.get(name) else {
            return Err(Denial::NoPortal);
        };
        if portal.played {
            return Err(Denial::Played);
        }
        if rows != 0 {
            return Err(Denial::Limited);
        }
        match &portal.statement {
            Some(statement) => Ok(Some(copy_of(self.alloc, statement)?)),
            None => Ok(None),
        }
    }

    /// Takes the statement out of a portal that is to be played.
    pub(crate) fn start(&mut self, name: &[u8], rows: u32) -> Result<Option<Statement>, Denial>
        ensures started { Comes (spec.started name.now rows self.old) (with_line self.new result) }
        ensures kept { IfErr result (λ _. self.new ≡ self.old) }
    {
        match self.next_of(name, rows) {
            Ok(Some(statement)) => match self.portals.put(name, BoundPortal::over()) {
                Ok(()) => Ok(Some(statement)),
                Err(_) => Err(Denial::Memory),
            },
            Ok(None) => Ok(None),
            Err(denial) => Err(denial),
        }
    }

    /// Drops a prepared statement or a portal.
    pub(crate) fn close(&mut self, target: Target, name: &[u8])
        ensures { self.new ≡ spec.closed target name.now self.old }
    {
        match target {
            Target::Statement => self.statements.remove(name),
            Target::Portal => self.portals.remove(name),
        }
    }

    /// Drops all portals.
    pub(crate) fn close_portals(&mut self)
        ensures { self.new ≡ record self.old { portals = [] } }
    {
        self.portals = Names::new(self.alloc);
    }
}
