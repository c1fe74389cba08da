//! What a tenant is, copied within the lock of its cell.
ghost use Rattle.std.specs.Prelude.{◌≡◌, IfOk};
ghost use Rattle.sb_tenant.specs.Limits.{session_count};
ghost use Rattle.sb_tenant.specs.State.{session_at};
ghost use Rattle.sb_tenant.specs.Tenant.{state};
ghost use Rattle.sb_status.specs.RuleLines.{AreRulesOf, IsWrittenOf};
ghost use Rattle.sb_status.specs.TenantViews.{AreSessionsOf, IsCopyOf, IsFoundView, IsViewOf, shown_as};

use crate::graph_builder::graph_of;
use crate::lock_budget::LockBudget;
use crate::tenant_counts::numbers_of;
use crate::view::{
    ColumnView, RuleView, RulesetView, SessionState, SessionView, TableView, TenantView,
    TriggersView,
};
use sb_catalog::{Catalog, Definitions, Rule, RuleClauses, create_line};
use sb_host::{Lending, Reading};
use sb_tables::{Table, Tables};
use sb_tenant::Tenant;
use sb_value::{ColumnDefinition, ColumnType, Columns, Name, RuleSet, SESSION_LIMIT, SessionId};
use std::alloc::{AllocError, Global};
use std::rt::Clock;

/// Copies what a tenant is.
#[derive(Drop)]
struct Viewing {
    alloc: Global,
    first_tenant: u32,
    view: Result<Option<TenantView>, AllocError>,
}

impl Reading for Viewing {
    ghost use Rattle.sb_status.specs.TenantViews.{Copies};

    ghost reads = { Copies };

    fn read(&mut self, tenant: &Tenant) {
        self.view = found_in(self.alloc, self.first_tenant, tenant);
    }
}

/// What a tenant is, unless its cell is busy for too long. Error: out of memory.
pub fn view_at<T: Clock, H: Lending>(
    lock_budget: &mut LockBudget<'_, T>,
    alloc: Global,
    host: H,
    first_tenant: u32,
    tenant: u32,
) -> Result<Option<TenantView>, AllocError>
    ensures { IfOk result (IsFoundView first_tenant tenant) }
{
    let mut viewing = Viewing {
        alloc,
        first_tenant,
        view: Ok(None),
    };
    let _unless_it_is_busy = lock_budget.read(host, tenant, &mut viewing);
    let Viewing { view, .. } = viewing;
    view
}

/// What is found of a tenant.
fn found_in(
    alloc: Global,
    first_tenant: u32,
    tenant: &Tenant,
) -> Result<Option<TenantView>, AllocError>
    ensures { IfOk result (IsCopyOf first_tenant tenant.now) }
{
    match view_of(alloc, first_tenant, tenant) {
        Ok(view) => Ok(Some(view)),
        Err(error) => Err(error),
    }
}

/// All of a tenant.
fn view_of(alloc: Global, first_tenant: u32, tenant: &Tenant) -> Result<TenantView, AllocError>
    ensures { IfOk result (IsViewOf first_tenant tenant.now) }
{
    let definitions = tenant.definitions();
    let tables = tables_of(alloc, tenant.tables())?;
    let rules = rules_of(alloc, tenant.tables(), &definitions.rules)?;
    let rulesets = rulesets_of(alloc, definitions)?;
    let sessions = sessions_of(alloc, tenant)?;
    let graph = graph_of(alloc, definitions)?;
    Ok(TenantView {
        numbers: numbers_of(first_tenant, tenant),
        tables,
        rules,
        rulesets,
        sessions,
        graph,
    })
}

fn copied(alloc: Global, name: &Name) -> Result<Vec<u8>, AllocError>
    ensures { IfOk result (λ bytes. bytes.items ≡ name.now) }
{
    name.as_slice().to_vec(alloc)
}

fn tables_of(alloc: Global, tables: &Tables) -> Result<Vec<TableView>, AllocError> {
    let mut views = Vec::new(alloc);
    for place in 0..tables.len() {
        if let (Some((name, _)), Some(table)) = (tables.at(place), tables.table_at(place)) {
            views.push(table_view(alloc, name, table)?)?;
        }
    }
    Ok(views)
}

fn table_view(alloc: Global, name: &Name, table: &Table) -> Result<TableView, AllocError> {
    let mut columns = Vec::new(alloc);
    for column in table.columns() {
        columns.push(ColumnView {
            name: copied(alloc, &column.name)?,
            is_text: match column.of {
                ColumnType::Int => false,
                ColumnType::Text => true,
            },
        })?;
    }
    Ok(TableView {
        name: copied(alloc, name)?,
        columns,
        rows: table.len() as u64,
    })
}

fn rules_of(alloc: Global, tables: &Tables, catalog: &Catalog) -> Result<Vec<RuleView>, AllocError>
    ensures { IfOk result (λ views. AreRulesOf catalog.now views.items) }
{
    let rules = catalog.rules();
    let clauses = catalog.clauses();
    let mut views = Vec::new(alloc);
    for place in 0..rules.len() {
        views.push(rule_view(alloc, tables, &rules[place], &clauses[place])?)?;
    }
    Ok(views)
}

fn rule_view(
    alloc: Global,
    tables: &Tables,
    rule: &Rule,
    clauses: &RuleClauses,
) -> Result<RuleView, AllocError>
    ensures { IfOk result (λ view. IsWrittenOf rule.now clauses.now view) }
{
    let table = match tables.name(rule.table) {
        Some(name) => copied(alloc, name)?,
        None => Vec::new(alloc),
    };
    let columns = match tables.get(rule.table) {
        Some(table) => named_columns(alloc, table.columns(), rule.triggers.columns)?,
        None => Vec::new(alloc),
    };
    Ok(RuleView {
        name: copied(alloc, &rule.name)?,
        table,
        triggers: TriggersView {
            inserted: rule.triggers.inserted,
            deleted: rule.triggers.deleted,
            updated: rule.triggers.updated,
            columns,
        },
        is_active: rule.active,
        line: create_line(alloc, &rule.name, clauses)?,
    })
}

/// The names of the columns of a set.
fn named_columns(
    alloc: Global,
    columns: &[ColumnDefinition],
    set: Columns,
) -> Result<Vec<Vec<u8>>, AllocError> {
    let mut names = Vec::new(alloc);
    for (place, column) in columns.iter().enumerate() {
        if place < 8 && set.contains(place as u8) {
            names.push(copied(alloc, &column.name)?)?;
        }
    }
    Ok(names)
}

fn rulesets_of(alloc: Global, definitions: &Definitions) -> Result<Vec<RulesetView>, AllocError> {
    let mut views = Vec::new(alloc);
    for place in 0..definitions.rulesets.len() {
        if let Some((name, set)) = definitions.rulesets.at(place) {
            views.push(RulesetView {
                name: copied(alloc, name)?,
                rules: members_of(alloc, definitions.rules.rules(), *set)?,
            })?;
        }
    }
    Ok(views)
}

/// The names of the rules of a set.
fn members_of(alloc: Global, rules: &[Rule], set: RuleSet) -> Result<Vec<Vec<u8>>, AllocError> {
    let mut names = Vec::new(alloc);
    for rule in rules {
        if set.contains(rule.id) {
            names.push(copied(alloc, &rule.name)?)?;
        }
    }
    Ok(names)
}

/// Its sessions. How old their lines are, no tenant knows.
fn sessions_of(alloc: Global, tenant: &Tenant) -> Result<Vec<SessionView>, AllocError>
    ensures { IfOk result (λ views. AreSessionsOf tenant.now session_count views.items) }
{
    let mut views = Vec::new(alloc);
    for number in 0..SESSION_LIMIT {
        let view = SessionView {
            state: state_of(tenant, SessionId::new(number as u8)),
            age: None,
        };
        views.push(view)?;
    }
    Ok(views)
}

fn state_of(tenant: &Tenant, session: SessionId) -> SessionState
    ensures { result ≡ shown_as (session_at (state tenant.now) session) }
{
    if tenant.has_transaction(session) {
        SessionState::Active
    } else if tenant.is_open(session) {
        SessionState::Idle
    } else {
        SessionState::Closed
    }
}
