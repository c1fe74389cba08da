//! The sources of a query.
ghost use Rattle.std.specs.Prelude.{◌≡◌, [], map, OnOk};
ghost use Rattle.std.specs.List.{list_any};
ghost use Rattle.sb_check.specs.Answer.{Gives};
ghost use Rattle.sb_check.specs.Lent.{LendsTable, source_lent};
ghost use Rattle.sb_check.specs.Names as names;
ghost use Rattle.sb_check.specs.Sources.{has_trigger, seen_sources, with_source};
ghost use Rattle.sb_check.specs.Walk as spec;

use crate::fault::{CheckFault, Reason};
use crate::schema::{Schema, TableEntry};
use crate::scope::{Visible, same_table};
use crate::tree::{Source, SourceList};
use sb_syntax::{SourceReference, TableReference};
use sb_value::{ColumnDefinition, Name, Triggers};
use smallvec::SmallVec;
use std::alloc::{AllocError, Global};
use std::marker::Model;

/// The sources of a query, and what it sees of them.
#[derive(Drop)]
pub(crate) struct SeenSources<'a> {
    pub(crate) sources: SourceList,
    visible: SmallVec<Visible<'a>, 2>,
}

impl<'a> Model for SeenSources<'a> {
    ghost use Rattle.std.specs.Prelude.{List};
    ghost use Rattle.sb_check.specs.Names.{Visible};
    ghost use Rattle.sb_check.specs.declared.tree.Source.{Source};

    ghost Value = { List Source × List Visible };

    ghost view = { λ s. (s.sources, s.visible.items) };
}

impl<'a> SeenSources<'a> {
    /// No source.
    #[inline(always)]
    pub(crate) fn new(alloc: Global) -> SeenSources<'a>
        ensures { result ≡ ([], []) }
    {
        SeenSources {
            sources: SourceList::new(alloc),
            visible: SmallVec::new(alloc),
        }
    }

    #[inline(always)]
    fn push(
        &mut self,
        source: Source,
        name: TableReference,
        columns: &'a [ColumnDefinition],
    ) -> Result<(), AllocError>
        ensures { OnOk result (self.new ≡ with_source self.old source (record { name = name; columns = columns.now })) }
    {
        self.sources.push(source)?;
        self.visible.push(Visible { name, columns })?;
        Ok(())
    }

    /// The scope of the query.
    pub(crate) fn visible(&self) -> &[Visible<'a>]
        ensures { result.now ≡ self.now.1 }
    {
        self.visible.as_slice()
    }
}

/// The table of that name.
pub(crate) fn table_named<'a, S: Schema>(
    schema: &'a S,
    name: &Name,
) -> Result<TableEntry<'a>, CheckFault>
    ensures { LendsTable (spec.table_named (S.names schema.now) name.now) result }
{
    match schema.table(name) {
        Some(table) => Ok(table),
        None => Err(CheckFault::Refused(Reason::NoTable)),
    }
}

/// True if updates of any kind trigger.
#[tactic(auto, using(crate::proofs::Filled::has_some))]
pub(crate) fn has_updates(triggers: &Triggers) -> bool
    ensures { result ≡ spec.has_updates triggers.now }
{
    triggers.updated || !triggers.columns.is_empty()
}

/// True if a rule with these triggers has that transition table.
fn has_trigger(source: &Source, triggers: &Triggers) -> bool
    ensures { result ≡ has_trigger source.now triggers.now }
{
    match source {
        Source::Table(_) => false,
        Source::Inserted => triggers.inserted,
        Source::Deleted => triggers.deleted,
        Source::OldUpdated => has_updates(triggers),
        Source::NewUpdated => has_updates(triggers),
    }
}

/// A transition table, where the rule has its trigger.
fn transition<'a, S: Schema>(
    schema: &'a S,
    source: Source,
) -> Result<(Source, &'a [ColumnDefinition]), CheckFault>
    ensures { Gives source_lent (spec.transition_source (S.names schema.now) (has_trigger source) source) result }
{
    match schema.rule() {
        Some(rule) => {
            if !has_trigger(&source, &rule.triggers) {
                return Err(CheckFault::Refused(Reason::BadTransition));
            }
            Ok((source, rule.columns))
        }
        None => Err(CheckFault::Refused(Reason::BadTransition)),
    }
}

/// A source and its columns.
fn table_of<'a, S: Schema>(
    schema: &'a S,
    table: &TableReference,
) -> Result<(Source, &'a [ColumnDefinition]), CheckFault>
    ensures { Gives source_lent (spec.walk_table (S.names schema.now) table.now) result }
{
    match table {
        TableReference::Named(name) => {
            match table_named(schema, name) {
                Ok(table) => Ok((Source::Table(table.id), table.columns)),
                Err(fault) => Err(fault),
            }
        }
        TableReference::Inserted => transition(schema, Source::Inserted),
        TableReference::Deleted => transition(schema, Source::Deleted),
        TableReference::OldUpdated => transition(schema, Source::OldUpdated),
        TableReference::NewUpdated => transition(schema, Source::NewUpdated),
    }
}

/// The alias of a source, or else its own name.
fn visible_name(source: &SourceReference) -> TableReference
    ensures { result ≡ spec.visible_name source.now }
{
    match &source.alias {
        Some(alias) => TableReference::Named(*alias),
        None => source.table,
    }
}

/// True if a source is seen by that name.
fn is_taken(visible: &[Visible<'_>], name: &TableReference) -> bool
    ensures { result ≡ list_any (names.same_table name.now) (map (λ v. v.name) visible.now) }
{
    for source in visible {
        if same_table(name, &source.name) {
            return true;
        }
    }
    false
}

/// Sees each source in order.
pub(crate) fn see<'a, S: Schema>(
    seen: &mut SeenSources<'a>,
    schema: &'a S,
    references: &[SourceReference],
) -> Result<(), CheckFault>
    requires { seen.old ≡ ([], []) }
    ensures { Gives (λ _. seen.new) (seen_sources (S.names schema.now) [] references.now) result }
{
    for reference in references {
        let (source, columns) = match table_of(schema, &reference.table) {
            Ok(lent) => lent,
            Err(fault) => return Err(fault),
        };
        let name = visible_name(reference);
        if is_taken(seen.visible(), &name) {
            return Err(CheckFault::Refused(Reason::Ambiguous));
        }
        seen.push(source, name, columns)?;
    }
    Ok(())
}
