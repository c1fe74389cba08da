//! The page of a tenant.
ghost use Rattle.std.specs.Prelude.{◌≡◌, ◌++◌, ◌∷◌, [], IfOk, OnOk};
ghost use Rattle.sb_status.specs.TenantPages.{IsPageOf, age_pieces, beginning_of, counted, numbered, renewed_pieces};
ghost use Rattle.sb_status.specs.declared.fragment.Fragment.TheVariants as piece;

use crate::markup::Markup;
use crate::page::Page;
use crate::picture::draw;
use crate::rule_rows::{write_names, write_rules};
use crate::text::Escaping;
use crate::view::{RulesetView, SessionState, SessionView, TableView, TenantNumbers, TenantView};
use std::alloc::{AllocError, Global};

/// Its numbers, its tables, its rules with their picture, its rulesets and its sessions. Error: out of memory.
pub fn tenant_page(alloc: Global, view: &TenantView) -> Result<Vec<u8>, AllocError>
    ensures { IfOk result (λ page. IsPageOf view.now page.items) }
{
    let mut page = Page::new(alloc);
    write_beginning(&mut page, view.numbers)?;
    let mut rest = Page::new(alloc);
    write_rest(alloc, &mut rest, view)?;
    page.append(rest)?;
    page.render(alloc, Escaping::Html)
}

fn write_beginning(page: &mut Page<'_>, numbers: TenantNumbers) -> Result<(), AllocError>
    ensures { OnOk result (page.new.pieces.items ≡ page.old.pieces.items ++ beginning_of numbers) }
{
    page.mark(Markup::Head)?;
    write_age(page, numbers.age)?;
    write_numbers(page, numbers)
}

fn write_age(page: &mut Page<'_>, age: Option<u64>) -> Result<(), AllocError>
    ensures { OnOk result (page.new.pieces.items ≡ page.old.pieces.items ++ age_pieces age) }
{
    match age {
        Some(seconds) => {
            page.count(Markup::OldPage, seconds)?;
            page.mark(Markup::OldPageEnd)
        }
        None => Ok(()),
    }
}

fn write_numbers(page: &mut Page<'_>, numbers: TenantNumbers) -> Result<(), AllocError>
    ensures { OnOk result (page.new.pieces.items
        ≡ page.old.pieces.items ++ (counted (numbered numbers) ++ (renewed_pieces numbers.volume_age ++ piece.Markup Markup.FactsEnd ∷ []))) }
{
    page.counts(&[
        (Markup::TenantTitle, numbers.tenant),
        (Markup::FactSteps, numbers.steps),
        (Markup::FactRoom, numbers.room),
        (Markup::FactBytes, numbers.bytes),
        (Markup::FactRows, numbers.rows),
        (Markup::FactOpen, numbers.open),
        (Markup::FactActive, numbers.active),
        (Markup::FactChanges, numbers.changes),
        (Markup::FactVolume, numbers.volume),
    ])?;
    write_renewed(page, numbers.volume_age)?;
    page.mark(Markup::FactsEnd)
}

/// Writes how long ago a renewal began its volume, if one did.
fn write_renewed(page: &mut Page<'_>, age: Option<u64>) -> Result<(), AllocError>
    ensures { OnOk result (page.new.pieces.items ≡ page.old.pieces.items ++ renewed_pieces age) }
{
    match age {
        Some(seconds) => {
            page.count(Markup::FactRenewed, seconds)?;
            page.mark(Markup::Ago)
        }
        None => Ok(()),
    }
}

/// Writes what stands behind the numbers.
fn write_rest<'v>(
    alloc: Global,
    page: &mut Page<'v>,
    view: &'v TenantView,
) -> Result<(), AllocError> {
    write_tables(page, view.tables.as_slice())?;
    if !view.rules.is_empty() {
        write_rules(page, view)?;
        draw(alloc, page, view)?;
    }
    write_rulesets(page, view.rulesets.as_slice())?;
    write_sessions(page, view.sessions.as_slice())?;
    page.mark(Markup::Foot)
}

fn write_tables<'v>(page: &mut Page<'v>, tables: &'v [TableView]) -> Result<(), AllocError> {
    page.mark(Markup::TablesHead)?;
    for table in tables {
        page.mark(Markup::Row)?;
        page.text(table.name.as_slice())?;
        page.mark(Markup::Cell)?;
        write_columns(page, table)?;
        page.count(Markup::NumberCell, table.rows)?;
        page.mark(Markup::RowEnd)?;
    }
    page.mark(Markup::TableEnd)
}

fn write_columns<'v>(page: &mut Page<'v>, table: &'v TableView) -> Result<(), AllocError> {
    for column in table.columns.as_slice() {
        page.text(column.name.as_slice())?;
        page.mark(if column.is_text {
            Markup::TextType
        } else {
            Markup::IntType
        })?;
    }
    Ok(())
}

fn write_rulesets<'v>(page: &mut Page<'v>, rulesets: &'v [RulesetView]) -> Result<(), AllocError> {
    if rulesets.is_empty() {
        return Ok(());
    }
    page.mark(Markup::RulesetsHead)?;
    for ruleset in rulesets {
        page.mark(Markup::Row)?;
        page.text(ruleset.name.as_slice())?;
        page.mark(Markup::Cell)?;
        write_names(page, ruleset.rules.as_slice())?;
        page.mark(Markup::RowEnd)?;
    }
    page.mark(Markup::TableEnd)
}

fn write_sessions(page: &mut Page<'_>, sessions: &[SessionView]) -> Result<(), AllocError> {
    page.mark(Markup::SessionsHead)?;
    for (number, session) in sessions.iter().enumerate() {
        page.count(Markup::Row, number as u64)?;
        write_session(page, *session)?;
        page.mark(Markup::RowEnd)?;
    }
    page.mark(Markup::TableEnd)
}

/// Writes the state of a session, and how old its last line is.
fn write_session(page: &mut Page<'_>, session: SessionView) -> Result<(), AllocError> {
    page.mark(match session.state {
        SessionState::Closed => Markup::ClosedCell,
        SessionState::Idle => Markup::OpenCell,
        SessionState::Active => Markup::TransactionCell,
    })?;
    match session.age {
        Some(seconds) => {
            page.count(Markup::NumberCell, seconds)?;
            page.mark(Markup::Ago)
        }
        None => page.mark(Markup::Cell),
    }
}
