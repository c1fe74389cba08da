//! The rules of a tenant, as the rows of a table.

use crate::markup::Markup;
use crate::nodes::Nodes;
use crate::page::Page;
use crate::view::{RuleView, TenantView, TriggersView};
use std::alloc::AllocError;

/// Writes the rules in order of creation.
pub(crate) fn write_rules<'v>(page: &mut Page<'v>, view: &'v TenantView) -> Result<(), AllocError> {
    page.mark(Markup::RulesHead)?;
    for (place, rule) in view.rules.as_slice().iter().enumerate() {
        write_rule(page, rule)?;
        page.mark(Markup::Cell)?;
        write_others(page, view, view.graph.triggers.as_slice().get(place))?;
        page.mark(Markup::Cell)?;
        write_others(page, view, view.graph.precedes.as_slice().get(place))?;
        write_line(page, rule.line.as_slice())?;
    }
    page.mark(Markup::TableEnd)
}

/// What a rule is called, what it is on, what triggers it, and whether it is active.
fn write_rule<'v>(page: &mut Page<'v>, rule: &'v RuleView) -> Result<(), AllocError> {
    page.mark(Markup::Row)?;
    page.text(rule.name.as_slice())?;
    page.mark(Markup::Cell)?;
    page.text(rule.table.as_slice())?;
    page.mark(Markup::Cell)?;
    write_triggers(page, &rule.triggers)?;
    page.mark(if rule.is_active {
        Markup::ActiveCell
    } else {
        Markup::InactiveCell
    })
}

/// Writes the operations.
fn write_triggers<'v>(page: &mut Page<'v>, triggers: &'v TriggersView) -> Result<(), AllocError> {
    let mut is_first = true;
    if triggers.inserted {
        write_next(page, &mut is_first, Markup::Inserted)?;
    }
    if triggers.deleted {
        write_next(page, &mut is_first, Markup::Deleted)?;
    }
    if triggers.updated {
        write_next(page, &mut is_first, Markup::Updated)?;
    }
    if triggers.columns.is_empty() {
        return Ok(());
    }
    write_next(page, &mut is_first, Markup::UpdatedOf)?;
    write_names(page, triggers.columns.as_slice())?;
    page.mark(Markup::UpdatedEnd)
}

/// Writes a mark, with a comma in front of it unless it is the first.
fn write_next(page: &mut Page<'_>, is_first: &mut bool, mark: Markup) -> Result<(), AllocError> {
    if !*is_first {
        page.mark(Markup::Comma)?;
    }
    *is_first = false;
    page.mark(mark)
}

/// Writes names with commas between them.
pub(crate) fn write_names<'v>(page: &mut Page<'v>, names: &'v [Vec<u8>]) -> Result<(), AllocError> {
    for (place, name) in names.iter().enumerate() {
        if place > 0 {
            page.mark(Markup::Comma)?;
        }
        page.text(name.as_slice())?;
    }
    Ok(())
}

/// Writes the names of the rules at these places.
fn write_others<'v>(
    page: &mut Page<'v>,
    view: &'v TenantView,
    nodes: Option<&Nodes>,
) -> Result<(), AllocError> {
    let Some(nodes) = nodes else {
        return Ok(());
    };
    let mut is_first = true;
    for (place, rule) in view.rules.as_slice().iter().enumerate() {
        if nodes.has(place) {
            if !is_first {
                page.mark(Markup::Comma)?;
            }
            is_first = false;
            page.text(rule.name.as_slice())?;
        }
    }
    Ok(())
}

/// Writes the line that creates a rule.
fn write_line<'v>(page: &mut Page<'v>, line: &'v [u8]) -> Result<(), AllocError> {
    page.mark(Markup::LinesBegin)?;
    page.text(line)?;
    page.mark(Markup::NewLine)?;
    page.mark(Markup::LinesEnd)
}
