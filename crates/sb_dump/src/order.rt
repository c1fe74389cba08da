//! The order of rules and their rulesets as lines.

use crate::draft::Draft;
use sb_catalog::{Definitions, Rule};
use sb_value::{Name, RuleSet};
use std::alloc::AllocError;

/// Writes for each rule which ones come directly before it.
pub(crate) fn write_order(draft: &mut Draft, definitions: &Definitions) -> Result<(), AllocError> {
    let rules = definitions.rules.rules();
    for rule in rules {
        let before = definitions.order.direct(rule.id);
        write_set(
            draft,
            rules,
            before,
            &[b"alter rule ", rule.name.as_slice(), b" follows "],
        )?;
    }
    Ok(())
}

/// Writes the rulesets with their rules.
pub(crate) fn write_rulesets(
    draft: &mut Draft,
    definitions: &Definitions,
) -> Result<(), AllocError> {
    for place in 0..definitions.rulesets.len() {
        if let Some((name, set)) = definitions.rulesets.at(place) {
            write_ruleset(draft, definitions.rules.rules(), name, *set)?;
        }
    }
    Ok(())
}

fn write_ruleset(
    draft: &mut Draft,
    rules: &[Rule],
    name: &Name,
    set: RuleSet,
) -> Result<(), AllocError> {
    draft.line(&[b"create ruleset ", name.as_slice()])?;
    write_set(
        draft,
        rules,
        set,
        &[b"alter ruleset ", name.as_slice(), b" addrules "],
    )
}

/// Writes the names of a set's rules into as many lines as they need, each beginning with these words.
fn write_set(
    draft: &mut Draft,
    rules: &[Rule],
    set: RuleSet,
    words: &[&[u8]],
) -> Result<(), AllocError> {
    for rule in rules {
        if set.contains(rule.id) {
            write_member(draft, words, &rule.name)?;
        }
    }
    if draft.is_empty() {
        Ok(())
    } else {
        draft.end()
    }
}

/// Puts one more name into the line, or begins the next one with it.
fn write_member(draft: &mut Draft, words: &[&[u8]], name: &Name) -> Result<(), AllocError> {
    let name = name.as_slice();
    if !draft.is_empty() && !draft.has_room(2 + name.len()) {
        draft.end()?;
    }
    if !draft.is_empty() {
        draft.put(b", ")?;
        return draft.put(name);
    }
    for word in words {
        draft.put(*word)?;
    }
    draft.put(name)
}
