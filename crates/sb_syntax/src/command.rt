//! Commands.

ghost use Rattle.std.specs.Prelude.{◌≡◌, length};
ghost use Rattle.sb_syntax.specs.Reading as spec;
ghost use Rattle.sb_syntax.specs.Reading.{Gives, and_then};
ghost use Rattle.sb_syntax.specs.Views as view;

use crate::cursor::Cursor;
use crate::error::Fault;
use crate::kind::TokenKind;
use crate::list::{Item, list};
use crate::literal::{name, name_after, names};
use crate::rule::{alteration, rule};
use crate::statement::{change, whole_query};
use crate::tree::{Command, Definition, TransactionCommand};
use sb_value::{COLUMN_LIMIT, ColumnDefinition, ColumnType, Name};
use std::alloc::Global;

#[tactic(auto, unfolding(crate::specs::Reading::column_type))]
fn column_type(tokens: &mut Cursor<'_>) -> Result<ColumnType, Fault>
    ensures { Gives (λ t. t) (spec.column_type tokens.old) result tokens.old tokens.new }
{
    if tokens.eat(TokenKind::IntType) {
        return Ok(ColumnType::Int);
    }
    tokens.expect(TokenKind::TextType)?;
    Ok(ColumnType::Text)
}

impl Item for ColumnDefinition {
    ghost gives = { λ old r new. Gives (λ c. c) (spec.definition old) r old new };

    #[tactic(auto, unfolding(crate::specs::Reading::definition))]
    fn read(_: Global, tokens: &mut Cursor<'_>) -> Result<ColumnDefinition, Fault> {
        let name = name(tokens)?;
        let of = column_type(tokens)?;
        Ok(ColumnDefinition { name, of })
    }
}

fn columns(alloc: Global, tokens: &mut Cursor<'_>) -> Result<Vec<ColumnDefinition>, Fault>
    ensures { Gives (λ v. v.items) (spec.columns tokens.old) result tokens.old tokens.new }
{
    list(alloc, tokens, TokenKind::Comma, Some(COLUMN_LIMIT))
}

#[tactic(auto, unfolding(crate::specs::Reading::creates_table))]
fn create_table(alloc: Global, tokens: &mut Cursor<'_>) -> Result<Definition, Fault>
    ensures { Gives view.definition (spec.creates_table tokens.old) result tokens.old tokens.new }
{
    tokens.expect(TokenKind::Table)?;
    let table = name(tokens)?;
    tokens.expect(TokenKind::LeftParen)?;
    let columns = columns(alloc, tokens)?;
    tokens.expect(TokenKind::RightParen)?;
    Ok(Definition::CreateTable(table, columns))
}

#[tactic(auto, unfolding(crate::specs::Reading::creates))]
fn create(alloc: Global, tokens: &mut Cursor<'_>) -> Result<Definition, Fault>
    ensures { Gives view.definition (spec.creates tokens.old) result tokens.old tokens.new }
{
    tokens.expect(TokenKind::Create)?;
    match tokens.peek() {
        Some(TokenKind::Table) => create_table(alloc, tokens),
        Some(TokenKind::Ruleset) => Ok(Definition::CreateRuleset(name_after(
            tokens,
            TokenKind::Ruleset,
        )?)),
        _ => Ok(Definition::CreateRule(Box::new(alloc, rule(alloc, tokens)?)?)),
    }
}

#[tactic(auto, unfolding(crate::specs::Reading::drops))]
fn drop_named(tokens: &mut Cursor<'_>) -> Result<Definition, Fault>
    ensures { Gives view.definition (spec.drops tokens.old) result tokens.old tokens.new }
{
    tokens.expect(TokenKind::Drop)?;
    match tokens.peek() {
        Some(TokenKind::Table) => Ok(Definition::DropTable(name_after(tokens, TokenKind::Table)?)),
        Some(TokenKind::Rule) => Ok(Definition::DropRule(name_after(tokens, TokenKind::Rule)?)),
        _ => Ok(Definition::DropRuleset(name_after(tokens, TokenKind::Ruleset)?)),
    }
}

#[tactic(auto, unfolding(crate::specs::Reading::processes, crate::specs::Reading::word))]
fn process(tokens: &mut Cursor<'_>) -> Result<TransactionCommand, Fault>
    ensures { Gives view.transaction_command (spec.processes tokens.old) result tokens.old tokens.new }
{
    tokens.expect(TokenKind::Process)?;
    match tokens.peek() {
        Some(TokenKind::Rules) => {
            tokens.expect(TokenKind::Rules)?;
            Ok(TransactionCommand::ProcessRules)
        }
        Some(TokenKind::Rule) => Ok(TransactionCommand::ProcessRule(name_after(
            tokens,
            TokenKind::Rule,
        )?)),
        _ => Ok(TransactionCommand::ProcessRuleset(name_after(tokens, TokenKind::Ruleset)?)),
    }
}

#[tactic(auto, unfolding(crate::specs::Reading::adds_rules))]
fn add_rules(alloc: Global, tokens: &mut Cursor<'_>, target: Name) -> Result<Definition, Fault>
    ensures { Gives view.definition (spec.adds_rules target tokens.old) result tokens.old tokens.new }
{
    tokens.expect(TokenKind::AddRules)?;
    let rules = names(alloc, tokens)?;
    Ok(Definition::AddRules(target, rules))
}

#[tactic(auto, unfolding(crate::specs::Reading::removes_rules))]
fn remove_rules(alloc: Global, tokens: &mut Cursor<'_>, target: Name) -> Result<Definition, Fault>
    ensures { Gives view.definition
        (spec.removes_rules target tokens.old) result tokens.old tokens.new }
{
    tokens.expect(TokenKind::DelRules)?;
    let rules = names(alloc, tokens)?;
    Ok(Definition::DelRules(target, rules))
}

#[tactic(auto, unfolding(crate::specs::Reading::alters_ruleset, crate::specs::Reading::alters_from))]
fn alter_ruleset(alloc: Global, tokens: &mut Cursor<'_>) -> Result<Definition, Fault>
    ensures { Gives view.definition (spec.alters_ruleset tokens.old) result tokens.old tokens.new }
{
    let ruleset = name_after(tokens, TokenKind::Ruleset)?;
    if tokens.sees(TokenKind::AddRules) {
        add_rules(alloc, tokens, ruleset)
    } else {
        remove_rules(alloc, tokens, ruleset)
    }
}

#[tactic(auto, unfolding(crate::specs::Reading::alters))]
fn alter(alloc: Global, tokens: &mut Cursor<'_>) -> Result<Definition, Fault>
    ensures { Gives view.definition (spec.alters tokens.old) result tokens.old tokens.new }
{
    tokens.expect(TokenKind::Alter)?;
    match tokens.peek() {
        Some(TokenKind::Rule) => Ok(Definition::AlterRule(Box::new(
            alloc,
            alteration(alloc, tokens)?,
        )?)),
        _ => alter_ruleset(alloc, tokens),
    }
}

/// The name of a rule, behind this word and `rule`.
fn rule_behind(tokens: &mut Cursor<'_>, kind: TokenKind) -> Result<Name, Fault>
    ensures { Gives (λ n. n)
        (and_then (spec.expect kind tokens.old) (λ _. spec.name_after TokenKind.Rule))
        result tokens.old tokens.new }
{
    tokens.expect(kind)?;
    name_after(tokens, TokenKind::Rule)
}

/// A command of one word.
#[tactic(auto, unfolding(crate::specs::Reading::word))]
fn word(tokens: &mut Cursor<'_>, kind: TokenKind, command: Command) -> Result<Command, Fault>
    ensures { Gives view.command
        (spec.word kind (view.command command) tokens.old) result tokens.old tokens.new }
{
    tokens.expect(kind)?;
    Ok(command)
}

#[tactic(auto, unfolding(crate::specs::Reading::leading_command, crate::specs::Reading::activates, crate::specs::Reading::deactivates))]
fn leading_command(alloc: Global, tokens: &mut Cursor<'_>) -> Result<Command, Fault>
    ensures { Gives view.command (spec.leading_command tokens.old) result tokens.old tokens.new }
{
    match tokens.peek() {
        Some(TokenKind::Open) => word(tokens, TokenKind::Open, Command::OpenSession),
        Some(TokenKind::End) => word(tokens, TokenKind::End, Command::EndSession),
        Some(TokenKind::Begin) => word(tokens, TokenKind::Begin, Command::Begin),
        Some(TokenKind::Commit) => word(
            tokens,
            TokenKind::Commit,
            Command::InTransaction(TransactionCommand::Commit),
        ),
        Some(TokenKind::Rollback) => word(
            tokens,
            TokenKind::Rollback,
            Command::InTransaction(TransactionCommand::Rollback),
        ),
        Some(TokenKind::Create) => Ok(Command::Definition(create(alloc, tokens)?)),
        Some(TokenKind::Drop) => Ok(Command::Definition(drop_named(tokens)?)),
        Some(TokenKind::Alter) => Ok(Command::Definition(alter(alloc, tokens)?)),
        Some(TokenKind::Activate) => Ok(Command::Definition(Definition::ActivateRule(rule_behind(
            tokens,
            TokenKind::Activate,
        )?))),
        Some(TokenKind::Deactivate) => Ok(Command::Definition(Definition::DeactivateRule(
            rule_behind(tokens, TokenKind::Deactivate)?,
        ))),
        Some(TokenKind::Process) => Ok(Command::InTransaction(process(tokens)?)),
        Some(TokenKind::Select) => Ok(Command::InTransaction(TransactionCommand::Query(whole_query(
            alloc, tokens,
        )?))),
        _ => Ok(Command::InTransaction(TransactionCommand::Change(change(alloc, tokens)?))),
    }
}

/// A command, which all of the tokens have to be. Error: the tokens aren't that (Refused), or out of memory.
#[tactic(auto, unfolding(crate::specs::Reading::command, crate::specs::Reading::kind_at))]
pub fn command(alloc: Global, tokens: &mut Cursor<'_>) -> Result<Command, Fault>
    ensures { Gives view.command (spec.command tokens.old) result tokens.old tokens.new }
{
    let command = leading_command(alloc, tokens)?;
    if tokens.peek().is_some() {
        return Err(Fault::Refused);
    }
    Ok(command)
}
