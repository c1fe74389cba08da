//! Cuts the clauses out of a line.
ghost use Rattle.std.specs.Prelude.{◌≡◌, ◌≤◌, length, IfOk, option_map, slice_range, Some, true, unwrap_or};
ghost use Rattle.sb_syntax.specs.Lex.{AreTokens};
ghost use Rattle.sb_syntax.specs.Text.{command_of};
ghost use Rattle.sb_syntax.specs.Tree as tree;
ghost use Rattle.sb_catalog.specs.ClauseTexts.{AreClauses, AreNewClauses, altered, written_or};
ghost use Rattle.sb_catalog.specs.ClauseCuts as spec;

use sb_syntax::{ParseError, Token, TokenKind, tokens};
use std::alloc::{AllocError, Global};

/// The clauses of a rule, each with the spaces in front of it.
#[derive(Drop)]
pub struct RuleClauses {
    /// The text behind `on`: the table, `when` and the triggers.
    pub event: Vec<u8>,
    /// The query behind `if`.
    pub condition: Option<Vec<u8>>,
    /// The actions behind `then`.
    pub actions: Vec<u8>,
}

impl RuleClauses {
    /// Puts what is written anew in the place of what was before.
    pub fn alter(&mut self, new: NewClauses)
        ensures { self.new ≡ altered new self.old }
    {
        self.put_condition(new.condition);
        self.put_actions(new.actions);
    }

    fn put_condition(&mut self, written: Option<Vec<u8>>)
        ensures { self.new ≡ record self.old { condition = written_or written self.old.condition } }
    {
        let Some(condition) = written else {
            return;
        };
        self.condition = Some(condition);
    }

    fn put_actions(&mut self, written: Option<Vec<u8>>)
        ensures { self.new ≡ record self.old { actions = unwrap_or written self.old.actions } }
    {
        let Some(actions) = written else {
            return;
        };
        self.actions = actions;
    }

    /// The number of bytes of all clauses.
    pub fn len(&self) -> usize {
        let condition = match &self.condition {
            Some(condition) => condition.len(),
            None => 0,
        };
        let others = self.event.len().saturating_add(self.actions.len());
        others.saturating_add(condition)
    }
}

/// The clauses that a line writes anew.
#[derive(Drop)]
pub struct NewClauses {
    pub condition: Option<Vec<u8>>,
    pub actions: Option<Vec<u8>>,
}

/// The clauses of a line that creates a rule. Error: out of memory.
pub fn rule_clauses(alloc: Global, line: &[u8]) -> Result<RuleClauses, AllocError>
    ensures { (r : tree.RuleText) → command_of line.now ≡ Some (tree.create_rule r) →
        IfOk result (λ clauses. AreClauses clauses r) }
{
    let found = tokens_of(alloc, line)?;
    let tokens = found.as_slice();
    let event = copied(alloc, line, tokens, TokenKind::On)?;
    let condition = copied(alloc, line, tokens, TokenKind::If)?;
    let actions = copied(alloc, line, tokens, TokenKind::Then)?;
    Ok(RuleClauses {
        event: event.unwrap_or(Vec::new(alloc)),
        condition,
        actions: actions.unwrap_or(Vec::new(alloc)),
    })
}

/// The clauses of a line that alters a rule. Error: out of memory.
pub fn new_clauses(alloc: Global, line: &[u8]) -> Result<NewClauses, AllocError>
    ensures { (r : tree.AlterationText) → command_of line.now ≡ Some (tree.alter_rule r) →
        IfOk result (λ clauses. AreNewClauses clauses r) }
{
    let found = tokens_of(alloc, line)?;
    let tokens = found.as_slice();
    let condition = copied(alloc, line, tokens, TokenKind::If)?;
    let actions = copied(alloc, line, tokens, TokenKind::Then)?;
    Ok(NewClauses { condition, actions })
}

/// The tokens of a line, or none where it isn't made of tokens.
fn tokens_of(alloc: Global, line: &[u8]) -> Result<Vec<Token>, AllocError>
    ensures { (r : tree.Command) → command_of line.now ≡ Some r → IfOk result (λ v. AreTokens 0 line.now v.items) }
{
    match tokens(alloc, line) {
        Ok(found) => Ok(found),
        Err(ParseError::NoMemory) => Err(AllocError),
        Err(ParseError::Syntax { place: _ }) => Ok(Vec::new(alloc)),
    }
}

/// A copy of the clause behind that word, if it is there.
fn copied(
    alloc: Global,
    line: &[u8],
    tokens: &[Token],
    word: TokenKind,
) -> Result<Option<Vec<u8>>, AllocError>
    requires { spec.begins_clause word ≡ true }
    ensures { AreTokens 0 line.now tokens.now →
        IfOk result (λ found. option_map (λ v. v.items) found ≡ spec.clause line.now tokens.now word) }
{
    match clause(line, tokens, word) {
        Some(text) => Ok(Some(text.to_vec(alloc)?)),
        None => Ok(None),
    }
}

/// The clause behind that word, if it is there.
fn clause<'l>(line: &'l [u8], tokens: &[Token], word: TokenKind) -> Option<&'l [u8]>
    requires { spec.begins_clause word ≡ true }
    ensures { AreTokens 0 line.now tokens.now →
        option_map (λ text. text.now) result ≡ spec.clause line.now tokens.now word }
{
    match behind(tokens, word) {
        Some((place, rest)) => Some(slice(line, place, end_of(place, rest))),
        None => None,
    }
}

/// The end of the first token of that kind, and the tokens behind it.
#[tactic(auto, unfolding(sb_syntax::specs::Input::same_kind))]
fn behind(tokens: &[Token], word: TokenKind) -> Option<(u32, &[Token])>
    ensures { option_map (λ b. (b.0, b.1.now)) result ≡ spec.behind word tokens.now }
{
    let mut rest = tokens;
    while let [token, more @ ..] = rest {
        if token.kind == word {
            return Some((token.end, more));
        }
        rest = more;
    }
    None
}

/// The end of a clause that begins at that place, with these tokens behind it.
fn end_of(place: u32, tokens: &[Token]) -> u32
    ensures { result ≡ spec.end_of place (spec.inside tokens.now) }
{
    let mut end = place;
    let mut rest = tokens;
    while let [token, more @ ..] = rest {
        if begins_clause(token.kind) {
            break;
        }
        end = token.end;
        rest = more;
    }
    end
}

/// True of a word behind which a clause begins.
fn begins_clause(kind: TokenKind) -> bool
    ensures { result ≡ spec.begins_clause kind }
{
    match kind {
        TokenKind::On
        | TokenKind::If
        | TokenKind::Then
        | TokenKind::Precedes
        | TokenKind::Follows
        | TokenKind::NoPriority => true,
        _ => false,
    }
}

/// The bytes from one place to another, if they are places of the line.
fn slice(line: &[u8], start: u32, end: u32) -> &[u8]
    ensures { start ≤ end → end ≤ length line.now → result.now ≡ slice_range line.now start end }
{
    let start = start as usize;
    let end = end as usize;
    if start <= end && end <= line.len() {
        &line[start..end]
    } else {
        &[]
    }
}
