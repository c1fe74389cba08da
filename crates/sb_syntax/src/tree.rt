//! Commands as trees, with their names unresolved.

use sb_value::{ColumnDefinition, Name, Tuples, Value};

/// A table by its name, or one of a rule's transition tables.
#[derive(Clone, Copy)]
pub enum TableReference {
    Named(Name),
    /// `inserted`: the rows that the transition inserted.
    Inserted,
    /// `deleted`: those that it deleted.
    Deleted,
    /// `old updated`: those that it updated, as they were.
    OldUpdated,
    /// `new updated`: those that it updated, as they are now.
    NewUpdated,
}

/// A column by its name, or of a source.
#[derive(Clone, Copy)]
pub enum ColumnReference {
    Plain(Name),
    /// `source.column`, where the source is an alias or a table of `from`.
    Qualified(TableReference, Name),
}

/// A table in a query's `from`, with its alias.
#[derive(Clone, Copy)]
pub struct SourceReference {
    pub table: TableReference,
    pub alias: Option<Name>,
}

/// An operation of two integers.
#[derive(Clone, Copy)]
pub enum Arithmetic {
    Add,
    Subtract,
    Multiply,
}

/// A comparison of two values.
#[derive(Clone, Copy)]
pub enum Comparison {
    Equal,
    NotEqual,
    Less,
    LessEqual,
    Greater,
    GreaterEqual,
}

/// A term of a condition or an item.
pub enum Expression {
    Literal(Value),
    Column(ColumnReference),
    Binary(Box<Expression>, Arithmetic, Box<Expression>),
}

impl Drop for Expression {
    #[cycle(release_expression)]
    fn drop(self) {
        match self {
            Self::Literal(_) => {}
            Self::Column(_) => {}
            Self::Binary(_, _, _) => {}
        }
    }
}

/// The items of a query.
pub enum Items {
    /// `*`: each column of each source.
    All,
    /// `count(*)`.
    Count,
    /// `sum(..)`.
    Sum(Expression),
    /// One column for each expression.
    Each(Vec<Expression>),
}

impl Drop for Items {
    fn drop(self) {
        match self {
            Self::All => {}
            Self::Count => {}
            Self::Sum(_) => {}
            Self::Each(_) => {}
        }
    }
}

/// A condition, as behind `where`.
#[cycle(syntax)]
pub enum Condition {
    Disjunction(Box<Condition>, Box<Condition>),
    Conjunction(Box<Condition>, Box<Condition>),
    Negation(Box<Condition>),
    Compare(Expression, Comparison, Operand),
    /// True if `not` is written, too.
    In(Expression, bool, Box<Query>),
    Exists(Box<Query>),
}

impl Drop for Condition {
    #[cycle(release)]
    fn drop(self) {
        match self {
            Self::Disjunction(_, _) => {}
            Self::Conjunction(_, _) => {}
            Self::Negation(_) => {}
            Self::Compare(_, _, _) => {}
            Self::In(_, _, _) => {}
            Self::Exists(_) => {}
        }
    }
}

/// The right side of a comparison or an assignment.
#[cycle(syntax)]
pub enum Operand {
    Expression(Expression),
    ScalarSubquery(Box<Query>),
}

impl Drop for Operand {
    #[cycle(release)]
    fn drop(self) {
        match self {
            Self::Expression(_) => {}
            Self::ScalarSubquery(_) => {}
        }
    }
}

/// `select items from sources where filter`.
#[cycle(syntax)]
pub struct Query {
    pub items: Items,
    pub sources: Vec<SourceReference>,
    pub filter: Option<Condition>,
}

impl Drop for Query {
    #[cycle(release)]
    fn drop(self) {
        let Self {
            items: _,
            sources: _,
            filter: _,
        } = self;
    }
}

/// A column of an update, and what it becomes.
pub struct Assignment {
    pub column: Name,
    pub operand: Operand,
}

impl Drop for Assignment {
    fn drop(self) {
        let Self {
            column: _,
            operand: _,
        } = self;
    }
}

/// A statement that changes a table's rows.
pub enum Statement {
    /// `insert into .. values ..`.
    InsertRows(Name, Tuples),
    /// `insert into .. select ..`.
    InsertQuery(Name, Box<Query>),
    /// `delete from .. where ..`.
    Delete(Name, Option<Box<Condition>>),
    /// `update .. set .. where ..`.
    Update(Name, Vec<Assignment>, Option<Box<Condition>>),
}

impl Drop for Statement {
    fn drop(self) {
        match self {
            Self::InsertRows(_, _) => {}
            Self::InsertQuery(_, _) => {}
            Self::Delete(_, _) => {}
            Self::Update(_, _, _) => {}
        }
    }
}

/// A part of a rule's `then`.
pub enum Action {
    Change(Statement),
    Rollback,
}

impl Drop for Action {
    fn drop(self) {
        match self {
            Self::Change(_) => {}
            Self::Rollback => {}
        }
    }
}

/// A rule's triggers, as they are written behind `when`.
pub enum Trigger {
    Insert,
    Delete,
    Update,
    /// An update of one of these columns.
    UpdateOf(Vec<Name>),
}

impl Drop for Trigger {
    fn drop(self) {
        match self {
            Self::Insert => {}
            Self::Delete => {}
            Self::Update => {}
            Self::UpdateOf(_) => {}
        }
    }
}

/// A rule as `create rule` writes it.
pub struct RuleText {
    pub name: Name,
    pub table: Name,
    pub triggers: Vec<Trigger>,
    /// The query behind `if`.
    pub condition: Option<Query>,
    pub actions: Vec<Action>,
    /// The rules that are considered after it.
    pub precedes: Vec<Name>,
    /// The rules that are considered before it.
    pub follows: Vec<Name>,
}

impl Drop for RuleText {
    fn drop(self) {
        let Self {
            name: _,
            table: _,
            triggers: _,
            condition: _,
            actions: _,
            precedes: _,
            follows: _,
        } = self;
    }
}

/// The parts of a rule that `alter rule` writes. A part that isn't written stays as it is.
pub struct AlterationText {
    pub name: Name,
    /// The query behind `if`.
    pub condition: Option<Query>,
    /// The actions behind `then`.
    pub actions: Option<Vec<Action>>,
    /// More rules that are considered after it.
    pub precedes: Vec<Name>,
    /// More rules that are considered before it.
    pub follows: Vec<Name>,
    /// The rules to which it has no pair any more.
    pub nopriority: Vec<Name>,
}

impl Drop for AlterationText {
    fn drop(self) {
        let Self {
            name: _,
            condition: _,
            actions: _,
            precedes: _,
            follows: _,
            nopriority: _,
        } = self;
    }
}

/// A command line.
#[derive(Drop)]
pub enum Command {
    OpenSession,
    EndSession,
    Begin,
    /// It defines what has a name, while no transaction is under way.
    Definition(Definition),
    /// It works in its session's transaction.
    InTransaction(TransactionCommand),
}

/// A command that defines a table, a rule or a ruleset.
#[derive(Drop)]
pub enum Definition {
    CreateTable(Name, Vec<ColumnDefinition>),
    DropTable(Name),
    CreateRule(Box<RuleText>),
    AlterRule(Box<AlterationText>),
    DropRule(Name),
    ActivateRule(Name),
    DeactivateRule(Name),
    CreateRuleset(Name),
    DropRuleset(Name),
    /// Rules for a ruleset.
    AddRules(Name, Vec<Name>),
    /// Rules out of a ruleset.
    DelRules(Name, Vec<Name>),
}

/// A command of a transaction.
#[derive(Drop)]
pub enum TransactionCommand {
    Commit,
    Rollback,
    /// An assertion point: all rules are processed.
    ProcessRules,
    /// An assertion point of a ruleset's rules.
    ProcessRuleset(Name),
    /// An assertion point of one rule.
    ProcessRule(Name),
    Query(Box<Query>),
    Change(Statement),
}
