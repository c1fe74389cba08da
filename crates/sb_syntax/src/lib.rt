//! Tokens and commands: a reader specified by a grammar.
#![tactic(auto)]

mod command;
mod cursor;
mod error;
mod expression;
mod kind;
mod lexer;
mod list;
mod literal;
mod query;
mod rule;
mod select;
mod statement;
mod token;
mod tree;

pub use cursor::Token;
pub use error::ParseError;
pub use kind::TokenKind;
pub use token::{
    COMMAND_LIMIT, command_of_is_the_grammar, one_command, parse, tokens, values_spell_themselves,
};
pub use tree::{
    Action, AlterationText, Arithmetic, Assignment, ColumnReference, Command, Comparison,
    Condition, Definition, Expression, Items, Operand, Query, RuleText, SourceReference, Statement,
    TableReference, TransactionCommand, Trigger,
};
