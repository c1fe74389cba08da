//! The tokens of a text, and its command.

ghost use Rattle.std.specs.Prelude.{◌≡◌, ◌≤◌, ◌↔◌, length, IfOk, IfErr, IfSome, List, ℕ, Some};
ghost use Rattle.sb_syntax.specs.Cursor.{AllWithin, lexemes};
ghost use Rattle.sb_syntax.specs.Lex.{AreTokens};
ghost use Rattle.sb_syntax.specs.Scan.{scan};
ghost use Rattle.sb_syntax.specs.Text.{Spells, Reading, NoTokens, NoCommand, command_of, CanBeHeld, SpellsItself, text_limit};
ghost use Rattle.sb_value.specs.declared.value.Value.{Value};
ghost use Rattle.sb_syntax.specs.Tree as tree;
ghost use Rattle.sb_syntax.specs.Views as view;

use crate::command::command;
use crate::cursor::{Cursor, Token};
use crate::error::{Fault, ParseError};
use crate::lexer::token;
use crate::tree::{Command, TransactionCommand};
use std::alloc::Global;

/// Cuts the text into tokens.
#[inline(never)]
fn cut(alloc: Global, text: &[u8]) -> Result<Vec<Token>, ParseError>
    ensures { Reading (λ v. v.items) (scan 0 0 text.now) (length text.now) result }
{
    // A place is four bytes in a token.
    if text.len() > u32::MAX as usize {
        return Err(ParseError::NoMemory);
    }
    // Each token has a byte, so that there is room for all of them.
    let Ok(mut all) = Vec::with_capacity(alloc, text.len()) else {
        return Err(ParseError::NoMemory);
    };
    let mut at = 0;
    'more: while at < text.len() {
        if text[at] == b' ' {
            at += 1;
            continue;
        }
        let Some((kind, len)) = token(&text[at..]) else {
            return Err(ParseError::Syntax { place: at });
        };
        all.push_reserved(Token {
            kind,
            start: at as u32,
            end: (at + len) as u32,
        });
        at += len;
    }
    Ok(all)
}

/// The tokens of a text. Error: the place of the first byte that begins no token, or out of memory.
pub fn tokens(alloc: Global, text: &[u8]) -> Result<Vec<Token>, ParseError>
    // They are the text's, each its slice, in order, with spaces alone between them.
    ensures found { IfOk result (λ v. AreTokens 0 text.now v.items) }
    ensures within { IfOk result (λ v. AllWithin text.now v.items) }
    // Syntax says that the text isn't made of tokens and spaces.
    ensures none { IfErr result (NoTokens text.now) }
{
    cut(alloc, text)
}

/// The most bytes of a command's text. A tree is as deep as a sum in its text is long, and so bounded, it is
/// read, resolved, evaluated and released in less than 1 MB of the stack.
pub const COMMAND_LIMIT: usize = 4096;

/// The shortest commands of a transaction, which need no list of tokens.
fn one_word(text: &[u8]) -> Option<Command>
    ensures { IfSome result (λ c. command_of text.now ≡ Some (view.command c)) }
{
    match text {
        [b'b', b'e', b'g', b'i', b'n'] => Some(Command::Begin),
        [b'c', b'o', b'm', b'm', b'i', b't'] => Some(Command::InTransaction(
            TransactionCommand::Commit,
        )),
        _ => None,
    }
}

/// The command that the text is. Error: the place where the text stops being a command, or out of memory.
pub fn parse(alloc: Global, text: &[u8]) -> Result<Command, ParseError>
    requires long { length text.now ≤ text_limit }
    ensures found { IfOk result (λ c. Spells text.now (view.command c)) }
    ensures computed { IfOk result (λ c. command_of text.now ≡ Some (view.command c)) }
    // Syntax says that no command has the text.
    ensures none { IfErr result (NoCommand text.now) }
{
    if let Some(command) = one_word(text) {
        // for the proof: what is computed is the grammar's
        command_of_is_the_grammar();
        return Ok(command);
    }
    let tokens = tokens(alloc, text)?;
    let mut cursor = Cursor::new(text, tokens.as_slice());
    match command(alloc, &mut cursor) {
        Ok(command) => Ok(command),
        Err(Fault::Refused) => Err(ParseError::Syntax {
            place: cursor.place().min(text.len()),
        }),
        Err(Fault::NoMemory) => Err(ParseError::NoMemory),
    }
}

/// A text has at most one command.
pub fn one_command()
    ensures { (text : List ℕ) (a b : tree.Command) → Spells text a → Spells text b → a ≡ b }
{}

/// `command_of` computes what the grammar says.
pub fn command_of_is_the_grammar()
    ensures { (text : List ℕ) (c : tree.Command) → Spells text c ↔ (command_of text ≡ Some c) }
{}

/// A value's text, as replies have it, is read as that value.
pub fn values_spell_themselves()
    ensures { (v : Value) → CanBeHeld v → SpellsItself v }
{}
