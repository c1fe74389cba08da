//! A cursor over the tokens of a text.

ghost use Rattle.std.specs.Prelude.{◌≡◌, ◌≤◌, length, OnSome, IfSome, option_map};
ghost use Rattle.sb_syntax.specs.Reading as spec;
ghost use Rattle.sb_syntax.specs.Reading.{Gives};
ghost use Rattle.sb_syntax.specs.Cursor.{AllWithin, lexemes};

use crate::error::Fault;
use crate::kind::TokenKind;
use std::marker::Model;

/// A token: its kind, and where its bytes begin and end.
#[derive(Clone, Copy)]
pub struct Token {
    pub kind: TokenKind,
    pub start: u32,
    pub end: u32,
}

/// The tokens of a text that are still to be read.
#[derive(Drop)]
pub struct Cursor<'a> {
    text: &'a [u8],
    tokens: &'a [Token],
}

impl<'a> Model for Cursor<'a> {
    ghost use Rattle.std.specs.Prelude.{List};
    ghost use Rattle.sb_syntax.specs.Input.{Lexeme};

    ghost Value = { List Lexeme };

    ghost use Rattle.sb_syntax.specs.Cursor.{AllWithin, lexemes};

    ghost view = { λ c. lexemes c.text.now c.tokens.now };

    ghost invariant = { λ c. AllWithin c.text.now c.tokens.now };
}

impl<'a> Cursor<'a> {
    /// A cursor before the first token.
    pub fn new(text: &'a [u8], tokens: &'a [Token]) -> Cursor<'a>
        requires { AllWithin text.now tokens.now }
        ensures { result ≡ lexemes text.now tokens.now }
    {
        Cursor { text, tokens }
    }

    /// A cursor at the same place.
    pub fn copied(&self) -> Cursor<'a>
        ensures { result ≡ self.now }
    {
        Cursor {
            text: self.text,
            tokens: self.tokens,
        }
    }

    /// The place at which the next token begins, or the length of the text at its end.
    pub fn place(&self) -> usize {
        match self.tokens {
            [token, ..] => token.start as usize,
            [] => self.text.len(),
        }
    }

    /// The number of tokens that are left.
    pub fn left(&self) -> usize {
        self.tokens.len()
    }

    /// The kind of the next token.
    #[tactic(auto, unfolding(crate::specs::Reading::kind_at))]
    pub fn peek(&self) -> Option<TokenKind>
        ensures { result ≡ spec.kind_at self.now }
    {
        match self.tokens {
            [token, ..] => Some(token.kind),
            [] => None,
        }
    }

    /// True if the next token is of that kind.
    #[tactic(auto, unfolding(crate::specs::Input::same_kind, crate::specs::Reading::sees))]
    pub fn sees(&self, kind: TokenKind) -> bool
        ensures { result ≡ spec.sees kind self.now }
    {
        match self.tokens {
            [token, ..] => token.kind == kind,
            [] => false,
        }
    }

    /// Goes past the next token.
    #[tactic(auto, unfolding(crate::specs::Reading::next))]
    pub fn skip(&mut self)
        ensures value { self.new ≡ spec.next self.old }
        ensures shorter { length self.new ≤ length self.old }
    {
        if let [_, rest @ ..] = self.tokens {
            self.tokens = rest;
        }
    }

    /// Takes the next token if it is of that kind, and says whether it did.
    pub fn eat(&mut self, kind: TokenKind) -> bool
        ensures found { result ≡ spec.sees kind self.old }
        ensures after { self.new ≡ spec.after kind self.old }
        ensures shorter { length self.new ≤ length self.old }
    {
        if !self.sees(kind) {
            return false;
        }
        self.skip();
        true
    }

    /// Takes the next token, which has to be of that kind. Error: the tokens aren't that (Refused), or out of memory.
    #[tactic(auto, unfolding(crate::specs::Reading::expect))]
    pub fn expect(&mut self, kind: TokenKind) -> Result<(), Fault>
        ensures { Gives (λ _. tt) (spec.expect kind self.old) result self.old self.new }
    {
        if self.sees(kind) {
            self.skip();
            Ok(())
        } else {
            Err(Fault::Refused)
        }
    }

    /// The bytes of the next token, if it is of this kind.
    #[inline(always)]
    #[tactic(auto, unfolding(crate::specs::Input::same_kind, crate::specs::Reading::bytes_of, crate::specs::Reading::next))]
    pub fn bytes_of(&self, kind: TokenKind) -> Option<&'a [u8]>
        ensures { spec.bytes_of kind self.now
            ≡ option_map (λ bytes. (bytes.now, spec.next self.now)) result }
    {
        match self.tokens {
            [token, ..] if token.kind == kind => {
                Some(&self.text[token.start as usize..token.end as usize])
            }
            _ => None,
        }
    }
}
