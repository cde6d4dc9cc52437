//! What is still to be read.

ghost use Rattle.std.specs.Prelude.{◌≡◌, ◌≢◌, ℕ, drop, ◌<◌, ◌≤◌, length, MatchBool, MatchResult, List};
ghost use Rattle.gv_spelling.specs.declared.kinds.Symbol.{Symbol};
ghost use Rattle.gv_lex.specs.declared.token.Token.{Token};
ghost use Rattle.gv_lex.specs.declared.token.TokenKind.TheVariants as kind;
ghost use Rattle.gv_lex.specs.declared.token.Word.TheVariants as word;
ghost use Rattle.gv_grammar.specs.Tokens.{Eats, EatsKeyword, EatsEnd, EatsLine, kind_of, place_of, reach};
ghost use Rattle.gv_cursor.specs.Reading.{Expects};
ghost use Rattle.gv_cursor.specs.declared.error.ReadError.TheVariants.{Refused};

use crate::error::ReadError;
use crate::meaning::goes_on;
use gv_base::Place;
use gv_lex::{Token, TokenKind, Word};
use gv_spelling::{Keyword, Symbol};

fn same_symbol(a: Symbol, b: Symbol) -> bool
    ensures { MatchBool result (a ≡ b) (a ≢ b) }
{
    a == b
}

fn same_keyword(a: Keyword, b: Keyword) -> bool
    ensures { MatchBool result (a ≡ b) (a ≢ b) }
{
    a == b
}

fn is_end(next: TokenKind) -> bool
    ensures { MatchBool result (next ≡ kind.End) (next ≢ kind.End) }
{
    matches!(next, TokenKind::End)
}

fn is_line_end(next: TokenKind) -> bool
    ensures { MatchBool result (next ≡ kind.LineEnd) (next ≢ kind.LineEnd) }
{
    matches!(next, TokenKind::LineEnd)
}

/// The rest of a list of tokens.
pub struct Tokens<'a> {
    pub rest: &'a [Token],
    /// The least number of tokens that were left where something was refused.
    pub furthest: usize,
}

impl Drop for Tokens<'_> {
    fn drop(self) {
        let Tokens {
            rest: _,
            furthest: _,
        } = self;
    }
}

impl Tokens<'_> {
    /// The kind of the next token; at the end of the list, `End`.
    pub fn kind(&self) -> TokenKind
        ensures { result ≡ kind_of self.now.rest.now }
    {
        match self.rest {
            [] => TokenKind::End,
            [first, ..] => first.kind,
        }
    }

    /// The kind of the token behind the next.
    pub fn kind_behind(&self) -> TokenKind
        ensures { result ≡ kind_of (drop 1 self.now.rest.now) }
    {
        match self.rest {
            [_, second, ..] => second.kind,
            _ => TokenKind::End,
        }
    }

    /// The place of the next token; at the end of the list, line 0.
    pub fn place(&self) -> Place
        ensures { result ≡ place_of self.now.rest.now }
    {
        match self.rest {
            [] => Place {
                file: 0,
                line: 0,
                column: 0,
            },
            [first, ..] => first.place,
        }
    }

    /// Goes past the next token.
    pub fn advance(&mut self)
        ensures { self.new.rest.now ≡ drop 1 self.old.rest.now }
    {
        if !self.rest.is_empty() {
            let (_, rest) = self.rest.split_at(1);
            self.rest = rest;
        }
    }

    /// Remembers that something is refused here.
    pub fn refuse(&mut self) -> ReadError
        ensures { (result ≡ Refused) × (self.new.rest.now ≡ self.old.rest.now) }
    {
        let left = self.rest.len();
        if left < self.furthest {
            self.furthest = left;
        }
        ReadError::Refused
    }

    /// Whether this symbol comes next.
    pub fn sees(&self, symbol: Symbol) -> bool
        ensures { MatchBool result (kind_of self.now.rest.now ≡ kind.Symbol symbol) (kind_of self.now.rest.now ≢ kind.Symbol symbol) }
    {
        match self.kind() {
            TokenKind::Symbol(next) => same_symbol(next, symbol),
            _ => false,
        }
    }

    /// Whether this keyword comes next.
    pub fn sees_keyword(&self, keyword: Keyword) -> bool
        ensures { MatchBool result ((n : ℕ) × (kind_of self.now.rest.now ≡ kind.Word (word.Keyword keyword) n)) ((n : ℕ) → kind_of self.now.rest.now ≡ kind.Word (word.Keyword keyword) n → ⊥) }
    {
        match self.kind() {
            TokenKind::Word(Word::Keyword(next), _) => same_keyword(next, keyword),
            _ => false,
        }
    }

    /// Goes past this symbol, if it comes next.
    #[tactic(auto, using(crate::proofs::Steps::eaten, crate::proofs::Steps::not_eaten))]
    pub fn eat(&mut self, symbol: Symbol) -> bool
        ensures { MatchBool result (Eats symbol self.old.rest.now self.new.rest.now) ((self.new.rest.now ≡ self.old.rest.now) × ((after : List Token) → Eats symbol self.old.rest.now after → ⊥)) }
    {
        if self.sees(symbol) {
            self.advance();
            true
        } else {
            false
        }
    }

    /// Goes past this keyword, if it comes next.
    #[tactic(auto, using(crate::proofs::Steps::keyword_eaten, crate::proofs::Steps::keyword_not_eaten))]
    pub fn eat_keyword(&mut self, keyword: Keyword) -> bool
        ensures { MatchBool result (EatsKeyword keyword self.old.rest.now self.new.rest.now) ((self.new.rest.now ≡ self.old.rest.now) × ((after : List Token) → EatsKeyword keyword self.old.rest.now after → ⊥)) }
    {
        if self.sees_keyword(keyword) {
            self.advance();
            true
        } else {
            false
        }
    }

    /// Goes past this symbol, which has to come next.
    pub fn expect(&mut self, symbol: Symbol) -> Result<(), ReadError>
        ensures { Expects (Eats symbol) result self.old.rest.now self.new.rest.now }
    {
        if self.eat(symbol) {
            Ok(())
        } else {
            Err(self.refuse())
        }
    }

    /// Goes past this keyword, which has to come next.
    pub fn expect_keyword(&mut self, keyword: Keyword) -> Result<(), ReadError>
        ensures { Expects (EatsKeyword keyword) result self.old.rest.now self.new.rest.now }
    {
        if self.eat_keyword(keyword) {
            Ok(())
        } else {
            Err(self.refuse())
        }
    }

    /// Goes past the `End` of a file or of a part of a string, which has to come next.
    #[tactic(auto, using(crate::proofs::Steps::end_eaten, crate::proofs::Steps::end_not_eaten))]
    pub fn expect_end(&mut self) -> Result<(), ReadError>
        ensures { Expects EatsEnd result self.old.rest.now self.new.rest.now }
    {
        if self.rest.is_empty() {
            return Err(self.refuse());
        }
        if is_end(self.kind()) {
            self.advance();
            Ok(())
        } else {
            Err(self.refuse())
        }
    }

    /// Goes past a line end, if one comes next.
    #[tactic(auto, using(crate::proofs::Steps::line_eaten, crate::proofs::Steps::line_not_eaten))]
    pub fn eat_line(&mut self) -> bool
        ensures { MatchBool result (EatsLine self.old.rest.now self.new.rest.now) ((self.new.rest.now ≡ self.old.rest.now) × (kind_of self.old.rest.now ≢ kind.LineEnd)) }
    {
        if is_line_end(self.kind()) {
            self.advance();
            true
        } else {
            false
        }
    }

    /// Refuses before a token with which an expression goes on.
    pub fn expect_stop(&mut self) -> Result<(), ReadError>
        ensures same { self.new.rest.now ≡ self.old.rest.now }
        ensures stops { MatchResult result (λ _. 12 < reach (kind_of self.old.rest.now)) (λ e. (e ≡ Refused) × (reach (kind_of self.old.rest.now) ≤ 12)) }
    {
        if goes_on(self.kind()) {
            Err(self.refuse())
        } else {
            Ok(())
        }
    }
}
