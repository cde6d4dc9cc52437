//! Which line ends count.

ghost use Rattle.std.specs.Prelude.{◌≡◌, ◌∷◌, ◌++◌, List, reverse, OnOk, IfOk};
ghost use Rattle.gv_lex.specs.declared.token.Token.{Token};
ghost use Rattle.gv_lines.specs.Lines as spec;
ghost use Rattle.gv_lines.specs.Steps.{line_of};

use crate::ends::{may_begin, may_end};
use gv_base::OutOfMemory;
use gv_lex::{Piece, Token, TokenKind};
use gv_spelling::Symbol;
use std::alloc::Global;

/// What is open around a place.
#[derive(Clone, Copy, Debug, PartialEq, Eq)]
pub enum Level {
    /// `( )`
    Parens,
    /// `[ ]`
    Brackets,
    /// `{ }`
    Braces,
    /// A part of a string.
    Part,
}

/// What is known at a place.
#[derive(Drop)]
pub struct Lines {
    /// What is open, the innermost last.
    pub levels: Vec<Level>,
    /// The token before the last one, line ends left out.
    pub before: TokenKind,
    pub last: Option<TokenKind>,
    /// The first line end since the last token.
    pub waiting: Option<Token>,
}

/// Tokens without the line ends that don't count. Of several in a row the first one stays.
pub fn keep_lines(alloc: Global, tokens: &[Token]) -> Result<Vec<Token>, OutOfMemory>
    ensures { IfOk result (λ kept. kept.items ≡ spec.kept tokens.now) }
{
    let mut lines = Lines::new(alloc);
    let mut kept = Vec::new(alloc);
    for token in tokens {
        lines.turn(&mut kept, *token)?;
    }
    Ok(kept)
}

impl Lines {
    fn new(alloc: Global) -> Lines
        ensures { line_of result ≡ spec.start }
    {
        Lines {
            levels: Vec::new(alloc),
            before: TokenKind::End,
            last: None,
            waiting: None,
        }
    }

    /// Reads a token, and puts what is now known to be kept.
    fn turn(&mut self, kept: &mut Vec<Token>, token: Token) -> Result<(), OutOfMemory>
        ensures { OnOk result ((rest : List Token) → kept.new.items ++ spec.kept_from (line_of self.new) rest ≡ kept.old.items ++ spec.kept_from (line_of self.old) (token ∷ rest)) }
    {
        if matches!(token.kind, TokenKind::LineEnd) {
            self.wait(token);
            return Ok(());
        }
        if let Some(line_end) = self.counted(token.kind) {
            kept.push(line_end)?;
        }
        kept.push(token)?;
        self.pass(token.kind)
    }

    /// The line end that waits, where it counts before a token.
    fn counted(&self, kind: TokenKind) -> Option<Token>
        ensures { result ≡ spec.counted (line_of self.now) kind }
    {
        if counts_in(self.levels.as_slice()) && self.last_may_end() && may_begin(kind) {
            self.waiting
        } else {
            None
        }
    }

    fn last_may_end(&self) -> bool
        ensures { result ≡ spec.last_may_end self.now.before self.now.last }
    {
        match self.last {
            Some(last) => may_end(self.before, last),
            None => false,
        }
    }

    fn wait(&mut self, line_end: Token)
        ensures { line_of self.new ≡ spec.with_waiting (line_of self.old) line_end }
    {
        self.waiting = Some(self.waiting.unwrap_or(line_end));
    }

    /// Goes past a token that is no line end.
    fn pass(&mut self, kind: TokenKind) -> Result<(), OutOfMemory>
        ensures { OnOk result (line_of self.new ≡ spec.line_behind (line_of self.old) kind) }
    {
        pass_levels(&mut self.levels, kind)?;
        self.before = self.last.unwrap_or(TokenKind::End);
        self.last = Some(kind);
        self.waiting = None;
        Ok(())
    }
}

fn counts_in(levels: &[Level]) -> bool
    ensures { result ≡ spec.counts_in (reverse levels.now) }
{
    !matches!(levels.last(), Some(Level::Parens | Level::Brackets))
}

/// Goes past a token that is no line end.
fn pass_levels(levels: &mut Vec<Level>, kind: TokenKind) -> Result<(), OutOfMemory>
    ensures { OnOk result (reverse levels.new.items ≡ spec.levels_behind (reverse levels.old.items) kind) }
{
    match kind {
        TokenKind::Symbol(Symbol::LeftParen) => levels.push(Level::Parens)?,
        TokenKind::Symbol(Symbol::LeftBracket) => levels.push(Level::Brackets)?,
        TokenKind::Symbol(Symbol::LeftBrace) => levels.push(Level::Braces)?,
        TokenKind::Symbol(Symbol::RightParen | Symbol::RightBracket | Symbol::RightBrace) => {
            close_bracket(levels)
        }
        TokenKind::Text(Piece::Head(_) | Piece::Middle(_), _) => levels.push(Level::Part)?,
        TokenKind::End => end_part(levels),
        _ => {}
    }
    Ok(())
}

/// Takes away the innermost bracket of this list of tokens.
fn close_bracket(levels: &mut Vec<Level>)
    ensures { reverse levels.new.items ≡ spec.behind_bracket (reverse levels.old.items) }
{
    if !matches!(levels.last(), Some(Level::Part)) {
        levels.pop();
    }
}

/// Takes away the innermost part, and what is open in it.
fn end_part(levels: &mut Vec<Level>)
    ensures { reverse levels.new.items ≡ spec.behind_part (reverse levels.old.items) }
{
    'levels: while let Some(level) = levels.pop() {
        if matches!(level, Level::Part) {
            return;
        }
    }
}
