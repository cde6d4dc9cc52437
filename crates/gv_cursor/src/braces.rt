//! Closures, which stay unread.

ghost use Rattle.std.specs.Prelude.{◌≡◌, ◌<◌, ◌+◌, ◌^◌, ◌++◌, List, IfOk, MatchBool, MatchOption};
ghost use Rattle.gv_lex.specs.declared.token.Token.{Token};
ghost use Rattle.gv_tree.specs.declared.expr.Expr.{Expr};
ghost use Rattle.gv_grammar.specs.Exprs.{Matched, IsClosure, AreClosures, behind_texts, plain};
ghost use Rattle.gv_grammar.specs.Exprs as spec;
ghost use Rattle.gv_grammar.specs.Phrases.{Nothing};

use crate::cursor::Tokens;
use crate::meaning::{closing, is_closing, is_head};
use gv_lex::{Piece, TokenKind};
use gv_spelling::Symbol;
use gv_tree::{Arg, Closure, Expr};
use sqlite_items::{Boxed, Items};
use std::alloc::{AllocError, Global};

/// How many strings are open behind a token, where one more than `others` are before it.
fn open_behind(others: usize, kind: TokenKind) -> usize
    requires { others + 2 < 2 ^ 64 }
    ensures { result ≡ spec.open_behind others kind }
{
    match kind {
        TokenKind::Text(Piece::Head(_), _) => others + 2,
        TokenKind::Text(Piece::Tail, _) => others,
        _ => others + 1,
    }
}

/// Goes behind the end of a string of which the head is passed.
fn pass_texts(tokens: &mut Tokens<'_>)
    ensures { tokens.new.rest.now ≡ behind_texts 1 tokens.old.rest.now }
{
    let mut left: usize = 1;
    while left > 0 && !tokens.rest.is_empty() {
        left = open_behind(left - 1, tokens.kind());
        tokens.advance();
    }
}

/// Goes to the first bracket that closes more than what is opened from here, or to the end.
fn skip(tokens: &mut Tokens<'_>) -> bool
    ensures { MatchBool result (Matched tokens.old.rest.now tokens.new.rest.now) ((rest : List Token) → Matched tokens.old.rest.now rest → ⊥) }
{
    loop {
        let kind = tokens.kind();
        if is_closing(kind) {
            return true;
        }
        tokens.advance();
        if is_head(kind) {
            pass_texts(tokens);
        } else if let Some(close) = closing(kind) {
            if !skip(tokens) {
                return false;
            }
            if !tokens.eat(close) {
                return false;
            }
        }
    }
}

/// A pair of braces around tokens whose brackets match. `all` is how many tokens the whole list has,
/// and the tree has the places of the inner ones there.
pub fn closure(all: usize, tokens: &mut Tokens<'_>) -> Option<Expr>
    ensures { MatchOption result ((tokens.new.rest.now ≡ tokens.old.rest.now) × Nothing (IsClosure all) tokens.old.rest.now) (λ f. IsClosure all f tokens.old.rest.now tokens.new.rest.now) }
{
    let before = tokens.rest;
    let place = tokens.place();
    if !tokens.eat(Symbol::LeftBrace) {
        return None;
    }
    let from = all.saturating_sub(tokens.rest.len());
    if !skip(tokens) {
        tokens.rest = before;
        return None;
    }
    let to = all.saturating_sub(tokens.rest.len());
    if !tokens.eat(Symbol::RightBrace) {
        tokens.rest = before;
        return None;
    }
    Some(Expr::Closure(place, Closure::Unread(from, to)))
}

/// Arguments, and the closures that directly follow as further ones.
pub fn closures(
    alloc: Global,
    all: usize,
    args: Items<Arg>,
    tokens: &mut Tokens<'_>,
) -> Result<Items<Arg>, AllocError>
    ensures { IfOk result (λ found. (fs : List Expr) × AreClosures all fs tokens.old.rest.now tokens.new.rest.now × (found ≡ args ++ plain all fs)) }
{
    let mut found = args;
    while let Some(closure) = closure(all, tokens) {
        found.push(Arg::Plain(Boxed::new(alloc, closure)?))?;
    }
    Ok(found)
}
