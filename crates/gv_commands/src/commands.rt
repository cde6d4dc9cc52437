//! Full expressions: expressions, and commands, whose arguments have no parentheses.

ghost use Rattle.std.specs.Prelude.{◌≡◌, ◌≢◌, ◌<◌, ◌≤◌, drop, true, false, None, Some, IfOk, MatchBool, MatchResult, ◌⊎◌};
ghost use Rattle.gv_spelling.specs.declared.kinds.Symbol.TheVariants as symbol;
ghost use Rattle.gv_lex.specs.declared.token.TokenKind.TheVariants as kind;
ghost use Rattle.gv_tree.specs.declared.expr.Expr.TheVariants as expr;
ghost use Rattle.gv_grammar.specs.Tokens as spec;
ghost use Rattle.gv_grammar.specs.Tokens.{kind_of, place_of, reach};
ghost use Rattle.gv_grammar.specs.Phrases.{Nothing};
ghost use Rattle.gv_grammar.specs.Commands.{IsFull, IsCommand, GoesCommand, IsCommandArg, AreCommandArgs};
ghost use Rattle.gv_cursor.specs.Reading.{Exactly, Stopped};
ghost use Rattle.gv_cursor.specs.declared.error.ReadError.TheVariants.{Refused};
ghost use Rattle.gv_exprs.specs.Elements as elements;
ghost use Rattle.gv_commands.specs.Heads.{IsCommandHead, FindsHead, GoesFrom};

use gv_base::Place;
use gv_cursor::{
    ReadError, Tokens, assign_of, begins_arguments, begins_call, ends_in_call, ends_in_name,
    is_target, name_of,
};
use gv_exprs::{is_colon, key_of, read_cond, read_path, read_suffix};
use gv_spelling::Symbol;
use gv_tree::{Arg, AssignOp, Expr, Ident, Key, Label, MemberOp};
use sqlite_items::{Boxed, Items};
use std::alloc::{AllocError, Global};

/// Refuses where a condition that is a full expression doesn't end.
fn expect_end(tokens: &mut Tokens<'_>) -> Result<(), ReadError>
    ensures same { tokens.new.rest.now ≡ tokens.old.rest.now }
    ensures ends { MatchResult result (λ _. (spec.begins_arguments (kind_of tokens.old.rest.now) ≡ false) × (12 < reach (kind_of tokens.old.rest.now))) (λ e. (e ≡ Refused) × ((spec.begins_arguments (kind_of tokens.old.rest.now) ≡ true) ⊎ (reach (kind_of tokens.old.rest.now) ≤ 12))) }
{
    if begins_arguments(tokens.kind()) {
        return Err(tokens.refuse());
    }
    tokens.expect_stop()
}

fn assigned(
    alloc: Global,
    place: Place,
    op: AssignOp,
    left: Expr,
    right: Expr,
) -> Result<Expr, AllocError>
    ensures { IfOk result (λ x. x ≡ expr.Assign place op left right) }
{
    Ok(Expr::Assign(
        place,
        op,
        Boxed::new(alloc, left)?,
        Boxed::new(alloc, right)?,
    ))
}

/// Whether a command goes on behind its head.
fn is_head_of_command(head: &Expr, tokens: &Tokens<'_>) -> bool
    ensures { MatchBool result (IsCommandHead head.now (kind_of tokens.now.rest.now)) (IsCommandHead head.now (kind_of tokens.now.rest.now) → ⊥) }
{
    if ends_in_name(head) {
        return begins_arguments(tokens.kind());
    }
    if ends_in_call(head) {
        return name_of(tokens.kind()).is_some();
    }
    false
}

/// Reads a full expression before a token with which no expression goes on. `all` is how many tokens
/// the whole list has; closures stay unread, with the places of their inner tokens there. Refused
/// exactly where there is none.
#[cycle(full)]
pub fn read_full(alloc: Global, all: usize, tokens: &mut Tokens<'_>) -> Result<Expr, ReadError>
    ensures { Exactly (Stopped (IsFull all)) result tokens.old.rest.now tokens.new.rest.now }
{
    match head(alloc, all, tokens)? {
        Some(head) => command(alloc, all, head, tokens),
        None => full_cond(alloc, all, tokens),
    }
}

/// A condition, or an assignment to one, where no command stands.
#[cycle(full)]
fn full_cond(alloc: Global, all: usize, tokens: &mut Tokens<'_>) -> Result<Expr, ReadError>
    requires no_command { Nothing (IsCommand all) tokens.old.rest.now }
    ensures { Exactly (Stopped (IsFull all)) result tokens.old.rest.now tokens.new.rest.now }
{
    let left = read_cond(alloc, all, tokens)?;
    let Some(op) = assign_of(tokens.kind()) else {
        expect_end(tokens)?;
        return Ok(left);
    };
    if !is_target(&left) {
        return Err(tokens.refuse());
    }
    let place = tokens.place();
    tokens.advance();
    let right = read_full(alloc, all, tokens)?;
    Ok(assigned(alloc, place, op, left, right)?)
}

/// The path with which a command begins; nothing is passed where none does.
fn head(alloc: Global, all: usize, tokens: &mut Tokens<'_>) -> Result<Option<Expr>, ReadError>
    ensures { FindsHead all result tokens.old.rest.now tokens.new.rest.now }
{
    let before = tokens.rest;
    match read_path(alloc, all, tokens) {
        Ok(head) => {
            if is_head_of_command(&head, tokens) {
                return Ok(Some(head));
            }
            tokens.rest = before;
            Ok(None)
        }
        Err(ReadError::OutOfMemory) => Err(ReadError::OutOfMemory),
        Err(ReadError::Refused) => {
            tokens.rest = before;
            Ok(None)
        }
    }
}

/// What stands behind the head of a command.
fn command(
    alloc: Global,
    all: usize,
    head: Expr,
    tokens: &mut Tokens<'_>,
) -> Result<Expr, ReadError>
    requires head { IsCommandHead head (kind_of tokens.old.rest.now) }
    ensures { Exactly (Stopped (GoesFrom all head)) result tokens.old.rest.now tokens.new.rest.now }
{
    if !ends_in_name(&head) {
        return links(alloc, all, head, tokens);
    }
    let place = tokens.place();
    let args = command_args(alloc, all, tokens)?;
    links(
        alloc,
        all,
        Expr::Call(place, Boxed::new(alloc, head)?, args),
        tokens,
    )
}

/// Names with arguments or calls, and a last name.
fn links(alloc: Global, all: usize, left: Expr, tokens: &mut Tokens<'_>) -> Result<Expr, ReadError>
    ensures { Exactly (Stopped (GoesCommand all left)) result tokens.old.rest.now tokens.new.rest.now }
{
    let place = tokens.place();
    let Some(name) = name_of(tokens.kind()) else {
        tokens.expect_stop()?;
        return Ok(left);
    };
    tokens.advance();
    let member = Expr::Member(
        place,
        MemberOp::Dot,
        Boxed::new(alloc, left)?,
        Label::Name(Ident { place, name }),
    );
    if begins_arguments(tokens.kind()) {
        let at = tokens.place();
        let args = command_args(alloc, all, tokens)?;
        let call = Expr::Call(at, Boxed::new(alloc, member)?, args);
        return links(alloc, all, call, tokens);
    }
    if begins_call(tokens.kind()) {
        let (longer, found) = read_suffix(alloc, all, member, tokens)?;
        if found {
            return links(alloc, all, longer, tokens);
        }
        return Err(tokens.refuse());
    }
    tokens.expect_stop()?;
    Ok(member)
}

fn command_args(alloc: Global, all: usize, tokens: &mut Tokens<'_>) -> Result<Items<Arg>, ReadError>
    ensures { Exactly (Stopped (AreCommandArgs all)) result tokens.old.rest.now tokens.new.rest.now }
{
    let mut args = Items::new(alloc);
    loop {
        args.push(command_arg(alloc, all, tokens)?)?;
        if !tokens.eat(Symbol::Comma) {
            return Ok(args);
        }
    }
}

fn command_arg(alloc: Global, all: usize, tokens: &mut Tokens<'_>) -> Result<Arg, ReadError>
    ensures { Exactly (Stopped (IsCommandArg all)) result tokens.old.rest.now tokens.new.rest.now }
{
    if is_colon(tokens.kind_behind()) {
        if let Some(key) = key_of(tokens.place(), tokens.kind()) {
            return keyed_arg(alloc, all, key, tokens);
        }
    }
    plain_or_keyed_arg(alloc, all, tokens)
}

/// An argument with a key of one token.
fn keyed_arg(alloc: Global, all: usize, key: Key, tokens: &mut Tokens<'_>) -> Result<Arg, ReadError>
    requires key { elements.key_of (place_of tokens.old.rest.now) (kind_of tokens.old.rest.now) ≡ Some key }
    requires colon { kind_of (drop 1 tokens.old.rest.now) ≡ kind.Symbol symbol.Colon }
    ensures { Exactly (Stopped (IsCommandArg all)) result tokens.old.rest.now tokens.new.rest.now }
{
    tokens.advance();
    tokens.advance();
    let value = read_cond(alloc, all, tokens)?;
    tokens.expect_stop()?;
    Ok(Arg::Keyed(key, Boxed::new(alloc, value)?))
}

/// A condition, or one with a `:` behind it: then it is a key, if it is a string with parts.
fn plain_or_keyed_arg(alloc: Global, all: usize, tokens: &mut Tokens<'_>) -> Result<Arg, ReadError>
    requires no_key { (kind_of (drop 1 tokens.old.rest.now) ≢ kind.Symbol symbol.Colon) ⊎ (elements.key_of (place_of tokens.old.rest.now) (kind_of tokens.old.rest.now) ≡ None) }
    ensures { Exactly (Stopped (IsCommandArg all)) result tokens.old.rest.now tokens.new.rest.now }
{
    let first = read_cond(alloc, all, tokens)?;
    if !tokens.sees(Symbol::Colon) {
        tokens.expect_stop()?;
        return Ok(Arg::Plain(Boxed::new(alloc, first)?));
    }
    match first {
        Expr::GString(place, text) => {
            tokens.advance();
            let value = read_cond(alloc, all, tokens)?;
            tokens.expect_stop()?;
            Ok(Arg::Keyed(
                Key::Label(Label::GString(place, text)),
                Boxed::new(alloc, value)?,
            ))
        }
        _ => Err(tokens.refuse()),
    }
}
