//! Annotations, methods, classes.

ghost use Rattle.std.specs.Prelude.{◌≡◌, List, MatchBool};
ghost use Rattle.gv_lex.specs.declared.token.Token.{Token};
ghost use Rattle.gv_grammar.specs.Scripts as spec;
ghost use Rattle.gv_grammar.specs.Scripts.{AreModifiers, IsDotted, MayName, MaySettings, AreAnnotations, IsRoutine, IsMember, AreMembers, IsAnswer};
ghost use Rattle.gv_cursor.specs.Reading.{Exactly, Stopped};
ghost use Rattle.gv_stmts.specs.Members.{IsTypeName, BeginsAnswer, BeginsMethod, BeginsConstructor, GoesMethod, GoesClass};

use gv_base::Name;
use gv_blocks::{may_line, read_block, read_params, read_value, read_vars, separates};
use gv_cursor::{ReadError, Tokens, name_of, type_name_of, type_of};
use gv_decls::{ident, is_left_paren, var_type};
use gv_lex::{Token, TokenKind, Word};
use gv_spelling::{Keyword, Symbol};
use gv_tree::{
    Annotation, Answer, ClassTree, Constructor, Field, Ident, Member, Method, Modifiers, Param,
    Setting, Stmt,
};
use sqlite_items::Items;
use std::alloc::Global;

// ---- words before a declaration

fn no_modifiers() -> Modifiers
    ensures { result ≡ spec.no_modifiers }
{
    Modifiers {
        is_public: false,
        is_private: false,
        is_protected: false,
        is_static: false,
        is_final: false,
    }
}

fn with_modifier(keyword: Keyword, modifiers: Modifiers) -> Option<Modifiers>
    ensures { result ≡ spec.with_modifier keyword modifiers }
{
    match keyword {
        Keyword::Public => Some(Modifiers {
            is_public: true,
            ..modifiers
        }),
        Keyword::Private => Some(Modifiers {
            is_private: true,
            ..modifiers
        }),
        Keyword::Protected => Some(Modifiers {
            is_protected: true,
            ..modifiers
        }),
        Keyword::Static => Some(Modifiers {
            is_static: true,
            ..modifiers
        }),
        Keyword::Final => Some(Modifiers {
            is_final: true,
            ..modifiers
        }),
        _ => None,
    }
}

fn modified(kind: TokenKind, modifiers: Modifiers) -> Option<Modifiers>
    ensures { result ≡ spec.modified kind modifiers }
{
    match kind {
        TokenKind::Word(Word::Keyword(keyword), _) => with_modifier(keyword, modifiers),
        _ => None,
    }
}

/// The words before a declaration.
pub fn modifiers(cursor: &mut Tokens<'_>) -> Modifiers
    ensures { AreModifiers result cursor.old.rest.now cursor.new.rest.now }
{
    let mut found = no_modifiers();
    while let Some(more) = modified(cursor.kind(), found) {
        found = more;
        cursor.advance();
    }
    found
}

// ---- what begins

/// Whether a method's answer stands here, which is one token.
fn begins_answer(cursor: &Tokens<'_>) -> bool
    ensures { MatchBool result (BeginsAnswer cursor.now.rest.now) (BeginsAnswer cursor.now.rest.now → ⊥) }
{
    if cursor.sees_keyword(Keyword::Void) {
        return true;
    }
    if cursor.sees_keyword(Keyword::Def) {
        return true;
    }
    type_of(cursor.place(), cursor.kind()).is_some()
}

/// Whether a method's answer, a name and a `(` stand here.
pub fn begins_method(cursor: &Tokens<'_>) -> bool
    ensures { MatchBool result (BeginsMethod cursor.now.rest.now) (BeginsMethod cursor.now.rest.now → ⊥) }
{
    if !begins_answer(cursor) {
        return false;
    }
    let mut ahead = Tokens {
        rest: cursor.rest,
        furthest: 0,
    };
    ahead.advance();
    if name_of(ahead.kind()).is_none() {
        return false;
    }
    is_left_paren(ahead.kind_behind())
}

/// Whether the name of this class and a `(` stand here.
fn begins_constructor(class: Name, cursor: &Tokens<'_>) -> bool
    ensures { MatchBool result (BeginsConstructor class cursor.now.rest.now) (BeginsConstructor class cursor.now.rest.now → ⊥) }
{
    let Some(name) = type_name_of(cursor.kind()) else {
        return false;
    };
    if name != class {
        return false;
    }
    is_left_paren(cursor.kind_behind())
}

// ---- names

fn type_name(cursor: &mut Tokens<'_>) -> Result<Ident, ReadError>
    ensures { Exactly IsTypeName result cursor.old.rest.now cursor.new.rest.now }
{
    let place = cursor.place();
    let Some(name) = type_name_of(cursor.kind()) else {
        return Err(cursor.refuse());
    };
    cursor.advance();
    Ok(Ident { place, name })
}

/// The keyword and the name of a class, where the keyword stands here.
fn may_name(keyword: Keyword, cursor: &mut Tokens<'_>) -> Result<Option<Ident>, ReadError>
    ensures { Exactly (MayName keyword) result cursor.old.rest.now cursor.new.rest.now }
{
    if !cursor.eat_keyword(keyword) {
        return Ok(None);
    }
    Ok(Some(type_name(cursor)?))
}

/// Names with dots between them.
pub fn dotted(alloc: Global, cursor: &mut Tokens<'_>) -> Result<Items<Ident>, ReadError>
    ensures { Exactly IsDotted result cursor.old.rest.now cursor.new.rest.now }
{
    let mut names = Items::new(alloc);
    loop {
        names.push(ident(cursor)?)?;
        if !cursor.eat(Symbol::Dot) {
            return Ok(names);
        }
    }
}

/// How a method's answer is written.
fn answer(cursor: &mut Tokens<'_>) -> Result<Answer, ReadError>
    ensures { (tokens : List Token) → Exactly (IsAnswer tokens) result cursor.old.rest.now cursor.new.rest.now }
{
    if cursor.eat_keyword(Keyword::Void) {
        return Ok(Answer::Void);
    }
    Ok(Answer::Value(var_type(cursor)?))
}

// ---- annotations

/// The members of an annotation in parentheses, or nothing.
fn may_settings(
    alloc: Global,
    tokens: &[Token],
    cursor: &mut Tokens<'_>,
) -> Result<Items<Setting>, ReadError>
    ensures { Exactly (MaySettings tokens.now) result cursor.old.rest.now cursor.new.rest.now }
{
    let mut settings = Items::new(alloc);
    if !cursor.eat(Symbol::LeftParen) {
        return Ok(settings);
    }
    if cursor.eat(Symbol::RightParen) {
        return Ok(settings);
    }
    loop {
        let ident = ident(cursor)?;
        cursor.expect(Symbol::Assign)?;
        let value = read_value(alloc, tokens, cursor)?;
        settings.push(Setting { ident, value })?;
        if cursor.eat(Symbol::RightParen) {
            return Ok(settings);
        }
        cursor.expect(Symbol::Comma)?;
    }
}

pub fn annotations(
    alloc: Global,
    tokens: &[Token],
    cursor: &mut Tokens<'_>,
) -> Result<Items<Annotation>, ReadError>
    ensures { Exactly (AreAnnotations tokens.now) result cursor.old.rest.now cursor.new.rest.now }
{
    let mut annotations = Items::new(alloc);
    while cursor.sees(Symbol::At) {
        let place = cursor.place();
        cursor.advance();
        let path = dotted(alloc, cursor)?;
        let settings = may_settings(alloc, tokens, cursor)?;
        may_line(cursor);
        annotations.push(Annotation {
            place,
            path,
            settings,
        })?;
    }
    Ok(annotations)
}

// ---- methods

/// Parameters in parentheses and a block.
fn routine(
    alloc: Global,
    tokens: &[Token],
    cursor: &mut Tokens<'_>,
) -> Result<(Items<Param>, Items<Stmt>), ReadError>
    ensures { Exactly (λ r. IsRoutine tokens.now r.0 r.1) result cursor.old.rest.now cursor.new.rest.now }
{
    cursor.expect(Symbol::LeftParen)?;
    let params = read_params(alloc, tokens, Symbol::RightParen, cursor)?;
    may_line(cursor);
    let body = read_block(alloc, tokens, cursor)?;
    Ok((params, body))
}

/// A method, behind its annotations and modifiers.
pub fn method(
    alloc: Global,
    tokens: &[Token],
    annotations: Items<Annotation>,
    modifiers: Modifiers,
    cursor: &mut Tokens<'_>,
) -> Result<Method, ReadError>
    ensures { Exactly (GoesMethod tokens.now annotations modifiers) result cursor.old.rest.now cursor.new.rest.now }
{
    let answer = answer(cursor)?;
    let ident = ident(cursor)?;
    let (params, body) = routine(alloc, tokens, cursor)?;
    Ok(Method {
        annotations,
        modifiers,
        answer,
        ident,
        params,
        body,
    })
}

// ---- classes

/// A member of the class of this name.
fn member(
    alloc: Global,
    tokens: &[Token],
    class: Name,
    cursor: &mut Tokens<'_>,
) -> Result<Member, ReadError>
    ensures { Exactly (Stopped (IsMember tokens.now class)) result cursor.old.rest.now cursor.new.rest.now }
{
    let annotations = annotations(alloc, tokens, cursor)?;
    let modifiers = modifiers(cursor);
    if begins_constructor(class, cursor) {
        let ident = type_name(cursor)?;
        let (params, body) = routine(alloc, tokens, cursor)?;
        cursor.expect_stop()?;
        return Ok(Member::Constructor(Constructor {
            annotations,
            modifiers,
            ident,
            params,
            body,
        }));
    }
    if begins_method(cursor) {
        let method = method(alloc, tokens, annotations, modifiers, cursor)?;
        cursor.expect_stop()?;
        return Ok(Member::Method(method));
    }
    let written = var_type(cursor)?;
    let vars = read_vars(alloc, tokens, cursor)?;
    Ok(Member::Field(Field {
        annotations,
        modifiers,
        written,
        vars,
    }))
}

/// Members, and the brace behind them.
fn members(
    alloc: Global,
    tokens: &[Token],
    class: Name,
    cursor: &mut Tokens<'_>,
) -> Result<Items<Member>, ReadError>
    ensures { Exactly (AreMembers tokens.now class) result cursor.old.rest.now cursor.new.rest.now }
{
    let mut members = Items::new(alloc);
    loop {
        while separates(cursor) {}
        if cursor.eat(Symbol::RightBrace) {
            return Ok(members);
        }
        members.push(member(alloc, tokens, class, cursor)?)?;
        if cursor.eat(Symbol::RightBrace) {
            return Ok(members);
        }
        if !separates(cursor) {
            return Err(cursor.refuse());
        }
    }
}

/// A class, behind its annotations and modifiers.
pub fn class(
    alloc: Global,
    tokens: &[Token],
    annotations: Items<Annotation>,
    modifiers: Modifiers,
    cursor: &mut Tokens<'_>,
) -> Result<ClassTree, ReadError>
    ensures { Exactly (GoesClass tokens.now annotations modifiers) result cursor.old.rest.now cursor.new.rest.now }
{
    cursor.expect_keyword(Keyword::Class)?;
    let ident = type_name(cursor)?;
    let superclass = may_name(Keyword::Extends, cursor)?;
    let interface = may_name(Keyword::Implements, cursor)?;
    may_line(cursor);
    cursor.expect(Symbol::LeftBrace)?;
    let members = members(alloc, tokens, ident.name, cursor)?;
    Ok(ClassTree {
        annotations,
        modifiers,
        ident,
        superclass,
        interface,
        members,
    })
}
