//! Texts that begin with closures, and a cursor that goes over a list to its end.

use gv_base::{Names, OutOfMemory};
use gv_cursor::{ReadError, Tokens, closures};
use gv_lex::{LexError, Token, TokenKind, lex};
use gv_spelling::{Keyword, Symbol};
use gv_tree::{Arg, Closure, Expr};
use sqlite_items::Items;
use std::alloc::Global;
use std::fmt::Write;
use std::test::Fail;

/// Behind a text are the closures that it begins with: where they stand, and the places of their inner
/// tokens in the list. Last is how many tokens are left.
const CLOSURES: &str = r#"{} ⇒ 1:1 1..1, 1 left
{ a } b ⇒ 1:1 1..2, 2 left
{ a(b { c }) [d] } ⇒ 1:1 1..11, 1 left
{ a } {{}} ⇒ 1:1 1..2, 1:7 4..6, 1 left
{ "x${ { y } }z" } ⇒ 1:1 1..7, 1 left
{ "a$b${c}" } ⇒ 1:1 1..8, 1 left
{ "${ ) }" } ⇒ 1:1 1..5, 1 left
{ "${ "${ ] ( }" }" } ⇒ 1:1 1..9, 1 left
a {} ⇒ 4 left
{ a ⇒ 3 left
{ ( } ⇒ 4 left
{ ( ] } ⇒ 5 left
{ a } { ) } ⇒ 1:1 1..2, 4 left
{ "${ } } }" '}' } ⇒ 1:1 1..5, 1 left
"#;

#[test]
fn reads_closures(rt: HostRuntime) -> Result<(), Fail> {
    let mut misread = String::new(rt.alloc());
    for row in CLOSURES.lines() {
        if !is_right(rt.alloc(), row)? {
            misread.push_str(row)?;
            misread.push_str("\n")?;
        }
    }
    assert_eq!(rt; misread.as_str(), "");
    Ok(())
}

#[test]
fn goes_past_what_comes_next(rt: HostRuntime) -> Result<(), Fail> {
    let list = tokens_of(rt.alloc(), "if (a")?;
    let mut tokens = Tokens {
        rest: list.as_slice(),
        furthest: 9,
    };
    assert!(rt; !tokens.eat(Symbol::LeftParen));
    assert!(rt; !tokens.eat_keyword(Keyword::In));
    assert_eq!(rt; (tokens.rest.len(), tokens.furthest), (4, 9));
    assert_eq!(rt; tokens.expect(Symbol::LeftParen), Err(ReadError::Refused));
    assert_eq!(rt; (tokens.rest.len(), tokens.furthest), (4, 4));
    assert!(rt; tokens.eat_keyword(Keyword::If));
    assert_eq!(rt; tokens.expect_keyword(Keyword::If), Err(ReadError::Refused));
    assert_eq!(rt; (tokens.rest.len(), tokens.furthest), (3, 3));
    assert_eq!(rt; tokens.expect(Symbol::LeftParen), Ok(()));
    assert_eq!(rt; tokens.expect_end(), Err(ReadError::Refused));
    assert_eq!(rt; (tokens.rest.len(), tokens.furthest), (2, 2));
    assert_eq!(rt;
        (tokens.place().column, tokens.kind_behind()),
        (5, TokenKind::End)
    );
    tokens.advance();
    assert_eq!(rt;
        (tokens.kind(), tokens.kind_behind()),
        (TokenKind::End, TokenKind::End)
    );
    assert_eq!(rt; tokens.expect_end(), Ok(()));
    assert_eq!(rt; (tokens.kind(), tokens.place().line), (TokenKind::End, 0));
    assert_eq!(rt; tokens.expect_end(), Err(ReadError::Refused));
    tokens.advance();
    assert_eq!(rt; (tokens.rest.len(), tokens.furthest), (0, 0));
    Ok(())
}

fn is_right(alloc: Global, row: &str) -> Result<bool, Fail> {
    let Some((text, want)) = row.split_once(" ⇒ ") else {
        return Ok(false);
    };
    Ok(shown(alloc, text)?.as_str() == want)
}

/// The closures that a text begins with.
fn shown(alloc: Global, text: &str) -> Result<String, Fail> {
    let list = tokens_of(alloc, text)?;
    let mut tokens = Tokens {
        rest: list.as_slice(),
        furthest: list.len(),
    };
    let mut shown = String::new(alloc);
    let found = closures(alloc, list.len(), Items::new(alloc), &mut tokens)?;
    for arg in found.as_slice() {
        show(arg, &mut shown)?;
    }
    write!(shown, "{} left", tokens.rest.len())?;
    Ok(shown)
}

fn show(arg: &Arg, shown: &mut String) -> Result<(), Fail> {
    if let Arg::Plain(expr) = arg {
        if let Expr::Closure(place, Closure::Unread(from, to)) = expr.get() {
            write!(shown, "{}:{} {from}..{to}, ", place.line, place.column)?;
        }
    }
    Ok(())
}

/// The tokens of a text. None, if the text is refused.
fn tokens_of(alloc: Global, text: &str) -> Result<Vec<Token>, Fail> {
    if text.len() >= 100_000 {
        return Ok(Vec::new(alloc));
    }
    let mut names = Names::new(alloc);
    match lex(alloc, 0, text.as_bytes(), &mut names) {
        Ok(tokens) => Ok(tokens),
        Err(LexError::Refused(_)) => Ok(Vec::new(alloc)),
        Err(LexError::OutOfMemory) => Err(OutOfMemory)?,
    }
}
