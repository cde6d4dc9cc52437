//! Texts, and how much of each is the longest expression that gv_exprs reads; one tree.

use gv_base::{Names, OutOfMemory};
use gv_exprs::{ParseError, parse_expr};
use gv_lex::{LexError, Token, lex};
use std::alloc::Global;
use std::fmt::Write;
use std::test::Fail;

/// A `‖` stands before the token behind the longest expression; a `†`, where none begins, before the
/// token that is refused.
const TEXTS: &str = r#"a‖
a + b * c‖
a ‖+ )
a - b - c ‖d
a < b ‖< c
a..b‖..<c
a == b != c‖
!a && -b || ++c‖
a in b ‖instanceof C
a as C ‖as D
a instanceof int ‖+ 1
a ‖as b
a ? b : c ? d : e‖
a ‖? b ]
a ?: b ?: c‖
a = b = c‖
a.b += 1‖
a + b ‖= c
f() ‖= 1
a[1, 2].b++ ‖c
a.b?.c*.d.&e.@f‖.@1
a.class.'x y'."z$b"‖
f(1, x: 2, *y, *:z) { a } { b } ‖c
f‖(
f‖(a,)
f‖(a b)
f ‖{ { ( ] } } [1]
1 ‖{ a }
new T(1).new‖
new T†
new †t(1)
[]‖
[:]‖
[1, *a, ]‖
[a: 1, 'b': 2, (c): 3, 4: 5, 6L: 7, "d$e": 8, *:f]‖
[a, b: 1†]
[a: 1, b†]
[1 †2]
[†,]
[:†a]
(a) ‖+ (b
"a$b.c.d${e}f${-> g}"‖
"a${b †c}"
"${†}"
null + true + false + this + super‖
†)
†if
"#;

#[test]
fn reads_the_longest(rt: HostRuntime) -> Result<(), Fail> {
    let mut misread = String::new(rt.alloc());
    for row in TEXTS.lines() {
        if !is_right(rt.alloc(), row)? {
            misread.push_str(row)?;
            misread.push_str("\n")?;
        }
    }
    assert_eq!(rt; misread.as_str(), "");
    Ok(())
}

#[test]
fn gives_the_tree(rt: HostRuntime) -> Result<(), Fail> {
    let tokens = tokens_of(rt.alloc(), "1 - 2")?;
    if tokens.is_empty() {
        return Ok(());
    }
    let mut shown = String::new(rt.alloc());
    match parse_expr(rt.alloc(), tokens.as_slice(), 0) {
        Ok((expr, next)) => write!(shown, "{next} {expr:?}")?,
        Err(_) => {}
    }
    assert_eq!(rt;
        shown.as_str(),
        "3 Binary(Place { file: 0, line: 1, column: 3 }, Minus, Boxed { inner: Atom(Place { file: 0, line: 1, column: 1 }, Int(1)) }, Boxed { inner: Atom(Place { file: 0, line: 1, column: 5 }, Int(2)) })"
    );
    Ok(())
}

fn is_right(alloc: Global, row: &str) -> Result<bool, Fail> {
    match row.split_once("‖") {
        Some((before, behind)) => {
            Ok(read(alloc, before, behind)? == Some((true, before.chars().count())))
        }
        None => match row.split_once("†") {
            Some((before, behind)) => {
                Ok(read(alloc, before, behind)? == Some((false, before.chars().count())))
            }
            None => Ok(false),
        },
    }
}

/// Whether an expression is at the front of a text, and how many characters stand before the token
/// behind it, or before the one that is refused.
fn read(alloc: Global, before: &str, behind: &str) -> Result<Option<(bool, usize)>, Fail> {
    let mut text = String::new(alloc);
    text.push_str(before)?;
    text.push_str(behind)?;
    let tokens = tokens_of(alloc, text.as_str())?;
    if tokens.is_empty() {
        return Ok(None);
    }
    match parse_expr(alloc, tokens.as_slice(), 0) {
        Ok((_, next)) => match tokens.get(next) {
            Some(token) => Ok(Some((true, (token.place.column as usize).saturating_sub(1)))),
            None => Ok(None),
        },
        Err(ParseError::Refused(refusal)) => Ok(Some((
            false,
            (refusal.place.column as usize).saturating_sub(1),
        ))),
        Err(ParseError::OutOfMemory) => Err(OutOfMemory)?,
    }
}

/// The tokens of a text. None, if the text is refused.
fn tokens_of(alloc: Global, text: &str) -> Result<Vec<Token>, Fail> {
    if text.len() >= 100_000 {
        return Ok(Vec::new(alloc));
    }
    let mut names = Names::new(alloc);
    match lex(alloc, 0, text.as_bytes(), &mut names) {
        Ok(tokens) => Ok(tokens),
        Err(LexError::Refused(_)) => Ok(Vec::new(alloc)),
        Err(LexError::OutOfMemory) => Err(OutOfMemory)?,
    }
}
