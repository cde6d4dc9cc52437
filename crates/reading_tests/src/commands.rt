//! Texts, how much of each is a full expression, and the expression with parentheses that it stands for.

use gv_base::{Names, OutOfMemory, Place};
use gv_commands::read_full;
use gv_cursor::{ReadError, Tokens, refusal_at};
use gv_exprs::read_expr;
use gv_lex::{LexError, Token, lex};
use gv_tree::Expr;
use std::alloc::Global;
use std::fmt::Write;
use std::test::Fail;

/// A `‖` stands before the token behind the full expression, and what the text means behind the `⇒`; a
/// `†`, where there is none, before the token that is refused.
const TEXTS: &str = r#"a b‖ ⇒ a(b)
a b, c‖ ⇒ a(b, c)
a b c‖ ⇒ a(b).c
a b c d‖ ⇒ a(b).c(d)
a b c d, 1 e‖ ⇒ a(b).c(d, 1).e
a b c d e f‖; g ⇒ a(b).c(d).e(f)
a(b) c‖ ⇒ a(b).c
a(b) c d ‖) ⇒ a(b).c(d)
a b c(d) e‖ ⇒ a(b).c(d).e
a b(c) d‖ ⇒ a(b(c)).d
a.b c‖ ⇒ a.b(c)
a?.b 1‖ ⇒ a?.b(1)
a.b(c).d e‖ ⇒ a.b(c).d(e)
a x: 1, y: b‖ ⇒ a(x: 1, y: b)
a 1, 'x': 2, "y$b": 3‖ ⇒ a(1, 'x': 2, "y$b": 3)
a b: 1 c‖ ⇒ a(b: 1).c
a b + c * d‖ ⇒ a(b + c * d)
a b ? c : d‖ ⇒ a(b ? c : d)
a !b‖ ⇒ a(!b)
a new T(b)‖ ⇒ a(new T(b))
a this, "x$b" c‖ ⇒ a(this, "x$b").c
a { b } c‖ ⇒ a { b }.c
x = a b‖ ⇒ x = a(b)
x.y += z = a b c‖ ⇒ x.y += z = a(b).c
a + b‖ ⇒ a + b
a -1‖ ⇒ a - 1
a [1]‖ ⇒ a[1]
a (b)‖ ⇒ a(b)
a b c‖: 1 ⇒ a(b).c
a 1 ‖2 ⇒ a(1)
1 †a
(a) †b
a b,†
a b †= c
a b c†.d
a b, x: †)
a "x" + b†: c
a() †= b
a =†
†)
"#;

#[test]
fn reads_commands(rt: HostRuntime) -> Result<(), Fail> {
    let mut misread = String::new(rt.alloc());
    for row in TEXTS.lines() {
        if !is_right(rt.alloc(), row)? {
            misread.push_str(row)?;
            misread.push_str("\n")?;
        }
    }
    assert_eq!(rt; misread.as_str(), "");
    Ok(())
}

fn is_right(alloc: Global, row: &str) -> Result<bool, Fail> {
    match row.split_once(" ⇒ ") {
        Some((text, meant)) => match text.split_once("‖") {
            Some((before, behind)) => reads_as(alloc, before, behind, meant),
            None => Ok(false),
        },
        None => match row.split_once("†") {
            Some((before, behind)) => reads_as(alloc, before, behind, ""),
            None => Ok(false),
        },
    }
}

/// Whether a full expression ends between two halves of a text, and its tree is that of an expression;
/// or whether a token there is refused, where no expression is meant.
fn reads_as(alloc: Global, before: &str, behind: &str, meant: &str) -> Result<bool, Fail> {
    let mut names = Names::new(alloc);
    let mut text = String::new(alloc);
    text.push_str(before)?;
    text.push_str(behind)?;
    let (tree, at) = read(alloc, &mut names, text.as_str(), true)?;
    let (want, _) = read(alloc, &mut names, meant, false)?;
    Ok(at == before.chars().count() && tree.as_str() == want.as_str())
}

/// The tree of the full expression, or the longest expression, that a text begins with, and how many
/// characters stand before the token behind it; or nothing, and how many stand before the token that is
/// refused.
fn read(
    alloc: Global,
    names: &mut Names,
    text: &str,
    is_full: bool,
) -> Result<(String, usize), Fail> {
    let tokens = tokens_of(alloc, names, text)?;
    if tokens.is_empty() {
        return Ok((String::new(alloc), 0));
    }
    let mut cursor = Tokens {
        rest: tokens.as_slice(),
        furthest: tokens.len(),
    };
    let found = if is_full {
        read_full(alloc, tokens.len(), &mut cursor)
    } else {
        read_expr(alloc, tokens.len(), &mut cursor)
    };
    match found {
        Ok(expr) => Ok((shown(alloc, &expr)?, characters_before(cursor.place()))),
        Err(ReadError::Refused) => Ok((
            String::new(alloc),
            characters_before(refusal_at(tokens.as_slice(), cursor.furthest).place),
        )),
        Err(ReadError::OutOfMemory) => Err(OutOfMemory)?,
    }
}

/// How many characters stand before a place of the first line.
fn characters_before(place: Place) -> usize {
    (place.column as usize).saturating_sub(1)
}

/// A tree without its places.
fn shown(alloc: Global, expr: &Expr) -> Result<String, Fail> {
    let mut whole = String::new(alloc);
    write!(whole, "{expr:?}")?;
    let mut kept = String::new(alloc);
    for piece in whole.as_str().split('{') {
        if piece.starts_with(" file:") {
            match piece.split_once("}") {
                Some((_, behind)) => kept.push_str(behind)?,
                None => {}
            }
        } else {
            kept.push_str(piece)?;
        }
    }
    Ok(kept)
}

/// The tokens of a text. None, if the text is refused.
fn tokens_of(alloc: Global, names: &mut Names, text: &str) -> Result<Vec<Token>, Fail> {
    if text.len() >= 100_000 {
        return Ok(Vec::new(alloc));
    }
    match lex(alloc, 0, text.as_bytes(), names) {
        Ok(tokens) => Ok(tokens),
        Err(LexError::Refused(_)) => Ok(Vec::new(alloc)),
        Err(LexError::OutOfMemory) => Err(OutOfMemory)?,
    }
}
