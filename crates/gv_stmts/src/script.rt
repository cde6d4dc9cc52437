//! What stands at the top of scripts.

ghost use Rattle.std.specs.Prelude.{◌≡◌, List, MatchBool};
ghost use Rattle.gv_lex.specs.declared.token.Token.{Token};
ghost use Rattle.gv_grammar.specs.Tokens.{EatsEnd};
ghost use Rattle.gv_grammar.specs.Scripts.{IsImport, IsTop, AreTops};
ghost use Rattle.gv_cursor.specs.Reading.{Exactly, Stopped};

use crate::classes::{annotations, begins_method, class, dotted, method, modifiers};
use gv_blocks::{read_decl, read_stmt, separates};
use gv_cursor::{ReadError, Tokens};
use gv_lex::{Token, TokenKind};
use gv_spelling::{Keyword, Symbol};
use gv_tree::{Import, Top};
use sqlite_items::Items;
use std::alloc::Global;

/// Goes past the end of the list, if that comes next.
fn eat_end(cursor: &mut Tokens<'_>) -> bool
    ensures { MatchBool result (EatsEnd cursor.old.rest.now cursor.new.rest.now) ((cursor.new.rest.now ≡ cursor.old.rest.now) × ((after : List Token) → EatsEnd cursor.old.rest.now after → ⊥)) }
{
    if cursor.rest.is_empty() {
        return false;
    }
    if matches!(cursor.kind(), TokenKind::End) {
        cursor.advance();
        return true;
    }
    false
}

fn import(alloc: Global, cursor: &mut Tokens<'_>) -> Result<Import, ReadError>
    ensures { Exactly (Stopped IsImport) result cursor.old.rest.now cursor.new.rest.now }
{
    let place = cursor.place();
    cursor.expect_keyword(Keyword::Import)?;
    let path = dotted(alloc, cursor)?;
    let is_all = cursor.eat(Symbol::DotStar);
    cursor.expect_stop()?;
    Ok(Import {
        place,
        path,
        is_all,
    })
}

/// What stands at the top of a script.
fn top(alloc: Global, tokens: &[Token], cursor: &mut Tokens<'_>) -> Result<Top, ReadError>
    ensures { Exactly (Stopped (IsTop tokens.now)) result cursor.old.rest.now cursor.new.rest.now }
{
    if cursor.sees_keyword(Keyword::Import) {
        return Ok(Top::Import(import(alloc, cursor)?));
    }
    let before = cursor.rest;
    let annotations = annotations(alloc, tokens, cursor)?;
    let start = cursor.rest;
    let modifiers = modifiers(cursor);
    if cursor.sees_keyword(Keyword::Class) {
        let class = class(alloc, tokens, annotations, modifiers, cursor)?;
        cursor.expect_stop()?;
        return Ok(Top::Class(class));
    }
    if begins_method(cursor) {
        let method = method(alloc, tokens, annotations, modifiers, cursor)?;
        cursor.expect_stop()?;
        return Ok(Top::Method(method));
    }
    if annotations.is_empty() {
        cursor.rest = before;
        return Ok(Top::Stmt(read_stmt(alloc, tokens, cursor)?));
    }
    cursor.rest = start;
    Ok(Top::Decl(annotations, read_decl(alloc, tokens, cursor)?))
}

/// All that stands at the top of a script, and the end of the list.
pub fn tops(
    alloc: Global,
    tokens: &[Token],
    cursor: &mut Tokens<'_>,
) -> Result<Items<Top>, ReadError>
    ensures { Exactly (AreTops tokens.now) result cursor.old.rest.now cursor.new.rest.now }
{
    let mut tops = Items::new(alloc);
    loop {
        while separates(cursor) {}
        if eat_end(cursor) {
            return Ok(tops);
        }
        tops.push(top(alloc, tokens, cursor)?)?;
        if eat_end(cursor) {
            return Ok(tops);
        }
        if !separates(cursor) {
            return Err(cursor.refuse());
        }
    }
}
