mod closures;
mod exprs;
mod page;
mod signs;
mod stmts;
mod strings;
mod tops;

use gv_base::{Names, OutOfMemory};
use gv_lex::{LexError, lex};
use gv_print::print_tree;
use gv_stmts::{ParseError, parse};
use std::alloc::{AllocError, Global};
use std::test::Fail;

/// The text of a script's tree; `?` where it has none.
fn printed(alloc: Global, script: &str) -> Result<String, Fail> {
    let mut names = Names::new(alloc);
    if script.len() >= 100_000 {
        return Ok(String::from_str(alloc, "?")?);
    }
    let tokens = match lex(alloc, 0, script.as_bytes(), &mut names) {
        Ok(tokens) => tokens,
        Err(LexError::Refused(_)) => return Ok(String::from_str(alloc, "?")?),
        Err(LexError::OutOfMemory) => return Err(OutOfMemory)?,
    };
    match parse(alloc, tokens.as_slice()) {
        Ok(tree) => Ok(print_tree(alloc, &tree, &names)?),
        Err(ParseError::Refused(_)) => Ok(String::from_str(alloc, "?")?),
        Err(ParseError::OutOfMemory) => Err(OutOfMemory)?,
    }
}

fn with_line_ends(alloc: Global, text: &str) -> Result<String, AllocError> {
    let mut lines = String::new(alloc);
    for character in text.chars() {
        lines.push(if character == '⏎' { '\n' } else { character })?;
    }
    Ok(lines)
}

/// What is printed in place of the text that a row wants, and what that prints.
fn misprinted(alloc: Global, row: &str) -> Result<Option<(String, String)>, Fail> {
    let Some((script, wanted)) = row.split_once(" ⇒ ") else {
        return Ok(Some((String::new(alloc), String::new(alloc))));
    };
    let script = with_line_ends(alloc, script)?;
    let mut wanted = with_line_ends(alloc, wanted)?;
    wanted.push('\n')?;
    let text = printed(alloc, script.as_str())?;
    let again = printed(alloc, text.as_str())?;
    if text == wanted && again == wanted {
        Ok(None)
    } else {
        Ok(Some((text, again)))
    }
}

/// The rows of a table whose script prints something else, with what it prints, and what that prints.
fn wrong(alloc: Global, table: &str) -> Result<String, Fail> {
    let mut wrong = String::new(alloc);
    for row in table.split('\n') {
        if let Some((text, again)) = misprinted(alloc, row)? {
            wrong.push_str(row)?;
            wrong.push_str("\nprints\n")?;
            wrong.push_str(text.as_str())?;
            wrong.push_str("and that\n")?;
            wrong.push_str(again.as_str())?;
        }
    }
    Ok(wrong)
}
