//! The strings of a script.

ghost use Rattle.std.specs.Prelude.{◌≡◌, [], IfOk, OnOk};
ghost use Rattle.groovy_cli.specs.Program.{texts_behind, with_text};

use gv_base::{Name, OutOfMemory};
use gv_lex::{Token, TokenKind};
use indexmap::IndexSet;
use std::alloc::Global;

/// The names of the texts of strings, each once, in the order in which they come.
pub fn texts_of(alloc: Global, tokens: &[Token]) -> Result<IndexSet<Name>, OutOfMemory>
    ensures { IfOk result (λ texts. texts.keys ≡ texts_behind [] tokens.now) }
{
    let mut texts = IndexSet::new(alloc);
    for token in tokens {
        put_text(&mut texts, token.kind)?;
    }
    Ok(texts)
}

fn put_text(texts: &mut IndexSet<Name>, token: TokenKind) -> Result<(), OutOfMemory>
    ensures { OnOk result (texts.new.keys ≡ with_text texts.old.keys token) }
{
    if let TokenKind::Text(_, name) = token {
        texts.insert(name)?;
    }
    Ok(())
}
