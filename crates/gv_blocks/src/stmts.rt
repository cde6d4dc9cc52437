//! Statements one behind another, closures, and how readers carry one another.

ghost use Rattle.std.specs.Prelude.{◌≤◌, length};
ghost use Rattle.gv_grammar.specs.Stmts.{AreStmts, IsBodyOf};
ghost use Rattle.gv_cursor.specs.Reading.{Exactly};
ghost use Rattle.gv_fill.specs.Filled.{ReadsBody};
ghost use Rattle.gv_blocks.specs.Nests.{Knot, IsNested};

use crate::reader::{Blocks, Inner, Nested};
use crate::words::{ends_stmts, has_arrow, separates};
use gv_cursor::{ReadError, Tokens};
use gv_decls::Values;
use gv_lex::Token;
use gv_spelling::Symbol;
use gv_tree::{Closure, Stmt};
use sqlite_items::Items;
use std::alloc::Global;

impl<
    'a,
    F: Fn(Global, &[Token], Inner, &mut Tokens<'_>) -> Result<Nested, ReadError>,
    G: Fn(Global, &[Token], usize, usize, &mut usize) -> Result<Closure, ReadError> + Copy,
> Blocks<'a, F, G> {
    /// Statements and what stands between them, up to what ends them.
    pub fn stmts(&self, cursor: &mut Tokens<'_>) -> Result<Items<Stmt>, ReadError>
        requires knot { Knot self.now.values.below (F.pre self.now.nested) (F.post self.now.nested) (G.pre self.now.values.body) (G.post self.now.values.body) }
        requires within { length cursor.old.rest.now ≤ self.now.values.below }
        ensures { Exactly (AreStmts self.now.values.tokens.now) result cursor.old.rest.now cursor.new.rest.now }
    {
        let mut stmts = Items::new(self.values.alloc);
        loop {
            while separates(cursor) {}
            if ends_stmts(cursor.kind()) {
                return Ok(stmts);
            }
            stmts.push(self.stmt(cursor)?)?;
            if ends_stmts(cursor.kind()) {
                return Ok(stmts);
            }
            if !separates(cursor) {
                return Err(cursor.refuse());
            }
        }
    }

    /// What stands between the braces of a closure.
    fn closure_of(&self, cursor: &mut Tokens<'_>) -> Result<Closure, ReadError>
        requires knot { Knot self.now.values.below (F.pre self.now.nested) (F.post self.now.nested) (G.pre self.now.values.body) (G.post self.now.values.body) }
        requires within { length cursor.old.rest.now ≤ self.now.values.below }
        ensures { Exactly (IsBodyOf self.now.values.tokens.now) result cursor.old.rest.now cursor.new.rest.now }
    {
        if !has_arrow(cursor.rest) {
            return Ok(Closure::Read(None, self.stmts(cursor)?));
        }
        let params = self.values.params(Symbol::Arrow, cursor)?;
        Ok(Closure::Read(Some(params), self.stmts(cursor)?))
    }
}

/// Reads what is nested in statements.
#[cycle(readers)]
pub fn top(
    alloc: Global,
    tokens: &[Token],
    which: Inner,
    cursor: &mut Tokens<'_>,
) -> Result<Nested, ReadError>
    ensures { Exactly (IsNested tokens.now which) result cursor.old.rest.now cursor.new.rest.now }
{
    let blocks = Blocks {
        values: Values {
            alloc,
            tokens,
            below: cursor.rest.len(),
            body,
        },
        nested: top,
    };
    match which {
        Inner::Stmts => Ok(Nested::Stmts(blocks.stmts(cursor)?)),
        Inner::Stmt => Ok(Nested::Stmt(blocks.stmt(cursor)?)),
    }
}

/// Reads the tokens between two places of a list as those of a closure. Where that is refused,
/// `furthest` is the least number of tokens that were left.
#[cycle(readers)]
pub fn body(
    alloc: Global,
    tokens: &[Token],
    from: usize,
    to: usize,
    furthest: &mut usize,
) -> Result<Closure, ReadError>
    requires ordered { from ≤ to }
    requires inside { to ≤ length tokens.now }
    ensures { ReadsBody tokens.now from to result }
{
    let (_, rest) = tokens.split_at(from);
    let mut cursor = Tokens {
        rest,
        furthest: *furthest,
    };
    let blocks = Blocks {
        values: Values {
            alloc,
            tokens,
            below: rest.len(),
            body,
        },
        nested: top,
    };
    let read = blocks.closure_of(&mut cursor);
    let is_whole = cursor.rest.len() == tokens.len() - to;
    if !is_whole {
        cursor.refuse();
    }
    *furthest = cursor.furthest;
    match read {
        Ok(closure) => {
            if is_whole {
                Ok(closure)
            } else {
                Err(ReadError::Refused)
            }
        }
        Err(error) => Err(error),
    }
}
