//! What scripts and classes are made of, each read by a reader of its own.

ghost use Rattle.std.specs.Prelude.{◌≡◌, ◌⊎◌};
ghost use Rattle.gv_spelling.specs.declared.kinds.Symbol.TheVariants as symbol;
ghost use Rattle.gv_grammar.specs.Stmts.{IsValue, AreParams, IsDecl, AreVars, IsStmt, IsBlock};
ghost use Rattle.gv_cursor.specs.Reading.{Exactly, Stopped};

use crate::reader::Blocks;
use crate::stmts::{body, top};
use gv_cursor::{ReadError, Tokens};
use gv_decls::Values;
use gv_lex::Token;
use gv_spelling::Symbol;
use gv_tree::{Decl, Expr, Param, Stmt, Var};
use sqlite_items::Items;
use std::alloc::Global;

/// Reads an expression with its closures, before a token with which none goes on. `tokens` are the
/// whole list, of which the cursor has the rest. Refused exactly where there is none.
pub fn read_value(
    alloc: Global,
    tokens: &[Token],
    cursor: &mut Tokens<'_>,
) -> Result<Expr, ReadError>
    ensures { Exactly (Stopped (IsValue tokens.now)) result cursor.old.rest.now cursor.new.rest.now }
{
    let values = Values {
        alloc,
        tokens,
        below: cursor.rest.len(),
        body,
    };
    values.value(cursor)
}

/// Reads parameters and the symbol behind them, as `read_value` does.
pub fn read_params(
    alloc: Global,
    tokens: &[Token],
    close: Symbol,
    cursor: &mut Tokens<'_>,
) -> Result<Items<Param>, ReadError>
    requires close { (close ≡ symbol.RightParen) ⊎ (close ≡ symbol.Arrow) }
    ensures { Exactly (AreParams tokens.now close) result cursor.old.rest.now cursor.new.rest.now }
{
    let values = Values {
        alloc,
        tokens,
        below: cursor.rest.len(),
        body,
    };
    values.params(close, cursor)
}

/// Reads a declaration, before a token with which no expression goes on, as `read_value` does.
pub fn read_decl(
    alloc: Global,
    tokens: &[Token],
    cursor: &mut Tokens<'_>,
) -> Result<Decl, ReadError>
    ensures { Exactly (Stopped (IsDecl tokens.now)) result cursor.old.rest.now cursor.new.rest.now }
{
    let values = Values {
        alloc,
        tokens,
        below: cursor.rest.len(),
        body,
    };
    values.decl(cursor)
}

/// Reads declared variables, one or more, before a token with which no expression goes on, as
/// `read_value` does.
pub fn read_vars(
    alloc: Global,
    tokens: &[Token],
    cursor: &mut Tokens<'_>,
) -> Result<Items<Var>, ReadError>
    ensures { Exactly (Stopped (AreVars tokens.now)) result cursor.old.rest.now cursor.new.rest.now }
{
    let values = Values {
        alloc,
        tokens,
        below: cursor.rest.len(),
        body,
    };
    values.vars(cursor)
}

/// Reads a statement, before a token with which no expression goes on, as `read_value` does.
pub fn read_stmt(
    alloc: Global,
    tokens: &[Token],
    cursor: &mut Tokens<'_>,
) -> Result<Stmt, ReadError>
    ensures { Exactly (Stopped (IsStmt tokens.now)) result cursor.old.rest.now cursor.new.rest.now }
{
    let blocks = Blocks {
        values: Values {
            alloc,
            tokens,
            below: cursor.rest.len(),
            body,
        },
        nested: top,
    };
    blocks.stmt(cursor)
}

/// Reads statements in braces, as `read_value` does.
pub fn read_block(
    alloc: Global,
    tokens: &[Token],
    cursor: &mut Tokens<'_>,
) -> Result<Items<Stmt>, ReadError>
    ensures { Exactly (IsBlock tokens.now) result cursor.old.rest.now cursor.new.rest.now }
{
    let blocks = Blocks {
        values: Values {
            alloc,
            tokens,
            below: cursor.rest.len(),
            body,
        },
        nested: top,
    };
    blocks.block(cursor)
}
