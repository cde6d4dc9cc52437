//! A statement, by its first tokens.

ghost use Rattle.std.specs.Prelude.{◌≤◌, length};
ghost use Rattle.gv_spelling.specs.declared.kinds.Keyword.{Keyword};
ghost use Rattle.gv_spelling.specs.declared.kinds.Keyword.TheVariants as keyword;
ghost use Rattle.gv_grammar.specs.Stmts.{IsStmt};
ghost use Rattle.gv_cursor.specs.Reading.{Exactly, Stopped};
ghost use Rattle.gv_decls.specs.Phrases.{NextIs};
ghost use Rattle.gv_blocks.specs.Nests.{Knot};

use crate::reader::{Blocks, Inner, Nested};
use gv_cursor::{ReadError, Tokens};
use gv_decls::{begins_typed, is_left_paren};
use gv_lex::{Token, TokenKind, Word};
use gv_spelling::{Keyword, Symbol};
use gv_tree::{Closure, Stmt};
use sqlite_items::Boxed;
use std::alloc::Global;

impl<
    'a,
    F: Fn(Global, &[Token], Inner, &mut Tokens<'_>) -> Result<Nested, ReadError>,
    G: Fn(Global, &[Token], usize, usize, &mut usize) -> Result<Closure, ReadError> + Copy,
> Blocks<'a, F, G> {
    /// A statement, before a token with which no expression goes on.
    pub fn stmt(&self, cursor: &mut Tokens<'_>) -> Result<Stmt, ReadError>
        requires knot { Knot self.now.values.below (F.pre self.now.nested) (F.post self.now.nested) (G.pre self.now.values.body) (G.post self.now.values.body) }
        requires within { length cursor.old.rest.now ≤ self.now.values.below }
        ensures { Exactly (Stopped (IsStmt self.now.values.tokens.now)) result cursor.old.rest.now cursor.new.rest.now }
    {
        match cursor.kind() {
            TokenKind::Word(Word::Keyword(keyword), _) => self.keyword_stmt(keyword, cursor),
            _ => self.other_stmt(cursor),
        }
    }

    /// A statement that begins with no keyword.
    fn other_stmt(&self, cursor: &mut Tokens<'_>) -> Result<Stmt, ReadError>
        requires knot { Knot self.now.values.below (F.pre self.now.nested) (F.post self.now.nested) (G.pre self.now.values.body) (G.post self.now.values.body) }
        requires within { length cursor.old.rest.now ≤ self.now.values.below }
        requires no_keyword { (k : Keyword) → NextIs k cursor.old.rest.now → ⊥ }
        ensures { Exactly (Stopped (IsStmt self.now.values.tokens.now)) result cursor.old.rest.now cursor.new.rest.now }
    {
        if cursor.sees(Symbol::LeftBrace) {
            return Err(cursor.refuse());
        }
        if begins_typed(cursor) {
            return Ok(Stmt::Decl(self.values.decl(cursor)?));
        }
        Ok(Stmt::Expr(Boxed::new(self.values.alloc, self.values.full_value(cursor)?)?))
    }

    fn keyword_stmt(&self, keyword: Keyword, cursor: &mut Tokens<'_>) -> Result<Stmt, ReadError>
        requires knot { Knot self.now.values.below (F.pre self.now.nested) (F.post self.now.nested) (G.pre self.now.values.body) (G.post self.now.values.body) }
        requires within { length cursor.old.rest.now ≤ self.now.values.below }
        requires next { NextIs keyword cursor.old.rest.now }
        ensures { Exactly (Stopped (IsStmt self.now.values.tokens.now)) result cursor.old.rest.now cursor.new.rest.now }
    {
        match keyword {
            Keyword::Def => self.def_stmt(cursor),
            Keyword::Final | Keyword::Int | Keyword::Long | Keyword::Boolean => {
                Ok(Stmt::Decl(self.values.decl(cursor)?))
            }
            Keyword::If => self.if_stmt(cursor),
            Keyword::While => self.while_stmt(cursor),
            Keyword::For => self.for_stmt(cursor),
            Keyword::Switch => self.switch_stmt(cursor),
            Keyword::Try => self.try_stmt(cursor),
            Keyword::Throw => self.values.throw_stmt(cursor),
            Keyword::Return => self.values.return_stmt(cursor),
            Keyword::Break => self.values.break_stmt(cursor),
            Keyword::Continue => self.values.continue_stmt(cursor),
            Keyword::Assert => self.values.assert_stmt(cursor),
            _ => Ok(Stmt::Expr(Boxed::new(self.values.alloc, self.values.full_value(cursor)?)?)),
        }
    }

    fn def_stmt(&self, cursor: &mut Tokens<'_>) -> Result<Stmt, ReadError>
        requires knot { Knot self.now.values.below (F.pre self.now.nested) (F.post self.now.nested) (G.pre self.now.values.body) (G.post self.now.values.body) }
        requires within { length cursor.old.rest.now ≤ self.now.values.below }
        requires next { NextIs keyword.Def cursor.old.rest.now }
        ensures { Exactly (Stopped (IsStmt self.now.values.tokens.now)) result cursor.old.rest.now cursor.new.rest.now }
    {
        if is_left_paren(cursor.kind_behind()) {
            return self.values.multiple(cursor);
        }
        Ok(Stmt::Decl(self.values.decl(cursor)?))
    }
}
