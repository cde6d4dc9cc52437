//! What a script says.

ghost use Rattle.std.specs.Prelude.{◌≡◌, IfOk, OnOk};
ghost use Rattle.gv_tree.specs.declared.expr.Expr.{out-Expr};
ghost use Rattle.gv_tree.specs.declared.stmt.Decl.{out-Decl};
ghost use Rattle.gv_tree.specs.declared.stmt.Stmt.{out-Stmt};
ghost use Rattle.gv_events.specs.Events as spec;

use crate::event::{Event, Scope};
use crate::names::constructor_in;
use crate::reader::Reader;
use crate::types::{answer, written};
use crate::words::Words;
use gv_base::OutOfMemory;
use gv_tree::{ClassTree, Constructor, Expr, Member, Method, Script, Stmt, Top, Var, VarType};
use sqlite_items::{Boxed, Items};
use std::alloc::Global;

/// As deep as the trees of the grammar may be: three levels for each of the 300 that may be open at a place, and some.
pub const MOST_LEVELS: u32 = 1000;

/// What a script says, in reading order; its own statements come first.
pub fn events_of(alloc: Global, words: Words, script: &Script) -> Result<Items<Event>, OutOfMemory>
    ensures { IfOk result (λ events. events ≡ spec.events_of words script.now) }
{
    let reader = Reader { it: words.it };
    let mut out = Items::new(alloc);
    out.push(Event::Open(Scope::Script))?;
    reader.statements(MOST_LEVELS, words, script.tops.as_slice(), &mut out)?;
    out.push(Event::Close)?;
    reader.others(MOST_LEVELS, words, script.tops.as_slice(), &mut out)?;
    Ok(out)
}

impl Reader {
    fn statements(
        &self,
        levels: u32,
        words: Words,
        tops: &[Top],
        out: &mut Items<Event>,
    ) -> Result<(), OutOfMemory>
        ensures { OnOk result (out.new ≡ spec.each (spec.statement_said self.now.it (spec.expr_said self.now.it levels) (spec.stmt_said self.now.it levels) words) tops.now out.old) }
    {
        for top in tops {
            self.statement(levels, words, top, out)?;
        }
        Ok(())
    }

    fn statement(
        &self,
        levels: u32,
        words: Words,
        top: &Top,
        out: &mut Items<Event>,
    ) -> Result<(), OutOfMemory>
        ensures { OnOk result (out.new ≡ spec.statement_said self.now.it (spec.expr_said self.now.it levels) (spec.stmt_said self.now.it levels) words top.now out.old) }
    {
        match top {
            Top::Stmt(stmt) => self.stmt(levels, stmt, out),
            Top::Decl(annotations, decl) => {
                if words.has_field(annotations.as_slice()) {
                    Ok(())
                } else {
                    self.decl(levels, decl, out)
                }
            }
            _ => Ok(()),
        }
    }

    fn others(
        &self,
        levels: u32,
        words: Words,
        tops: &[Top],
        out: &mut Items<Event>,
    ) -> Result<(), OutOfMemory>
        ensures { OnOk result (out.new ≡ spec.each (spec.other_said self.now.it (spec.expr_said self.now.it levels) (spec.stmt_said self.now.it levels) words) tops.now out.old) }
    {
        for top in tops {
            self.other(levels, words, top, out)?;
        }
        Ok(())
    }

    fn other(
        &self,
        levels: u32,
        words: Words,
        top: &Top,
        out: &mut Items<Event>,
    ) -> Result<(), OutOfMemory>
        ensures { OnOk result (out.new ≡ spec.other_said self.now.it (spec.expr_said self.now.it levels) (spec.stmt_said self.now.it levels) words top.now out.old) }
    {
        match top {
            Top::Class(class) => self.class(levels, class, out),
            Top::Method(method) => self.method(levels, method, out),
            Top::Decl(annotations, decl) => {
                if words.has_field(annotations.as_slice()) {
                    self.field(levels, false, decl.written, decl.vars.as_slice(), out)
                } else {
                    Ok(())
                }
            }
            _ => Ok(()),
        }
    }

    fn class(
        &self,
        levels: u32,
        class: &ClassTree,
        out: &mut Items<Event>,
    ) -> Result<(), OutOfMemory>
        ensures { OnOk result (out.new ≡ spec.class_said self.now.it (spec.expr_said self.now.it levels) (spec.stmt_said self.now.it levels) class.now out.old) }
    {
        out.push(Event::OpenClass(class.ident))?;
        self.members(levels, class.members.as_slice(), out)?;
        out.push(Event::CloseClass)?;
        Ok(())
    }

    fn members(
        &self,
        levels: u32,
        members: &[Member],
        out: &mut Items<Event>,
    ) -> Result<(), OutOfMemory>
        ensures { OnOk result (out.new ≡ spec.each (spec.class_member_said self.now.it (spec.expr_said self.now.it levels) (spec.stmt_said self.now.it levels)) members.now out.old) }
    {
        for member in members {
            self.member(levels, member, out)?;
        }
        Ok(())
    }

    fn member(
        &self,
        levels: u32,
        member: &Member,
        out: &mut Items<Event>,
    ) -> Result<(), OutOfMemory>
        ensures { OnOk result (out.new ≡ spec.class_member_said self.now.it (spec.expr_said self.now.it levels) (spec.stmt_said self.now.it levels) member.now out.old) }
    {
        match member {
            Member::Method(method) => self.method(levels, method, out),
            Member::Constructor(constructor) => self.constructor(levels, constructor, out),
            Member::Field(field) => self.field(
                levels,
                field.modifiers.is_static,
                field.written,
                field.vars.as_slice(),
                out,
            ),
        }
    }

    fn method(
        &self,
        levels: u32,
        method: &Method,
        out: &mut Items<Event>,
    ) -> Result<(), OutOfMemory>
        ensures { OnOk result (out.new ≡ spec.method_said self.now.it (spec.expr_said self.now.it levels) (spec.stmt_said self.now.it levels) method.now out.old) }
    {
        answer(method.answer, out)?;
        out.push(Event::Open(method_scope(method.modifiers.is_static)))?;
        self.params(levels, method.params.as_slice(), out)?;
        self.stmts(levels, method.body.as_slice(), out)?;
        out.push(Event::Close)?;
        Ok(())
    }

    fn constructor(
        &self,
        levels: u32,
        constructor: &Constructor,
        out: &mut Items<Event>,
    ) -> Result<(), OutOfMemory>
        ensures { OnOk result (out.new ≡ spec.constructor_said self.now.it (spec.expr_said self.now.it levels) (spec.stmt_said self.now.it levels) constructor.now out.old) }
    {
        out.push(Event::Open(Scope::Constructor))?;
        self.params(levels, constructor.params.as_slice(), out)?;
        self.constructed(levels, constructor.body.as_slice(), out)?;
        out.push(Event::Close)?;
        Ok(())
    }

    // The statements of a constructor.
    fn constructed(
        &self,
        levels: u32,
        stmts: &[Stmt],
        out: &mut Items<Event>,
    ) -> Result<(), OutOfMemory>
        ensures { OnOk result (out.new ≡ spec.constructed_said self.now.it (spec.expr_said self.now.it levels) (spec.stmt_said self.now.it levels) stmts.now out.old) }
    {
        match stmts {
            [first, rest @ ..] => {
                self.first_stmt(levels, first, out)?;
                self.stmts(levels, rest, out)
            }
            [] => Ok(()),
        }
    }

    // The statement that begins a constructor.
    fn first_stmt(
        &self,
        levels: u32,
        stmt: &Stmt,
        out: &mut Items<Event>,
    ) -> Result<(), OutOfMemory>
        ensures { OnOk result (out.new ≡ spec.first_stmt_said self.now.it (spec.expr_said self.now.it levels) (spec.stmt_said self.now.it levels) stmt.now (out-Stmt stmt.now) out.old) }
    {
        match stmt {
            Stmt::Expr(x) => self.first_expr(levels, x.get(), out),
            _ => self.stmt(levels, stmt, out),
        }
    }

    fn first_expr(&self, levels: u32, x: &Expr, out: &mut Items<Event>) -> Result<(), OutOfMemory>
        ensures { OnOk result (out.new ≡ spec.first_expr_said self.now.it (spec.expr_said self.now.it levels) (spec.stmt_said self.now.it levels) x.now (out-Expr x.now) out.old) }
    {
        match x {
            Expr::Call(_, callee, args) => match constructor_in(callee.get()) {
                Some(_) => self.args(levels, args.as_slice(), out),
                None => self.expr(levels, x, out),
            },
            _ => self.expr(levels, x, out),
        }
    }

    fn field(
        &self,
        levels: u32,
        is_static: bool,
        class: VarType,
        vars: &[Var],
        out: &mut Items<Event>,
    ) -> Result<(), OutOfMemory>
        ensures { OnOk result (out.new ≡ spec.field_said self.now.it (spec.expr_said self.now.it levels) (spec.stmt_said self.now.it levels) is_static class vars.now out.old) }
    {
        written(class, out)?;
        out.push(Event::Open(field_scope(is_static)))?;
        self.initials(levels, vars, out)?;
        out.push(Event::Close)?;
        Ok(())
    }

    fn initials(&self, levels: u32, vars: &[Var], out: &mut Items<Event>) -> Result<(), OutOfMemory>
        ensures { OnOk result (out.new ≡ spec.each (spec.field_var_said self.now.it (spec.expr_said self.now.it levels) (spec.stmt_said self.now.it levels)) vars.now out.old) }
    {
        for var in vars {
            self.maybe_expr(levels, &var.initial, out)?;
        }
        Ok(())
    }
}

fn method_scope(is_static: bool) -> Scope
    ensures { result ≡ spec.method_scope is_static }
{
    if is_static {
        Scope::StaticMethod
    } else {
        Scope::Method
    }
}

fn field_scope(is_static: bool) -> Scope
    ensures { result ≡ spec.field_scope is_static }
{
    if is_static {
        Scope::StaticField
    } else {
        Scope::Field
    }
}
