//! What expressions and statements say.

ghost use Rattle.std.specs.Prelude.{◌≡◌, OnOk};
ghost use Rattle.gv_tree.specs.declared.expr.Closure.{out-Closure};
ghost use Rattle.gv_tree.specs.declared.expr.Expr.{out-Expr};
ghost use Rattle.gv_tree.specs.declared.expr.Label.{out-Label};
ghost use Rattle.gv_tree.specs.declared.stmt.Stmt.{out-Stmt};
ghost use Rattle.gv_events.specs.Events as spec;

use crate::event::{Event, Scope};
use crate::names::{constructor_in, is_of_this, is_this, super_in};
use crate::types::{maybe_written, type_tree, types, written};
use gv_base::{Name, OutOfMemory, Place};
use gv_tree::{
    Arg, Atom, Case, Catch, Closure, Decl, Entry, Expr, GString, Ident, Item, Key, Label, Param,
    Part, Stmt, Var,
};
use sqlite_items::{Boxed, Items};

/// Reads trees, and puts what they say behind what was said before.
#[derive(Clone, Copy)]
pub(crate) struct Reader {
    /// `it`
    pub(crate) it: Name,
}

impl Reader {
    // An expression, as deep as so many may stand in one another.
    #[cycle(read)]
    pub(crate) fn expr(
        &self,
        levels: u32,
        x: &Expr,
        out: &mut Items<Event>,
    ) -> Result<(), OutOfMemory>
        ensures { OnOk result (out.new ≡ spec.expr_said self.now.it levels x.now out.old) }
    {
        if levels == 0 {
            return Ok(());
        }
        self.expr_in(levels - 1, x, out)
    }

    #[cycle(read)]
    fn expr_in(&self, levels: u32, x: &Expr, out: &mut Items<Event>) -> Result<(), OutOfMemory>
        ensures { OnOk result (out.new ≡ spec.expr_in self.now.it (spec.expr_said self.now.it levels) (spec.stmt_said self.now.it levels) (out-Expr x.now) out.old) }
    {
        match x {
            Expr::Atom(place, atom) => atom_of(*place, *atom, out),
            Expr::GString(_, text) => self.gstring(levels, text, out),
            Expr::Paren(_, inner) => self.expr(levels, inner.get(), out),
            Expr::List(_, items) => self.items(levels, items.as_slice(), out),
            Expr::Map(_, entries) => self.entries(levels, entries.as_slice(), out),
            Expr::Closure(_, closure) => self.closure(levels, closure, out),
            Expr::New(_, class, args) => {
                out.push(Event::Class(*class))?;
                self.args(levels, args.as_slice(), out)
            }
            Expr::Unary(_, _, operand) => self.expr(levels, operand.get(), out),
            Expr::Binary(_, _, left, right) | Expr::Assign(_, _, left, right) => {
                self.expr(levels, left.get(), out)?;
                self.expr(levels, right.get(), out)
            }
            Expr::Typed(_, _, operand, class) => {
                self.expr(levels, operand.get(), out)?;
                type_tree(*class, out)
            }
            Expr::Choice(_, test, first, second) => {
                self.expr(levels, test.get(), out)?;
                self.maybe_expr(levels, first, out)?;
                self.expr(levels, second.get(), out)
            }
            Expr::Member(_, op, receiver, label) => {
                self.expr(levels, receiver.get(), out)?;
                self.label(levels, label, out)?;
                member(is_of_this(*op, receiver.get()), label, out)
            }
            Expr::Field(_, receiver, name) => {
                self.expr(levels, receiver.get(), out)?;
                own(is_this(receiver.get()), *name, out)
            }
            Expr::Index(_, receiver, places) => {
                self.expr(levels, receiver.get(), out)?;
                self.exprs(levels, places.as_slice(), out)
            }
            Expr::Call(_, callee, args) => {
                self.callee(levels, callee.get(), out)?;
                self.args(levels, args.as_slice(), out)
            }
        }
    }

    #[cycle(read)]
    pub(crate) fn maybe_expr(
        &self,
        levels: u32,
        x: &Option<Boxed<Expr>>,
        out: &mut Items<Event>,
    ) -> Result<(), OutOfMemory>
        ensures { OnOk result (out.new ≡ spec.if_there (spec.expr_said self.now.it levels) x.now out.old) }
    {
        match x {
            Some(x) => self.expr(levels, x.get(), out),
            None => Ok(()),
        }
    }

    #[cycle(read)]
    fn exprs(&self, levels: u32, xs: &[Expr], out: &mut Items<Event>) -> Result<(), OutOfMemory>
        ensures { OnOk result (out.new ≡ spec.each (spec.expr_said self.now.it levels) xs.now out.old) }
    {
        for x in xs {
            self.expr(levels, x, out)?;
        }
        Ok(())
    }

    #[cycle(read)]
    fn gstring(
        &self,
        levels: u32,
        text: &GString,
        out: &mut Items<Event>,
    ) -> Result<(), OutOfMemory>
        ensures { OnOk result (out.new ≡ spec.gstring_said self.now.it (spec.expr_said self.now.it levels) (spec.stmt_said self.now.it levels) text.now out.old) }
    {
        self.parts(levels, text.parts.as_slice(), out)
    }

    #[cycle(read)]
    fn parts(&self, levels: u32, parts: &[Part], out: &mut Items<Event>) -> Result<(), OutOfMemory>
        ensures { OnOk result (out.new ≡ spec.each (spec.part_said self.now.it (spec.expr_said self.now.it levels) (spec.stmt_said self.now.it levels)) parts.now out.old) }
    {
        for part in parts {
            self.expr(levels, part.value.get(), out)?;
        }
        Ok(())
    }

    #[cycle(read)]
    fn label(&self, levels: u32, label: &Label, out: &mut Items<Event>) -> Result<(), OutOfMemory>
        ensures { OnOk result (out.new ≡ spec.label_said self.now.it (spec.expr_said self.now.it levels) (spec.stmt_said self.now.it levels) label.now out.old) }
    {
        match label {
            Label::GString(_, text) => self.gstring(levels, text, out),
            _ => Ok(()),
        }
    }

    #[cycle(read)]
    fn key(&self, levels: u32, key: &Key, out: &mut Items<Event>) -> Result<(), OutOfMemory>
        ensures { OnOk result (out.new ≡ spec.key_said self.now.it (spec.expr_said self.now.it levels) (spec.stmt_said self.now.it levels) key.now out.old) }
    {
        match key {
            Key::Label(label) => self.label(levels, label, out),
            _ => Ok(()),
        }
    }

    #[cycle(read)]
    fn items(&self, levels: u32, items: &[Item], out: &mut Items<Event>) -> Result<(), OutOfMemory>
        ensures { OnOk result (out.new ≡ spec.each (spec.item_said self.now.it (spec.expr_said self.now.it levels) (spec.stmt_said self.now.it levels)) items.now out.old) }
    {
        for item in items {
            self.item(levels, item, out)?;
        }
        Ok(())
    }

    #[cycle(read)]
    fn item(&self, levels: u32, item: &Item, out: &mut Items<Event>) -> Result<(), OutOfMemory>
        ensures { OnOk result (out.new ≡ spec.item_said self.now.it (spec.expr_said self.now.it levels) (spec.stmt_said self.now.it levels) item.now out.old) }
    {
        match item {
            Item::Plain(x) | Item::Spread(_, x) => self.expr(levels, x.get(), out),
        }
    }

    #[cycle(read)]
    fn entries(
        &self,
        levels: u32,
        entries: &[Entry],
        out: &mut Items<Event>,
    ) -> Result<(), OutOfMemory>
        ensures { OnOk result (out.new ≡ spec.each (spec.entry_said self.now.it (spec.expr_said self.now.it levels) (spec.stmt_said self.now.it levels)) entries.now out.old) }
    {
        for entry in entries {
            self.entry(levels, entry, out)?;
        }
        Ok(())
    }

    #[cycle(read)]
    fn entry(&self, levels: u32, entry: &Entry, out: &mut Items<Event>) -> Result<(), OutOfMemory>
        ensures { OnOk result (out.new ≡ spec.entry_said self.now.it (spec.expr_said self.now.it levels) (spec.stmt_said self.now.it levels) entry.now out.old) }
    {
        match entry {
            Entry::Keyed(key, x) => {
                self.key(levels, key, out)?;
                self.expr(levels, x.get(), out)
            }
            Entry::Computed(_, key, x) => {
                self.expr(levels, key.get(), out)?;
                self.expr(levels, x.get(), out)
            }
            Entry::Spread(_, x) => self.expr(levels, x.get(), out),
        }
    }

    #[cycle(read)]
    pub(crate) fn args(
        &self,
        levels: u32,
        args: &[Arg],
        out: &mut Items<Event>,
    ) -> Result<(), OutOfMemory>
        ensures { OnOk result (out.new ≡ spec.args_said self.now.it (spec.expr_said self.now.it levels) (spec.stmt_said self.now.it levels) args.now out.old) }
    {
        for arg in args {
            self.arg(levels, arg, out)?;
        }
        Ok(())
    }

    #[cycle(read)]
    fn arg(&self, levels: u32, arg: &Arg, out: &mut Items<Event>) -> Result<(), OutOfMemory>
        ensures { OnOk result (out.new ≡ spec.arg_said self.now.it (spec.expr_said self.now.it levels) (spec.stmt_said self.now.it levels) arg.now out.old) }
    {
        match arg {
            Arg::Plain(x) | Arg::Spread(_, x) | Arg::SpreadMap(_, x) => self.expr(
                levels,
                x.get(),
                out,
            ),
            Arg::Keyed(key, x) => {
                self.key(levels, key, out)?;
                self.expr(levels, x.get(), out)
            }
        }
    }

    // What is called.
    #[cycle(read)]
    fn callee(&self, levels: u32, x: &Expr, out: &mut Items<Event>) -> Result<(), OutOfMemory>
        ensures { OnOk result (out.new ≡ spec.callee_said self.now.it (spec.expr_said self.now.it levels) (spec.stmt_said self.now.it levels) (spec.constructor_in (out-Expr x.now)) x.now (out-Expr x.now) out.old) }
    {
        if let Some(place) = constructor_in(x) {
            out.push(Event::OutOfPlace(place))?;
            return Ok(());
        }
        match x {
            Expr::Member(_, op, receiver, label) => {
                self.receiver(levels, super_in(*op, receiver.get()), receiver.get(), out)?;
                self.label(levels, label, out)
            }
            _ => self.expr(levels, x, out),
        }
    }

    // The receiver of a call.
    #[cycle(read)]
    fn receiver(
        &self,
        levels: u32,
        superclass: Option<Place>,
        x: &Expr,
        out: &mut Items<Event>,
    ) -> Result<(), OutOfMemory>
        ensures { OnOk result (out.new ≡ spec.receiver_said self.now.it (spec.expr_said self.now.it levels) (spec.stmt_said self.now.it levels) superclass x.now out.old) }
    {
        match superclass {
            Some(place) => {
                out.push(Event::SuperCall(place))?;
                Ok(())
            }
            None => self.expr(levels, x, out),
        }
    }

    #[cycle(read)]
    fn param(&self, levels: u32, param: &Param, out: &mut Items<Event>) -> Result<(), OutOfMemory>
        ensures { OnOk result (out.new ≡ spec.param_said self.now.it (spec.expr_said self.now.it levels) (spec.stmt_said self.now.it levels) param.now out.old) }
    {
        if let Some(class) = param.written {
            written(class, out)?;
        }
        self.maybe_expr(levels, &param.initial, out)?;
        out.push(Event::Parameter(param.ident))?;
        Ok(())
    }

    #[cycle(read)]
    pub(crate) fn params(
        &self,
        levels: u32,
        params: &[Param],
        out: &mut Items<Event>,
    ) -> Result<(), OutOfMemory>
        ensures { OnOk result (out.new ≡ spec.each (spec.param_said self.now.it (spec.expr_said self.now.it levels) (spec.stmt_said self.now.it levels)) params.now out.old) }
    {
        for param in params {
            self.param(levels, param, out)?;
        }
        Ok(())
    }

    #[cycle(read)]
    fn closure(
        &self,
        levels: u32,
        closure: &Closure,
        out: &mut Items<Event>,
    ) -> Result<(), OutOfMemory>
        ensures { OnOk result (out.new ≡ spec.closure_said self.now.it (spec.expr_said self.now.it levels) (spec.stmt_said self.now.it levels) closure.now out.old) }
    {
        out.push(Event::Open(Scope::Closure))?;
        self.closure_body(levels, closure, out)?;
        out.push(Event::Close)?;
        Ok(())
    }

    #[cycle(read)]
    fn closure_body(
        &self,
        levels: u32,
        closure: &Closure,
        out: &mut Items<Event>,
    ) -> Result<(), OutOfMemory>
        ensures { OnOk result (out.new ≡ spec.body_in self.now.it (spec.expr_said self.now.it levels) (spec.stmt_said self.now.it levels) (out-Closure closure.now) out.old) }
    {
        match closure {
            Closure::Read(Some(params), stmts) => {
                self.params(levels, params.as_slice(), out)?;
                self.stmts(levels, stmts.as_slice(), out)
            }
            Closure::Read(None, stmts) => {
                out.push(Event::Implicit(self.it))?;
                self.stmts(levels, stmts.as_slice(), out)
            }
            Closure::Unread(_, _) => {
                out.push(Event::Implicit(self.it))?;
                Ok(())
            }
        }
    }

    // A statement, as deep as so many may stand in one another.
    #[cycle(read)]
    pub(crate) fn stmt(
        &self,
        levels: u32,
        stmt: &Stmt,
        out: &mut Items<Event>,
    ) -> Result<(), OutOfMemory>
        ensures { OnOk result (out.new ≡ spec.stmt_said self.now.it levels stmt.now out.old) }
    {
        if levels == 0 {
            return Ok(());
        }
        self.stmt_in(levels - 1, stmt, out)
    }

    #[cycle(read)]
    fn stmt_in(&self, levels: u32, stmt: &Stmt, out: &mut Items<Event>) -> Result<(), OutOfMemory>
        ensures { OnOk result (out.new ≡ spec.stmt_in self.now.it (spec.expr_said self.now.it levels) (spec.stmt_said self.now.it levels) (out-Stmt stmt.now) out.old) }
    {
        match stmt {
            Stmt::Decl(decl) => self.decl(levels, decl, out),
            Stmt::Multiple(_, names, value) => {
                self.expr(levels, value.get(), out)?;
                declare_all(names.as_slice(), out)
            }
            Stmt::Expr(x) | Stmt::Throw(_, x) => self.expr(levels, x.get(), out),
            Stmt::Block(_, stmts) => self.block(levels, stmts.as_slice(), out),
            Stmt::If(_, test, first, second) => {
                self.expr(levels, test.get(), out)?;
                self.branch(levels, first.get(), out)?;
                self.maybe_branch(levels, second, out)
            }
            Stmt::While(_, test, body) => {
                self.expr(levels, test.get(), out)?;
                out.push(Event::Open(Scope::Loop))?;
                self.stmt(levels, body.get(), out)?;
                out.push(Event::Close)?;
                Ok(())
            }
            Stmt::ForIn(_, class, name, value, body) => {
                self.expr(levels, value.get(), out)?;
                out.push(Event::Open(Scope::Loop))?;
                maybe_written(*class, out)?;
                out.push(Event::Declare(*name))?;
                self.branch(levels, body.get(), out)?;
                out.push(Event::Close)?;
                Ok(())
            }
            Stmt::For(_, first, test, step, body) => {
                out.push(Event::Open(Scope::Loop))?;
                self.maybe_stmt(levels, first, out)?;
                self.maybe_expr(levels, test, out)?;
                self.maybe_expr(levels, step, out)?;
                self.branch(levels, body.get(), out)?;
                out.push(Event::Close)?;
                Ok(())
            }
            Stmt::Switch(_, value, cases) => {
                self.expr(levels, value.get(), out)?;
                out.push(Event::Open(Scope::Switch))?;
                self.cases(levels, cases.as_slice(), out)?;
                out.push(Event::Close)?;
                Ok(())
            }
            Stmt::Try(_, stmts, catches, last) => {
                self.block(levels, stmts.as_slice(), out)?;
                self.catches(levels, catches.as_slice(), out)?;
                match last {
                    Some(last) => self.block(levels, last.as_slice(), out),
                    None => Ok(()),
                }
            }
            Stmt::Return(_, value) => self.maybe_expr(levels, value, out),
            Stmt::Leave(place, leave) => {
                out.push(Event::Leave(*place, *leave))?;
                Ok(())
            }
            Stmt::Assert(_, test, message) => {
                self.expr(levels, test.get(), out)?;
                self.maybe_expr(levels, message, out)
            }
        }
    }

    #[cycle(read)]
    fn maybe_stmt(
        &self,
        levels: u32,
        stmt: &Option<Boxed<Stmt>>,
        out: &mut Items<Event>,
    ) -> Result<(), OutOfMemory>
        ensures { OnOk result (out.new ≡ spec.if_there (spec.stmt_said self.now.it levels) stmt.now out.old) }
    {
        match stmt {
            Some(stmt) => self.stmt(levels, stmt.get(), out),
            None => Ok(()),
        }
    }

    #[cycle(read)]
    pub(crate) fn stmts(
        &self,
        levels: u32,
        stmts: &[Stmt],
        out: &mut Items<Event>,
    ) -> Result<(), OutOfMemory>
        ensures { OnOk result (out.new ≡ spec.each (spec.stmt_said self.now.it levels) stmts.now out.old) }
    {
        for stmt in stmts {
            self.stmt(levels, stmt, out)?;
        }
        Ok(())
    }

    #[cycle(read)]
    fn block(&self, levels: u32, stmts: &[Stmt], out: &mut Items<Event>) -> Result<(), OutOfMemory>
        ensures { OnOk result (out.new ≡ spec.block_said self.now.it (spec.expr_said self.now.it levels) (spec.stmt_said self.now.it levels) stmts.now out.old) }
    {
        out.push(Event::Open(Scope::Block))?;
        self.stmts(levels, stmts, out)?;
        out.push(Event::Close)?;
        Ok(())
    }

    // A single statement that is a body has a scope of its own.
    #[cycle(read)]
    fn branch(&self, levels: u32, stmt: &Stmt, out: &mut Items<Event>) -> Result<(), OutOfMemory>
        ensures { OnOk result (out.new ≡ spec.branch_said self.now.it (spec.expr_said self.now.it levels) (spec.stmt_said self.now.it levels) stmt.now out.old) }
    {
        out.push(Event::Open(Scope::Block))?;
        self.stmt(levels, stmt, out)?;
        out.push(Event::Close)?;
        Ok(())
    }

    #[cycle(read)]
    fn maybe_branch(
        &self,
        levels: u32,
        stmt: &Option<Boxed<Stmt>>,
        out: &mut Items<Event>,
    ) -> Result<(), OutOfMemory>
        ensures { OnOk result (out.new ≡ spec.if_there (spec.branch_said self.now.it (spec.expr_said self.now.it levels) (spec.stmt_said self.now.it levels)) stmt.now out.old) }
    {
        match stmt {
            Some(stmt) => self.branch(levels, stmt.get(), out),
            None => Ok(()),
        }
    }

    #[cycle(read)]
    pub(crate) fn decl(
        &self,
        levels: u32,
        decl: &Decl,
        out: &mut Items<Event>,
    ) -> Result<(), OutOfMemory>
        ensures { OnOk result (out.new ≡ spec.decl_said self.now.it (spec.expr_said self.now.it levels) (spec.stmt_said self.now.it levels) decl.now out.old) }
    {
        written(decl.written, out)?;
        self.vars(levels, decl.vars.as_slice(), out)
    }

    #[cycle(read)]
    fn vars(&self, levels: u32, vars: &[Var], out: &mut Items<Event>) -> Result<(), OutOfMemory>
        ensures { OnOk result (out.new ≡ spec.each (spec.var_said self.now.it (spec.expr_said self.now.it levels) (spec.stmt_said self.now.it levels)) vars.now out.old) }
    {
        for var in vars {
            self.maybe_expr(levels, &var.initial, out)?;
            out.push(Event::Declare(var.ident))?;
        }
        Ok(())
    }

    #[cycle(read)]
    fn cases(&self, levels: u32, cases: &[Case], out: &mut Items<Event>) -> Result<(), OutOfMemory>
        ensures { OnOk result (out.new ≡ spec.each (spec.case_said self.now.it (spec.expr_said self.now.it levels) (spec.stmt_said self.now.it levels)) cases.now out.old) }
    {
        for case in cases {
            self.maybe_expr(levels, &case.value, out)?;
            self.block(levels, case.body.as_slice(), out)?;
        }
        Ok(())
    }

    #[cycle(read)]
    fn catches(
        &self,
        levels: u32,
        catches: &[Catch],
        out: &mut Items<Event>,
    ) -> Result<(), OutOfMemory>
        ensures { OnOk result (out.new ≡ spec.each (spec.catch_said self.now.it (spec.expr_said self.now.it levels) (spec.stmt_said self.now.it levels)) catches.now out.old) }
    {
        for catch in catches {
            self.catch(levels, catch, out)?;
        }
        Ok(())
    }

    #[cycle(read)]
    fn catch(&self, levels: u32, catch: &Catch, out: &mut Items<Event>) -> Result<(), OutOfMemory>
        ensures { OnOk result (out.new ≡ spec.catch_said self.now.it (spec.expr_said self.now.it levels) (spec.stmt_said self.now.it levels) catch.now out.old) }
    {
        types(catch.types.as_slice(), out)?;
        out.push(Event::Open(Scope::Block))?;
        out.push(Event::Declare(catch.ident))?;
        self.stmts(levels, catch.body.as_slice(), out)?;
        out.push(Event::Close)?;
        Ok(())
    }
}

fn atom_of(place: Place, atom: Atom, out: &mut Items<Event>) -> Result<(), OutOfMemory>
    ensures { OnOk result (out.new ≡ spec.atom_said place atom out.old) }
{
    match atom {
        Atom::Name(name) => out.push(Event::Use(Ident { place, name }))?,
        Atom::This => out.push(Event::This(place))?,
        Atom::Super => out.push(Event::OutOfPlace(place))?,
        _ => {}
    }
    Ok(())
}

// A member that is named by a name.
fn member(of_this: bool, label: &Label, out: &mut Items<Event>) -> Result<(), OutOfMemory>
    ensures { OnOk result (out.new ≡ spec.member_in of_this (out-Label label.now) out.old) }
{
    match label {
        Label::Name(name) => own(of_this, *name, out),
        _ => Ok(()),
    }
}

fn own(of_this: bool, name: Ident, out: &mut Items<Event>) -> Result<(), OutOfMemory>
    ensures { OnOk result (out.new ≡ spec.own_said of_this name out.old) }
{
    if of_this {
        out.push(Event::UseOfThis(name))?;
    }
    Ok(())
}

fn declare_all(names: &[Ident], out: &mut Items<Event>) -> Result<(), OutOfMemory>
    ensures { OnOk result (out.new ≡ spec.each spec.name_said names.now out.old) }
{
    for name in names {
        out.push(Event::Declare(*name))?;
    }
    Ok(())
}
