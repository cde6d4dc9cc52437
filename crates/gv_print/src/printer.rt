//! What expressions and statements print.

ghost use Rattle.std.specs.Prelude.{◌≡◌, true, OnOk};
ghost use Rattle.gv_tree.specs.declared.expr.Expr.{out-Expr};
ghost use Rattle.gv_tree.specs.declared.stmt.Stmt.{out-Stmt};
ghost use Rattle.gv_print.specs.Texts as texts;
ghost use Rattle.gv_print.specs.Printed as spec;

use crate::begins::begins_signed;
use crate::so_far::{Out, deeper, new_line, part, put_if};
use crate::strings::{Quotes, put_chars, put_string};
use crate::words::{
    assign_text, binary_text, gap, is_behind, leave_text, member_text, put_atom, put_ident,
    put_idents, put_loop_type, put_param_type, put_type, put_types, put_written, type_op_text,
    unary_text,
};
use gv_base::{Names, OutOfMemory};
use gv_tree::{
    Arg, Atom, Case, Catch, Closure, Decl, Entry, Expr, GString, Item, Key, Label, Param, Part,
    Stmt, UnaryOp, Var, VarType,
};
use sqlite_items::Boxed;

/// As deep as the trees of the grammar may be: three levels for each of the 300 that may be open at a place, and some.
pub const MOST_LEVELS: u32 = 1000;

/// Puts what trees print behind what was printed before.
#[derive(Clone, Copy)]
pub(crate) struct Printer<'a> {
    pub(crate) names: &'a Names,
}

impl<'a> Printer<'a> {
    // An expression, as deep as so many may stand in one another.
    #[cycle(print)]
    pub(crate) fn expr(
        &self,
        levels: u32,
        indent: u32,
        x: &Expr,
        out: &mut Out,
    ) -> Result<(), OutOfMemory>
        ensures { OnOk result (out.new ≡ (spec.trees self.now.names.now levels).expr indent x.now out.old) }
    {
        if levels == 0 {
            return Ok(());
        }
        self.expr_in(levels - 1, indent, x, out)
    }

    #[cycle(print)]
    fn expr_in(&self, levels: u32, indent: u32, x: &Expr, out: &mut Out) -> Result<(), OutOfMemory>
        ensures { OnOk result (out.new ≡ spec.expr_in self.now.names.now (spec.trees self.now.names.now levels) indent (out-Expr x.now) out.old) }
    {
        match x {
            Expr::Atom(_, atom) => put_atom(self.names, *atom, out),
            Expr::GString(_, text) => self.gstring(levels, indent, text, out),
            Expr::Paren(_, inner) => {
                self.led(levels, indent, "(", inner.get(), out)?;
                out.put(")")
            }
            Expr::List(_, items) => {
                out.put("[")?;
                self.items(levels, indent, items.as_slice(), out)?;
                out.put("]")
            }
            Expr::Map(_, entries) => self.map(levels, indent, entries.as_slice(), out),
            Expr::Closure(_, closure) => self.closure(levels, indent, closure, out),
            Expr::New(_, class, args) => {
                out.put("new ")?;
                put_ident(self.names, *class, out)?;
                self.args(levels, indent, args.as_slice(), out)
            }
            Expr::Unary(_, op, operand) => self.unary(levels, indent, *op, operand.get(), out),
            Expr::Binary(_, op, left, right) => {
                self.expr(levels, indent, left.get(), out)?;
                self.led(levels, indent, binary_text(*op), right.get(), out)
            }
            Expr::Typed(_, op, operand, class) => {
                self.expr(levels, indent, operand.get(), out)?;
                out.put(type_op_text(*op))?;
                put_type(self.names, *class, out)
            }
            Expr::Choice(_, test, Some(first), second) => {
                self.expr(levels, indent, test.get(), out)?;
                self.led(levels, indent, " ? ", first.get(), out)?;
                self.led(levels, indent, " : ", second.get(), out)
            }
            Expr::Choice(_, test, None, second) => {
                self.expr(levels, indent, test.get(), out)?;
                self.led(levels, indent, " ?: ", second.get(), out)
            }
            Expr::Assign(_, op, left, right) => {
                self.expr(levels, indent, left.get(), out)?;
                self.led(levels, indent, assign_text(*op), right.get(), out)
            }
            Expr::Member(_, op, receiver, label) => {
                self.expr(levels, indent, receiver.get(), out)?;
                out.put(member_text(*op))?;
                self.label(levels, indent, label, out)
            }
            Expr::Field(_, receiver, name) => {
                self.expr(levels, indent, receiver.get(), out)?;
                out.put(".@")?;
                put_ident(self.names, *name, out)
            }
            Expr::Index(_, receiver, places) => {
                self.expr(levels, indent, receiver.get(), out)?;
                out.put("[")?;
                self.exprs(levels, indent, places.as_slice(), out)?;
                out.put("]")
            }
            Expr::Call(_, callee, args) => {
                self.expr(levels, indent, callee.get(), out)?;
                self.args(levels, indent, args.as_slice(), out)
            }
        }
    }

    // A text, and an expression behind it.
    #[cycle(print)]
    pub(crate) fn led(
        &self,
        levels: u32,
        indent: u32,
        before: &str,
        x: &Expr,
        out: &mut Out,
    ) -> Result<(), OutOfMemory>
        ensures { OnOk result (out.new ≡ spec.led_printed self.now.names.now (spec.trees self.now.names.now levels) indent before.now x.now out.old) }
    {
        out.put(before)?;
        self.expr(levels, indent, x, out)
    }

    #[cycle(print)]
    fn maybe_led(
        &self,
        levels: u32,
        indent: u32,
        before: &str,
        x: &Option<Boxed<Expr>>,
        out: &mut Out,
    ) -> Result<(), OutOfMemory>
        ensures { OnOk result (out.new ≡ texts.if_there (spec.led_printed self.now.names.now (spec.trees self.now.names.now levels) indent before.now) x.now out.old) }
    {
        match x {
            Some(x) => self.led(levels, indent, before, x.get(), out),
            None => Ok(()),
        }
    }

    #[cycle(print)]
    fn maybe_expr(
        &self,
        levels: u32,
        indent: u32,
        x: &Option<Boxed<Expr>>,
        out: &mut Out,
    ) -> Result<(), OutOfMemory>
        ensures { OnOk result (out.new ≡ texts.if_there ((spec.trees self.now.names.now levels).expr indent) x.now out.old) }
    {
        match x {
            Some(x) => self.expr(levels, indent, x.get(), out),
            None => Ok(()),
        }
    }

    #[cycle(print)]
    fn exprs(
        &self,
        levels: u32,
        indent: u32,
        exprs: &[Expr],
        out: &mut Out,
    ) -> Result<(), OutOfMemory>
        ensures { OnOk result (out.new ≡ texts.listed ((spec.trees self.now.names.now levels).expr indent) true exprs.now out.old) }
    {
        let mut is_first = true;
        for x in exprs {
            part(is_first, ", ", out)?;
            self.expr(levels, indent, x, out)?;
            is_first = false;
        }
        Ok(())
    }

    #[cycle(print)]
    fn unary(
        &self,
        levels: u32,
        indent: u32,
        op: UnaryOp,
        operand: &Expr,
        out: &mut Out,
    ) -> Result<(), OutOfMemory>
        ensures { OnOk result (out.new ≡ spec.unary_printed self.now.names.now (spec.trees self.now.names.now levels) indent op operand.now out.old) }
    {
        if is_behind(op) {
            self.expr(levels, indent, operand, out)?;
            return out.put(unary_text(op));
        }
        out.put(unary_text(op))?;
        out.put(gap(op, begins_signed(levels, operand)))?;
        self.expr(levels, indent, operand, out)
    }

    #[cycle(print)]
    fn gstring(
        &self,
        levels: u32,
        indent: u32,
        text: &GString,
        out: &mut Out,
    ) -> Result<(), OutOfMemory>
        ensures { OnOk result (out.new ≡ spec.gstring_printed self.now.names.now (spec.trees self.now.names.now levels) indent text.now out.old) }
    {
        out.put("\"")?;
        put_chars(Quotes::Double, self.names.text(text.head), out)?;
        self.parts(levels, indent, text.parts.as_slice(), out)?;
        out.put("\"")
    }

    #[cycle(print)]
    fn parts(
        &self,
        levels: u32,
        indent: u32,
        parts: &[Part],
        out: &mut Out,
    ) -> Result<(), OutOfMemory>
        ensures { OnOk result (out.new ≡ texts.each (spec.part_printed self.now.names.now (spec.trees self.now.names.now levels) indent) parts.now out.old) }
    {
        for part in parts {
            self.part(levels, indent, part, out)?;
        }
        Ok(())
    }

    #[cycle(print)]
    fn part(&self, levels: u32, indent: u32, part: &Part, out: &mut Out) -> Result<(), OutOfMemory>
        ensures { OnOk result (out.new ≡ spec.part_printed self.now.names.now (spec.trees self.now.names.now levels) indent part.now out.old) }
    {
        out.put(part_start(part.is_lazy))?;
        self.expr(levels, indent, part.value.get(), out)?;
        out.put("}")?;
        put_chars(Quotes::Double, self.names.text(part.behind), out)
    }

    #[cycle(print)]
    fn label(
        &self,
        levels: u32,
        indent: u32,
        label: &Label,
        out: &mut Out,
    ) -> Result<(), OutOfMemory>
        ensures { OnOk result (out.new ≡ spec.label_printed self.now.names.now (spec.trees self.now.names.now levels) indent label.now out.old) }
    {
        match label {
            Label::Name(name) => put_ident(self.names, *name, out),
            Label::Text(text) => put_string(self.names.text(text.name), out),
            Label::GString(_, text) => self.gstring(levels, indent, text, out),
        }
    }

    #[cycle(print)]
    fn key(&self, levels: u32, indent: u32, key: &Key, out: &mut Out) -> Result<(), OutOfMemory>
        ensures { OnOk result (out.new ≡ spec.key_printed self.now.names.now (spec.trees self.now.names.now levels) indent key.now out.old) }
    {
        match key {
            Key::Label(label) => self.label(levels, indent, label, out),
            Key::Int(_, number) => put_atom(self.names, Atom::Int(*number), out),
            Key::Long(_, number) => put_atom(self.names, Atom::Long(*number), out),
        }
    }

    #[cycle(print)]
    fn items(
        &self,
        levels: u32,
        indent: u32,
        items: &[Item],
        out: &mut Out,
    ) -> Result<(), OutOfMemory>
        ensures { OnOk result (out.new ≡ texts.listed (spec.item_printed self.now.names.now (spec.trees self.now.names.now levels) indent) true items.now out.old) }
    {
        let mut is_first = true;
        for item in items {
            part(is_first, ", ", out)?;
            self.item(levels, indent, item, out)?;
            is_first = false;
        }
        Ok(())
    }

    #[cycle(print)]
    fn item(&self, levels: u32, indent: u32, item: &Item, out: &mut Out) -> Result<(), OutOfMemory>
        ensures { OnOk result (out.new ≡ spec.item_printed self.now.names.now (spec.trees self.now.names.now levels) indent item.now out.old) }
    {
        match item {
            Item::Plain(x) => self.expr(levels, indent, x.get(), out),
            Item::Spread(_, x) => self.led(levels, indent, "*", x.get(), out),
        }
    }

    #[cycle(print)]
    fn map(
        &self,
        levels: u32,
        indent: u32,
        entries: &[Entry],
        out: &mut Out,
    ) -> Result<(), OutOfMemory>
        ensures { OnOk result (out.new ≡ spec.map_printed self.now.names.now (spec.trees self.now.names.now levels) indent entries.now out.old) }
    {
        if entries.is_empty() {
            return out.put("[:]");
        }
        out.put("[")?;
        self.entries(levels, indent, entries, out)?;
        out.put("]")
    }

    #[cycle(print)]
    fn entries(
        &self,
        levels: u32,
        indent: u32,
        entries: &[Entry],
        out: &mut Out,
    ) -> Result<(), OutOfMemory>
        ensures { OnOk result (out.new ≡ texts.listed (spec.entry_printed self.now.names.now (spec.trees self.now.names.now levels) indent) true entries.now out.old) }
    {
        let mut is_first = true;
        for entry in entries {
            part(is_first, ", ", out)?;
            self.entry(levels, indent, entry, out)?;
            is_first = false;
        }
        Ok(())
    }

    #[cycle(print)]
    fn entry(
        &self,
        levels: u32,
        indent: u32,
        entry: &Entry,
        out: &mut Out,
    ) -> Result<(), OutOfMemory>
        ensures { OnOk result (out.new ≡ spec.entry_printed self.now.names.now (spec.trees self.now.names.now levels) indent entry.now out.old) }
    {
        match entry {
            Entry::Keyed(key, x) => {
                self.key(levels, indent, key, out)?;
                self.led(levels, indent, ": ", x.get(), out)
            }
            Entry::Computed(_, key, x) => {
                self.led(levels, indent, "(", key.get(), out)?;
                self.led(levels, indent, "): ", x.get(), out)
            }
            Entry::Spread(_, x) => self.led(levels, indent, "*:", x.get(), out),
        }
    }

    #[cycle(print)]
    fn args(&self, levels: u32, indent: u32, args: &[Arg], out: &mut Out) -> Result<(), OutOfMemory>
        ensures { OnOk result (out.new ≡ spec.args_printed self.now.names.now (spec.trees self.now.names.now levels) indent args.now out.old) }
    {
        out.put("(")?;
        let mut is_first = true;
        for arg in args {
            part(is_first, ", ", out)?;
            self.arg(levels, indent, arg, out)?;
            is_first = false;
        }
        out.put(")")
    }

    #[cycle(print)]
    fn arg(&self, levels: u32, indent: u32, arg: &Arg, out: &mut Out) -> Result<(), OutOfMemory>
        ensures { OnOk result (out.new ≡ spec.arg_printed self.now.names.now (spec.trees self.now.names.now levels) indent arg.now out.old) }
    {
        match arg {
            Arg::Plain(x) => self.expr(levels, indent, x.get(), out),
            Arg::Keyed(key, x) => {
                self.key(levels, indent, key, out)?;
                self.led(levels, indent, ": ", x.get(), out)
            }
            Arg::Spread(_, x) => self.led(levels, indent, "*", x.get(), out),
            Arg::SpreadMap(_, x) => self.led(levels, indent, "*:", x.get(), out),
        }
    }

    #[cycle(print)]
    pub(crate) fn params(
        &self,
        levels: u32,
        indent: u32,
        params: &[Param],
        out: &mut Out,
    ) -> Result<(), OutOfMemory>
        ensures { OnOk result (out.new ≡ spec.params_printed self.now.names.now (spec.trees self.now.names.now levels) indent params.now out.old) }
    {
        let mut is_first = true;
        for param in params {
            part(is_first, ", ", out)?;
            self.param(levels, indent, param, out)?;
            is_first = false;
        }
        Ok(())
    }

    #[cycle(print)]
    fn param(
        &self,
        levels: u32,
        indent: u32,
        param: &Param,
        out: &mut Out,
    ) -> Result<(), OutOfMemory>
        ensures { OnOk result (out.new ≡ spec.param_printed self.now.names.now (spec.trees self.now.names.now levels) indent param.now out.old) }
    {
        put_if(param.is_final, "final ", out)?;
        put_param_type(self.names, param.is_rest, param.written, out)?;
        put_ident(self.names, param.ident, out)?;
        self.maybe_led(levels, indent, " = ", &param.initial, out)
    }

    #[cycle(print)]
    fn closure(
        &self,
        levels: u32,
        indent: u32,
        closure: &Closure,
        out: &mut Out,
    ) -> Result<(), OutOfMemory>
        ensures { OnOk result (out.new ≡ spec.closure_printed self.now.names.now (spec.trees self.now.names.now levels) indent closure.now out.old) }
    {
        out.put("{")?;
        match closure {
            Closure::Read(Some(params), stmts) => {
                self.closure_params(levels, indent, params.as_slice(), out)?;
                self.filled(levels, indent, stmts.as_slice(), out)
            }
            Closure::Read(None, stmts) => self.filled(levels, indent, stmts.as_slice(), out),
            Closure::Unread(_, _) => out.put(" }"),
        }
    }

    #[cycle(print)]
    fn closure_params(
        &self,
        levels: u32,
        indent: u32,
        params: &[Param],
        out: &mut Out,
    ) -> Result<(), OutOfMemory>
        ensures { OnOk result (out.new ≡ spec.closure_params_printed self.now.names.now (spec.trees self.now.names.now levels) indent params.now out.old) }
    {
        if params.is_empty() {
            return out.put(" ->");
        }
        out.put(" ")?;
        self.params(levels, indent, params, out)?;
        out.put(" ->")
    }

    // A statement, as deep as so many may stand in one another.
    #[cycle(print)]
    pub(crate) fn stmt(
        &self,
        levels: u32,
        indent: u32,
        stmt: &Stmt,
        out: &mut Out,
    ) -> Result<(), OutOfMemory>
        ensures { OnOk result (out.new ≡ (spec.trees self.now.names.now levels).stmt indent stmt.now out.old) }
    {
        if levels == 0 {
            return Ok(());
        }
        self.stmt_in(levels - 1, indent, stmt, out)
    }

    #[cycle(print)]
    fn stmt_in(
        &self,
        levels: u32,
        indent: u32,
        stmt: &Stmt,
        out: &mut Out,
    ) -> Result<(), OutOfMemory>
        ensures { OnOk result (out.new ≡ spec.stmt_in self.now.names.now (spec.trees self.now.names.now levels) indent (out-Stmt stmt.now) out.old) }
    {
        match stmt {
            Stmt::Decl(decl) => self.decl(levels, indent, decl, out),
            Stmt::Multiple(_, names, value) => {
                out.put("def (")?;
                put_idents(self.names, ", ", names.as_slice(), out)?;
                self.led(levels, indent, ") = ", value.get(), out)
            }
            Stmt::Expr(x) => self.expr(levels, indent, x.get(), out),
            Stmt::Block(_, stmts) => self.block(levels, indent, stmts.as_slice(), out),
            Stmt::If(_, test, first, second) => {
                self.led(levels, indent, "if (", test.get(), out)?;
                out.put(")")?;
                self.body(levels, indent, first.get(), out)?;
                self.maybe_else(levels, indent, second, out)
            }
            Stmt::While(_, test, body) => {
                self.led(levels, indent, "while (", test.get(), out)?;
                out.put(")")?;
                self.body(levels, indent, body.get(), out)
            }
            Stmt::ForIn(_, class, name, value, body) => {
                out.put("for (")?;
                put_loop_type(self.names, *class, out)?;
                put_ident(self.names, *name, out)?;
                self.led(levels, indent, " in ", value.get(), out)?;
                out.put(")")?;
                self.body(levels, indent, body.get(), out)
            }
            Stmt::For(_, first, test, step, body) => {
                out.put("for (")?;
                self.maybe_stmt(levels, indent, first, out)?;
                out.put("; ")?;
                self.maybe_expr(levels, indent, test, out)?;
                out.put("; ")?;
                self.maybe_expr(levels, indent, step, out)?;
                out.put(")")?;
                self.body(levels, indent, body.get(), out)
            }
            Stmt::Switch(_, value, cases) => {
                self.led(levels, indent, "switch (", value.get(), out)?;
                out.put(") {")?;
                self.switch(levels, indent, cases.as_slice(), out)
            }
            Stmt::Try(_, stmts, catches, last) => {
                out.put("try ")?;
                self.block(levels, indent, stmts.as_slice(), out)?;
                self.catches(levels, indent, catches.as_slice(), out)?;
                match last {
                    Some(last) => self.last(levels, indent, last.as_slice(), out),
                    None => Ok(()),
                }
            }
            Stmt::Throw(_, x) => self.led(levels, indent, "throw ", x.get(), out),
            Stmt::Return(_, value) => {
                out.put("return")?;
                self.maybe_led(levels, indent, " ", value, out)
            }
            Stmt::Leave(_, leave) => out.put(leave_text(*leave)),
            Stmt::Assert(_, test, message) => {
                self.led(levels, indent, "assert ", test.get(), out)?;
                self.maybe_led(levels, indent, ": ", message, out)
            }
        }
    }

    // Statements, each on a line of its own.
    #[cycle(print)]
    fn lines(
        &self,
        levels: u32,
        indent: u32,
        stmts: &[Stmt],
        out: &mut Out,
    ) -> Result<(), OutOfMemory>
        ensures { OnOk result (out.new ≡ texts.each (spec.line_printed self.now.names.now (spec.trees self.now.names.now levels) indent) stmts.now out.old) }
    {
        for stmt in stmts {
            new_line(indent, out)?;
            self.stmt(levels, indent, stmt, out)?;
        }
        Ok(())
    }

    // What stands behind a `{`, and the `}`.
    #[cycle(print)]
    fn filled(
        &self,
        levels: u32,
        indent: u32,
        stmts: &[Stmt],
        out: &mut Out,
    ) -> Result<(), OutOfMemory>
        ensures { OnOk result (out.new ≡ spec.filled self.now.names.now (spec.trees self.now.names.now levels) indent stmts.now out.old) }
    {
        if stmts.is_empty() {
            return out.put(" }");
        }
        self.lines(levels, deeper(indent), stmts, out)?;
        new_line(indent, out)?;
        out.put("}")
    }

    #[cycle(print)]
    pub(crate) fn block(
        &self,
        levels: u32,
        indent: u32,
        stmts: &[Stmt],
        out: &mut Out,
    ) -> Result<(), OutOfMemory>
        ensures { OnOk result (out.new ≡ spec.block_printed self.now.names.now (spec.trees self.now.names.now levels) indent stmts.now out.old) }
    {
        out.put("{")?;
        self.filled(levels, indent, stmts, out)
    }

    // A block, or a statement on a line of its own.
    #[cycle(print)]
    fn body(&self, levels: u32, indent: u32, stmt: &Stmt, out: &mut Out) -> Result<(), OutOfMemory>
        ensures { OnOk result (out.new ≡ spec.body_printed self.now.names.now (spec.trees self.now.names.now levels) indent stmt.now out.old) }
    {
        match stmt {
            Stmt::Block(_, stmts) => {
                out.put(" ")?;
                self.block(levels, indent, stmts.as_slice(), out)
            }
            _ => {
                new_line(deeper(indent), out)?;
                self.stmt(levels, deeper(indent), stmt, out)
            }
        }
    }

    #[cycle(print)]
    fn maybe_else(
        &self,
        levels: u32,
        indent: u32,
        stmt: &Option<Boxed<Stmt>>,
        out: &mut Out,
    ) -> Result<(), OutOfMemory>
        ensures { OnOk result (out.new ≡ texts.if_there (spec.else_printed self.now.names.now (spec.trees self.now.names.now levels) indent) stmt.now out.old) }
    {
        match stmt {
            Some(stmt) => {
                new_line(indent, out)?;
                out.put("else")?;
                self.body(levels, indent, stmt.get(), out)
            }
            None => Ok(()),
        }
    }

    #[cycle(print)]
    fn maybe_stmt(
        &self,
        levels: u32,
        indent: u32,
        stmt: &Option<Boxed<Stmt>>,
        out: &mut Out,
    ) -> Result<(), OutOfMemory>
        ensures { OnOk result (out.new ≡ texts.if_there ((spec.trees self.now.names.now levels).stmt indent) stmt.now out.old) }
    {
        match stmt {
            Some(stmt) => self.stmt(levels, indent, stmt.get(), out),
            None => Ok(()),
        }
    }

    #[cycle(print)]
    pub(crate) fn decl(
        &self,
        levels: u32,
        indent: u32,
        decl: &Decl,
        out: &mut Out,
    ) -> Result<(), OutOfMemory>
        ensures { OnOk result (out.new ≡ spec.decl_printed self.now.names.now (spec.trees self.now.names.now levels) indent decl.now out.old) }
    {
        put_if(decl.is_final, "final ", out)?;
        self.vars(levels, indent, decl.written, decl.vars.as_slice(), out)
    }

    // The type of variables, and these.
    #[cycle(print)]
    pub(crate) fn vars(
        &self,
        levels: u32,
        indent: u32,
        class: VarType,
        vars: &[Var],
        out: &mut Out,
    ) -> Result<(), OutOfMemory>
        ensures { OnOk result (out.new ≡ spec.vars_printed self.now.names.now (spec.trees self.now.names.now levels) indent class vars.now out.old) }
    {
        put_written(self.names, class, out)?;
        out.put(" ")?;
        let mut is_first = true;
        for var in vars {
            part(is_first, ", ", out)?;
            self.var(levels, indent, var, out)?;
            is_first = false;
        }
        Ok(())
    }

    #[cycle(print)]
    fn var(&self, levels: u32, indent: u32, var: &Var, out: &mut Out) -> Result<(), OutOfMemory>
        ensures { OnOk result (out.new ≡ spec.var_printed self.now.names.now (spec.trees self.now.names.now levels) indent var.now out.old) }
    {
        put_ident(self.names, var.ident, out)?;
        self.maybe_led(levels, indent, " = ", &var.initial, out)
    }

    // The cases of a switch, and its `}`.
    #[cycle(print)]
    fn switch(
        &self,
        levels: u32,
        indent: u32,
        cases: &[Case],
        out: &mut Out,
    ) -> Result<(), OutOfMemory>
        ensures { OnOk result (out.new ≡ spec.cases_printed self.now.names.now (spec.trees self.now.names.now levels) indent cases.now out.old) }
    {
        if cases.is_empty() {
            return out.put(" }");
        }
        self.cases(levels, deeper(indent), cases, out)?;
        new_line(indent, out)?;
        out.put("}")
    }

    #[cycle(print)]
    fn cases(
        &self,
        levels: u32,
        indent: u32,
        cases: &[Case],
        out: &mut Out,
    ) -> Result<(), OutOfMemory>
        ensures { OnOk result (out.new ≡ texts.each (spec.case_printed self.now.names.now (spec.trees self.now.names.now levels) indent) cases.now out.old) }
    {
        for case in cases {
            new_line(indent, out)?;
            self.case_value(levels, indent, &case.value, out)?;
            self.lines(levels, deeper(indent), case.body.as_slice(), out)?;
        }
        Ok(())
    }

    #[cycle(print)]
    fn case_value(
        &self,
        levels: u32,
        indent: u32,
        value: &Option<Boxed<Expr>>,
        out: &mut Out,
    ) -> Result<(), OutOfMemory>
        ensures { OnOk result (out.new ≡ spec.case_value_printed self.now.names.now (spec.trees self.now.names.now levels) indent value.now out.old) }
    {
        match value {
            Some(x) => {
                self.led(levels, indent, "case ", x.get(), out)?;
                out.put(":")
            }
            None => out.put("default:"),
        }
    }

    #[cycle(print)]
    fn catches(
        &self,
        levels: u32,
        indent: u32,
        catches: &[Catch],
        out: &mut Out,
    ) -> Result<(), OutOfMemory>
        ensures { OnOk result (out.new ≡ texts.each (spec.catch_printed self.now.names.now (spec.trees self.now.names.now levels) indent) catches.now out.old) }
    {
        for catch in catches {
            self.catch(levels, indent, catch, out)?;
        }
        Ok(())
    }

    #[cycle(print)]
    fn catch(
        &self,
        levels: u32,
        indent: u32,
        catch: &Catch,
        out: &mut Out,
    ) -> Result<(), OutOfMemory>
        ensures { OnOk result (out.new ≡ spec.catch_printed self.now.names.now (spec.trees self.now.names.now levels) indent catch.now out.old) }
    {
        new_line(indent, out)?;
        out.put("catch (")?;
        put_types(self.names, catch.types.as_slice(), out)?;
        put_ident(self.names, catch.ident, out)?;
        out.put(") ")?;
        self.block(levels, indent, catch.body.as_slice(), out)
    }

    #[cycle(print)]
    fn last(
        &self,
        levels: u32,
        indent: u32,
        stmts: &[Stmt],
        out: &mut Out,
    ) -> Result<(), OutOfMemory>
        ensures { OnOk result (out.new ≡ spec.finally_printed self.now.names.now (spec.trees self.now.names.now levels) indent stmts.now out.old) }
    {
        new_line(indent, out)?;
        out.put("finally ")?;
        self.block(levels, indent, stmts, out)
    }
}

fn part_start(is_lazy: bool) -> &'static str
    ensures { result.now ≡ spec.part_start is_lazy }
{
    if is_lazy { "${-> " } else { "${" }
}
