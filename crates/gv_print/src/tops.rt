//! What imports, annotations, methods, classes and scripts print.

ghost use Rattle.std.specs.Prelude.{◌≡◌, IfOk, OnOk, string_bytes};
ghost use Rattle.gv_print.specs.Texts as texts;
ghost use Rattle.gv_print.specs.Printed as spec;

use crate::printer::{MOST_LEVELS, Printer};
use crate::so_far::{Out, new_line, part, put_if};
use crate::words::{put_answer, put_ident, put_idents, put_modifiers};
use gv_base::{Names, OutOfMemory};
use gv_tree::{
    Annotation, ClassTree, Constructor, Field, Ident, Import, Member, Method, Param, Script,
    Setting, Stmt, Top,
};
use std::alloc::Global;

/// The text of a script's tree.
pub fn print_tree(alloc: Global, script: &Script, names: &Names) -> Result<String, OutOfMemory>
    ensures { IfOk result (λ text. string_bytes text ≡ spec.printed names.now script.now) }
{
    let printer = Printer { names };
    let mut out = Out::new(alloc);
    printer.tops(MOST_LEVELS, script.tops.as_slice(), &mut out)?;
    Ok(out.into_string())
}

impl<'a> Printer<'a> {
    fn tops(&self, levels: u32, tops: &[Top], out: &mut Out) -> Result<(), OutOfMemory>
        ensures { OnOk result (out.new ≡ texts.each (spec.top_line_printed self.now.names.now (spec.trees self.now.names.now levels)) tops.now out.old) }
    {
        for top in tops {
            self.top(levels, top, out)?;
            out.put("\n")?;
        }
        Ok(())
    }

    fn top(&self, levels: u32, top: &Top, out: &mut Out) -> Result<(), OutOfMemory>
        ensures { OnOk result (out.new ≡ spec.top_printed self.now.names.now (spec.trees self.now.names.now levels) top.now out.old) }
    {
        match top {
            Top::Import(import) => self.import(levels, import, out),
            Top::Class(class) => self.class(levels, class, out),
            Top::Method(method) => self.method(levels, 0, method, out),
            Top::Decl(annotations, decl) => {
                self.annotations(levels, 0, annotations.as_slice(), out)?;
                self.decl(levels, 0, decl, out)
            }
            Top::Stmt(stmt) => self.stmt(levels, 0, stmt, out),
        }
    }

    fn import(&self, levels: u32, import: &Import, out: &mut Out) -> Result<(), OutOfMemory>
        ensures { OnOk result (out.new ≡ spec.import_printed self.now.names.now (spec.trees self.now.names.now levels) import.now out.old) }
    {
        out.put("import ")?;
        put_idents(self.names, ".", import.path.as_slice(), out)?;
        put_if(import.is_all, ".*", out)
    }

    // Annotations, each with the line that follows it.
    fn annotations(
        &self,
        levels: u32,
        indent: u32,
        annotations: &[Annotation],
        out: &mut Out,
    ) -> Result<(), OutOfMemory>
        ensures { OnOk result (out.new ≡ spec.annotations_printed self.now.names.now (spec.trees self.now.names.now levels) indent annotations.now out.old) }
    {
        for annotation in annotations {
            self.annotation(levels, indent, annotation, out)?;
        }
        Ok(())
    }

    fn annotation(
        &self,
        levels: u32,
        indent: u32,
        annotation: &Annotation,
        out: &mut Out,
    ) -> Result<(), OutOfMemory>
        ensures { OnOk result (out.new ≡ spec.annotation_printed self.now.names.now (spec.trees self.now.names.now levels) indent annotation.now out.old) }
    {
        out.put("@")?;
        put_idents(self.names, ".", annotation.path.as_slice(), out)?;
        self.settings(levels, indent, annotation.settings.as_slice(), out)?;
        new_line(indent, out)
    }

    fn settings(
        &self,
        levels: u32,
        indent: u32,
        settings: &[Setting],
        out: &mut Out,
    ) -> Result<(), OutOfMemory>
        ensures { OnOk result (out.new ≡ spec.settings_printed self.now.names.now (spec.trees self.now.names.now levels) indent settings.now out.old) }
    {
        if settings.is_empty() {
            return Ok(());
        }
        out.put("(")?;
        let mut is_first = true;
        for setting in settings {
            part(is_first, ", ", out)?;
            self.setting(levels, indent, setting, out)?;
            is_first = false;
        }
        out.put(")")
    }

    fn setting(
        &self,
        levels: u32,
        indent: u32,
        setting: &Setting,
        out: &mut Out,
    ) -> Result<(), OutOfMemory>
        ensures { OnOk result (out.new ≡ spec.setting_printed self.now.names.now (spec.trees self.now.names.now levels) indent setting.now out.old) }
    {
        put_ident(self.names, setting.ident, out)?;
        self.led(levels, indent, " = ", &setting.value, out)
    }

    // A name, its parameters and its statements.
    fn called(
        &self,
        levels: u32,
        indent: u32,
        name: Ident,
        params: &[Param],
        stmts: &[Stmt],
        out: &mut Out,
    ) -> Result<(), OutOfMemory>
        ensures { OnOk result (out.new ≡ spec.called_printed self.now.names.now (spec.trees self.now.names.now levels) indent name params.now stmts.now out.old) }
    {
        put_ident(self.names, name, out)?;
        out.put("(")?;
        self.params(levels, indent, params, out)?;
        out.put(") ")?;
        self.block(levels, indent, stmts, out)
    }

    fn method(
        &self,
        levels: u32,
        indent: u32,
        method: &Method,
        out: &mut Out,
    ) -> Result<(), OutOfMemory>
        ensures { OnOk result (out.new ≡ spec.method_printed self.now.names.now (spec.trees self.now.names.now levels) indent method.now out.old) }
    {
        self.annotations(levels, indent, method.annotations.as_slice(), out)?;
        put_modifiers(method.modifiers, out)?;
        put_answer(self.names, method.answer, out)?;
        out.put(" ")?;
        self.called(
            levels,
            indent,
            method.ident,
            method.params.as_slice(),
            method.body.as_slice(),
            out,
        )
    }

    fn constructor(
        &self,
        levels: u32,
        indent: u32,
        constructor: &Constructor,
        out: &mut Out,
    ) -> Result<(), OutOfMemory>
        ensures { OnOk result (out.new ≡ spec.constructor_printed self.now.names.now (spec.trees self.now.names.now levels) indent constructor.now out.old) }
    {
        self.annotations(levels, indent, constructor.annotations.as_slice(), out)?;
        put_modifiers(constructor.modifiers, out)?;
        self.called(
            levels,
            indent,
            constructor.ident,
            constructor.params.as_slice(),
            constructor.body.as_slice(),
            out,
        )
    }

    fn field(
        &self,
        levels: u32,
        indent: u32,
        field: &Field,
        out: &mut Out,
    ) -> Result<(), OutOfMemory>
        ensures { OnOk result (out.new ≡ spec.field_printed self.now.names.now (spec.trees self.now.names.now levels) indent field.now out.old) }
    {
        self.annotations(levels, indent, field.annotations.as_slice(), out)?;
        put_modifiers(field.modifiers, out)?;
        self.vars(levels, indent, field.written, field.vars.as_slice(), out)
    }

    fn member(
        &self,
        levels: u32,
        indent: u32,
        member: &Member,
        out: &mut Out,
    ) -> Result<(), OutOfMemory>
        ensures { OnOk result (out.new ≡ spec.class_member_printed self.now.names.now (spec.trees self.now.names.now levels) indent member.now out.old) }
    {
        match member {
            Member::Method(method) => self.method(levels, indent, method, out),
            Member::Constructor(constructor) => self.constructor(levels, indent, constructor, out),
            Member::Field(field) => self.field(levels, indent, field, out),
        }
    }

    // The members of a class, and its `}`.
    fn members(&self, levels: u32, members: &[Member], out: &mut Out) -> Result<(), OutOfMemory>
        ensures { OnOk result (out.new ≡ spec.members_printed self.now.names.now (spec.trees self.now.names.now levels) members.now out.old) }
    {
        if members.is_empty() {
            return out.put(" }");
        }
        for member in members {
            new_line(1, out)?;
            self.member(levels, 1, member, out)?;
        }
        out.put("\n}")
    }

    fn above(
        &self,
        levels: u32,
        word: &str,
        name: Option<Ident>,
        out: &mut Out,
    ) -> Result<(), OutOfMemory>
        ensures { OnOk result (out.new ≡ texts.if_there (spec.above_printed self.now.names.now (spec.trees self.now.names.now levels) word.now) name out.old) }
    {
        match name {
            Some(name) => {
                out.put(word)?;
                put_ident(self.names, name, out)
            }
            None => Ok(()),
        }
    }

    // What stands before the `{` of a class, behind its annotations.
    fn class_head(&self, levels: u32, class: &ClassTree, out: &mut Out) -> Result<(), OutOfMemory>
        ensures { OnOk result (out.new ≡ spec.class_head_printed self.now.names.now (spec.trees self.now.names.now levels) class.now out.old) }
    {
        put_modifiers(class.modifiers, out)?;
        out.put("class ")?;
        put_ident(self.names, class.ident, out)?;
        self.above(levels, " extends ", class.superclass, out)?;
        self.above(levels, " implements ", class.interface, out)
    }

    fn class(&self, levels: u32, class: &ClassTree, out: &mut Out) -> Result<(), OutOfMemory>
        ensures { OnOk result (out.new ≡ spec.class_printed self.now.names.now (spec.trees self.now.names.now levels) class.now out.old) }
    {
        self.annotations(levels, 0, class.annotations.as_slice(), out)?;
        self.class_head(levels, class, out)?;
        out.put(" {")?;
        self.members(levels, class.members.as_slice(), out)
    }
}
