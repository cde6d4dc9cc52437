ghost use Rattle.std.specs.Prelude.{◌≡◌, slice_get, OnOk};
ghost use Rattle.gv_classes.specs.Classes.{named};
ghost use Rattle.gv_scopes.specs.Scopes as spec;

use crate::fields::OwnFields;
use crate::frame::Frame;
use crate::known::Known;
use crate::numbers::Numbers;
use crate::resolved::{Body, Meaning, Resolved, Variable};
use gv_base::{BodyId, Name, OutOfMemory, VarId};
use gv_classes::Classes;
use gv_events::{Event, Scope};
use sqlite_items::Items;
use std::alloc::Global;
use std::marker::Model;

/// What is known at a place of a script's events.
#[derive(Drop)]
pub(crate) struct Resolver {
    alloc: Global,
    variables: Items<Variable>,
    shared: Numbers,
    bodies: Vec<Body>,
    uses: Items<Meaning>,
    held: Numbers,
    holders: Vec<VarId>,
    inner: Frame,
    outer: Vec<Frame>,
    script: OwnFields,
    /// None outside of classes, where the script's fields are those that are read directly.
    class: Option<OwnFields>,
}

impl Model for Resolver {
    ghost use Rattle.std.specs.Prelude.{unwrap_or};
    ghost use Rattle.gv_scopes.specs.Scopes.{Naming};

    ghost Value = { Naming };

    ghost view = { λ r. record { variables = r.variables; shared = r.shared; bodies = r.bodies.items; uses = r.uses; held = r.held; holders = r.holders.items; inner = r.inner; outer = r.outer.items; script = r.script; fields = unwrap_or r.class r.script } };
}

impl Resolver {
    /// Outside of all scopes.
    pub(crate) fn new(alloc: Global, script: OwnFields) -> Resolver
        ensures { result ≡ spec.outside script }
    {
        Resolver {
            alloc,
            variables: Items::new(alloc),
            shared: Numbers::new(alloc),
            bodies: Vec::new(alloc),
            uses: Items::new(alloc),
            held: Numbers::new(alloc),
            holders: Vec::new(alloc),
            inner: Frame::member(0, 0, false),
            outer: Vec::new(alloc),
            script,
            class: None,
        }
    }

    pub(crate) fn into_resolved(self) -> Resolved
        ensures { result ≡ spec.resolved_in self }
    {
        let Resolver {
            variables,
            shared,
            bodies,
            uses,
            ..
        } = self;
        Resolved {
            variables,
            captured: shared,
            bodies: Items::from_vec(bodies),
            uses,
        }
    }

    /// Goes past an event.
    pub(crate) fn pass(
        &mut self,
        known: &Known,
        classes: &Classes,
        event: Event,
    ) -> Result<(), OutOfMemory>
        ensures { OnOk result (self.new ≡ spec.after known.now classes.now event self.old) }
    {
        match event {
            Event::Open(scope) => self.open(scope),
            Event::Close => {
                self.close();
                Ok(())
            }
            Event::OpenClass(ident) => self.open_class(classes, ident.name),
            Event::CloseClass => {
                self.class = None;
                Ok(())
            }
            Event::Declare(ident) => self.declare(ident.name),
            Event::Parameter(ident) => {
                let variable = self.variables.len();
                self.declare(ident.name)?;
                take_in(variable, self.inner.body, &mut self.bodies)
            }
            Event::Implicit(name) => self.imply(name),
            Event::Use(ident) => {
                let variable = self.variable_of(known.it, ident.name);
                self.name(known, classes, ident.name, variable)
            }
            Event::UseOfThis(ident) => self.put_use(self.own_meaning(ident.name)),
            Event::Class(_)
            | Event::Leave(_, _)
            | Event::This(_)
            | Event::SuperCall(_)
            | Event::OutOfPlace(_) => Ok(()),
        }
    }

    fn open_class(&mut self, classes: &Classes, name: Name) -> Result<(), OutOfMemory>
        ensures { OnOk result (self.new ≡ record self.old { fields = spec.class_fields classes.now (named classes.now name) }) }
    {
        self.class = Some(OwnFields::of_class(self.alloc, classes, classes.named(name))?);
        Ok(())
    }

    // ---- scopes

    fn open(&mut self, scope: Scope) -> Result<(), OutOfMemory>
        ensures { OnOk result (self.new ≡ spec.opened scope self.old) }
    {
        let names = self.held.len();
        let body = self.bodies.len();
        match scope {
            Scope::Loop | Scope::Switch | Scope::Block => self.open_block(),
            Scope::Closure => self.open_body(scope, self.inner.closure(names, body)),
            Scope::StaticMethod | Scope::StaticField => self.open_body(
                scope,
                Frame::member(names, body, true),
            ),
            Scope::Script | Scope::Method | Scope::Constructor | Scope::Field => self.open_body(
                scope,
                Frame::member(names, body, false),
            ),
        }
    }

    fn open_block(&mut self) -> Result<(), OutOfMemory>
        ensures { OnOk result (self.new ≡ spec.block_opened self.old) }
    {
        self.outer.push(self.inner)?;
        self.inner = self.inner.block(self.held.len());
        Ok(())
    }

    fn open_body(&mut self, scope: Scope, frame: Frame) -> Result<(), OutOfMemory>
        ensures { OnOk result (self.new ≡ spec.body_opened scope frame self.old) }
    {
        self.bodies.push(Body {
            scope,
            parameters: Items::new(self.alloc),
            captured: Numbers::new(self.alloc),
        })?;
        self.outer.push(self.inner)?;
        self.inner = frame;
        Ok(())
    }

    fn close(&mut self)
        ensures { self.new ≡ spec.closed self.old }
    {
        if let Some(frame) = self.outer.pop() {
            self.held.keep(self.inner.names);
            self.holders.truncate(self.inner.names);
            self.inner = frame;
        }
    }

    // ---- variables

    fn put_variable(&mut self, name: Name) -> Result<(), OutOfMemory>
        ensures { OnOk result (self.new ≡ spec.with_variable name self.old) }
    {
        self.variables.push(Variable {
            name,
            body: self.inner.body,
        })?;
        Ok(())
    }

    fn declare(&mut self, name: Name) -> Result<(), OutOfMemory>
        ensures { OnOk result (self.new ≡ spec.declared name self.old) }
    {
        let variable = self.variables.len();
        self.put_variable(name)?;
        if self.held.put(name)? {
            self.holders.push(variable)?;
        }
        Ok(())
    }

    fn imply(&mut self, name: Name) -> Result<(), OutOfMemory>
        ensures { OnOk result (self.new ≡ spec.implied name self.old) }
    {
        let variable = self.variables.len();
        self.put_variable(name)?;
        self.inner.it = Some(variable);
        take_in(variable, self.inner.body, &mut self.bodies)
    }

    // ---- names

    fn variable_of(&self, it: Name, name: Name) -> Option<VarId>
        ensures { result ≡ spec.variable_of it name self.now }
    {
        if name == it {
            if let Some(variable) = self.inner.it {
                return Some(variable);
            }
        }
        self.held_variable(name)
    }

    fn held_variable(&self, name: Name) -> Option<VarId>
        ensures { result ≡ spec.held_variable name self.now }
    {
        let place = self.held.place_of(name)?;
        self.holders.get(place).copied()
    }

    fn name(
        &mut self,
        known: &Known,
        classes: &Classes,
        name: Name,
        variable: Option<VarId>,
    ) -> Result<(), OutOfMemory>
        ensures { OnOk result (self.new ≡ spec.name_used known.now classes.now name variable self.old) }
    {
        match variable {
            Some(variable) => {
                self.use_variable(variable)?;
                self.put_use(Meaning::Variable(variable))
            }
            None => self.put_use(self.other_meaning(known, classes, name)),
        }
    }

    fn other_meaning(&self, known: &Known, classes: &Classes, name: Name) -> Meaning
        ensures { result ≡ spec.other_meaning known.now classes.now name self.now }
    {
        if self.inner.in_closure {
            return closure_meaning(known, classes, name);
        }
        match self.field_here(name) {
            Some(field) => Meaning::Field(field),
            None => class_meaning(classes, name),
        }
    }

    fn own_meaning(&self, name: Name) -> Meaning
        ensures { result ≡ spec.own_meaning name self.now }
    {
        if self.inner.in_closure {
            return Meaning::Property;
        }
        match self.field_here(name) {
            Some(field) => Meaning::Field(field),
            None => Meaning::Property,
        }
    }

    fn field_here(&self, name: Name) -> Option<usize>
        ensures { result ≡ spec.field_here name self.now }
    {
        match &self.class {
            Some(fields) => fields.find(self.inner.is_static, name),
            None => self.script.find(self.inner.is_static, name),
        }
    }

    fn put_use(&mut self, meaning: Meaning) -> Result<(), OutOfMemory>
        ensures { OnOk result (self.new ≡ spec.with_use meaning self.old) }
    {
        self.uses.push(meaning)?;
        Ok(())
    }

    // ---- captured variables

    fn use_variable(&mut self, variable: VarId) -> Result<(), OutOfMemory>
        ensures { OnOk result (self.new ≡ spec.used variable (slice_get self.old.variables variable) self.old) }
    {
        if let Some(declared) = self.variables.get(variable) {
            let declaring = declared.body;
            if declaring != self.inner.body {
                self.capture(variable, declaring)?;
            }
        }
        Ok(())
    }

    fn capture(&mut self, variable: VarId, declaring: BodyId) -> Result<(), OutOfMemory>
        ensures { OnOk result (self.new ≡ spec.captured variable declaring self.old) }
    {
        self.shared.put(variable)?;
        capture_all(variable, declaring, self.outer.as_slice(), &mut self.bodies)?;
        capture_in(variable, declaring, self.inner.body, &mut self.bodies)
    }
}

fn class_meaning(classes: &Classes, name: Name) -> Meaning
    ensures { result ≡ spec.class_meaning classes.now name }
{
    match classes.named(name) {
        Some(class) => Meaning::Class(class),
        None => Meaning::Property,
    }
}

fn closure_meaning(known: &Known, classes: &Classes, name: Name) -> Meaning
    ensures { result ≡ spec.closure_meaning known.now classes.now name }
{
    if name == known.owner {
        Meaning::Owner
    } else if name == known.delegate {
        Meaning::Delegate
    } else if name == known.resolve_strategy {
        Meaning::ResolveStrategy
    } else {
        class_meaning(classes, name)
    }
}

// A variable is a parameter of a body.
fn take_in(variable: VarId, body: BodyId, bodies: &mut Vec<Body>) -> Result<(), OutOfMemory>
    ensures { OnOk result (bodies.new.items ≡ spec.changed (spec.with_parameter variable) body bodies.old.items) }
{
    if body < bodies.len() {
        bodies[body].take(variable)?;
    }
    Ok(())
}

fn capture_all(
    variable: VarId,
    declaring: BodyId,
    frames: &[Frame],
    bodies: &mut Vec<Body>,
) -> Result<(), OutOfMemory>
    ensures { OnOk result (bodies.new.items ≡ spec.captured_by variable declaring frames.now bodies.old.items) }
{
    for frame in frames {
        capture_in(variable, declaring, frame.body, bodies)?;
    }
    Ok(())
}

fn capture_in(
    variable: VarId,
    declaring: BodyId,
    body: BodyId,
    bodies: &mut Vec<Body>,
) -> Result<(), OutOfMemory>
    ensures { OnOk result (bodies.new.items ≡ spec.captured_in variable declaring body bodies.old.items) }
{
    if declaring < body && body < bodies.len() {
        bodies[body].capture(variable)?;
    }
    Ok(())
}
