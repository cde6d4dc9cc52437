ghost use Rattle.std.specs.Prelude.{◌≡◌, OnOk};
ghost use Rattle.gv_scopes.specs.Scopes as spec;

use crate::numbers::Numbers;
use gv_base::{BodyId, ClassId, Name, OutOfMemory, VarId};
use gv_events::Scope;
use sqlite_items::Items;

/// What a name means where it stands.
#[derive(Clone, Copy, Debug, PartialEq, Eq)]
pub enum Meaning {
    /// A local, a parameter, the variable of a loop or of a catch.
    Variable(VarId),
    /// A field that the class there declares itself, read and written directly; its number among those.
    Field(usize),
    /// The owner of the closure there.
    Owner,
    /// The delegate of the closure there.
    Delegate,
    /// The strategy of the closure there.
    ResolveStrategy,
    Class(ClassId),
    /// A property: in a closure, of its candidates; else of `this`, or where there is none, of the class.
    Property,
}

/// A variable, and the body that declares it.
#[derive(Clone, Copy, Debug, PartialEq, Eq)]
pub struct Variable {
    pub name: Name,
    pub body: BodyId,
}

/// The statements of a script, a method, a constructor, a closure, or the initial values of a declaration's fields.
#[derive(Drop)]
pub struct Body {
    pub scope: Scope,
    /// The variables that are its parameters.
    pub parameters: Items<VarId>,
    /// The variables of bodies around it that it captures, the first used first.
    pub captured: Numbers,
}

impl Body {
    pub(crate) fn take(&mut self, variable: VarId) -> Result<(), OutOfMemory>
        ensures { OnOk result (self.new ≡ spec.with_parameter variable self.old) }
    {
        self.parameters.push(variable)?;
        Ok(())
    }

    pub(crate) fn capture(&mut self, variable: VarId) -> Result<(), OutOfMemory>
        ensures { OnOk result (self.new ≡ spec.with_captured variable self.old) }
    {
        self.captured.put(variable)?;
        Ok(())
    }
}

/// What the names of a script mean, its bodies and its variables.
#[derive(Drop)]
pub struct Resolved {
    /// In the order in which they are declared.
    pub variables: Items<Variable>,
    /// Those that a closure captures.
    pub captured: Numbers,
    /// In the order in which they begin; the first is that of the script's statements.
    pub bodies: Items<Body>,
    /// What each name means that is an expression, or the name of a member of `this`, in reading order.
    pub uses: Items<Meaning>,
}

/// Whether a closure captures the variable.
pub fn shared(resolved: &Resolved, variable: VarId) -> bool
    ensures { result ≡ spec.is_shared resolved.now variable }
{
    resolved.captured.contains(variable)
}
