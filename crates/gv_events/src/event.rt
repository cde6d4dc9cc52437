use gv_base::{Name, Place};
use gv_tree::{Ident, Leave};

/// What a scope is the scope of.
#[derive(Clone, Copy, Debug, PartialEq, Eq)]
pub enum Scope {
    /// The statements of a script.
    Script,
    /// A method, with its parameters.
    Method,
    StaticMethod,
    Constructor,
    /// The initial values of fields.
    Field,
    StaticField,
    /// A closure, with its parameters.
    Closure,
    /// A loop, with its variable.
    Loop,
    Switch,
    /// A block, a branch, a case, a catch.
    Block,
}

/// What stands next in a script.
#[derive(Clone, Copy, Debug, PartialEq, Eq)]
pub enum Event {
    /// A scope begins.
    Open(Scope),
    /// The scope that began last ends.
    Close,
    /// The members of a class begin.
    OpenClass(Ident),
    /// The members of the class that began last end.
    CloseClass,
    /// A local, the variable of a loop or of a catch is declared.
    Declare(Ident),
    /// A parameter is declared.
    Parameter(Ident),
    /// A closure without a parameter list has this parameter, which is written nowhere.
    Implicit(Name),
    /// A name that is an expression, also one that is called or assigned.
    Use(Ident),
    /// The name of a member of `this`, behind `.` or `.@`, but for one that is called.
    UseOfThis(Ident),
    /// The name of a class, as a type or behind `new`.
    Class(Ident),
    Leave(Place, Leave),
    /// `this`, but for one that is called.
    This(Place),
    /// `super` of `super.m(..)`.
    SuperCall(Place),
    /// Any other `super`, and a called `this`, but for those of a call that begins a constructor.
    OutOfPlace(Place),
}
