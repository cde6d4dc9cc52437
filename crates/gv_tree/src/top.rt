use crate::expr::{Expr, Param};
use crate::ops::{Ident, Modifiers, VarType};
use crate::stmt::{Decl, Stmt, Var};
use gv_base::Place;
use sqlite_items::Items;

/// `import`, the names between the dots, and whether `.*` follows.
#[derive(Debug, Drop)]
pub struct Import {
    pub place: Place,
    pub path: Items<Ident>,
    pub is_all: bool,
}

/// An annotation, the names between its dots, and its members.
#[derive(Debug, Drop)]
pub struct Annotation {
    /// The place of its `@`.
    pub place: Place,
    pub path: Items<Ident>,
    pub settings: Items<Setting>,
}

/// A member of an annotation and its value.
#[derive(Debug, Drop)]
pub struct Setting {
    pub ident: Ident,
    pub value: Expr,
}

/// The written type of a method's answer.
#[derive(Clone, Copy, Debug, PartialEq, Eq)]
pub enum Answer {
    Void,
    Value(VarType),
}

/// A method, of a class or of the script.
#[derive(Debug, Drop)]
pub struct Method {
    pub annotations: Items<Annotation>,
    pub modifiers: Modifiers,
    pub answer: Answer,
    pub ident: Ident,
    pub params: Items<Param>,
    pub body: Items<Stmt>,
}

/// A constructor.
#[derive(Debug, Drop)]
pub struct Constructor {
    pub annotations: Items<Annotation>,
    pub modifiers: Modifiers,
    /// The class's name.
    pub ident: Ident,
    pub params: Items<Param>,
    pub body: Items<Stmt>,
}

/// A declaration of fields or properties.
#[derive(Debug, Drop)]
pub struct Field {
    pub annotations: Items<Annotation>,
    pub modifiers: Modifiers,
    pub written: VarType,
    pub vars: Items<Var>,
}

/// A member of a class.
#[derive(Debug, Drop)]
pub enum Member {
    Method(Method),
    Constructor(Constructor),
    Field(Field),
}

/// A class.
#[derive(Debug, Drop)]
pub struct ClassTree {
    pub annotations: Items<Annotation>,
    pub modifiers: Modifiers,
    pub ident: Ident,
    pub superclass: Option<Ident>,
    pub interface: Option<Ident>,
    pub members: Items<Member>,
}

/// What stands at the top of a script.
#[derive(Debug, Drop)]
pub enum Top {
    Import(Import),
    Class(ClassTree),
    Method(Method),
    /// A declaration with annotations; there is at least one.
    Decl(Items<Annotation>, Decl),
    Stmt(Stmt),
}

/// A script.
#[derive(Debug, Drop)]
pub struct Script {
    pub tops: Items<Top>,
}
