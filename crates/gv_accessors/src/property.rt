//! The trees of a property's accessors.

ghost use Rattle.std.specs.Prelude.{◌≡◌, IfOk};
ghost use Rattle.gv_accessors.specs.Accessors as spec;

use gv_base::{Name, OutOfMemory, Place};
use gv_tree::{
    Answer, AssignOp, Atom, Expr, Ident, Method, Modifiers, Param, Stmt, TypeTree, VarType,
};
use sqlite_items::{Boxed, Items};
use std::alloc::Global;

/// A field without access modifier.
#[derive(Clone, Copy)]
pub(crate) struct Property {
    pub(crate) ident: Ident,
    /// Its type, where its declaration stands.
    pub(crate) written: VarType,
    pub(crate) is_static: bool,
    pub(crate) is_final: bool,
}

impl Property {
    fn place(self) -> Place
        ensures { result ≡ self.ident.place }
    {
        self.ident.place
    }

    /// `T getP() { return p }`
    pub(crate) fn getter(self, alloc: Global, name: Name) -> Result<Method, OutOfMemory>
        ensures { IfOk result (λ method. method ≡ spec.getter self name) }
    {
        let answer = Answer::Value(written_at(self.place(), self.written));
        let value = Boxed::new(alloc, named(self.place(), self.ident.name))?;
        let stmt = Stmt::Return(self.place(), Some(value));
        self.accessor(alloc, name, answer, Items::new(alloc), stmt)
    }

    /// `void setP(T #v) { p = #v }`, where the third argument is the name of `#v`.
    pub(crate) fn setter(
        self,
        alloc: Global,
        value: Name,
        name: Name,
    ) -> Result<Method, OutOfMemory>
        ensures { IfOk result (λ method. method ≡ spec.setter value self name) }
    {
        let mut params = Items::new(alloc);
        params.push(self.parameter(value))?;
        let target = Boxed::new(alloc, named(self.place(), self.ident.name))?;
        let source = Boxed::new(alloc, named(self.place(), value))?;
        let assign = Expr::Assign(self.place(), AssignOp::Plain, target, source);
        let stmt = Stmt::Expr(Boxed::new(alloc, assign)?);
        self.accessor(alloc, name, Answer::Void, params, stmt)
    }

    fn parameter(self, value: Name) -> Param
        ensures { result ≡ spec.parameter value self }
    {
        Param {
            ident: Ident {
                place: self.place(),
                name: value,
            },
            is_final: false,
            written: Some(written_at(self.place(), self.written)),
            is_rest: false,
            initial: None,
        }
    }

    fn accessor(
        self,
        alloc: Global,
        name: Name,
        answer: Answer,
        params: Items<Param>,
        stmt: Stmt,
    ) -> Result<Method, OutOfMemory>
        ensures { IfOk result (λ method. method ≡ spec.accessor self name answer params stmt) }
    {
        let mut body = Items::new(alloc);
        body.push(stmt)?;
        Ok(Method {
            annotations: Items::new(alloc),
            modifiers: Modifiers {
                is_public: false,
                is_private: false,
                is_protected: false,
                is_static: self.is_static,
                is_final: false,
            },
            answer,
            ident: Ident {
                place: self.place(),
                name,
            },
            params,
            body,
        })
    }
}

fn named(place: Place, name: Name) -> Expr
    ensures { result ≡ spec.named place name }
{
    Expr::Atom(place, Atom::Name(name))
}

fn type_at(place: Place, class: TypeTree) -> TypeTree
    ensures { result ≡ spec.type_at place class }
{
    match class {
        TypeTree::Int(_) => TypeTree::Int(place),
        TypeTree::Long(_) => TypeTree::Long(place),
        TypeTree::Boolean(_) => TypeTree::Boolean(place),
        TypeTree::Class(ident) => TypeTree::Class(Ident {
            place,
            name: ident.name,
        }),
    }
}

/// The same type, written at a place.
fn written_at(place: Place, class: VarType) -> VarType
    ensures { result ≡ spec.written_at place class }
{
    match class {
        VarType::Def => VarType::Def,
        VarType::Typed(class) => VarType::Typed(type_at(place, class)),
    }
}
