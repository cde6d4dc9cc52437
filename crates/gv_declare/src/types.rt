//! The names of written types.

ghost use Rattle.std.specs.Prelude.{◌≡◌};
ghost use Rattle.gv_declare.specs.Members as spec;

use crate::known::Known;
use gv_base::Name;
use gv_tree::{Param, TypeTree, VarType};

fn type_name(known: &Known, class: TypeTree) -> Name
    ensures { result ≡ spec.type_name known.now class }
{
    match class {
        TypeTree::Int(_) => known.integer,
        TypeTree::Long(_) => known.long,
        TypeTree::Boolean(_) => known.boolean,
        TypeTree::Class(ident) => ident.name,
    }
}

/// The name of the type of a variable or a field.
pub fn written_name(known: &Known, class: VarType) -> Name
    ensures { result ≡ spec.written_name known.now class }
{
    match class {
        VarType::Def => known.object,
        VarType::Typed(class) => type_name(known, class),
    }
}

/// The name of a parameter's type.
pub(crate) fn param_type(known: &Known, param: &Param) -> Name
    ensures { result ≡ spec.param_type known.now param.now }
{
    match param.written {
        Some(class) => written_name(known, class),
        None => known.object,
    }
}
