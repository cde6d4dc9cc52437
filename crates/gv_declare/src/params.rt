//! The parameters of a method that has defaults.

ghost use Rattle.std.specs.Prelude.{◌≡◌, ◌∷◌, List, if◌then◌else◌, IfOk};
ghost use Rattle.gv_declare.specs.Members as spec;
ghost use Rattle.gv_tree.specs.declared.expr.Param.{Param as Tree};

use crate::known::Known;
use crate::types::param_type;
use gv_base::{Name, OutOfMemory};
use gv_tree::Param;
use sqlite_items::Items;
use std::alloc::Global;

/// How many of the parameters have a default.
pub(crate) fn defaults(params: &[Param]) -> usize
    ensures { result ≡ spec.defaults params.now }
{
    let mut count = 0;
    for param in params {
        if param.initial.is_some() {
            count += 1;
        }
    }
    count
}

/// Whether a parameter is kept where so many more with a default are, of which it may be one.
fn takes(left: &mut usize, param: &Param) -> bool
    ensures { (more : List Tree) → spec.kept left.old (param.now ∷ more) ≡ (if result then param.now ∷ spec.kept left.new more else spec.kept left.new more) }
{
    if param.initial.is_none() {
        return true;
    }
    if *left == 0 {
        return false;
    }
    *left -= 1;
    true
}

/// The types of the parameters, but for those behind so many with a default that have one too.
pub(crate) fn param_types(
    alloc: Global,
    known: &Known,
    optional: usize,
    params: &[Param],
) -> Result<Items<Name>, OutOfMemory>
    ensures { IfOk result (λ types. types ≡ spec.param_types known.now optional params.now) }
{
    let mut types = Items::new(alloc);
    let mut left = optional;
    for param in params {
        if takes(&mut left, param) {
            types.push(param_type(known, param))?;
        }
    }
    Ok(types)
}

/// Whether one of those is a rest parameter.
pub(crate) fn has_rest(optional: usize, params: &[Param]) -> bool
    ensures { result ≡ spec.has_rest optional params.now }
{
    let mut left = optional;
    for param in params {
        if takes(&mut left, param) && param.is_rest {
            return true;
        }
    }
    false
}
