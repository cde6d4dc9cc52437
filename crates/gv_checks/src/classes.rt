ghost use Rattle.std.specs.Prelude.{◌≡◌, IfOk, OnOk};
ghost use Rattle.gv_classes.specs.BuiltIn.{rows, with_texts};
ghost use Rattle.gv_checks.specs.Checks.{classes_of};

use crate::known::Known;
use gv_base::{Names, OutOfMemory};
use gv_classes::Classes;
use gv_declare::declare_all;
use gv_tree::Script;
use std::alloc::Global;

/// The built-in classes, whose names are put into the table, and behind them the script's class and those that the scripts of all
/// files declare.
pub fn declared_classes(
    alloc: Global,
    known: &Known,
    names: &mut Names,
    scripts: &[Script],
) -> Result<Classes, OutOfMemory>
    ensures classes { IfOk result (λ classes. classes ≡ classes_of known.now names.old scripts.now) }
    ensures names { OnOk result (names.new ≡ with_texts names.old rows) }
{
    let mut classes = Classes::new(alloc, names)?;
    declare_all(alloc, &known.declare, known.words(), scripts, &mut classes)?;
    Ok(classes)
}
