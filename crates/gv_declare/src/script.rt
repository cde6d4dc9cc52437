//! What scripts declare.

ghost use Rattle.std.specs.Prelude.{◌≡◌, ◌++◌, IfOk, OnOk};
ghost use Rattle.gv_declare.specs.Members as spec;

use crate::class::declare_class;
use crate::fields::field_members;
use crate::flags::decl_flags;
use crate::known::Known;
use crate::methods::method_members;
use gv_base::{OutOfMemory, Place};
use gv_classes::{Classes, Declared, Member};
use gv_events::Words;
use gv_tree::{Script, Top};
use sqlite_items::Items;
use std::alloc::Global;

/// Puts the members of the script's class that a script declares behind the others: its methods, and the variables
/// that are declared with `@Field`.
pub fn declare_members(
    alloc: Global,
    known: &Known,
    words: Words,
    script: &Script,
    out: &mut Items<Member>,
) -> Result<(), OutOfMemory>
    ensures { OnOk result (out.new ≡ spec.script_members known.now words script.now.tops out.old) }
{
    tops_members(alloc, known, words, script.tops.as_slice(), out)
}

fn tops_members(
    alloc: Global,
    known: &Known,
    words: Words,
    tops: &[Top],
    out: &mut Items<Member>,
) -> Result<(), OutOfMemory>
    ensures { OnOk result (out.new ≡ spec.script_members known.now words tops.now out.old) }
{
    for top in tops {
        top_members(alloc, known, words, top, out)?;
    }
    Ok(())
}

fn top_members(
    alloc: Global,
    known: &Known,
    words: Words,
    top: &Top,
    out: &mut Items<Member>,
) -> Result<(), OutOfMemory>
    ensures { OnOk result (out.new ≡ spec.top_members known.now words top.now out.old) }
{
    match top {
        Top::Method(method) => method_members(alloc, known, method, out),
        Top::Decl(annotations, decl) => {
            if words.has_field(annotations.as_slice()) {
                let flags = decl_flags(decl);
                field_members(alloc, known, decl.written, flags, decl.vars.as_slice(), out)
            } else {
                Ok(())
            }
        }
        _ => Ok(()),
    }
}

/// Adds the script's class, with the members that all scripts declare, and behind it each class of each script.
pub fn declare_all(
    alloc: Global,
    known: &Known,
    words: Words,
    scripts: &[Script],
    classes: &mut Classes,
) -> Result<(), OutOfMemory>
    ensures { OnOk result (classes.new ≡ classes.old ++ spec.all_declared known.now words scripts.now) }
{
    classes.add(script_class(alloc, known, words, scripts)?)?;
    add_classes(alloc, known, scripts, classes)
}

fn script_class(
    alloc: Global,
    known: &Known,
    words: Words,
    scripts: &[Script],
) -> Result<Declared, OutOfMemory>
    ensures { IfOk result (λ declared. declared ≡ spec.script_declared known.now (spec.all_members known.now words scripts.now)) }
{
    let mut members = Items::new(alloc);
    for script in scripts {
        declare_members(alloc, known, words, script, &mut members)?;
    }
    Ok(Declared {
        name: known.script,
        above: known.object,
        intercepts: false,
        place: Place {
            file: 0,
            line: 1,
            column: 1,
        },
        members,
    })
}

fn add_classes(
    alloc: Global,
    known: &Known,
    scripts: &[Script],
    classes: &mut Classes,
) -> Result<(), OutOfMemory>
    ensures { OnOk result (classes.new ≡ spec.scripts_classes known.now scripts.now classes.old) }
{
    for script in scripts {
        add_tops(alloc, known, script.tops.as_slice(), classes)?;
    }
    Ok(())
}

fn add_tops(
    alloc: Global,
    known: &Known,
    tops: &[Top],
    classes: &mut Classes,
) -> Result<(), OutOfMemory>
    ensures { OnOk result (classes.new ≡ spec.classes_declared known.now tops.now classes.old) }
{
    for top in tops {
        add_top(alloc, known, top, classes)?;
    }
    Ok(())
}

fn add_top(
    alloc: Global,
    known: &Known,
    top: &Top,
    classes: &mut Classes,
) -> Result<(), OutOfMemory>
    ensures { OnOk result (classes.new ≡ spec.top_class known.now top.now classes.old) }
{
    if let Top::Class(class) = top {
        classes.add(declare_class(alloc, known, class)?)?;
    }
    Ok(())
}
