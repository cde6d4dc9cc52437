//! Scripts with the accessors of their properties.

ghost use Rattle.std.specs.Prelude.{◌≡◌, ◌++◌, map, IfOk, OnOk};
ghost use Rattle.gv_declare.specs.Members.{all_members};
ghost use Rattle.gv_tree.specs.declared.top.Top.TheVariants as top;
ghost use Rattle.gv_accessors.specs.Accessors as spec;

use crate::adding::{Adding, keys_of};
use crate::class::convert_class;
use crate::known::Known;
use crate::turned::turned;
use gv_base::{Names, OutOfMemory};
use gv_classes::Member;
use gv_declare::declare_members;
use gv_keys::Keys;
use gv_tree::{Method, Script, Top};
use sqlite_items::Items;
use std::alloc::Global;

/// The scripts of all files, with the accessors of the properties of their classes, and of those that they declare with
/// `@Field`. The table has the accessors' names from then on.
pub fn convert(
    alloc: Global,
    known: &Known,
    names: &mut Names,
    scripts: Vec<Script>,
) -> Result<Vec<Script>, OutOfMemory>
    ensures scripts { IfOk result (λ made. made.items ≡ (spec.converted known.now names.old scripts.items).scripts) }
    ensures names { OnOk result (names.new ≡ (spec.converted known.now names.old scripts.items).names) }
{
    let mut keys = script_keys(alloc, known, scripts.as_slice())?;
    let mut left = scripts;
    left.reverse();
    let mut made = Vec::new(alloc);
    while let Some(script) = left.pop() {
        let (next, script) = convert_script(alloc, known, names, keys, script)?;
        keys = next;
        made.push(script)?;
    }
    Ok(made)
}

fn script_keys(alloc: Global, known: &Known, scripts: &[Script]) -> Result<Keys, OutOfMemory>
    ensures { IfOk result (λ keys. keys ≡ spec.script_keys known.now scripts.now) }
{
    let members = all_members(alloc, known, scripts)?;
    keys_of(alloc, members.as_slice())
}

fn all_members(
    alloc: Global,
    known: &Known,
    scripts: &[Script],
) -> Result<Items<Member>, OutOfMemory>
    ensures { IfOk result (λ members. members ≡ all_members known.now.declare known.now.words scripts.now) }
{
    let mut members = Items::new(alloc);
    for script in scripts {
        declare_members(alloc, &known.declare, known.words, script, &mut members)?;
    }
    Ok(members)
}

fn convert_script(
    alloc: Global,
    known: &Known,
    names: &mut Names,
    keys: Keys,
    script: Script,
) -> Result<(Keys, Script), OutOfMemory>
    ensures { IfOk result (λ made. (names.new, made) ≡ spec.script_converted known.now script keys names.old) }
{
    let tops = convert_tops(alloc, known, names, script.tops)?;
    let mut adding = Adding {
        keys,
        added: Items::new(alloc),
    };
    add_tops(alloc, known, names, tops.as_slice(), &mut adding)?;
    let tops = with_methods(alloc, tops, adding.added)?;
    Ok((adding.keys, Script { tops }))
}

fn convert_tops(
    alloc: Global,
    known: &Known,
    names: &mut Names,
    tops: Items<Top>,
) -> Result<Items<Top>, OutOfMemory>
    ensures { IfOk result (λ made. (names.new, made) ≡ spec.tops_converted known.now tops names.old) }
{
    let mut made = Items::new(alloc);
    let mut left = turned(alloc, tops)?;
    while let Some(top) = left.pop() {
        convert_top(alloc, known, names, top, &mut made)?;
    }
    Ok(made)
}

fn convert_top(
    alloc: Global,
    known: &Known,
    names: &mut Names,
    top: Top,
    made: &mut Items<Top>,
) -> Result<(), OutOfMemory>
    ensures { OnOk result ((names.new, made.new) ≡ spec.top_converted known.now top (names.old, made.old)) }
{
    match top {
        Top::Class(class) => {
            made.push(Top::Class(convert_class(alloc, known, names, class)?))?;
        }
        other => made.push(other)?,
    }
    Ok(())
}

fn add_tops(
    alloc: Global,
    known: &Known,
    names: &mut Names,
    tops: &[Top],
    adding: &mut Adding,
) -> Result<(), OutOfMemory>
    ensures { OnOk result ((names.new, adding.new) ≡ spec.each (spec.top_added known.now) tops.now (names.old, adding.old)) }
{
    for top in tops {
        add_top(alloc, known, names, top, adding)?;
    }
    Ok(())
}

fn add_top(
    alloc: Global,
    known: &Known,
    names: &mut Names,
    top: &Top,
    adding: &mut Adding,
) -> Result<(), OutOfMemory>
    ensures { OnOk result ((names.new, adding.new) ≡ spec.top_added known.now top.now (names.old, adding.old)) }
{
    if let Top::Decl(annotations, decl) = top {
        if known.words.has_field(annotations.as_slice()) {
            let vars = decl.vars.as_slice();
            adding.add_vars(
                alloc,
                known,
                names,
                decl.written,
                false,
                decl.is_final,
                vars,
            )?;
        }
    }
    Ok(())
}

fn with_methods(
    alloc: Global,
    tops: Items<Top>,
    methods: Items<Method>,
) -> Result<Items<Top>, OutOfMemory>
    ensures { IfOk result (λ made. made ≡ tops ++ map (λ m. top.Method m) methods) }
{
    let mut made = tops;
    let mut left = turned(alloc, methods)?;
    while let Some(method) = left.pop() {
        made.push(Top::Method(method))?;
    }
    Ok(made)
}
