//! The built-in classes.

ghost use Rattle.std.specs.Prelude.{◌≡◌, Some, map, IfOk, OnOk};
ghost use Rattle.gv_base.specs.Names.{name_of, with_name};
ghost use Rattle.gv_classes.specs.BuiltIn.{built_in_class, texts_of, with_texts};

use crate::declared::Declared;
use crate::table::Table;
use gv_base::{Names, OutOfMemory, Place};
use sqlite_items::Items;
use std::alloc::Global;

/// Their names, each with its superclass's, in the order of their numbers.
pub const TEXTS: [(&'static str, &'static str); 37] = [
    ("Object", "Object"),
    ("Number", "Object"),
    ("Integer", "Number"),
    ("Long", "Number"),
    ("Boolean", "Object"),
    ("String", "Object"),
    ("GString", "Object"),
    ("List", "Object"),
    ("Range", "List"),
    ("Map", "Object"),
    ("Closure", "Object"),
    ("Class", "Object"),
    ("Entry", "Object"),
    ("MetaClass", "Object"),
    ("MetaMember", "Object"),
    ("MetaMethod", "Object"),
    ("ExpandoMetaClass", "Object"),
    ("Throwable", "Object"),
    ("Exception", "Throwable"),
    ("Error", "Throwable"),
    ("AssertionError", "Error"),
    ("RuntimeException", "Exception"),
    ("NullPointerException", "RuntimeException"),
    ("IllegalArgumentException", "RuntimeException"),
    ("NumberFormatException", "IllegalArgumentException"),
    ("IllegalStateException", "RuntimeException"),
    ("IndexOutOfBoundsException", "RuntimeException"),
    (
        "StringIndexOutOfBoundsException",
        "IndexOutOfBoundsException",
    ),
    ("ArithmeticException", "RuntimeException"),
    ("NoSuchElementException", "RuntimeException"),
    ("UnsupportedOperationException", "RuntimeException"),
    ("ClassCastException", "RuntimeException"),
    ("GroovyCastException", "ClassCastException"),
    ("GroovyRuntimeException", "RuntimeException"),
    ("MissingMethodException", "GroovyRuntimeException"),
    ("MissingPropertyException", "GroovyRuntimeException"),
    ("ReadOnlyPropertyException", "MissingPropertyException"),
];

/// The classes of these rows, whose names are put into the table of names.
pub fn table_of(
    alloc: Global,
    names: &mut Names,
    rows: &[(&'static str, &'static str)],
) -> Result<Table, OutOfMemory>
    ensures classes { IfOk result (λ classes. classes ≡ map (built_in_class names.new) (texts_of rows.now)) }
    ensures names { OnOk result (names.new ≡ with_texts names.old (texts_of rows.now)) }
{
    let mut table = Table::new(alloc);
    for (name, above) in rows {
        let class = class_of(alloc, names, *name, *above)?;
        table.push(class)?;
    }
    Ok(table)
}

/// The class of a name and its superclass's, which are put into the table of names.
fn class_of(
    alloc: Global,
    names: &mut Names,
    name: &str,
    above: &str,
) -> Result<Declared, OutOfMemory>
    ensures name { IfOk result (λ class. name_of names.new name.now ≡ Some class.name) }
    ensures above { IfOk result (λ class. name_of names.new above.now ≡ Some class.above) }
    ensures rest { IfOk result (λ class. class ≡ built_in_class names.new (name.now, above.now)) }
    ensures names { OnOk result (names.new ≡ with_name (with_name names.old name.now) above.now) }
{
    let name = names.intern(name)?;
    let above = names.intern(above)?;
    Ok(Declared {
        name,
        above,
        intercepts: false,
        place: Place {
            file: 0,
            line: 1,
            column: 1,
        },
        members: Items::new(alloc),
    })
}
