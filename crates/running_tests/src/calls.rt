use gv_base::{ClassId, ExceptionKind, Limits, Names, OutOfMemory, Value};
use gv_calls::{Chosen, Told, call};
use gv_classes::{Classes, exception_class};
use gv_heap::Object;
use gv_meaning::{Why, World, opening};
use std::alloc::Global;
use std::test::Fail;

const PLENTY: Limits = Limits {
    ticks: 99,
    cells: 999,
    depth: 1,
};

const SCRIPT: Value = Value::Obj(0);
/// The String "abc".
const TEXT: Value = Value::Obj(1);

const NO_OBJECT: Value = Value::Obj(999);

/// A method, its receiver and its argument, and what it gives.
const GIVEN: [(&str, Value, Value, Value); 12] = [
    ("plus", Value::Int(1), Value::Int(2), Value::Int(3)),
    (
        "plus",
        Value::Int(2147483647),
        Value::Int(1),
        Value::Int(-2147483648),
    ),
    (
        "plus",
        Value::Int(2147483647),
        Value::Long(1),
        Value::Long(2147483648),
    ),
    ("minus", Value::Int(1), Value::Int(2), Value::Int(-1)),
    ("minus", Value::Long(5), Value::Int(2), Value::Long(3)),
    (
        "multiply",
        Value::Int(65536),
        Value::Int(65536),
        Value::Int(0),
    ),
    (
        "multiply",
        Value::Long(65536),
        Value::Long(65536),
        Value::Long(4294967296),
    ),
    ("compareTo", Value::Int(1), Value::Long(2), Value::Int(-1)),
    ("compareTo", Value::Long(2), Value::Long(2), Value::Int(0)),
    ("compareTo", Value::Int(3), Value::Int(2), Value::Int(1)),
    ("plus", Value::Int(1), Value::Null, Value::Null),
    ("is", SCRIPT, Value::Null, Value::Null),
];

const PRINTED: [Value; 7] = [
    Value::Null,
    Value::Bool(true),
    Value::Bool(false),
    Value::Int(-7),
    Value::Long(5000000000),
    Value::Class(2),
    TEXT,
];

/// A method, its receiver and its arguments, and the exception and message that it throws.
const THROWN: [(&str, &[Value], ExceptionKind, &str); 7] = [
    (
        "plus",
        &[Value::Null, Value::Int(1)],
        ExceptionKind::NullPointerException,
        "Cannot invoke method plus() on null object",
    ),
    (
        "plus",
        &[Value::Int(1), Value::Bool(true)],
        ExceptionKind::MissingMethodException,
        "No signature of method: Integer.plus() is applicable for argument types: (Boolean)",
    ),
    (
        "bark",
        &[TEXT],
        ExceptionKind::MissingMethodException,
        "No signature of method: String.bark() is applicable for argument types: ()",
    ),
    (
        "bark",
        &[Value::Long(1), Value::Null, TEXT, Value::Class(0)],
        ExceptionKind::MissingMethodException,
        "No signature of method: Long.bark() is applicable for argument types: (null, String, Class)",
    ),
    (
        "println",
        &[NO_OBJECT, Value::Int(1), Value::Int(2)],
        ExceptionKind::MissingMethodException,
        "No signature of method: Object.println() is applicable for argument types: (Integer, Integer)",
    ),
    (
        "println",
        &[Value::Int(1), NO_OBJECT],
        ExceptionKind::MissingMethodException,
        "No signature of method: Integer.println() is applicable for argument types: (Object)",
    ),
    (
        "length",
        &[TEXT, Value::Int(1)],
        ExceptionKind::MissingMethodException,
        "No signature of method: String.length() is applicable for argument types: (Integer)",
    ),
];

fn open(alloc: Global, limits: Limits) -> Result<World, OutOfMemory> {
    let mut names = Names::new(alloc);
    let classes = Classes::new(alloc, &mut names)?;
    let text = names.intern("abc")?;
    opening(alloc, &names, classes, &[text], limits)
}

fn told(
    alloc: Global,
    world: &mut World,
    name: &str,
    values: &[Value],
) -> Result<Option<Told>, OutOfMemory> {
    let name = world.names.intern(name)?;
    match call(alloc, world, name, values)? {
        Chosen::Else(told) => Ok(Some(told)),
        Chosen::Enter(..) => Ok(None),
    }
}

/// The class and the message of what was thrown.
fn thrown(world: &World, told: Option<Told>) -> Option<(ClassId, &str)> {
    let Some(Told::Threw(Value::Obj(id))) = told else {
        return None;
    };
    let Some(Object::Instance(instance)) = world.heap.get(id) else {
        return None;
    };
    let Some(Value::Obj(message)) = instance.fields.get(0) else {
        return None;
    };
    match world.heap.get(*message) {
        Some(Object::Text(text)) => Some((instance.class, text.as_str())),
        _ => None,
    }
}

/// The first case that gives something else.
fn wrong_value(
    alloc: Global,
    cases: &[(&str, Value, Value, Value)],
) -> Result<Option<usize>, OutOfMemory> {
    let mut world = open(alloc, PLENTY)?;
    for (place, case) in cases.iter().enumerate() {
        let (name, receiver, argument, value) = *case;
        if told(alloc, &mut world, name, &[receiver, argument])? != Some(Told::Got(value)) {
            return Ok(Some(place));
        }
    }
    Ok(None)
}

/// The first case that throws something else.
fn wrong_exception(
    alloc: Global,
    cases: &[(&str, &[Value], ExceptionKind, &str)],
) -> Result<Option<usize>, OutOfMemory> {
    let mut world = open(alloc, PLENTY)?;
    for (place, case) in cases.iter().enumerate() {
        let (name, values, kind, message) = *case;
        let told = told(alloc, &mut world, name, values)?;
        if thrown(&world, told) != Some((exception_class(kind), message)) {
            return Ok(Some(place));
        }
    }
    Ok(None)
}

/// Whether these values are printed so.
fn are_printed(alloc: Global, values: &[Value], lines: &[u8]) -> Result<bool, OutOfMemory> {
    let mut world = open(alloc, PLENTY)?;
    for value in values {
        told(alloc, &mut world, "println", &[SCRIPT, *value])?;
    }
    Ok(world.output.as_slice() == lines)
}

#[test]
fn methods_give_values(rt: HostRuntime) -> Result<(), Fail> {
    assert_eq!(rt; wrong_value(rt.alloc(), &GIVEN)?, None);
    Ok(())
}

#[test]
fn methods_that_are_not_there_throw(rt: HostRuntime) -> Result<(), Fail> {
    assert_eq!(rt; wrong_exception(rt.alloc(), &THROWN)?, None);
    Ok(())
}

#[test]
fn values_are_printed(rt: HostRuntime) -> Result<(), Fail> {
    let lines = b"null\ntrue\nfalse\n-7\n5000000000\n\nabc\n";
    assert!(rt; are_printed(rt.alloc(), &PRINTED, lines)?);
    Ok(())
}

#[test]
fn a_call_takes_a_tick(rt: HostRuntime) -> Result<(), Fail> {
    let mut world = open(rt.alloc(), Limits { ticks: 1, ..PLENTY })?;
    let values = [Value::Int(1), Value::Int(2)];
    assert_eq!(rt;
        told(rt.alloc(), &mut world, "plus", &[])?,
        Some(Told::Got(Value::Null))
    );
    assert_eq!(rt;
        told(rt.alloc(), &mut world, "plus", &values)?,
        Some(Told::Got(Value::Int(3)))
    );
    assert_eq!(rt;
        told(rt.alloc(), &mut world, "plus", &values)?,
        Some(Told::Stopped(Why::Ticks))
    );
    Ok(())
}

/// How a call on null ends, and the cells that it leaves. Its message takes 7, and the exception 3.
fn call_on_null(alloc: Global, cells: u64) -> Result<(bool, u64), OutOfMemory> {
    let mut world = open(alloc, Limits { cells, ..PLENTY })?;
    let told = told(alloc, &mut world, "plus", &[Value::Null])?;
    Ok((
        told == Some(Told::Stopped(Why::Cells)),
        world.heap.cells_left(),
    ))
}

#[test]
fn an_exception_takes_cells(rt: HostRuntime) -> Result<(), Fail> {
    assert_eq!(rt; call_on_null(rt.alloc(), 6)?, (true, 6));
    assert_eq!(rt; call_on_null(rt.alloc(), 9)?, (true, 2));
    assert_eq!(rt; call_on_null(rt.alloc(), 10)?, (false, 0));
    Ok(())
}
