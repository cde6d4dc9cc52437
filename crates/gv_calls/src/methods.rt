ghost use Rattle.std.specs.Prelude.{◌≡◌, ◌++◌, IfOk, OnOk};
ghost use Rattle.gv_base.specs.Arith.{arith_of};
ghost use Rattle.gv_calls.specs.Told.{answer_of};
ghost use Rattle.gv_meaning.specs.Calls as spec;

use crate::raise::raise;
use crate::told::Told;
use gv_base::{Arith, ArithOp, ExceptionKind, OutOfMemory, Value, arith};
use gv_heap::{Heap, Object};
use gv_meaning::{Output, World};
use itoa::Buffer;
use std::alloc::Global;

/// What the row of a name does. Those that aren't built answer null.
pub(crate) fn run_row(
    alloc: Global,
    world: &mut World,
    name: &str,
    receiver: Value,
    args: &[Value],
) -> Result<Told, OutOfMemory>
    ensures { IfOk result (λ told. answer_of told world.new ≡ spec.row_answer name.now receiver args.now world.old) }
{
    let [arg] = args else {
        return Ok(Told::Got(Value::Null));
    };
    if name == "plus" {
        operate(alloc, world, ArithOp::Plus, receiver, *arg)
    } else if name == "minus" {
        operate(alloc, world, ArithOp::Minus, receiver, *arg)
    } else if name == "multiply" {
        operate(alloc, world, ArithOp::Multiply, receiver, *arg)
    } else if name == "compareTo" {
        Ok(Told::Got(compare_numbers(receiver, *arg)))
    } else if name == "println" {
        print_line(world, *arg)
    } else {
        Ok(Told::Got(Value::Null))
    }
}

/// An operation on two values.
fn operate(
    alloc: Global,
    world: &mut World,
    op: ArithOp,
    a: Value,
    b: Value,
) -> Result<Told, OutOfMemory>
    ensures { IfOk result (λ told. answer_of told world.new ≡ spec.arith_answer (arith_of op a b) world.old) }
{
    match arith(op, a, b) {
        Arith::Value(value) => Ok(Told::Got(value)),
        Arith::ByZero => raise(
            alloc,
            world,
            ExceptionKind::ArithmeticException,
            "/ by zero",
        ),
        Arith::NotNumbers => Ok(Told::Got(Value::Null)),
    }
}

/// How a number compares to another; null where one is none.
fn compare_numbers(a: Value, b: Value) -> Value
    ensures { result ≡ spec.number_compared a b }
{
    match (a, b) {
        (Value::Int(a), Value::Int(b)) => compare(i64::from(a), i64::from(b)),
        (Value::Int(a), Value::Long(b)) => compare(i64::from(a), b),
        (Value::Long(a), Value::Int(b)) => compare(a, i64::from(b)),
        (Value::Long(a), Value::Long(b)) => compare(a, b),
        _ => Value::Null,
    }
}

fn compare(a: i64, b: i64) -> Value
    ensures { result ≡ spec.compared a b }
{
    if a < b {
        Value::Int(-1)
    } else if a == b {
        Value::Int(0)
    } else {
        Value::Int(1)
    }
}

/// Prints the text of a value and a line end.
fn print_line(world: &mut World, value: Value) -> Result<Told, OutOfMemory>
    ensures { IfOk result (λ told. answer_of told world.new ≡ spec.printed value world.old) }
{
    put_text(&world.heap, value, &mut world.output)?;
    world.output.put(b"\n")?;
    Ok(Told::Got(Value::Null))
}

/// Puts the text of a value behind what was printed.
fn put_text(heap: &Heap, value: Value, output: &mut Output) -> Result<(), OutOfMemory>
    ensures { OnOk result (output.new ≡ output.old ++ spec.plain_text heap.now value) }
{
    match value {
        Value::Null => output.put(b"null"),
        Value::Bool(true) => output.put(b"true"),
        Value::Bool(false) => output.put(b"false"),
        Value::Int(number) => output.put(Buffer::new().format(number).as_bytes()),
        Value::Long(number) => output.put(Buffer::new().format(number).as_bytes()),
        Value::Class(_) => Ok(()),
        Value::Obj(id) => match heap.get(id) {
            Some(Object::Text(text)) => output.put(text.as_str().as_bytes()),
            _ => Ok(()),
        },
    }
}
