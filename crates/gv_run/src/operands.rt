//! Operands, and the place of the next instruction. Where a place can't be counted, memory is wanting for its code.

ghost use Rattle.std.specs.Prelude.{◌≡◌, ◌∷◌, ◌+◌, [], IfOk};
ghost use Rattle.gv_meaning.specs.World.{const_value, literal_in, is_true, are_equal, ordered};

use crate::state::{Mode, Running};
use gv_base::{Name, ObjId, OutOfMemory, Value, plain_equal, plain_truth};
use gv_calls::Told;
use gv_core::{Const, Order};
use gv_meaning::{Why, World};

/// The end of code that lacks an operand.
pub(crate) fn no_operand() -> Mode
    ensures { result ≡ Mode.Over (Told.Stopped Why.Ticks) }
{
    Mode::Over(Told::Stopped(Why::Ticks))
}

/// The body goes on so many instructions behind the next one.
pub(crate) fn go_on(now: Running, n: usize) -> Result<Mode, OutOfMemory>
    ensures { IfOk result (λ mode. mode ≡ Mode.At (record now { at = now.at + 1 + n })) }
{
    let next = now.at.checked_add(1).ok_or(OutOfMemory)?;
    let at = next.checked_add(n).ok_or(OutOfMemory)?;
    let mut now = now;
    now.at = at;
    Ok(Mode::At(now))
}

/// The body goes on with another operand.
pub(crate) fn push_on(now: Running, v: Value) -> Result<Mode, OutOfMemory>
    ensures { IfOk result (λ mode. mode ≡ Mode.At (record now { at = now.at + 1; stack = v ∷ now.stack })) }
{
    let mut now = now;
    now.stack.push(v)?;
    go_on(now, 0)
}

fn literal(literals: &[(Name, ObjId)], text: Name) -> Value
    ensures { result ≡ literal_in literals.now text }
{
    for l in literals {
        if l.0 == text {
            return Value::Obj(l.1);
        }
    }
    Value::Null
}

pub(crate) fn constant(world: &World, constant: Const) -> Value
    ensures { result ≡ const_value constant world.now }
{
    match constant {
        Const::Null => Value::Null,
        Const::Bool(b) => Value::Bool(b),
        Const::Int(n) => Value::Int(n),
        Const::Long(n) => Value::Long(n),
        Const::Text(text) => literal(world.literals.as_slice(), text),
    }
}

pub(crate) fn is_true(v: Value) -> bool
    ensures { result ≡ is_true v }
{
    plain_truth(v).unwrap_or(true)
}

pub(crate) fn are_equal(a: Value, b: Value) -> bool
    ensures { result ≡ are_equal a b }
{
    plain_equal(a, b).unwrap_or(false)
}

pub(crate) fn ordered(order: Order, v: Value) -> Value
    ensures { result ≡ ordered order v }
{
    let Value::Int(n) = v else {
        return Value::Null;
    };
    Value::Bool(match order {
        Order::Less => n < 0,
        Order::LessEqual => n <= 0,
        Order::Greater => n > 0,
        Order::GreaterEqual => n >= 0,
    })
}
