ghost use Rattle.std.specs.Prelude.{◌≡◌, ◌++◌, IfOk, codes, string_bytes};
ghost use Rattle.std.specs.Fmt.{decimal, signed_decimal};
ghost use Rattle.gv_base.specs.declared.exception.ExceptionKind.TheVariants.{IllegalArgumentException, IndexOutOfBoundsException, NoSuchElementException};
ghost use Rattle.gv_rows.specs.Reply.{DoesThrow, said};

use gv_base::{ExceptionKind, OutOfMemory};
use gv_rows::{Done, throw_joined};
use std::alloc::Global;

/// A place out of bounds, as it was given, among so many elements.
pub(crate) fn throw_outside(alloc: Global, given: i64, size: usize) -> Done
    ensures { DoesThrow IndexOutOfBoundsException (said (codes "Index: " ++ signed_decimal given) (codes ", Size: " ++ decimal size)) result }
{
    let Ok(index) = index_text(alloc, given) else {
        return Done::OutOfMemory;
    };
    let Ok(size) = size_text(alloc, size) else {
        return Done::OutOfMemory;
    };
    throw_joined(
        alloc,
        ExceptionKind::IndexOutOfBoundsException,
        index.as_str(),
        size.as_str(),
    )
}

fn index_text(alloc: Global, given: i64) -> Result<String, OutOfMemory>
    ensures { IfOk result (λ text. string_bytes text ≡ codes "Index: " ++ signed_decimal given) }
{
    format!(in alloc; "Index: {given}")
}

fn size_text(alloc: Global, size: usize) -> Result<String, OutOfMemory>
    ensures { IfOk result (λ text. string_bytes text ≡ codes ", Size: " ++ decimal size) }
{
    format!(in alloc; ", Size: {size}")
}

/// An element of an empty list is asked for.
pub(crate) fn throw_empty(alloc: Global, name: &str) -> Done
    ensures { DoesThrow NoSuchElementException (said name.now (codes "() of an empty list")) result }
{
    throw_joined(
        alloc,
        ExceptionKind::NoSuchElementException,
        name,
        "() of an empty list",
    )
}

/// A count below 0.
pub(crate) fn throw_negative(alloc: Global, n: i64) -> Done
    ensures { DoesThrow IllegalArgumentException (said (codes "Negative count: ") (signed_decimal n)) result }
{
    let Ok(number) = number_text(alloc, n) else {
        return Done::OutOfMemory;
    };
    throw_joined(
        alloc,
        ExceptionKind::IllegalArgumentException,
        "Negative count: ",
        number.as_str(),
    )
}

fn number_text(alloc: Global, n: i64) -> Result<String, OutOfMemory>
    ensures { IfOk result (λ text. string_bytes text ≡ signed_decimal n) }
{
    format!(in alloc; "{n}")
}

/// An item of the places to read is no number.
pub(crate) fn throw_bad_places(alloc: Global) -> Done
    ensures { DoesThrow IllegalArgumentException (said (codes "Bad arguments: ") (codes "getAt")) result }
{
    throw_joined(
        alloc,
        ExceptionKind::IllegalArgumentException,
        "Bad arguments: ",
        "getAt",
    )
}
