ghost use Rattle.std.specs.Prelude.{◌≡◌, ◌++◌, IfOk, Some, codes, encode_utf8_all, string_bytes};
ghost use Rattle.std.specs.Fmt.{signed_decimal};
ghost use Rattle.std.specs.Str.{chars};
ghost use Rattle.gv_base.specs.declared.exception.ExceptionKind.TheVariants.{IllegalArgumentException, NumberFormatException, StringIndexOutOfBoundsException};
ghost use Rattle.gv_chars.specs.Chars as char;
ghost use Rattle.gv_rows.specs.Reply.{DoesThrow, said};

use gv_base::{ExceptionKind, OutOfMemory};
use gv_chars::trimmed;
use gv_rows::{Done, throw, throw_joined};
use std::alloc::Global;

/// A place that isn't there, as it was given.
pub(crate) fn throw_outside(alloc: Global, given: i64) -> Done
    ensures { DoesThrow StringIndexOutOfBoundsException (said (codes "String index out of range: ") (signed_decimal given)) result }
{
    let Ok(number) = number_text(alloc, given) else {
        return Done::OutOfMemory;
    };
    throw_joined(
        alloc,
        ExceptionKind::StringIndexOutOfBoundsException,
        "String index out of range: ",
        number.as_str(),
    )
}

/// A count below 0.
pub(crate) fn throw_negative(alloc: Global, n: i64) -> Done
    ensures { DoesThrow IllegalArgumentException (said (codes "Negative count: ") (signed_decimal n)) result }
{
    let Ok(number) = number_text(alloc, n) else {
        return Done::OutOfMemory;
    };
    throw_joined(
        alloc,
        ExceptionKind::IllegalArgumentException,
        "Negative count: ",
        number.as_str(),
    )
}

fn number_text(alloc: Global, n: i64) -> Result<String, OutOfMemory>
    ensures { IfOk result (λ text. string_bytes text ≡ signed_decimal n) }
{
    format!(in alloc; "{n}")
}

/// An item of the places to read is no number.
pub(crate) fn throw_bad_places(alloc: Global) -> Done
    ensures { DoesThrow IllegalArgumentException (said (codes "Bad arguments: ") (codes "getAt")) result }
{
    throw_joined(
        alloc,
        ExceptionKind::IllegalArgumentException,
        "Bad arguments: ",
        "getAt",
    )
}

/// There is nothing to pad with.
pub(crate) fn throw_empty_padding(alloc: Global) -> Done
    ensures { DoesThrow IllegalArgumentException (Some (codes "Empty padding")) result }
{
    throw(ExceptionKind::IllegalArgumentException, padding_text(alloc))
}

fn padding_text(alloc: Global) -> Result<String, OutOfMemory>
    ensures { IfOk result (λ text. string_bytes text ≡ codes "Empty padding") }
{
    String::from_str(alloc, "Empty padding")
}

/// A text that writes no number, or one out of the kind's range.
pub(crate) fn throw_no_number(alloc: Global, text: &str) -> Done
    ensures { DoesThrow NumberFormatException (Some (codes "For input string: \"" ++ encode_utf8_all (char.trimmed (chars text.now)) ++ codes "\"")) result }
{
    throw(
        ExceptionKind::NumberFormatException,
        input_text(alloc, text),
    )
}

fn input_text(alloc: Global, text: &str) -> Result<String, OutOfMemory>
    ensures { IfOk result (λ made. string_bytes made ≡ codes "For input string: \"" ++ encode_utf8_all (char.trimmed (chars text.now)) ++ codes "\"") }
{
    let number = trimmed(text);
    format!(in alloc; "For input string: \"{number}\"")
}
