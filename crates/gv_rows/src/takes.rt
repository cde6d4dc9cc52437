ghost use Rattle.std.specs.Prelude.{◌≡◌, slice_get, Some};
ghost use Rattle.gv_natives.specs.BuiltIn.{built_in};
ghost use Rattle.gv_natives.specs.Table.{method_of};
ghost use Rattle.gv_rows.specs.Takes as spec;

use gv_base::{NativeId, Value};
use gv_natives::{Row, Takes, built_in};

/// The row of a number.
pub fn row_at(native: NativeId) -> Row
    requires { slice_get built_in native ≡ Some (spec.row_at native) }
    ensures { method_of result ≡ spec.row_at native }
{
    let table = built_in();
    *table.row(native)
}

/// Whether null is given where a row wants a kind.
pub fn lacks_one(row: &Row, args: &[Value]) -> bool
    ensures { result ≡ spec.lacks_one (method_of row.now) args.now }
{
    match args {
        [] => false,
        [first] => lacks(row.first, *first),
        [first, second, ..] => lacks(row.first, *first) || lacks(row.second, *second),
    }
}

fn lacks(takes: Takes, value: Value) -> bool
    ensures { result ≡ spec.lacks takes value }
{
    match takes {
        Takes::Any => false,
        _ => matches!(value, Value::Null),
    }
}
