ghost use Rattle.std.specs.Prelude.{◌≡◌, min, option_map};
ghost use Rattle.gv_meaning.specs.Calls as spec;
ghost use Rattle.gv_natives.specs.Table.{method_of};

use gv_natives::{ANY_ARITY, Kind, Row, built_in};

/// The row of a name for so many arguments: that of the nearest kind.
pub(crate) fn row_for(kinds: &[Kind], name: &str, arguments: usize) -> Option<Row>
    ensures { option_map method_of result ≡ spec.row_at (spec.row_in kinds.now name.now arguments) }
{
    let table = built_in();
    let arity = arity_of(arguments);
    for kind in kinds {
        if let Some(native) = table.find(name, *kind, arity) {
            return Some(*table.row(native));
        }
    }
    None
}

/// A number of arguments as rows count them: more than they can count fit only a row that takes any number.
fn arity_of(arguments: usize) -> u8
    ensures { result ≡ min arguments ANY_ARITY }
{
    u8::try_from(arguments).unwrap_or(ANY_ARITY)
}
