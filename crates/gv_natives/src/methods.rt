//! The rows of the built-in methods.

ghost use Rattle.std.specs.Prelude.{◌≡◌, true, length};
ghost use Rattle.gv_natives.specs.Table.{are_distinct};
ghost use Rattle.gv_natives.specs.BuiltIn.{built_in};

use crate::kinds::{ANY_ARITY, Kind, Row, Takes};
use crate::table::{RowTable, Table};

/// How many built-in methods there are.
pub const ROWS: usize = 148;

/// The rows, each handed to the macro `row` as name, kind, arity, the two parameters, and whether it walks.
macro_rules! rows {
    ($row:ident) => {
        [
            $row!("println", Object, 0, Nothing, Nothing, false),
            $row!("println", Object, 1, Any, Nothing, true),
            $row!("print", Object, 1, Any, Nothing, true),
            $row!("toString", Object, 0, Nothing, Nothing, true),
            $row!("equals", Object, 1, Any, Nothing, true),
            $row!("hashCode", Object, 0, Nothing, Nothing, true),
            $row!("is", Object, 1, Any, Nothing, false),
            $row!("getClass", Object, 0, Nothing, Nothing, false),
            $row!("with", Object, 1, Closure, Nothing, true),
            $row!("use", Object, ANY_ARITY, Any, Any, true),
            $row!("isCase", Object, 1, Any, Nothing, true),
            $row!("asBoolean", Object, 0, Nothing, Nothing, false),
            $row!("plus", Number, 1, NumberOrText, Nothing, false),
            $row!("minus", Number, 1, Number, Nothing, false),
            $row!("multiply", Number, 1, Number, Nothing, false),
            $row!("mod", Number, 1, Number, Nothing, false),
            $row!("intdiv", Number, 1, Number, Nothing, false),
            $row!("leftShift", Number, 1, Number, Nothing, false),
            $row!("rightShift", Number, 1, Number, Nothing, false),
            $row!("rightShiftUnsigned", Number, 1, Number, Nothing, false),
            $row!("and", Number, 1, Number, Nothing, false),
            $row!("or", Number, 1, Number, Nothing, false),
            $row!("xor", Number, 1, Number, Nothing, false),
            $row!("negative", Number, 0, Nothing, Nothing, false),
            $row!("positive", Number, 0, Nothing, Nothing, false),
            $row!("next", Number, 0, Nothing, Nothing, false),
            $row!("previous", Number, 0, Nothing, Nothing, false),
            $row!("abs", Number, 0, Nothing, Nothing, false),
            $row!("compareTo", Number, 1, Number, Nothing, false),
            $row!("times", Number, 1, Closure, Nothing, true),
            $row!("upto", Number, 2, Number, Closure, true),
            $row!("downto", Number, 2, Number, Closure, true),
            $row!("toInteger", Number, 0, Nothing, Nothing, false),
            $row!("toLong", Number, 0, Nothing, Nothing, false),
            $row!("and", Boolean, 1, Any, Nothing, false),
            $row!("or", Boolean, 1, Any, Nothing, false),
            $row!("xor", Boolean, 1, Any, Nothing, false),
            $row!("plus", String, 1, Any, Nothing, true),
            $row!("leftShift", String, 1, Any, Nothing, true),
            $row!("multiply", String, 1, Number, Nothing, false),
            $row!("minus", String, 1, Any, Nothing, true),
            $row!("length", String, 0, Nothing, Nothing, false),
            $row!("size", String, 0, Nothing, Nothing, false),
            $row!("isEmpty", String, 0, Nothing, Nothing, false),
            $row!("getAt", String, 1, IntegerOrList, Nothing, false),
            $row!("contains", String, 1, Text, Nothing, false),
            $row!("startsWith", String, 1, Text, Nothing, false),
            $row!("endsWith", String, 1, Text, Nothing, false),
            $row!("indexOf", String, 1, Text, Nothing, false),
            $row!("lastIndexOf", String, 1, Text, Nothing, false),
            $row!("substring", String, 1, Integer, Nothing, false),
            $row!("substring", String, 2, Integer, Integer, false),
            $row!("replace", String, 2, Text, Text, false),
            $row!("count", String, 1, Text, Nothing, false),
            $row!("tokenize", String, 0, Nothing, Nothing, false),
            $row!("tokenize", String, 1, Text, Nothing, false),
            $row!("trim", String, 0, Nothing, Nothing, false),
            $row!("reverse", String, 0, Nothing, Nothing, false),
            $row!("toList", String, 0, Nothing, Nothing, false),
            $row!("toInteger", String, 0, Nothing, Nothing, false),
            $row!("toLong", String, 0, Nothing, Nothing, false),
            $row!("padLeft", String, 1, Integer, Nothing, false),
            $row!("padLeft", String, 2, Integer, Text, false),
            $row!("padRight", String, 1, Integer, Nothing, false),
            $row!("padRight", String, 2, Integer, Text, false),
            $row!("compareTo", String, 1, Text, Nothing, false),
            $row!("each", String, 1, Closure, Nothing, true),
            $row!("size", List, 0, Nothing, Nothing, false),
            $row!("isEmpty", List, 0, Nothing, Nothing, false),
            $row!("getAt", List, 1, IntegerOrList, Nothing, false),
            $row!("putAt", List, 2, Integer, Any, false),
            $row!("add", List, 1, Any, Nothing, false),
            $row!("push", List, 1, Any, Nothing, false),
            $row!("addAll", List, 1, List, Nothing, false),
            $row!("add", List, 2, Integer, Any, false),
            $row!("leftShift", List, 1, Any, Nothing, false),
            $row!("plus", List, 1, Any, Nothing, false),
            $row!("minus", List, 1, Any, Nothing, true),
            $row!("multiply", List, 1, Number, Nothing, false),
            $row!("contains", List, 1, Any, Nothing, true),
            $row!("indexOf", List, 1, Any, Nothing, true),
            $row!("remove", List, 1, Any, Nothing, true),
            $row!("pop", List, 0, Nothing, Nothing, false),
            $row!("clear", List, 0, Nothing, Nothing, false),
            $row!("first", List, 0, Nothing, Nothing, false),
            $row!("last", List, 0, Nothing, Nothing, false),
            $row!("head", List, 0, Nothing, Nothing, false),
            $row!("tail", List, 0, Nothing, Nothing, false),
            $row!("take", List, 1, Number, Nothing, false),
            $row!("drop", List, 1, Number, Nothing, false),
            $row!("reverse", List, 0, Nothing, Nothing, false),
            $row!("sort", List, 0, Nothing, Nothing, true),
            $row!("sort", List, 1, Closure, Nothing, true),
            $row!("unique", List, 0, Nothing, Nothing, true),
            $row!("max", List, 0, Nothing, Nothing, true),
            $row!("min", List, 0, Nothing, Nothing, true),
            $row!("sum", List, 0, Nothing, Nothing, true),
            $row!("join", List, 1, Text, Nothing, true),
            $row!("flatten", List, 0, Nothing, Nothing, true),
            $row!("toList", List, 0, Nothing, Nothing, false),
            $row!("each", List, 1, Closure, Nothing, true),
            $row!("eachWithIndex", List, 1, Closure, Nothing, true),
            $row!("collect", List, 1, Closure, Nothing, true),
            $row!("collectEntries", List, 1, Closure, Nothing, true),
            $row!("find", List, 1, Closure, Nothing, true),
            $row!("findAll", List, 1, Closure, Nothing, true),
            $row!("any", List, 1, Closure, Nothing, true),
            $row!("every", List, 1, Closure, Nothing, true),
            $row!("inject", List, 2, Any, Closure, true),
            $row!("groupBy", List, 1, Closure, Nothing, true),
            $row!("count", List, 1, Any, Nothing, true),
            $row!("size", Map, 0, Nothing, Nothing, false),
            $row!("isEmpty", Map, 0, Nothing, Nothing, false),
            $row!("get", Map, 1, Any, Nothing, false),
            $row!("getAt", Map, 1, Any, Nothing, false),
            $row!("get", Map, 2, Any, Any, false),
            $row!("put", Map, 2, Any, Any, false),
            $row!("putAt", Map, 2, Any, Any, false),
            $row!("containsKey", Map, 1, Any, Nothing, false),
            $row!("containsValue", Map, 1, Any, Nothing, true),
            $row!("remove", Map, 1, Any, Nothing, false),
            $row!("clear", Map, 0, Nothing, Nothing, false),
            $row!("keySet", Map, 0, Nothing, Nothing, false),
            $row!("values", Map, 0, Nothing, Nothing, false),
            $row!("putAll", Map, 1, Map, Nothing, false),
            $row!("plus", Map, 1, Map, Nothing, false),
            $row!("leftShift", Map, 1, Map, Nothing, false),
            $row!("each", Map, 1, Closure, Nothing, true),
            $row!("collect", Map, 1, Closure, Nothing, true),
            $row!("collectEntries", Map, 1, Closure, Nothing, true),
            $row!("find", Map, 1, Closure, Nothing, true),
            $row!("findAll", Map, 1, Closure, Nothing, true),
            $row!("any", Map, 1, Closure, Nothing, true),
            $row!("every", Map, 1, Closure, Nothing, true),
            $row!("call", Closure, ANY_ARITY, Any, Any, true),
            $row!("curry", Closure, ANY_ARITY, Any, Any, false),
            $row!("rcurry", Closure, ANY_ARITY, Any, Any, false),
            $row!("ncurry", Closure, ANY_ARITY, Any, Any, false),
            $row!("leftShift", Closure, 1, Closure, Nothing, false),
            $row!("rightShift", Closure, 1, Closure, Nothing, false),
            $row!("newInstance", Class, ANY_ARITY, Any, Any, true),
            $row!("getMetaMethod", MetaClass, 2, Text, List, false),
            $row!("leftShift", MetaMember, 1, Closure, Nothing, false),
            $row!("invoke", MetaMethod, 2, Any, List, true),
            $row!("getMessage", Throwable, 0, Nothing, Nothing, false),
            $row!("getCause", Throwable, 0, Nothing, Nothing, false),
            $row!("getKey", Entry, 0, Nothing, Nothing, false),
            $row!("getValue", Entry, 0, Nothing, Nothing, false),
        ]
    };
}

macro_rules! as_tuple {
    ($name:literal, $kind:ident, $arity:expr, $first:ident, $second:ident, $walks:literal) => {
        (
            $name,
            Kind::$kind,
            $arity,
            Takes::$first,
            Takes::$second,
            $walks,
        )
    };
}

macro_rules! as_row {
    ($name:literal, $kind:ident, $arity:expr, $first:ident, $second:ident, $walks:literal) => {
        Row {
            name: $name,
            kind: Kind::$kind,
            arity: $arity,
            first: Takes::$first,
            second: Takes::$second,
            walks: $walks,
        }
    };
}

/// The rows as contracts name them: no clause names a constant that has a struct with a reference.
pub const TUPLES: [(&str, Kind, u8, Takes, Takes, bool); ROWS] = rows!(as_tuple);

static BUILT_IN: [Row; ROWS] = rows!(as_row);

/// The table of the built-in methods.
#[tactic(auto, unfolding(crate::specs::BuiltIn::built_in))]
pub fn built_in() -> Table<ROWS>
    ensures rows { result ≡ built_in }
    ensures number { length result ≡ ROWS }
    ensures distinct { are_distinct result ≡ true }
{
    let rows = &BUILT_IN;
    RowTable { rows: *rows }
}
