use gv_natives::Takes::{
    Any, Closure, Integer, IntegerOrList, List, Map, Nothing, Number, NumberOrText, Text,
};
use gv_natives::{ANY_ARITY, Kind, ROWS, Row, Table, Takes, built_in};

/// Kind, name and number of arguments of a call, and of the method that it finds the arity, what its
/// parameters take, and whether it calls script code or enters inner collections.
const EXPECTED: [(Kind, &str, u8, u8, Takes, Takes, bool); 66] = [
    (Kind::Object, "println", 0, 0, Nothing, Nothing, false),
    (Kind::Object, "println", 1, 1, Any, Nothing, true),
    (Kind::Object, "toString", 0, 0, Nothing, Nothing, true),
    (Kind::Object, "is", 1, 1, Any, Nothing, false),
    (Kind::Object, "with", 1, 1, Closure, Nothing, true),
    (Kind::Object, "use", 3, ANY_ARITY, Any, Any, true),
    (Kind::Object, "isCase", 1, 1, Any, Nothing, true),
    (Kind::Object, "asBoolean", 0, 0, Nothing, Nothing, false),
    (Kind::Number, "plus", 1, 1, NumberOrText, Nothing, false),
    (Kind::Number, "intdiv", 1, 1, Number, Nothing, false),
    (
        Kind::Number,
        "rightShiftUnsigned",
        1,
        1,
        Number,
        Nothing,
        false,
    ),
    (Kind::Number, "previous", 0, 0, Nothing, Nothing, false),
    (Kind::Number, "compareTo", 1, 1, Number, Nothing, false),
    (Kind::Number, "times", 1, 1, Closure, Nothing, true),
    (Kind::Number, "downto", 2, 2, Number, Closure, true),
    (Kind::Number, "toLong", 0, 0, Nothing, Nothing, false),
    (Kind::Boolean, "and", 1, 1, Any, Nothing, false),
    (Kind::Boolean, "xor", 1, 1, Any, Nothing, false),
    (Kind::String, "plus", 1, 1, Any, Nothing, true),
    (Kind::String, "multiply", 1, 1, Number, Nothing, false),
    (Kind::String, "minus", 1, 1, Any, Nothing, true),
    (Kind::String, "getAt", 1, 1, IntegerOrList, Nothing, false),
    (Kind::String, "lastIndexOf", 1, 1, Text, Nothing, false),
    (Kind::String, "substring", 1, 1, Integer, Nothing, false),
    (Kind::String, "substring", 2, 2, Integer, Integer, false),
    (Kind::String, "replace", 2, 2, Text, Text, false),
    (Kind::String, "tokenize", 0, 0, Nothing, Nothing, false),
    (Kind::String, "tokenize", 1, 1, Text, Nothing, false),
    (Kind::String, "padRight", 1, 1, Integer, Nothing, false),
    (Kind::String, "padRight", 2, 2, Integer, Text, false),
    (Kind::String, "each", 1, 1, Closure, Nothing, true),
    (Kind::List, "getAt", 1, 1, IntegerOrList, Nothing, false),
    (Kind::List, "putAt", 2, 2, Integer, Any, false),
    (Kind::List, "add", 1, 1, Any, Nothing, false),
    (Kind::List, "add", 2, 2, Integer, Any, false),
    (Kind::List, "addAll", 1, 1, List, Nothing, false),
    (Kind::List, "plus", 1, 1, Any, Nothing, false),
    (Kind::List, "minus", 1, 1, Any, Nothing, true),
    (Kind::List, "multiply", 1, 1, Number, Nothing, false),
    (Kind::List, "remove", 1, 1, Any, Nothing, true),
    (Kind::List, "take", 1, 1, Number, Nothing, false),
    (Kind::List, "sort", 0, 0, Nothing, Nothing, true),
    (Kind::List, "sort", 1, 1, Closure, Nothing, true),
    (Kind::List, "max", 0, 0, Nothing, Nothing, true),
    (Kind::List, "join", 1, 1, Text, Nothing, true),
    (Kind::List, "flatten", 0, 0, Nothing, Nothing, true),
    (Kind::List, "toList", 0, 0, Nothing, Nothing, false),
    (Kind::List, "inject", 2, 2, Any, Closure, true),
    (Kind::List, "count", 1, 1, Any, Nothing, true),
    (Kind::Map, "get", 1, 1, Any, Nothing, false),
    (Kind::Map, "get", 2, 2, Any, Any, false),
    (Kind::Map, "putAt", 2, 2, Any, Any, false),
    (Kind::Map, "containsKey", 1, 1, Any, Nothing, false),
    (Kind::Map, "containsValue", 1, 1, Any, Nothing, true),
    (Kind::Map, "putAll", 1, 1, Map, Nothing, false),
    (Kind::Map, "every", 1, 1, Closure, Nothing, true),
    (Kind::Closure, "call", 0, ANY_ARITY, Any, Any, true),
    (Kind::Closure, "ncurry", 2, ANY_ARITY, Any, Any, false),
    (Kind::Closure, "rightShift", 1, 1, Closure, Nothing, false),
    (Kind::Class, "newInstance", 7, ANY_ARITY, Any, Any, true),
    (Kind::MetaClass, "getMetaMethod", 2, 2, Text, List, false),
    (Kind::MetaMember, "leftShift", 1, 1, Closure, Nothing, false),
    (Kind::MetaMethod, "invoke", 2, 2, Any, List, true),
    (Kind::Throwable, "getMessage", 0, 0, Nothing, Nothing, false),
    (Kind::Throwable, "getCause", 0, 0, Nothing, Nothing, false),
    (Kind::Entry, "getKey", 0, 0, Nothing, Nothing, false),
];

/// How many methods each kind has.
const COUNTS: [(Kind, usize); 13] = [
    (Kind::Object, 12),
    (Kind::Number, 22),
    (Kind::Boolean, 3),
    (Kind::String, 30),
    (Kind::List, 44),
    (Kind::Map, 23),
    (Kind::Closure, 6),
    (Kind::Class, 1),
    (Kind::MetaClass, 1),
    (Kind::MetaMember, 1),
    (Kind::MetaMethod, 1),
    (Kind::Throwable, 2),
    (Kind::Entry, 2),
];

/// Calls that find nothing.
const MISSING: [(Kind, &str, u8); 8] = [
    (Kind::Object, "println", 2),
    (Kind::Object, "size", 0),
    (Kind::Number, "println", 1),
    (Kind::Number, "plus", 0),
    (Kind::String, "join", 1),
    (Kind::List, "join", 0),
    (Kind::List, "nothing", 1),
    (Kind::Map, "Put", 2),
];

#[test]
fn built_in_methods(rt: HostRuntime) {
    let table = built_in();
    for (kind, name, arguments, arity, first, second, walks) in EXPECTED {
        let found = table.find(name, kind, arguments);
        assert!(rt; found.is_some(), "{name} of {kind:?}");
        if let Some(id) = found {
            assert_eq!(rt;
                *table.row(id),
                Row {
                    name,
                    kind,
                    arity,
                    first,
                    second,
                    walks
                }
            );
        }
    }
    for (kind, name, arguments) in MISSING {
        assert_eq!(rt;
            table.find(name, kind, arguments),
            None,
            "{name} of {kind:?}"
        );
    }
}

#[test]
fn methods_of_each_kind(rt: HostRuntime) {
    let table = built_in();
    for (kind, methods) in COUNTS {
        let mut count = 0;
        for id in 0..ROWS {
            if table.row(id).kind == kind {
                count += 1;
            }
        }
        assert_eq!(rt; count, methods, "{kind:?}");
    }
}

fn method(name: &'static str, kind: Kind, arity: u8) -> Row {
    Row {
        name,
        kind,
        arity,
        first: Any,
        second: Any,
        walks: false,
    }
}

#[test]
fn small_tables(rt: HostRuntime) {
    let empty: Option<Table<0>> = Table::new([]);
    assert!(rt; empty.is_some());
    let any = method("m", Kind::List, ANY_ARITY);
    let one = method("m", Kind::List, 1);
    let map = method("m", Kind::Map, 1);
    assert!(rt; Table::new([any, map, any]).is_none());
    assert!(rt; Table::new([one, method("m", Kind::List, 1)]).is_none());
    let table = Table::new([any, one, map]).expect(&rt, "distinct rows");
    for (kind, arguments, place) in [
        (Kind::List, 0, Some(0)),
        (Kind::List, 1, Some(1)),
        (Kind::List, 255, Some(0)),
        (Kind::Map, 1, Some(2)),
        (Kind::Map, 2, None),
        (Kind::Object, 1, None),
    ] {
        assert_eq!(rt;
            table.find("m", kind, arguments),
            place,
            "{kind:?} {arguments}"
        );
    }
    assert_eq!(rt; table.find("n", Kind::List, 1), None);
    assert_eq!(rt; *table.row(2), map);
}
