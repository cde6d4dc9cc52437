//! The objects, by their numbers.

use gv_base::Value;

/// ""
pub const EMPTY: Value = Value::Obj(0);
/// "a"
pub const A: Value = Value::Obj(1);
/// "x"
pub const X: Value = Value::Obj(2);
/// "ax"
pub const AX: Value = Value::Obj(3);
/// "n=1"
pub const N1: Value = Value::Obj(4);
/// A closure, and another one.
pub const F: Value = Value::Obj(5);

pub const G: Value = Value::Obj(6);
/// An instance, and another one.
pub const ITEM: Value = Value::Obj(7);

pub const OTHER: Value = Value::Obj(8);
/// The metaobjects of the class String, of a member of it, of a method of it.
pub const META_CLASS: Value = Value::Obj(9);

pub const META_MEMBER: Value = Value::Obj(10);

pub const META_METHOD: Value = Value::Obj(11);
/// 1..3
pub const UP: Value = Value::Obj(12);
/// 3..1
pub const DOWN: Value = Value::Obj(13);
/// 1..<1
pub const NO_RANGE: Value = Value::Obj(14);
/// a = 1
pub const ENTRY: Value = Value::Obj(15);
/// a = 1, once more
pub const LIKE_ENTRY: Value = Value::Obj(16);
/// x = (a = 1)
pub const OUTER: Value = Value::Obj(17);
/// ITEM = LIST
pub const OF_BOTH: Value = Value::Obj(18);

/// A string without parts.
pub const NO_PARTS: Value = Value::Obj(19);
/// The piece "" and the value "".
pub const NO_TEXT: Value = Value::Obj(20);
/// The pieces "a" and "x".
pub const PIECES: Value = Value::Obj(21);
/// "n=${1}"
pub const ONE: Value = Value::Obj(22);
/// "n=${1}${-> F}"
pub const MIXED: Value = Value::Obj(23);
/// "${-> F}"
pub const LAZY: Value = Value::Obj(24);
/// "${ITEM}"
pub const OF_ITEM: Value = Value::Obj(25);
/// "a${LIST}x"
pub const AROUND: Value = Value::Obj(26);

/// []
pub const NO_LIST: Value = Value::Obj(27);
/// [1, "a"]
pub const LIST: Value = Value::Obj(28);
/// [1L, "a"]
pub const LONGS: Value = Value::Obj(29);
/// [1, 2, 3]
pub const THREE: Value = Value::Obj(30);
/// [1, ITEM, "x"]
pub const ITEMS: Value = Value::Obj(31);
/// [2, ITEM, "x"]
pub const UNLIKE: Value = Value::Obj(32);
/// [[], [1, "a"]]
pub const NESTED: Value = Value::Obj(33);
/// [[], [1L, "a"]]
pub const TWIN: Value = Value::Obj(34);
/// [[1, "a"], []]
pub const TURNED: Value = Value::Obj(35);
/// [NESTED, ITEM]
pub const DEEP: Value = Value::Obj(36);
/// [TWIN, OTHER]
pub const DEEP_TWIN: Value = Value::Obj(37);
/// [UP, MAP, PIECES]
pub const KINDS: Value = Value::Obj(38);
/// [ENTRY, F, String]
pub const SAID: Value = Value::Obj(39);
/// [ITEMS]
pub const OF_ITEMS: Value = Value::Obj(40);
/// [PIECES]
pub const OF_PIECES: Value = Value::Obj(41);
/// ["ax"]
pub const OF_AX: Value = Value::Obj(42);
/// [[PIECES]]
pub const AROUND_PIECES: Value = Value::Obj(43);
/// [["ax"]]
pub const AROUND_AX: Value = Value::Obj(44);

/// [:]
pub const NO_MAP: Value = Value::Obj(45);
/// [a: 1]
pub const MAP: Value = Value::Obj(46);
/// [x: 1]
pub const X_MAP: Value = Value::Obj(47);
/// [a: [1, "a"]]
pub const OF_LIST: Value = Value::Obj(48);
/// [a: [1L, "a"]]
pub const OF_LONGS: Value = Value::Obj(49);
/// [a: 1, x: ITEM]
pub const AB: Value = Value::Obj(50);
/// [x: OTHER, a: 1L]
pub const BA: Value = Value::Obj(51);
/// [1: null]
pub const OF_INT: Value = Value::Obj(52);
/// [1L: null]
pub const OF_LONG: Value = Value::Obj(53);
