//! A heap for tests of walks: texts, closures, instances, metaobjects, ranges, entries, strings with parts, lists and maps, each with a
//! name by which tables speak of it.
//!
//! How it is stated, and the promise: none is made. `World::new` makes the objects in the order of their numbers; what the tables of
//! walk_tests and turn_tests say of them fails where it doesn't.
//!
//! Where to begin: `objects.rt`.
#![tactic(auto)]

mod objects;
mod world;

pub use objects::{
    A, AB, AROUND, AROUND_AX, AROUND_PIECES, AX, BA, DEEP, DEEP_TWIN, DOWN, EMPTY, ENTRY, F, G,
    ITEM, ITEMS, KINDS, LAZY, LIKE_ENTRY, LIST, LONGS, MAP, META_CLASS, META_MEMBER, META_METHOD,
    MIXED, N1, NESTED, NO_LIST, NO_MAP, NO_PARTS, NO_RANGE, NO_TEXT, OF_AX, OF_BOTH, OF_INT,
    OF_ITEM, OF_ITEMS, OF_LIST, OF_LONG, OF_LONGS, OF_PIECES, ONE, OTHER, OUTER, PIECES, SAID,
    THREE, TURNED, TWIN, UNLIKE, UP, X, X_MAP,
};
pub use world::{World, object_of};
