//! The known classes of a script: the built-in ones with their fixed numbers, and behind them those
//! that were added, each with the name of its superclass and its declared members.
//!
//! How it is stated: contracts see a `Classes` as the list of its classes, and a `ClassId` as a
//! place in that list. `specs/Classes.antt` says by the names alone which class stands above which,
//! what is an instance of what, which arguments fit which parameters, and which methods a class has.
//! `specs/BuiltIn.antt` says what the built-in classes are, in a table that has their names.
//!
//! The promise: `new` gives the built-in classes and puts their names into the table, where each
//! name that was there stays; `add` puts a class last. A superclass may come later: what stands
//! above a class is told by the classes that are there when it is asked. A superclass that isn't
//! there counts as Object, and so does each superclass of a class from which going up never comes
//! to Object. `named` takes one step, and the walks take at most as many steps as there are
//! classes, by loops, however long a chain is. The built-in classes are always there, Object is its
//! own superclass, and each rest parameter has a type (`AreKnown`).
//!
//! Where to begin: `declared.rt` and `ids.rt`, then `classes.rt` beside `specs/Classes.antt`. A new
//! built-in class is a row of `built_in.rt`, a number in `ids.rt`, and one more in `BUILT_IN`. A walk
//! first looks whether Object comes at all, and `proofs/Chains.antt` says why it then may go up by
//! the names. `table.rt` keeps the first class of each name. `proofs/Texts.antt` has for callers that
//! a name keeps its number while the table of names grows.
#![tactic(auto)]

mod built_in;
mod classes;
mod declared;
mod ids;
mod table;

pub use classes::Classes;
pub use declared::{Declared, FINAL, Member, MemberKind, PRIVATE, PROPERTY, REST, STATIC};
pub use ids::{
    BOOLEAN, BUILT_IN, CLASS, CLOSURE, ENTRY, EXPANDO_META_CLASS, GSTRING, INTEGER, LIST, LONG,
    MAP, META_CLASS, META_MEMBER, META_METHOD, NUMBER, OBJECT, RANGE, STRING, THROWABLE,
    exception_class,
};
