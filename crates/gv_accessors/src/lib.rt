//! Conversion: a field without access modifier is a property, and has a getter and a setter among the members of its class.
//!
//! How it is stated: `specs/Accessors.antt` says for each form of the grammar what it adds to what was added before it. A getter
//! is `T getP() { return p }`, a setter `void setP(T #v) { p = #v }`, where T is the type as it is written. Each is static where
//! its field is, each part of it has the property's place, and it is added only where the class has no method of that name and
//! those types of parameters by then. The types are compared as gv_declare names them, and the methods by their keys (gv_keys).
//!
//! The promise: `convert` gives the scripts with these methods behind the other members of their classes. Those of declarations
//! with `@Field` stand behind all else of their script; the methods of all scripts are those of one class. The accessors' names
//! are put into the table. It takes time in proportion to the scripts.
//!
//! Where to begin: `specs/Accessors.antt`, whose definitions have the names of the functions that follow them, then `adding.rt`
//! and `script.rt`.
#![tactic(auto)]

mod adding;
mod class;
mod known;
mod names;
mod property;
mod script;
mod turned;

pub use known::Known;
pub use script::convert;
