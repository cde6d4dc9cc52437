//! Which members a class of a script declares: its methods, constructors and fields, as the `Declared` of gv_classes.
//!
//! How it is stated: `specs/Members.antt` says for each form of the grammar which members it puts behind those that were
//! declared before it. A type is its name: `int`, `long` and `boolean` are Integer, Long and Boolean, and `def` and no type
//! are Object. A method with defaults is several methods: one with all its parameters, and for each default, from the right,
//! one more without its parameter. `specs/Known.antt` says which names the rules themselves speak of.
//!
//! The promise: `declare_class` gives what a class declares, `declare_members` puts what a script declares outside its classes
//! behind what was declared before, and `declare_all` adds the class of all scripts and then each class of theirs, in order.
//! Each member with a rest parameter has a type. `written_name` gives the name of a written type, and `is_property` says which
//! fields are properties. `Known::new` gives the names of the rules' own texts, and puts those that are new behind the table's.
//!
//! Where to begin: `specs/Members.antt`, whose definitions have the names of the functions that follow them, then
//! `class.rt` and `script.rt`. A new modifier that members keep is a flag of gv_classes, and a line of `flags.rt`.
#![tactic(auto)]

mod class;
mod fields;
mod flags;
mod known;
mod methods;
mod params;
mod script;
mod types;

pub use class::declare_class;
pub use flags::is_property;
pub use known::Known;
pub use script::{declare_all, declare_members};
pub use types::written_name;
