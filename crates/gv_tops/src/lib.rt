//! Refusals of what stands at the top of a script and in its classes: of imports, of annotations, and of methods that would take
//! the place of property access, those among them that conversion adds for a property.
//!
//! How it is stated: `tops_refused` of `specs/Tops.antt` is the first refusal of the whole, put together from those of
//! each import, annotation and method. `specs/Transforms.antt` has the annotations of the profile: their
//! names, the imports that make them known, and where they may stand. `specs/Known.antt` says which names the rules
//! speak of.
//!
//! The promise: `first_of_tops` gives exactly that refusal, and takes no memory; `Known::new` gives the names of the
//! rules' own texts, and puts those that are new behind the table's. A script is read twice, first for what it imports.
//!
//! Where to begin: `specs/Transforms.antt` and `specs/Tops.antt`, whose definitions have the names of the functions
//! that follow them. A new annotation is a variant of `Transform`, with its arms in `transform.rt` and `target.rt`.
#![tactic(auto)]

mod annotations;
mod imports;
mod known;
mod members;
mod noted;
mod target;
mod tops;
mod transform;

pub use known::Known;
pub use tops::first_of_tops;

#[cfg(test)]
mod tests;
