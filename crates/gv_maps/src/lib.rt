//! The built-in methods of maps that call no script code.
//!
//! How it is stated: `map_reply` (`specs/Rows.antt`) says what a call of a row does, as a `Reply` of gv_rows: null where a map
//! is written first, then the row itself by its name and the number of its arguments. Each row is a definition over the list
//! of entries, `map_at` of gv_heap, in `specs/Reading.antt`, `specs/Writing.antt` or `specs/Joining.antt`. `with_key`
//! (`specs/Keys.antt`) says what a row does with the value that it takes as a key.
//!
//! The promise: `call_map` does exactly what `map_reply` says (`Did` of gv_rows), or answers want of memory. A call that can't
//! pay its whole price changes nothing. The receiver may be the argument too. Nothing is asked of the entries that stand in a
//! heap.
//!
//! Where to begin: `specs/Rows.antt` beside `calls.rt`. A further row is a case in both, a definition in one of the other
//! specs, and a function in the file of the same name. `copies.rt` takes entries out of a heap, `prices.rt` counts those that
//! are new, and `proofs/` says why that is what putting them in costs.
#![tactic(auto)]

mod answers;
mod calls;
mod copies;
mod joining;
mod keys;
mod prices;
mod reading;
mod writing;

pub use calls::call_map;
