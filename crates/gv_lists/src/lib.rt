//! The built-in methods of lists that call no script code, on a List or a Range.
//!
//! How it is stated: `list_reply` (`specs/Rows.antt`) says what a call of a row does, as a `Reply` of gv_rows: null arguments
//! first, then the rows that write on a range, then the row itself by its name. Each row is a definition over the list of
//! elements, `sequence_at` of gv_rows, in `specs/Reading.antt`, `specs/Writing.antt` or `specs/Joining.antt`; what they throw
//! stands in `specs/Throwing.antt`.
//!
//! The promise: `call_list` does exactly what `list_reply` says (`Did` of gv_rows), or answers want of memory. A call that can't
//! pay its whole price changes nothing. A new list is built only once its cells are known to be left, and the elements of a
//! range are written out nowhere else.
//!
//! Where to begin: `specs/Rows.antt` beside `calls.rt`. A further row is a case in both, a definition in one of the other
//! specs, and a function in the file of the same name.
#![tactic(auto)]

mod answers;
mod calls;
mod faults;
mod joining;
mod parts;
mod picking;
mod reading;
mod throwing;
mod writing;

pub use calls::call_list;
