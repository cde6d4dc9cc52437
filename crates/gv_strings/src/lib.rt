//! The built-in methods of strings that call no script code.
//!
//! How it is stated: `string_reply` (`specs/Rows.antt`) says what a call of a row does, as a `Reply` of gv_rows: null
//! arguments first, then the row itself by its name. Each row is a definition over the texts of the call, as their bytes or
//! characters, from the words of gv_chars and gv_search: `specs/Reading.antt` for numbers and Booleans, `specs/Parts.antt`
//! and `specs/Making.antt` for new Strings, `specs/Lists.antt` for Lists of new Strings. What they throw stands in
//! `specs/Throwing.antt`.
//!
//! The promise: `call_string` does exactly what `string_reply` says (`Did` of gv_rows), or answers want of memory. A call that
//! can't pay its whole price changes nothing. A text that is repeated or padded is built only once its cells are known to be
//! left.
//!
//! Where to begin: `specs/Rows.antt` beside `calls.rt`. A further row is a case in both, a definition in one of the other
//! specs, and a function in the file of the same name.
#![tactic(auto)]

mod answers;
mod calls;
mod faults;
mod lists;
mod making;
mod padding;
mod parts;
mod picking;
mod reading;
mod texts;
mod throwing;

pub use calls::call_string;
