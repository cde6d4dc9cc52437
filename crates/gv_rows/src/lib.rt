//! What the built-in methods of lists, maps and Strings have in common that call no script code: how such a call is
//! answered, which arguments it takes, and what it asks of values.
//!
//! How it is stated: a method is a `Reply` (`specs/Reply.antt`): the value that it answers, its price and the heap that it
//! leaves, or what it throws. `Did` says that a call of it was done so: a call that can't pay its price does nothing, and
//! one that throws changes nothing. `specs/Takes.antt` says which arguments a row takes, and when null is given where a kind
//! is written. `specs/Values.antt` says the class of a value, its key in a map, the elements of a list or a range in order
//! (a `Sequence` is seen as their list), and the places that a range walks over other elements (a `Walk` is seen as theirs).
//!
//! The promise: `class_of`, `class_name` and `key_of` give what the definitions say. `Sequence` and `Walk` write nothing out:
//! a range may have 2147483647 elements. `new_text` and `new_list` make the object for its price, or say that cells are
//! spent; `null_argument`, `on_a_range` and `throw_joined` throw with the text that they name, wherever memory is there.
//!
//! Where to begin: `specs/Reply.antt`, `done.rt`, then `answers.rt`. `proofs/CallerLemmas.antt` has what a caller's proof cites.
#![tactic(auto)]

mod answers;
mod done;
mod keys;
mod places;
mod sequence;
mod takes;
mod values;
mod walk;

pub use answers::{new_list, new_text, null_argument, on_a_range, throw, throw_joined};
pub use done::{Done, Message};
pub use keys::key_of;
pub use places::{from_end, integer_of, natural, number_in};
pub use sequence::Sequence;
pub use takes::{lacks_one, row_at};
pub use values::{class_name, class_of};
pub use walk::Walk;
