//! What every crate of Sudokualder names: the numbers of things, names, values with their
//! arithmetic, truth, equality and hash, exception classes, places in files, refusals, limits, and
//! the counter of steps.
//!
//! How it is stated: a `Names` is seen as the list of its texts, and a `Name` as a place in that
//! list; a `Text` as its bytes; a `Steps` as a number. All else is plain data. `specs/Arith.antt`
//! says arithmetic by whole numbers, without the machine's; `specs/Plain.antt` says what is known
//! of a value without asking an object.
//!
//! The promise: `intern` gives one name per text, `text` gives the text back, `find` and `accessor`
//! give the name of a text, or of a property's getter or setter, exactly where the table has it, and
//! `copy` gives the same table; `arith` gives the whole number wrapped to 32 or 64 bits, and says
//! exactly when there is none; `plain_truth`, `plain_equal` and `plain_hash` answer exactly where no
//! object has to be asked.
//!
//! Where to begin: `value.rt`, then `numbers.rt` beside `specs/Arith.antt`. A new kind of refusal
//! is a variant of `RefusalKind` with a line each in `number` and `text`, and in
//! `specs/Refusal.antt`. `accessors.rt` is how `accessor` needs neither memory nor a search.
#![tactic(auto)]

mod accessors;
mod exception;
mod ids;
mod limits;
mod meta;
mod names;
mod numbers;
mod outcome;
mod plain;
mod refusal;
mod steps;
mod text;
mod value;

pub use exception::ExceptionKind;
pub use ids::{BodyId, ClassId, MethodId, Name, NativeId, ObjId, PlaceId, VarId};
pub use limits::Limits;
pub use meta::{Chosen, MetaId, MetaObject};
pub use names::Names;
pub use numbers::arith;
pub use outcome::{Arith, ArithOp};
pub use plain::{plain_equal, plain_hash, plain_truth};
pub use refusal::{Foreign, Place, Refusal, RefusalKind};
pub use std::alloc::AllocError as OutOfMemory;
pub use steps::Steps;
pub use text::Text;
pub use value::{NULL_KIND, Value};
