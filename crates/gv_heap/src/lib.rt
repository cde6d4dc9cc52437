//! The heap: the objects of a run, the storage of its variables, and the cells that are left.
//!
//! How it is stated: a `Heap` is seen as a `HeapState` (`specs/Heap.antt`): the list of its objects
//! and the list of the values of its places, each by their numbers, and the cells left. An `Object`
//! is plain data: a `List` has the list of its elements, a `Map` the list of its entries in the
//! order in which their keys came (`specs/Entries.antt`). `specs/Prices.antt` says what each thing
//! costs.
//!
//! The promise: a call that makes an object, a place or an entry, or lets a list grow, does exactly
//! that and takes exactly its price (`Makes`, `Grows`). It answers `CellsSpent` exactly where its
//! price exceeds the cells left, and `OutOfMemory` only where the cells were there; after either the
//! heap is as it was. The other writing calls take no memory and change just what they name, and
//! each read gives what stands there. Cells are never given back.
//!
//! Where to begin: `specs/Heap.antt`, then `object.rt`, and of the calls `make.rt`, `grow.rt`,
//! `write.rt` and `read.rt`. A new kind of object is a variant of `Object`, its price, and a call in
//! `make.rt` and `read.rt`. `proofs/CallerLemmas.antt` has what a caller's proof cites where several
//! calls follow one another.
#![tactic(auto)]

mod closure;
mod elements;
mod entries;
mod error;
mod grow;
mod heap;
mod key;
mod make;
mod object;
mod range;
mod read;
mod write;

pub use closure::{Bound, Closure, ClosureBox, Origin};
pub use elements::Elements;
pub use entries::{Entries, Slot};
pub use error::HeapError;
pub use heap::Heap;
pub use key::MapKey;
pub use object::{Instance, Object, Part};
pub use range::Range;
pub use sqlite_items::Items;
