//! The machine that runs the code of a unit in a world: it goes on to the end, tells how the run ended, and keeps what was printed
//! until that is dropped.
//!
//! How it is stated: a `Machine` is seen as its code and where the run stands (`specs/Machine.antt`): at its start in a world, at its
//! end with an answer of gv_meaning, which has the world that the run leaves, or nowhere, where memory was wanting. `ComesTo` of gv_run
//! says to which answer the run of a code comes.
//!
//! The promise: `advance` comes to the answer to which the run of the code comes, and tells it; after that it tells the same end, and
//! takes no memory. Where memory is wanting the run is lost: then `advance` answers want of memory from then on, and what was printed
//! is gone. `output` gives what the world has printed and `drop_output` drops it, and nothing else. That the code goes forward is asked
//! at the start and kept.
//!
//! Where to begin: `machine.rt` beside `specs/Machine.antt`. A run stops nowhere but at its end: a further pause is a variant of
//! `Pause`, with its case in `Advances`.
#![tactic(auto)]

mod end;
mod machine;

pub use end::{End, Pause};
pub use machine::Machine;
