//! The written code of core trees, and that it does what they mean.
//!
//! It has definitions and a law, and no code that runs. The emitter above it (gv_emit) says in its contract that what it gives is
//! the written code of its unit.
//!
//! How it is stated: `specs/Written.antt` has the code of each form of tree: the items of an expression, and the piece of a statement
//! (pieces are gv_code's). Code is written as it is joined, and knows how many variables are in scope and which operands lie below it;
//! all jumps go by lengths of pieces, so nothing is patched. `code_of` is the code of a unit. `specs/Correct.antt` says when code is
//! right for a unit: in each world its run comes to the unit's meaning, and stays there.
//!
//! The promise: the written code of each unit is right, also of one that names a variable that isn't in scope, breaks outside of a
//! loop or has no body. And the run of any code that goes forward (gv_code's `specs/Forward.antt`) ends, be it written here or not.
//!
//! Where to begin: `specs/Written.antt` beside gv_meaning's `specs/Meaning.antt`, then `specs/Correct.antt`. Of the proof, begin with
//! `proofs/Comes.antt`: what it means that a stretch of code stands at a place, where ways out and throws lead from it, and that the
//! machine comes from one state to another. `proofs/Run.antt` puts runs of expressions together (`Gives`), `proofs/Does.antt` and
//! `proofs/Loops.antt` those of statements (`Does`), and `proofs/Bodies.antt` closes it by the depth that is left. A new form of tree
//! is a line in `specs/Written.antt`, and one in `proofs/Exprs.antt` or `proofs/Trees.antt` that puts together what its parts give; a
//! new instruction is a line in `proofs/Ticks.antt` and one in `proofs/Done.antt`. That the kinds of operands that an instruction
//! carries are those on the stack is no part of the law.
#![tactic(auto)]

mod laws;

pub use laws::{forward_ends, written_is_right};
