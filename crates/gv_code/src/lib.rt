//! Code: what the machine runs, and how it is put together.
//!
//! How it is stated: instructions, handlers and bodies are plain data; each instruction has the kinds of the operands that lie on the
//! stack before it. A `PieceBuilder` is seen as a `Piece` (`specs/Pieces.antt`), a stretch of code with its own handlers, whose
//! places count from its start; `bare`, `joined`, `guarded` and `directed` say how pieces are made of others, and `written` which
//! body a piece is. A `CodeBuilder` is seen as the bodies that are done and the items that are being written (`specs/Built.antt`).
//! A `Stack` is seen as a list, the top first. `specs/Forward.antt` says when code goes forward but for jumps back to a tick.
//!
//! The promise: each call of a builder gives exactly the piece or the code of its definition, and fails only where memory is wanting.
//! No jump is patched: a way out that an enclosing form decides is an item of its own, until that form is put together.
//!
//! Where to begin: `code.rt`, `piece.rt` and `specs/Pieces.antt`; then `builder.rt` and `build.rt`. A new instruction is a variant of
//! `Op`; a new form that decides ways out is a variant of `Ways`.
#![tactic(auto)]

mod build;
mod builder;
mod code;
mod piece;
mod stack;

pub use build::CodeBuilder;
pub use builder::PieceBuilder;
pub use code::{Body, Code, Handler, Instruction, Op, OperandKind};
pub use piece::{Item, Ways};
pub use sqlite_items::Items;
pub use stack::Stack;
