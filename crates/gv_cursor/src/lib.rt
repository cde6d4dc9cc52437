//! Going over the tokens of a list: what comes next, what it means to the grammar, and past it.
//!
//! How it is stated: a cursor is the rest of the list. A function that reads a phrase is told of by the
//! relations of gv_grammar, between the tokens before the call and those behind it; specs/Reading.antt
//! has the forms of such contracts.
//!
//! The promise: the next token is told as the grammar means it, word for word of its definitions; what
//! is eaten is that token, and nothing is where it doesn't come next. A closure is read unread: a pair of
//! braces around tokens whose brackets match.
//!
//! Where to begin: `cursor.rt`, then `meaning.rt`, which tells tokens apart, and `braces.rt`;
//! `refused.rt` says why a token is refused.
#![tactic(auto)]

mod braces;
mod cursor;
mod error;
mod meaning;
mod refused;
mod trees;

pub use braces::{closure, closures};
pub use cursor::Tokens;
pub use error::ReadError;
pub use meaning::{
    assign_of, atom_of, begins_arguments, begins_call, begins_expr, binary_of, closing, goes_on,
    is_barred, is_closing, is_head, joined_by, key_name_of, level_of, member_name_of, member_of,
    name_of, postfix_of, prefix_of, text_of, type_name_of, type_of, typing_of,
};
pub use refused::{refusal_at, refusal_of};
pub use trees::{ends_in_call, ends_in_name, is_target, takes_closures};
