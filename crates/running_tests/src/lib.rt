//! Tests of what runs a script: lowering, written code, calls, the machine.
//!
//! They stand in a crate of their own, since tests within a crate prove that crate once more.
//!
//! Where to begin: the module that has the name of the crate that it tests, without `gv_`.
#![tactic(auto)]

#[cfg(test)]
mod calls;
#[cfg(test)]
mod code;
#[cfg(test)]
mod emit;
#[cfg(test)]
mod emit_exprs;
#[cfg(test)]
mod lower;
#[cfg(test)]
mod machine;
#[cfg(test)]
mod meaning;
