//! Files that are read and sinks that are written: all that reaches the program from outside, and
//! all that leaves it.
//!
//! # How it is stated
//!
//! Each trait has one ghost member, a record: [`Files`] tells a `FilesState` (specs/Files.antt) and
//! [`Sink`] a `SinkState` (specs/Sink.antt). The contents of the files and the bytes of the sink
//! are optional there: what isn't told is claimed of nobody. A call's clauses join the state before
//! it and the state after it, by `Reads`, `KeepsFile` and `Takes`; `HasCause` (specs/Count.antt)
//! joins the counts of faults.
//!
//! # What is proved
//!
//! - A count of faults never falls, and rises only where a call answers [`Failed`] (`cause`). It
//!   ends at 2^64 - 1.
//! - Where contents are told, [`Files::read`] gives the next bytes of the open file, and none only
//!   at its end (`reads`). A failed opening leaves no file open (`closed`), at place 0 (`place`).
//! - [`read_whole`] gives the bytes of a file (`whole`), at most [`MOST_BYTES`] (`short`), and never
//!   reads more than one byte behind these (`reach`). Where it answers that the file is too long, it
//!   read that byte (`too_long`), and the file is longer (`longer`).
//! - Where bytes are told, [`Sink::put`] puts some first bytes of a piece behind those before
//!   (`takes`), at least one (`progress`). [`put_all`] and [`put_pieces`] put all of them (`ok`), or
//!   answer a fault, with some first bytes put (`err`). A success met no fault (`cause`).
//! - [`SureFiles`] and [`SureSink`] never fail. [`MemoryFiles`] and [`MemorySink`] fail at exactly
//!   the calls whose numbers are listed, and the files at opening a name that isn't there (`fails`).
//!
//! # What isn't proved
//!
//! What lies in the files of the machine, and what becomes of the bytes that are written there:
//! [`HostFiles`] and [`HostSink`] are the trusted edge. They tell no contents and no bytes. Their
//! faults, the open file and its place are proved as for all others.
//!
//! That [`put_all`] and [`put_pieces`] put nothing more after a fault is seen in their code, which
//! returns it at once: no clause counts the calls.
//!
//! # Where to begin
//!
//! Read specs/Files.antt and specs/Sink.antt, then `files` and `sink`, the traits and the functions
//! over them. `sure_files` and `sure_sink` are the plainest implementations.
//!
//! To add one: write an `impl Model` whose `Value` is a record of its own (as specs/SinkView.antt),
//! a function from that record to the state of the trait, and the trait's clauses at that function,
//! with what the new one does beyond them. A view of `None` contents or bytes is always allowed.
#![tactic(auto)]

mod entries;
mod files;
mod host_files;
mod host_sink;
mod machine;
mod memory_files;
mod memory_sink;
mod sink;
mod sure_files;
mod sure_sink;
#[cfg(test)]
mod tests;

pub use files::{Failed, Files, MOST_BYTES, ReadError, read_whole};
pub use host_files::HostFiles;
pub use host_sink::HostSink;
pub use memory_files::MemoryFiles;
pub use memory_sink::MemorySink;
pub use sink::{Sink, put_all, put_pieces};
pub use sure_files::SureFiles;
pub use sure_sink::SureSink;
