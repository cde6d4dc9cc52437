//! The program: it runs the script of the file that its words name.
//!
//! How it is stated: `specs/Program.antt` says which outcome the words and the files' contents have: the bytes for `out`, those for
//! `err`, and the status. What the words ask for is gv_words' `reading_of`. A script is what its tokens spell, by the grammar of
//! gv_grammar; its core tree is gv_lower' `unit_of`, and what that means is gv_meaning's `meaning`. None of them speaks of code or a
//! machine. `specs/Top.antt` has the promises of the top call over what is told of files and sinks before and after it: when each
//! status comes, and what is written with it.
//!
//! The promise: where nothing fails, nothing but memory is wanting, and files and sinks tell what they hold, `groovy` writes the bytes
//! of the program meaning and answers its status; and each other answer has its cause.
//!
//! Where to begin: `top.rt`, then `answer.rt` and `report.rt`, which it joins.
#![tactic(auto)]

ghost use Rattle.std.specs.Prelude.{◌≡◌, ◌<◌};

mod answer;
mod report;
#[cfg(test)]
mod tests;
mod texts;
mod top;

use gv_base::Steps;
use gv_outside::{HostFiles, HostSink};
use std::io::ErrorKind;
use std::marker::Brand;
use std::process::ExitCode;
use std::sync::ledger::{Blank, Ledger};
use std::{env, io};

fn main(rt: HostRuntime) -> ExitCode {
    let status = match command_words(&rt) {
        Ok(words) => run::<Brand>(&rt, words.as_slice(), Blank::new(1)),
        // a word that isn't UTF-8 has no reading
        Err(error) if error.kind() == ErrorKind::InvalidData => {
            run::<Brand>(&rt, &[], Blank::new(1))
        }
        Err(_) => top::WANT_OF_MEMORY,
    };
    ExitCode::from(status)
}

/// The words behind the program's name.
fn command_words(rt: &HostRuntime) -> io::Result<Vec<String>> {
    let mut words = Vec::new(rt.alloc());
    for word in env::args(rt)?.skip(1) {
        words.push(word)?;
    }
    Ok(words)
}

/// Runs the program on the machine's files and streams.
fn run<L: Ledger>(rt: &HostRuntime, words: &[String], blank: Blank) -> u8
    requires name { blank.name ≡ L.name }
    requires parts { blank.parts ≡ L.parts }
    requires some { 0 < L.parts }
{
    let mut files = HostFiles::new(rt);
    let mut out = HostSink::new(rt.stdout());
    let mut err = HostSink::new(rt.stderr());
    let mut looks = Steps::<L>::new(blank);
    top::groovy(
        rt.alloc(),
        words,
        &mut files,
        &mut out,
        &mut err,
        &mut looks,
    )
}
