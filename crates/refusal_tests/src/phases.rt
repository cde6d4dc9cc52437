mod names;
mod refusals;

use gv_base::{Names, Refusal};
use gv_lex::lex;
use gv_phases::{Canonical, PhaseError, Unit};
use gv_stmts::parse;
use std::alloc::Global;
use std::test::Fail;

/// What the phases come to.
#[derive(Drop)]
enum End {
    Canonical(Unit<Canonical>),
    Refused(Refusal),
    /// A script has no tree.
    NoTree,
}

/// The scripts of files 0 and 1 through all phases.
fn ended(alloc: Global, first: &str, second: &str) -> Result<End, Fail> {
    let mut names = Names::new(alloc);
    let mut scripts = Vec::new(alloc);
    for (file, script) in [(0, first), (1, second)] {
        if script.len() > 1000 {
            return Ok(End::NoTree);
        }
        let Ok(tokens) = lex(alloc, file, script.as_bytes(), &mut names) else {
            return Ok(End::NoTree);
        };
        let Ok(tree) = parse(alloc, tokens.as_slice()) else {
            return Ok(End::NoTree);
        };
        scripts.push(tree)?;
    }
    let converted = Unit::new(alloc, scripts, names).advance()?;
    match converted.advance() {
        Ok(analysed) => match analysed.advance() {
            Ok(unit) => Ok(End::Canonical(unit)),
            Err(_) => Ok(End::NoTree),
        },
        Err(PhaseError::Refused(refusal)) => Ok(End::Refused(refusal)),
        Err(PhaseError::OutOfMemory) => Ok(End::NoTree),
    }
}
