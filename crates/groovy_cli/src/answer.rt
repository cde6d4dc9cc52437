ghost use Rattle.std.specs.Prelude.{◌≡◌, ◌≤◌, [], ◌∷◌, length, IfOk, OnErr};
ghost use Rattle.gv_meaning.specs.Meaning.{meaning};
ghost use Rattle.gv_simulate.specs.Report.{report_of};
ghost use Rattle.groovy_cli.specs.Answers.{Answers, Stands};
ghost use Rattle.groovy_cli.specs.Judged.{Judged};
ghost use Rattle.groovy_cli.specs.Program.{first_unit, first_world, not_built};

use crate::texts::texts_of;
use gv_base::{Limits, Name, Names, OutOfMemory, Place, Refusal, RefusalKind};
use gv_classes::Classes;
use gv_core::Source;
use gv_lex::{LexError, lex};
use gv_lower::{Known, lower};
use gv_meaning::opening;
use gv_outside::{Files, MOST_BYTES, ReadError, read_whole};
use gv_phases::{Canonical, PhaseError, Unit};
use gv_simulate::{Report, run_unit};
use gv_stmts::{ParseError, parse};
use gv_tree::Script;
use indexmap::IndexSet;
use sqlite_items::Items;
use std::alloc::Global;

/// What the program has to say of its words and its file.
#[derive(Debug, Drop)]
pub enum Answer {
    /// The words have no reading.
    Usage,
    /// The file can't be read.
    Unread,
    /// The file has more than 1,048,576 bytes.
    TooLong,
    /// The script's first refusal.
    Refused(Refusal),
    /// What the script printed, and how its run ended.
    Ran(Report),
}

/// Reads a file whole, and then runs its script within the limits.
pub fn answer_to<F: Files>(
    alloc: Global,
    file: &str,
    limits: Limits,
    files: &mut F,
) -> Result<Answer, OutOfMemory>
    ensures stands { IfOk result (Stands (record { file = file.now; limits = limits }) (F.state files.old) (F.state files.new)) }
    ensures err { OnErr result ((F.state files.new).faults ≡ (F.state files.old).faults) }
    ensures contents { (F.state files.new).contents ≡ (F.state files.old).contents }
{
    let bytes = match read_whole(alloc, files, String::from_str(alloc, file)?) {
        Ok(bytes) => bytes,
        Err(ReadError::Failed) => return Ok(Answer::Unread),
        Err(ReadError::TooLong) => return Ok(Answer::TooLong),
        Err(ReadError::OutOfMemory) => return Err(OutOfMemory),
    };
    script_answer(alloc, bytes.as_slice(), limits)
}

/// The script's first refusal, or what its run gives.
fn script_answer(alloc: Global, script: &[u8], limits: Limits) -> Result<Answer, OutOfMemory>
    requires { length script.now ≤ MOST_BYTES }
    ensures { IfOk result (Answers limits script.now) }
{
    let mut names = Names::new(alloc);
    let tokens = match lex(alloc, 0, script, &mut names) {
        Ok(tokens) => tokens,
        Err(LexError::Refused(refusal)) => return Ok(Answer::Refused(refusal)),
        Err(LexError::OutOfMemory) => return Err(OutOfMemory),
    };
    let tree = match parse(alloc, tokens.as_slice()) {
        Ok(tree) => tree,
        Err(ParseError::Refused(refusal)) => return Ok(Answer::Refused(refusal)),
        Err(ParseError::OutOfMemory) => return Err(OutOfMemory),
    };
    let unit = match canonical(alloc, names, tree) {
        Ok(unit) => unit,
        Err(PhaseError::Refused(refusal)) => return Ok(Answer::Refused(refusal)),
        Err(PhaseError::OutOfMemory) => return Err(OutOfMemory),
    };
    let mut names = unit.names().copy(alloc)?;
    let known = Known::new(&mut names)?;
    let bodies = match first_unit(alloc, known, unit.trees())? {
        Some(bodies) => bodies,
        None => return Ok(Answer::Refused(form_refusal())),
    };
    let texts = texts_of(alloc, tokens.as_slice())?;
    let report = run_first(alloc, &mut names, &texts, &bodies, limits)?;
    Ok(Answer::Ran(report))
}

/// A script that has a tree, behind canonicalization.
fn canonical(alloc: Global, names: Names, tree: Script) -> Result<Unit<Canonical>, PhaseError>
    ensures { Judged names tree result }
{
    let scripts = one(alloc, tree)?;
    let converted = Unit::new(alloc, scripts, names).advance()?;
    match converted.advance() {
        Ok(analysed) => analysed.advance(),
        Err(error) => Err(error),
    }
}

fn one(alloc: Global, tree: Script) -> Result<Vec<Script>, OutOfMemory>
    ensures { IfOk result (λ scripts. scripts.items ≡ tree ∷ []) }
{
    let mut scripts = Vec::new(alloc);
    scripts.push(tree)?;
    Ok(scripts)
}

/// The bodies of the first script; None where a form of it isn't built.
fn first_unit(
    alloc: Global,
    known: Known,
    scripts: &[Script],
) -> Result<Option<Items<Source>>, OutOfMemory>
    ensures { IfOk result (λ unit. unit ≡ first_unit known scripts.now) }
{
    match scripts {
        [script, ..] => lower(alloc, known, script),
        [] => Ok(None),
    }
}

/// What bodies print, and how their run ends, in the world in which a script's run begins.
fn run_first(
    alloc: Global,
    names: &mut Names,
    texts: &IndexSet<Name>,
    unit: &Items<Source>,
    limits: Limits,
) -> Result<Report, OutOfMemory>
    ensures { IfOk result (λ report. report ≡ report_of (meaning unit.now (first_world names.old texts.now.keys limits))) }
{
    let classes = Classes::new(alloc, names)?;
    let world = opening(alloc, names, classes, texts.as_slice(), limits)?;
    run_unit(alloc, unit.as_slice(), world)
}

/// The refusal of a script of a form that isn't built yet.
fn form_refusal() -> Refusal
    ensures { result ≡ not_built }
{
    Refusal {
        kind: RefusalKind::NotBuilt,
        place: Place {
            file: 0,
            line: 1,
            column: 1,
        },
    }
}
