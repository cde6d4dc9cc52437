use super::{End, ended};
use gv_base::Names;
use gv_classes::Classes;
use gv_lex::lex;
use gv_phases::{Known, ResolveError, resolve};
use gv_scopes::{Meaning, shared};
use gv_stmts::parse;
use std::alloc::Global;
use std::test::Fail;

/// A variable's number, and -1 for a property, -2 for a field, -3 for a class, -4 for a property of a closure's own; -9 behind the
/// last one.
fn meant(alloc: Global, script: &str) -> Result<[i32; 6], Fail> {
    let mut row = [-9, -9, -9, -9, -9, -9];
    if let End::Canonical(unit) = ended(alloc, script, "class Later { }")? {
        if let Some(resolved) = unit.resolved().first() {
            for (place, meaning) in resolved.uses.as_slice().iter().enumerate() {
                if place < row.len() {
                    row[place] = number(*meaning);
                }
            }
        }
    }
    Ok(row)
}

fn number(meaning: Meaning) -> i32 {
    match meaning {
        Meaning::Variable(variable) => i32::try_from(variable).unwrap_or(-9),
        Meaning::Property => -1,
        Meaning::Field(_) => -2,
        Meaning::Class(_) => -3,
        Meaning::Owner | Meaning::Delegate | Meaning::ResolveStrategy => -4,
    }
}

#[test]
fn what_names_mean(rt: HostRuntime) -> Result<(), Fail> {
    let table = [
        ("x = 1; def x = 2; x + y", [-1, 0, -1, -9, -9, -9]),
        ("def f = { it + x }; f(f)", [0, -1, 1, 1, -9, -9]),
        (
            "def n = 1; def f = { k -> return { -> n + k } }",
            [0, 1, -9, -9, -9, -9],
        ),
        ("def f = { -> it }", [-1, -9, -9, -9, -9, -9]),
        (
            "def f = { owner + delegate }; Later",
            [-4, -4, -3, -9, -9, -9],
        ),
        (
            "class A { def x; def m() { x + this.x + this.@x + y } }",
            [-2, -2, -2, -1, -2, -2],
        ),
    ];
    for (script, wanted) in table {
        assert_eq!(rt; meant(rt.alloc(), script)?, wanted, "{script}");
    }
    Ok(())
}

#[test]
fn what_closures_capture(rt: HostRuntime) -> Result<(), Fail> {
    let script = "def a = 1; def b = 2; def f = { c -> a + c }; b";
    if let End::Canonical(unit) = ended(rt.alloc(), script, "")? {
        assert_eq!(rt; unit.trees().len(), 2);
        if let Some(resolved) = unit.resolved().first() {
            assert!(rt; shared(resolved, 0));
            assert!(rt; !shared(resolved, 1));
            assert!(rt; !shared(resolved, 2));
        }
    }
    Ok(())
}

/// What the first name of one script means, or the kind that it is refused with; -9 where there is neither.
fn resolved_alone(alloc: Global, script: &str) -> Result<i32, Fail> {
    if script.len() > 1000 {
        return Ok(-9);
    }
    let mut names = Names::new(alloc);
    let Ok(tokens) = lex(alloc, 0, script.as_bytes(), &mut names) else {
        return Ok(-9);
    };
    let Ok(tree) = parse(alloc, tokens.as_slice()) else {
        return Ok(-9);
    };
    let known = Known::new(&mut names)?;
    let classes = Classes::new(alloc, &mut names)?;
    Ok(match resolve(alloc, &known, &classes, 0, &tree) {
        Ok(resolved) => match resolved.uses.as_slice().first() {
            Some(meaning) => number(*meaning),
            None => -9,
        },
        Err(ResolveError::Refused(refusal)) => i32::from(refusal.kind.number()),
        Err(ResolveError::OutOfMemory) => -9,
    })
}

#[test]
fn one_script_resolved(rt: HostRuntime) -> Result<(), Fail> {
    let table = [
        ("def x = 1; x", 0),
        ("x", -1),
        ("def f = { owner }", -4),
        ("Missing m = null", 21),
        ("break", 28),
    ];
    for (script, wanted) in table {
        assert_eq!(rt; resolved_alone(rt.alloc(), script)?, wanted, "{script}");
    }
    Ok(())
}
