mod bodies;
mod classes;
mod tops;

use gv_base::Names;
use gv_checks::{Known, declared_classes, first_refusal};
use gv_lex::lex;
use gv_stmts::parse;
use std::alloc::Global;
use std::test::Fail;

/// The kind, line and column of a script's refusal; zeros where it has none, and kinds 1 and 10 where it has no tree.
fn refused(alloc: Global, script: &str) -> Result<(u8, u32, u32), Fail> {
    if script.len() > 1000 {
        return Ok((1, 0, 0));
    }
    let mut names = Names::new(alloc);
    let Ok(tokens) = lex(alloc, 0, script.as_bytes(), &mut names) else {
        return Ok((1, 0, 0));
    };
    let Ok(tree) = parse(alloc, tokens.as_slice()) else {
        return Ok((10, 0, 0));
    };
    let known = Known::new(&mut names)?;
    let scripts = [tree];
    let classes = declared_classes(alloc, &known, &mut names, &scripts)?;
    match first_refusal(alloc, &known, &classes, 0, &scripts[0])? {
        Some(refusal) => Ok((
            refusal.kind.number(),
            refusal.place.line,
            refusal.place.column,
        )),
        None => Ok((0, 0, 0)),
    }
}
