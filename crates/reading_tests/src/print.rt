use gv_base::{Name, Names, OutOfMemory, Place};
use gv_print::print_tree;
use gv_tree::{Arg, Atom, Closure, Expr, Script, Stmt, Top, UnaryOp};
use sqlite_items::{Boxed, Items};
use std::alloc::Global;
use std::test::Fail;

const AT: Place = Place {
    file: 0,
    line: 1,
    column: 1,
};

fn call(alloc: Global, callee: Name, arg: Expr) -> Result<Expr, OutOfMemory> {
    let mut args = Items::new(alloc);
    args.push(Arg::Plain(Boxed::new(alloc, arg)?))?;
    let callee = Boxed::new(alloc, Expr::Atom(AT, Atom::Name(callee)))?;
    Ok(Expr::Call(AT, callee, args))
}

fn statement(alloc: Global, x: Expr) -> Result<Stmt, OutOfMemory> {
    Ok(Stmt::Expr(Boxed::new(alloc, x)?))
}

/// What a script of one expression prints.
fn printed(alloc: Global, names: &Names, x: Expr) -> Result<String, OutOfMemory> {
    let mut tops = Items::new(alloc);
    tops.push(Top::Stmt(statement(alloc, x)?))?;
    print_tree(alloc, &Script { tops }, names)
}

#[test]
fn calls_and_closures(rt: HostRuntime) -> Result<(), Fail> {
    let alloc = rt.alloc();
    let mut names = Names::new(alloc);
    let each = names.intern("each")?;
    let text = names.intern("it's")?;
    let unread = call(alloc, each, Expr::Closure(AT, Closure::Unread(0, 0)))?;
    assert_eq!(rt; printed(alloc, &names, unread)?.as_str(), "each({ })\n");
    let mut stmts = Items::new(alloc);
    stmts.push(statement(alloc, Expr::Atom(AT, Atom::Text(text)))?)?;
    let read = call(alloc, each, Expr::Closure(AT, Closure::Read(None, stmts)))?;
    assert_eq!(rt;
        printed(alloc, &names, read)?.as_str(),
        "each({\n  'it\\'s'\n})\n"
    );
    Ok(())
}

#[test]
fn signs(rt: HostRuntime) -> Result<(), Fail> {
    let alloc = rt.alloc();
    let names = Names::new(alloc);
    let number = Boxed::new(alloc, Expr::Atom(AT, Atom::Long(-1)))?;
    let signed = Expr::Unary(AT, UnaryOp::Minus, number);
    assert_eq!(rt; printed(alloc, &names, signed)?.as_str(), "- -1L\n");
    Ok(())
}
