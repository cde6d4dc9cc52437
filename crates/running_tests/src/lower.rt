use gv_base::{Name, Names, OutOfMemory, Place};
use gv_lower::{Known, lower};
use gv_tree::{
    Arg, AssignOp, Atom, BinaryOp, Decl, Expr, Ident, Leave, Script, Stmt, Top, Var, VarType,
};
use sqlite_items::{Boxed, Items};
use std::alloc::Global;
use std::test::Fail;

const KNOWN: Known = Known {
    plus: 10,
    minus: 11,
    multiply: 12,
    compare_to: 13,
    println: 14,
};

// Two names that are no known one.
const A: Name = 20;

const B: Name = 21;

const PLACE: Place = Place {
    file: 0,
    line: 1,
    column: 1,
};

// A statement, with few operands.
#[derive(Clone, Copy)]
enum Line {
    // `def`, a name and a value
    Def(Name, Atom),
    Set(AssignOp, Name, Atom),
    // a call of a name with an operator between two operands
    Print(Name, BinaryOp, Atom, Atom),
    // `if` with a condition, and a block that declares a variable of this name
    If(BinaryOp, Atom, Atom, Name),
    // `while` with a condition, and a way out
    While(BinaryOp, Atom, Atom, Leave),
    Leave(Leave),
}

// Two statements, and the core tree of a script with them, if it has one.
const SCRIPTS: [(Line, Line, &str); 14] = [
    (
        Line::Def(14, Atom::Int(7)),
        Line::Print(14, BinaryOp::Minus, Atom::Int(7), Atom::Int(2)),
        "-",
    ),
    (
        Line::Def(A, Atom::Int(7)),
        Line::Print(14, BinaryOp::Minus, Atom::Name(A), Atom::Int(2)),
        "Block([Declare(false, Const(Int(7))), Do(Call(14, [Local(0), Call(11, [Local(1), Const(Int(2))])]))])",
    ),
    (
        Line::Def(A, Atom::Int(7)),
        Line::Print(A, BinaryOp::Minus, Atom::Name(A), Atom::Int(2)),
        "-",
    ),
    (
        Line::Def(A, Atom::Int(7)),
        Line::Print(14, BinaryOp::And, Atom::Name(A), Atom::Int(2)),
        "-",
    ),
    (
        Line::Def(A, Atom::Int(7)),
        Line::Def(B, Atom::Name(A)),
        "Block([Declare(false, Const(Int(7))), Declare(false, Local(1))])",
    ),
    (Line::Def(A, Atom::Int(7)), Line::Def(A, Atom::Int(8)), "-"),
    (
        Line::Def(A, Atom::Long(7)),
        Line::Set(AssignOp::Plus, A, Atom::Int(1)),
        "Block([Declare(false, Const(Long(7))), Do(Assign(1, Call(10, [Local(1), Const(Int(1))])))])",
    ),
    (
        Line::Def(A, Atom::Int(7)),
        Line::Set(AssignOp::Plain, A, Atom::Name(A)),
        "Block([Declare(false, Const(Int(7))), Do(Assign(1, Local(1)))])",
    ),
    (
        Line::Def(A, Atom::Int(7)),
        Line::Set(AssignOp::Plain, B, Atom::Int(1)),
        "-",
    ),
    (
        Line::Def(A, Atom::Int(7)),
        Line::While(
            BinaryOp::NotEqual,
            Atom::Name(A),
            Atom::Int(3),
            Leave::Continue,
        ),
        "Block([Declare(false, Const(Int(7))), While(Not(Equal(Local(1), Const(Int(3)))), Continue)])",
    ),
    (Line::Def(A, Atom::Int(7)), Line::Leave(Leave::Break), "-"),
    (
        Line::If(BinaryOp::Less, Atom::Int(1), Atom::Int(2), A),
        Line::Def(A, Atom::Int(7)),
        "Block([If(Ordered(Less, Call(13, [Const(Int(1)), Const(Int(2))])), Block([Declare(false, Const(Int(0)))]), Block([])), Declare(false, Const(Int(7)))])",
    ),
    (
        Line::Def(A, Atom::Int(7)),
        Line::If(BinaryOp::Equal, Atom::Int(1), Atom::Int(2), A),
        "-",
    ),
    (Line::Def(A, Atom::Null), Line::Def(B, Atom::Int(7)), "-"),
];

fn atom(alloc: Global, atom: Atom) -> Result<Boxed<Expr>, OutOfMemory> {
    Boxed::new(alloc, Expr::Atom(PLACE, atom))
}

fn binary(
    alloc: Global,
    op: BinaryOp,
    left: Atom,
    right: Atom,
) -> Result<Boxed<Expr>, OutOfMemory> {
    let left = atom(alloc, left)?;
    let right = atom(alloc, right)?;
    Boxed::new(alloc, Expr::Binary(PLACE, op, left, right))
}

fn def(alloc: Global, name: Name, value: Atom) -> Result<Stmt, OutOfMemory> {
    let mut vars = Items::new(alloc);
    vars.push(Var {
        ident: Ident { place: PLACE, name },
        initial: Some(atom(alloc, value)?),
    })?;
    Ok(Stmt::Decl(Decl {
        place: PLACE,
        is_final: false,
        written: VarType::Def,
        vars,
    }))
}

fn call(alloc: Global, name: Name, value: Boxed<Expr>) -> Result<Stmt, OutOfMemory> {
    let mut args = Items::new(alloc);
    args.push(Arg::Plain(value))?;
    let call = Expr::Call(PLACE, atom(alloc, Atom::Name(name))?, args);
    Ok(Stmt::Expr(Boxed::new(alloc, call)?))
}

fn set(alloc: Global, op: AssignOp, name: Name, value: Atom) -> Result<Stmt, OutOfMemory> {
    let target = atom(alloc, Atom::Name(name))?;
    let set = Expr::Assign(PLACE, op, target, atom(alloc, value)?);
    Ok(Stmt::Expr(Boxed::new(alloc, set)?))
}

fn block(alloc: Global, stmt: Stmt) -> Result<Boxed<Stmt>, OutOfMemory> {
    let mut all = Items::new(alloc);
    all.push(stmt)?;
    Boxed::new(alloc, Stmt::Block(PLACE, all))
}

fn stmt(alloc: Global, line: Line) -> Result<Stmt, OutOfMemory> {
    match line {
        Line::Def(name, value) => def(alloc, name, value),
        Line::Set(op, name, value) => set(alloc, op, name, value),
        Line::Print(name, op, left, right) => call(alloc, name, binary(alloc, op, left, right)?),
        Line::If(op, left, right, name) => {
            let test = binary(alloc, op, left, right)?;
            let first = block(alloc, def(alloc, name, Atom::Int(0))?)?;
            Ok(Stmt::If(PLACE, test, first, None))
        }
        Line::While(op, left, right, leave) => {
            let test = binary(alloc, op, left, right)?;
            let body = Boxed::new(alloc, Stmt::Leave(PLACE, leave))?;
            Ok(Stmt::While(PLACE, test, body))
        }
        Line::Leave(leave) => Ok(Stmt::Leave(PLACE, leave)),
    }
}

fn script(alloc: Global, first: Line, second: Line) -> Result<Script, OutOfMemory> {
    let mut tops = Items::new(alloc);
    tops.push(Top::Stmt(stmt(alloc, first)?))?;
    tops.push(Top::Stmt(stmt(alloc, second)?))?;
    Ok(Script { tops })
}

// The core tree of a script's first body, or `-`.
fn told(alloc: Global, first: Line, second: Line) -> Result<String, Fail> {
    let script = script(alloc, first, second)?;
    let Some(unit) = lower(alloc, KNOWN, &script)? else {
        return Ok(String::from_str(alloc, "-")?);
    };
    let Some(source) = unit.get(0) else {
        return Ok(String::new(alloc));
    };
    let text = format!(in alloc; "{:?}", source.tree)?;
    let text = text.replace(alloc, "Items { items: ", "")?;
    let text = text.replace(alloc, "Boxed { inner: ", "")?;
    Ok(text.replace(alloc, " }", "")?)
}

fn wrong(alloc: Global) -> Result<String, Fail> {
    let mut wrong = String::new(alloc);
    for (first, second, tree) in SCRIPTS {
        let told = told(alloc, first, second)?;
        if told.as_str() != tree {
            wrong.push_str(told.as_str())?;
        }
    }
    Ok(wrong)
}

#[test]
fn each_script_has_its_core_tree(rt: HostRuntime) -> Result<(), Fail> {
    let wrong = wrong(rt.alloc())?;
    assert_eq!(rt; wrong.as_str(), "");
    Ok(())
}

#[test]
fn the_known_names_are_put_in_once(rt: HostRuntime) -> Result<(), Fail> {
    let mut names = Names::new(rt.alloc());
    names.intern("println")?;
    let known = Known::new(&mut names)?;
    assert_eq!(rt; (known.println, known.plus, known.compare_to), (0, 1, 4));
    Ok(())
}
