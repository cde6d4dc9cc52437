use gv_base::{OutOfMemory, Place, Refusal, RefusalKind};
use gv_loose::first_of_loose;
use gv_tree::{Atom, BinaryOp, Expr, Script, Stmt, Top, UnaryOp};
use sqlite_items::{Boxed, Items};
use std::alloc::Global;

fn at(column: u32) -> Place {
    Place {
        file: 1,
        line: 1,
        column,
    }
}

fn loose(column: u32) -> Option<Refusal> {
    Some(Refusal {
        kind: RefusalKind::LooseStatement,
        place: at(column),
    })
}

/// `1 + -2` behind a `break`'s place, or `3++`.
fn script(alloc: Global, is_sum: bool) -> Result<Script, OutOfMemory> {
    let first = Boxed::new(alloc, Expr::Atom(at(4), Atom::Int(1)))?;
    let value = if is_sum {
        let second = Boxed::new(alloc, Expr::Atom(at(9), Atom::Int(2)))?;
        let negative = Boxed::new(alloc, Expr::Unary(at(8), UnaryOp::Minus, second))?;
        Expr::Binary(at(6), BinaryOp::Plus, first, negative)
    } else {
        Expr::Unary(at(5), UnaryOp::IncrementAfter, first)
    };
    let mut tops = Items::new(alloc);
    tops.push(Top::Stmt(Stmt::Expr(Boxed::new(alloc, value)?)))?;
    tops.push(Top::Stmt(Stmt::Return(at(2), None)))?;
    Ok(Script { tops })
}

#[test]
fn statements_of_a_later_file(rt: HostRuntime) -> Result<(), OutOfMemory> {
    let empty = Script {
        tops: Items::new(rt.alloc()),
    };
    let sum = script(rt.alloc(), true)?;
    let step = script(rt.alloc(), false)?;
    assert_eq!(rt; first_of_loose(0, &sum, None), None);
    assert_eq!(rt; first_of_loose(1, &sum, None), loose(4));
    assert_eq!(rt; first_of_loose(255, &step, None), loose(4));
    assert_eq!(rt; first_of_loose(1, &sum, loose(3)), loose(3));
    assert_eq!(rt; first_of_loose(1, &empty, None), None);
    Ok(())
}
