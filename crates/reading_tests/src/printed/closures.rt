//! Closures.

use super::wrong;
use std::test::Fail;

const CLOSURES: &str = r#"a { b } ⇒ a({⏎  b⏎})
a { } ⇒ a({ })
a { -> } ⇒ a({ -> })
a { x -> } ⇒ a({ x -> })
a { -> b; c } ⇒ a({ ->⏎  b⏎  c⏎})
a { x, y -> x } ⇒ a({ x, y ->⏎  x⏎})
a { def x, int y = 1, final C z -> x } ⇒ a({ def x, int y = 1, final C z ->⏎  x⏎})
a { C... x -> x } ⇒ a({ C... x ->⏎  x⏎})
a(1) { b } { c } ⇒ a(1, {⏎  b⏎}, {⏎  c⏎})
a { b }.c { d } + 1 ⇒ a({⏎  b⏎}).c({⏎  d⏎}) + 1
def f = { a { b } } ⇒ def f = {⏎  a({⏎    b⏎  })⏎}
if (a) { b { c } } ⇒ if (a) {⏎  b({⏎    c⏎  })⏎}
x = [{ a }, { b }] ⇒ x = [{⏎  a⏎}, {⏎  b⏎}]"#;

#[test]
fn closures(rt: HostRuntime) -> Result<(), Fail> {
    assert_eq!(rt; wrong(rt.alloc(), CLOSURES)?.as_str(), "");
    Ok(())
}
