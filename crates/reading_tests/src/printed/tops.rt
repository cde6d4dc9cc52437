//! Imports, annotations, methods and classes.

use super::wrong;
use std::test::Fail;

const TOPS: &str = r#"import a.b.C ⇒ import a.b.C
import groovy.transform.* ⇒ import groovy.transform.*
@Field def a = 1 ⇒ @Field⏎def a = 1
@a.B(c=1,d='e') @F int x ⇒ @a.B(c = 1, d = 'e')⏎@F⏎int x
@A() class B { } ⇒ @A⏎class B { }
class C { } ⇒ class C { }
class C extends D implements I { } ⇒ class C extends D implements I { }
final public class C extends D { } ⇒ public final class C extends D { }
class C { def a; int b = 1, c; static final C d = 2 } ⇒ class C {⏎  def a⏎  int b = 1, c⏎  static final C d = 2⏎}
class C { C() { } } ⇒ class C {⏎  C() { }⏎}
class C { private C(a) { super(a) } } ⇒ class C {⏎  private C(a) {⏎    super(a)⏎  }⏎}
class C { def m(a, int b = 1) { a }; static void n() { } } ⇒ class C {⏎  def m(a, int b = 1) {⏎    a⏎  }⏎  static void n() { }⏎}
class C { @A @B(c = { d }) protected T m(C... x) { } } ⇒ class C {⏎  @A⏎  @B(c = {⏎    d⏎  })⏎  protected T m(C... x) { }⏎}
static int m(final x) { x } ⇒ static int m(final x) {⏎  x⏎}
class C { @Lazy def a = { 1 } } ⇒ class C {⏎  @Lazy⏎  def a = {⏎    1⏎  }⏎}"#;

#[test]
fn tops(rt: HostRuntime) -> Result<(), Fail> {
    assert_eq!(rt; wrong(rt.alloc(), TOPS)?.as_str(), "");
    Ok(())
}
