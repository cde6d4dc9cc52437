//! Signs and numbers.

use super::wrong;
use std::test::Fail;

const SIGNS: &str = r#"x = - -1 ⇒ x = - -1
x = -1 ⇒ x = -1
x = - 5 ⇒ x = - 5
x = +5 ⇒ x = + 5
x = + +a ⇒ x = + +a
x = -(+a) ⇒ x = -(+a)
x = -a ⇒ x = -a
x = - --a ⇒ x = - --a
x = -(-1) ⇒ x = -(-1)
x = !-1 ⇒ x = !-1
++5 ⇒ ++5
x = ++a + ++b ⇒ x = ++a + ++b
x = - 5.abs() ⇒ x = - 5.abs()
x = - 5++ ⇒ x = - 5++
x = - 5[0].b.@c ⇒ x = - 5[0].b.@c
x = -a[5] ⇒ x = -a[5]
x = -a++ ⇒ x = -a++
a - -1 ⇒ a - -1
a -1 ⇒ a - 1
x = -!a ⇒ x = -!a"#;

#[test]
fn signs(rt: HostRuntime) -> Result<(), Fail> {
    assert_eq!(rt; wrong(rt.alloc(), SIGNS)?.as_str(), "");
    Ok(())
}

const NUMBERS: &str = r#"x = 0x1F ⇒ x = 31
x = 0b101L ⇒ x = 5L
x = 017 ⇒ x = 15
x = 1_000 ⇒ x = 1000
x = 2147483648 ⇒ x = 2147483648L
x = -9223372036854775808 ⇒ x = -9223372036854775808L
x = 7I ⇒ x = 7
x = 0 ⇒ x = 0"#;

#[test]
fn numbers(rt: HostRuntime) -> Result<(), Fail> {
    assert_eq!(rt; wrong(rt.alloc(), NUMBERS)?.as_str(), "");
    Ok(())
}
