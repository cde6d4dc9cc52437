//! Statements.

use super::wrong;
use std::test::Fail;

const BRANCHES: &str = r#"if (a) b ⇒ if (a)⏎  b
if (a) { b } ⇒ if (a) {⏎  b⏎}
if (a) { } ⇒ if (a) { }
if (a) b else c ⇒ if (a)⏎  b⏎else⏎  c
if (a) { b } else { c } ⇒ if (a) {⏎  b⏎}⏎else {⏎  c⏎}
if (a) { b } else if (c) d else e ⇒ if (a) {⏎  b⏎}⏎else⏎  if (c)⏎    d⏎  else⏎    e
while (a) b ⇒ while (a)⏎  b
while (a) { break; continue } ⇒ while (a) {⏎  break⏎  continue⏎}
for (x in y) z ⇒ for (x in y)⏎  z
for (def x : y) { z } ⇒ for (def x in y) {⏎  z⏎}
for (int x in 1..2) z ⇒ for (int x in 1 .. 2)⏎  z
for (;;) a ⇒ for (; ; )⏎  a
for (def i = 0; i < 3; i++) { a } ⇒ for (def i = 0; i < 3; i++) {⏎  a⏎}
for (i = 0; ; ) a ⇒ for (i = 0; ; )⏎  a
switch (a) { } ⇒ switch (a) { }
switch (a) { case 1: b; c; case 2: default: d } ⇒ switch (a) {⏎  case 1:⏎    b⏎    c⏎  case 2:⏎  default:⏎    d⏎}
if (a) while (b) { c } ⇒ if (a)⏎  while (b) {⏎    c⏎  }"#;

#[test]
fn branches(rt: HostRuntime) -> Result<(), Fail> {
    assert_eq!(rt; wrong(rt.alloc(), BRANCHES)?.as_str(), "");
    Ok(())
}

const OTHER_STATEMENTS: &str = r#"try { a } catch (e) { b } ⇒ try {⏎  a⏎}⏎catch (e) {⏎  b⏎}
try { a } catch (A|B e) { b } catch (C c) { } finally { d } ⇒ try {⏎  a⏎}⏎catch (A | B e) {⏎  b⏎}⏎catch (C c) { }⏎finally {⏎  d⏎}
try { } finally { } ⇒ try { }⏎finally { }
throw new E('a') ⇒ throw new E('a')
def f() { return } ⇒ def f() {⏎  return⏎}
def f() { return f 1 } ⇒ def f() {⏎  return f(1)⏎}
assert a ⇒ assert a
assert a:'m' ⇒ assert a: 'm'
def a ⇒ def a
final def a=1,b ⇒ final def a = 1, b
int a = 1 ⇒ int a = 1
long a; boolean b; C c ⇒ long a⏎boolean b⏎C c
def (a,b)=c ⇒ def (a, b) = c
def a = f 1 ⇒ def a = f(1)"#;

#[test]
fn other_statements(rt: HostRuntime) -> Result<(), Fail> {
    assert_eq!(rt; wrong(rt.alloc(), OTHER_STATEMENTS)?.as_str(), "");
    Ok(())
}
