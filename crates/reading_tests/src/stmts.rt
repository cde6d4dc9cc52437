//! Scripts and their trees.

use gv_base::{Names, OutOfMemory};
use gv_lex::{LexError, lex};
use gv_stmts::{ParseError, parse};
use std::alloc::{AllocError, Global};
use std::fmt::Write;
use std::test::Fail;

/// Scripts, with a `⏎` for each line end, and the tree of each, or why and where it is refused.
/// A place is LINE:COLUMN, and a name its number: `1:5#2` is the name 2 at 1:5, and `-` no modifier.
const TREES: &str =
    r#"println 1 + 2 ⇒ [Stmt(Expr(Call(1:9, Atom(1:1, Name(0)), [Plain(Binary(1:11, Plus, Atom(1:9, Int(1)), Atom(1:13, Int(2))))])))]
println(1 + 2) ⇒ [Stmt(Expr(Call(1:8, Atom(1:1, Name(0)), [Plain(Binary(1:11, Plus, Atom(1:9, Int(1)), Atom(1:13, Int(2))))])))]
1 ⇒ [Stmt(Expr(Atom(1:1, Int(1))))]
1 + 2 * 3 - 4 ⇒ [Stmt(Expr(Binary(1:11, Minus, Binary(1:3, Plus, Atom(1:1, Int(1)), Binary(1:7, Multiply, Atom(1:5, Int(2)), Atom(1:9, Int(3)))), Atom(1:13, Int(4)))))]
a - b - c ⇒ [Stmt(Expr(Binary(1:7, Minus, Binary(1:3, Minus, Atom(1:1, Name(0)), Atom(1:5, Name(1))), Atom(1:9, Name(2)))))]
a * b % c ⇒ [Stmt(Expr(Binary(1:7, Mod, Binary(1:3, Multiply, Atom(1:1, Name(0)), Atom(1:5, Name(1))), Atom(1:9, Name(2)))))]
a << b >> c >>> d ⇒ [Stmt(Expr(Binary(1:13, RightShiftUnsigned, Binary(1:8, RightShift, Binary(1:3, LeftShift, Atom(1:1, Name(0)), Atom(1:6, Name(1))), Atom(1:11, Name(2))), Atom(1:17, Name(3)))))]
1 + 2 << 3 ⇒ [Stmt(Expr(Binary(1:7, LeftShift, Binary(1:3, Plus, Atom(1:1, Int(1)), Atom(1:5, Int(2))), Atom(1:10, Int(3)))))]
a..b + 1 ⇒ [Stmt(Expr(Binary(1:2, Range, Atom(1:1, Name(0)), Binary(1:6, Plus, Atom(1:4, Name(1)), Atom(1:8, Int(1))))))]
a..<b ⇒ [Stmt(Expr(Binary(1:2, HalfOpenRange, Atom(1:1, Name(0)), Atom(1:5, Name(1)))))]
a < b && c <= d || e > f ⇒ [Stmt(Expr(Binary(1:17, Or, Binary(1:7, And, Binary(1:3, Less, Atom(1:1, Name(0)), Atom(1:5, Name(1))), Binary(1:12, LessEqual, Atom(1:10, Name(2)), Atom(1:15, Name(3)))), Binary(1:22, Greater, Atom(1:20, Name(4)), Atom(1:24, Name(5))))))]
a <=> b ⇒ [Stmt(Expr(Binary(1:3, Compare, Atom(1:1, Name(0)), Atom(1:7, Name(1)))))]
a == b ⇒ [Stmt(Expr(Binary(1:3, Equal, Atom(1:1, Name(0)), Atom(1:6, Name(1)))))]
a != b ⇒ [Stmt(Expr(Binary(1:3, NotEqual, Atom(1:1, Name(0)), Atom(1:6, Name(1)))))]
a & b ^ c | d ⇒ [Stmt(Expr(Binary(1:11, BitOr, Binary(1:7, BitXor, Binary(1:3, BitAnd, Atom(1:1, Name(0)), Atom(1:5, Name(1))), Atom(1:9, Name(2))), Atom(1:13, Name(3)))))]
a && b || c ⇒ [Stmt(Expr(Binary(1:8, Or, Binary(1:3, And, Atom(1:1, Name(0)), Atom(1:6, Name(1))), Atom(1:11, Name(2)))))]
!a ⇒ [Stmt(Expr(Unary(1:1, Not, Atom(1:2, Name(0)))))]
-a + +b ⇒ [Stmt(Expr(Binary(1:4, Plus, Unary(1:1, Minus, Atom(1:2, Name(0))), Unary(1:6, Plus, Atom(1:7, Name(1))))))]
~a ⇒ refused NotInProfile(Tilde) at 1:1
++a ⇒ [Stmt(Expr(Unary(1:1, Increment, Atom(1:3, Name(0)))))]
a-- ⇒ [Stmt(Expr(Unary(1:2, DecrementAfter, Atom(1:1, Name(0)))))]
!a.b() ⇒ [Stmt(Expr(Unary(1:1, Not, Call(1:5, Member(1:3, Dot, Atom(1:2, Name(0)), Name(1:4#1)), []))))]
-a++ ⇒ [Stmt(Expr(Unary(1:1, Minus, Unary(1:3, IncrementAfter, Atom(1:2, Name(0))))))]
a ? b : c ⇒ [Stmt(Expr(Choice(1:3, Atom(1:1, Name(0)), Some(Atom(1:5, Name(1))), Atom(1:9, Name(2)))))]
a ?: b ⇒ [Stmt(Expr(Choice(1:3, Atom(1:1, Name(0)), None, Atom(1:6, Name(1)))))]
a ? b : c ? d : e ⇒ [Stmt(Expr(Choice(1:3, Atom(1:1, Name(0)), Some(Atom(1:5, Name(1))), Choice(1:11, Atom(1:9, Name(2)), Some(Atom(1:13, Name(3))), Atom(1:17, Name(4))))))]
a ? b ? c : d : e ⇒ [Stmt(Expr(Choice(1:3, Atom(1:1, Name(0)), Some(Choice(1:7, Atom(1:5, Name(1)), Some(Atom(1:9, Name(2))), Atom(1:13, Name(3)))), Atom(1:17, Name(4)))))]
a = b ⇒ [Stmt(Expr(Assign(1:3, Plain, Atom(1:1, Name(0)), Atom(1:5, Name(1)))))]
a = b = c ⇒ [Stmt(Expr(Assign(1:3, Plain, Atom(1:1, Name(0)), Assign(1:7, Plain, Atom(1:5, Name(1)), Atom(1:9, Name(2))))))]
a.b = 1 ⇒ [Stmt(Expr(Assign(1:5, Plain, Member(1:2, Dot, Atom(1:1, Name(0)), Name(1:3#1)), Atom(1:7, Int(1)))))]
a[0] = 1 ⇒ [Stmt(Expr(Assign(1:6, Plain, Index(1:2, Atom(1:1, Name(0)), [Atom(1:3, Int(0))]), Atom(1:8, Int(1)))))]
a += 1 ⇒ [Stmt(Expr(Assign(1:3, Plus, Atom(1:1, Name(0)), Atom(1:6, Int(1)))))]
a <<= b ⇒ [Stmt(Expr(Assign(1:3, LeftShift, Atom(1:1, Name(0)), Atom(1:7, Name(1)))))]
a - 1 ⇒ [Stmt(Expr(Binary(1:3, Minus, Atom(1:1, Name(0)), Atom(1:5, Int(1)))))]
a -1 ⇒ [Stmt(Expr(Binary(1:3, Minus, Atom(1:1, Name(0)), Atom(1:4, Int(1)))))]
a instanceof C ⇒ [Stmt(Expr(Typed(1:3, InstanceOf, Atom(1:1, Name(0)), Class(1:14#2))))]
a as String ⇒ [Stmt(Expr(Typed(1:3, As, Atom(1:1, Name(0)), Class(1:6#2))))]
a as int ⇒ [Stmt(Expr(Typed(1:3, As, Atom(1:1, Name(0)), Int(1:6))))]
a in b ⇒ [Stmt(Expr(Binary(1:3, In, Atom(1:1, Name(0)), Atom(1:6, Name(2)))))]
(a) ⇒ [Stmt(Expr(Paren(1:1, Atom(1:2, Name(0)))))]
(a + b) * c ⇒ [Stmt(Expr(Binary(1:9, Multiply, Paren(1:1, Binary(1:4, Plus, Atom(1:2, Name(0)), Atom(1:6, Name(1)))), Atom(1:11, Name(2)))))]
a.b.c ⇒ [Stmt(Expr(Member(1:4, Dot, Member(1:2, Dot, Atom(1:1, Name(0)), Name(1:3#1)), Name(1:5#2))))]
a?.b ⇒ [Stmt(Expr(Member(1:2, Safe, Atom(1:1, Name(0)), Name(1:4#1))))]
a*.b ⇒ [Stmt(Expr(Member(1:2, Spread, Atom(1:1, Name(0)), Name(1:4#1))))]
a.&b ⇒ [Stmt(Expr(Member(1:2, Pointer, Atom(1:1, Name(0)), Name(1:4#1))))]
a.@b ⇒ [Stmt(Expr(Field(1:2, Atom(1:1, Name(0)), 1:4#1)))]
a.class ⇒ [Stmt(Expr(Member(1:2, Dot, Atom(1:1, Name(0)), Name(1:3#1))))]
a.'b c' ⇒ [Stmt(Expr(Member(1:2, Dot, Atom(1:1, Name(0)), Text(1:3#1))))]
a."b$c" ⇒ [Stmt(Expr(Member(1:2, Dot, Atom(1:1, Name(0)), GString(1:3, GString { head: 1, parts: [Part { is_lazy: false, value: Atom(1:6, Name(2)), behind: 3 }] }))))]
a[1] ⇒ [Stmt(Expr(Index(1:2, Atom(1:1, Name(0)), [Atom(1:3, Int(1))])))]
a[1, 2] ⇒ [Stmt(Expr(Index(1:2, Atom(1:1, Name(0)), [Atom(1:3, Int(1)), Atom(1:6, Int(2))])))]
a.b[c].d() ⇒ [Stmt(Expr(Call(1:9, Member(1:7, Dot, Index(1:4, Member(1:2, Dot, Atom(1:1, Name(0)), Name(1:3#1)), [Atom(1:5, Name(2))]), Name(1:8#3)), [])))]
a() ⇒ [Stmt(Expr(Call(1:2, Atom(1:1, Name(0)), [])))]
a(1, 2) ⇒ [Stmt(Expr(Call(1:2, Atom(1:1, Name(0)), [Plain(Atom(1:3, Int(1))), Plain(Atom(1:6, Int(2)))])))]
a(b: 1, c) ⇒ [Stmt(Expr(Call(1:2, Atom(1:1, Name(0)), [Keyed(Label(Name(1:3#1)), Atom(1:6, Int(1))), Plain(Atom(1:9, Name(2)))])))]
a(*b) ⇒ [Stmt(Expr(Call(1:2, Atom(1:1, Name(0)), [Spread(1:3, Atom(1:4, Name(1)))])))]
a(*: b) ⇒ [Stmt(Expr(Call(1:2, Atom(1:1, Name(0)), [SpreadMap(1:3, Atom(1:6, Name(1)))])))]
a('k': 1, 2: 3) ⇒ [Stmt(Expr(Call(1:2, Atom(1:1, Name(0)), [Keyed(Label(Text(1:3#1)), Atom(1:8, Int(1))), Keyed(Int(1:11, 2), Atom(1:14, Int(3)))])))]
a { b } ⇒ [Stmt(Expr(Call(1:3, Atom(1:1, Name(0)), [Plain(Closure(1:3, Read(None, [Expr(Atom(1:5, Name(1)))])))])))]
a(1) { b } ⇒ [Stmt(Expr(Call(1:2, Atom(1:1, Name(0)), [Plain(Atom(1:3, Int(1))), Plain(Closure(1:6, Read(None, [Expr(Atom(1:8, Name(1)))])))])))]
a(1) { b } { c } ⇒ [Stmt(Expr(Call(1:2, Atom(1:1, Name(0)), [Plain(Atom(1:3, Int(1))), Plain(Closure(1:6, Read(None, [Expr(Atom(1:8, Name(1)))]))), Plain(Closure(1:12, Read(None, [Expr(Atom(1:14, Name(2)))])))])))]
a.b { it } ⇒ [Stmt(Expr(Call(1:5, Member(1:2, Dot, Atom(1:1, Name(0)), Name(1:3#1)), [Plain(Closure(1:5, Read(None, [Expr(Atom(1:7, Name(2)))])))])))]
a { b }.c ⇒ [Stmt(Expr(Member(1:8, Dot, Call(1:3, Atom(1:1, Name(0)), [Plain(Closure(1:3, Read(None, [Expr(Atom(1:5, Name(1)))])))]), Name(1:9#2))))]
a.b(c) ⇒ [Stmt(Expr(Call(1:4, Member(1:2, Dot, Atom(1:1, Name(0)), Name(1:3#1)), [Plain(Atom(1:5, Name(2)))])))]
new A() ⇒ [Stmt(Expr(New(1:1, 1:5#1, [])))]
new A(1, b: 2) ⇒ [Stmt(Expr(New(1:1, 1:5#1, [Plain(Atom(1:7, Int(1))), Keyed(Label(Name(1:10#2)), Atom(1:13, Int(2)))])))]
new A().b ⇒ [Stmt(Expr(Member(1:8, Dot, New(1:1, 1:5#1, []), Name(1:9#2))))]
[] ⇒ [Stmt(Expr(List(1:1, [])))]
[1] ⇒ [Stmt(Expr(List(1:1, [Plain(Atom(1:2, Int(1)))])))]
[1, 2,] ⇒ [Stmt(Expr(List(1:1, [Plain(Atom(1:2, Int(1))), Plain(Atom(1:5, Int(2)))])))]
[1, *a] ⇒ [Stmt(Expr(List(1:1, [Plain(Atom(1:2, Int(1))), Spread(1:5, Atom(1:6, Name(0)))])))]
[:] ⇒ [Stmt(Expr(Map(1:1, [])))]
[a: 1] ⇒ [Stmt(Expr(Map(1:1, [Keyed(Label(Name(1:2#0)), Atom(1:5, Int(1)))])))]
[a: 1, 'b': 2,] ⇒ [Stmt(Expr(Map(1:1, [Keyed(Label(Name(1:2#0)), Atom(1:5, Int(1))), Keyed(Label(Text(1:8#1)), Atom(1:13, Int(2)))])))]
[(a): 1] ⇒ [Stmt(Expr(Map(1:1, [Computed(1:2, Atom(1:3, Name(0)), Atom(1:7, Int(1)))])))]
["a$b": 1] ⇒ [Stmt(Expr(Map(1:1, [Keyed(Label(GString(1:2, GString { head: 0, parts: [Part { is_lazy: false, value: Atom(1:5, Name(1)), behind: 2 }] })), Atom(1:9, Int(1)))])))]
[1: 2, 3L: 4] ⇒ [Stmt(Expr(Map(1:1, [Keyed(Int(1:2, 1), Atom(1:5, Int(2))), Keyed(Long(1:8, 3), Atom(1:12, Int(4)))])))]
[*: a, b: 1] ⇒ [Stmt(Expr(Map(1:1, [Spread(1:2, Atom(1:5, Name(0))), Keyed(Label(Name(1:8#1)), Atom(1:11, Int(1)))])))]
'text' ⇒ [Stmt(Expr(Atom(1:1, Text(0))))]
"a${b}c" ⇒ [Stmt(Expr(GString(1:1, GString { head: 0, parts: [Part { is_lazy: false, value: Atom(1:5, Name(1)), behind: 2 }] })))]
"$a.b" ⇒ [Stmt(Expr(GString(1:1, GString { head: 0, parts: [Part { is_lazy: false, value: Member(1:4, Dot, Atom(1:3, Name(1)), Name(1:5#2)), behind: 0 }] })))]
"${a + 1}${-> b}" ⇒ [Stmt(Expr(GString(1:1, GString { head: 0, parts: [Part { is_lazy: false, value: Binary(1:6, Plus, Atom(1:4, Name(1)), Atom(1:8, Int(1))), behind: 0 }, Part { is_lazy: true, value: Atom(1:15, Name(2)), behind: 0 }] })))]
"""a⏎$b""" ⇒ [Stmt(Expr(GString(1:1, GString { head: 0, parts: [Part { is_lazy: false, value: Atom(2:2, Name(1)), behind: 2 }] })))]
{ -> a }() ⇒ refused UnexpectedToken at 1:1
x = { } ⇒ [Stmt(Expr(Assign(1:3, Plain, Atom(1:1, Name(0)), Closure(1:5, Read(None, [])))))]
x = { a } ⇒ [Stmt(Expr(Assign(1:3, Plain, Atom(1:1, Name(0)), Closure(1:5, Read(None, [Expr(Atom(1:7, Name(1)))])))))]
x = { -> a } ⇒ [Stmt(Expr(Assign(1:3, Plain, Atom(1:1, Name(0)), Closure(1:5, Read(Some([]), [Expr(Atom(1:10, Name(1)))])))))]
x = { a -> b } ⇒ [Stmt(Expr(Assign(1:3, Plain, Atom(1:1, Name(0)), Closure(1:5, Read(Some([Param { ident: 1:7#1, is_final: false, written: None, is_rest: false, initial: None }]), [Expr(Atom(1:12, Name(2)))])))))]
x = { a, b -> c } ⇒ [Stmt(Expr(Assign(1:3, Plain, Atom(1:1, Name(0)), Closure(1:5, Read(Some([Param { ident: 1:7#1, is_final: false, written: None, is_rest: false, initial: None }, Param { ident: 1:10#2, is_final: false, written: None, is_rest: false, initial: None }]), [Expr(Atom(1:15, Name(3)))])))))]
x = { int a, b = 1 -> c } ⇒ [Stmt(Expr(Assign(1:3, Plain, Atom(1:1, Name(0)), Closure(1:5, Read(Some([Param { ident: 1:11#2, is_final: false, written: Some(Typed(Int(1:7))), is_rest: false, initial: None }, Param { ident: 1:14#3, is_final: false, written: None, is_rest: false, initial: Some(Atom(1:18, Int(1))) }]), [Expr(Atom(1:23, Name(4)))])))))]
x = { int... a -> b } ⇒ [Stmt(Expr(Assign(1:3, Plain, Atom(1:1, Name(0)), Closure(1:5, Read(Some([Param { ident: 1:14#2, is_final: false, written: Some(Typed(Int(1:7))), is_rest: true, initial: None }]), [Expr(Atom(1:19, Name(3)))])))))]
x = { a⏎b } ⇒ [Stmt(Expr(Assign(1:3, Plain, Atom(1:1, Name(0)), Closure(1:5, Read(None, [Expr(Atom(1:7, Name(1))), Expr(Atom(2:1, Name(2)))])))))]
x = { a; b; } ⇒ [Stmt(Expr(Assign(1:3, Plain, Atom(1:1, Name(0)), Closure(1:5, Read(None, [Expr(Atom(1:7, Name(1))), Expr(Atom(1:10, Name(2)))])))))]
x = { it -> it * 2 } ⇒ [Stmt(Expr(Assign(1:3, Plain, Atom(1:1, Name(0)), Closure(1:5, Read(Some([Param { ident: 1:7#1, is_final: false, written: None, is_rest: false, initial: None }]), [Expr(Binary(1:16, Multiply, Atom(1:13, Name(1)), Atom(1:18, Int(2))))])))))]
x = { { -> a } } ⇒ refused UnexpectedToken at 1:7
a b ⇒ [Stmt(Expr(Call(1:3, Atom(1:1, Name(0)), [Plain(Atom(1:3, Name(1)))])))]
a b c ⇒ [Stmt(Expr(Member(1:5, Dot, Call(1:3, Atom(1:1, Name(0)), [Plain(Atom(1:3, Name(1)))]), Name(1:5#2))))]
a b c d ⇒ [Stmt(Expr(Call(1:7, Member(1:5, Dot, Call(1:3, Atom(1:1, Name(0)), [Plain(Atom(1:3, Name(1)))]), Name(1:5#2)), [Plain(Atom(1:7, Name(3)))])))]
a b, c ⇒ [Stmt(Expr(Call(1:3, Atom(1:1, Name(0)), [Plain(Atom(1:3, Name(1))), Plain(Atom(1:6, Name(2)))])))]
a b, c d e ⇒ [Stmt(Expr(Call(1:10, Member(1:8, Dot, Call(1:3, Atom(1:1, Name(0)), [Plain(Atom(1:3, Name(1))), Plain(Atom(1:6, Name(2)))]), Name(1:8#3)), [Plain(Atom(1:10, Name(4)))])))]
a b c, d ⇒ refused UnexpectedToken at 1:6
a(b) c ⇒ [Stmt(Expr(Member(1:6, Dot, Call(1:2, Atom(1:1, Name(0)), [Plain(Atom(1:3, Name(1)))]), Name(1:6#2))))]
a(b) c d ⇒ [Stmt(Expr(Call(1:8, Member(1:6, Dot, Call(1:2, Atom(1:1, Name(0)), [Plain(Atom(1:3, Name(1)))]), Name(1:6#2)), [Plain(Atom(1:8, Name(3)))])))]
a b(c) ⇒ [Stmt(Expr(Call(1:3, Atom(1:1, Name(0)), [Plain(Call(1:4, Atom(1:3, Name(1)), [Plain(Atom(1:5, Name(2)))]))])))]
a b c(d) e ⇒ [Stmt(Expr(Member(1:10, Dot, Call(1:6, Member(1:5, Dot, Call(1:3, Atom(1:1, Name(0)), [Plain(Atom(1:3, Name(1)))]), Name(1:5#2)), [Plain(Atom(1:7, Name(3)))]), Name(1:10#4))))]
a b { c } ⇒ [Stmt(Expr(Call(1:3, Atom(1:1, Name(0)), [Plain(Call(1:5, Atom(1:3, Name(1)), [Plain(Closure(1:5, Read(None, [Expr(Atom(1:7, Name(2)))])))]))])))]
a { b } c ⇒ [Stmt(Expr(Member(1:9, Dot, Call(1:3, Atom(1:1, Name(0)), [Plain(Closure(1:3, Read(None, [Expr(Atom(1:5, Name(1)))])))]), Name(1:9#2))))]
a b: 1, c: 2 ⇒ [Stmt(Expr(Call(1:3, Atom(1:1, Name(0)), [Keyed(Label(Name(1:3#1)), Atom(1:6, Int(1))), Keyed(Label(Name(1:9#2)), Atom(1:12, Int(2)))])))]
a b: 1, c ⇒ [Stmt(Expr(Call(1:3, Atom(1:1, Name(0)), [Keyed(Label(Name(1:3#1)), Atom(1:6, Int(1))), Plain(Atom(1:9, Name(2)))])))]
a 'b': 1 ⇒ [Stmt(Expr(Call(1:3, Atom(1:1, Name(0)), [Keyed(Label(Text(1:3#1)), Atom(1:8, Int(1)))])))]
a [1] ⇒ [Stmt(Expr(Index(1:3, Atom(1:1, Name(0)), [Atom(1:4, Int(1))])))]
a -b ⇒ [Stmt(Expr(Binary(1:3, Minus, Atom(1:1, Name(0)), Atom(1:4, Name(1)))))]
a - b ⇒ [Stmt(Expr(Binary(1:3, Minus, Atom(1:1, Name(0)), Atom(1:5, Name(1)))))]
a.b c ⇒ [Stmt(Expr(Call(1:5, Member(1:2, Dot, Atom(1:1, Name(0)), Name(1:3#1)), [Plain(Atom(1:5, Name(2)))])))]
a.b c d ⇒ [Stmt(Expr(Member(1:7, Dot, Call(1:5, Member(1:2, Dot, Atom(1:1, Name(0)), Name(1:3#1)), [Plain(Atom(1:5, Name(2)))]), Name(1:7#3))))]
x = a b ⇒ [Stmt(Expr(Assign(1:3, Plain, Atom(1:1, Name(0)), Call(1:7, Atom(1:5, Name(1)), [Plain(Atom(1:7, Name(2)))]))))]
x = a b c ⇒ [Stmt(Expr(Assign(1:3, Plain, Atom(1:1, Name(0)), Member(1:9, Dot, Call(1:7, Atom(1:5, Name(1)), [Plain(Atom(1:7, Name(2)))]), Name(1:9#3)))))]
x += a b ⇒ [Stmt(Expr(Assign(1:3, Plus, Atom(1:1, Name(0)), Call(1:8, Atom(1:6, Name(1)), [Plain(Atom(1:8, Name(2)))]))))]
a b.c ⇒ [Stmt(Expr(Call(1:3, Atom(1:1, Name(0)), [Plain(Member(1:4, Dot, Atom(1:3, Name(1)), Name(1:5#2)))])))]
a b[1] ⇒ [Stmt(Expr(Call(1:3, Atom(1:1, Name(0)), [Plain(Index(1:4, Atom(1:3, Name(1)), [Atom(1:5, Int(1))]))])))]
a b ? c : d ⇒ [Stmt(Expr(Call(1:3, Atom(1:1, Name(0)), [Plain(Choice(1:5, Atom(1:3, Name(1)), Some(Atom(1:7, Name(2))), Atom(1:11, Name(3))))])))]
println a.b { c } ⇒ [Stmt(Expr(Call(1:9, Atom(1:1, Name(0)), [Plain(Call(1:13, Member(1:10, Dot, Atom(1:9, Name(1)), Name(1:11#2)), [Plain(Closure(1:13, Read(None, [Expr(Atom(1:15, Name(3)))])))]))])))]
return a b ⇒ [Stmt(Return(1:1, Some(Call(1:10, Atom(1:8, Name(1)), [Plain(Atom(1:10, Name(2)))]))))]
def x ⇒ [Stmt(Decl(Decl { place: 1:1, is_final: false, written: Def, vars: [Var { ident: 1:5#1, initial: None }] }))]
def x = 1 ⇒ [Stmt(Decl(Decl { place: 1:1, is_final: false, written: Def, vars: [Var { ident: 1:5#1, initial: Some(Atom(1:9, Int(1))) }] }))]
def x = 1, y, z = 2 ⇒ [Stmt(Decl(Decl { place: 1:1, is_final: false, written: Def, vars: [Var { ident: 1:5#1, initial: Some(Atom(1:9, Int(1))) }, Var { ident: 1:12#2, initial: None }, Var { ident: 1:15#3, initial: Some(Atom(1:19, Int(2))) }] }))]
int x = 1 ⇒ [Stmt(Decl(Decl { place: 1:1, is_final: false, written: Typed(Int(1:1)), vars: [Var { ident: 1:5#1, initial: Some(Atom(1:9, Int(1))) }] }))]
long x ⇒ [Stmt(Decl(Decl { place: 1:1, is_final: false, written: Typed(Long(1:1)), vars: [Var { ident: 1:6#1, initial: None }] }))]
boolean b = true ⇒ [Stmt(Decl(Decl { place: 1:1, is_final: false, written: Typed(Boolean(1:1)), vars: [Var { ident: 1:9#1, initial: Some(Atom(1:13, Bool(true))) }] }))]
String s = 'a' ⇒ [Stmt(Decl(Decl { place: 1:1, is_final: false, written: Typed(Class(1:1#0)), vars: [Var { ident: 1:8#1, initial: Some(Atom(1:12, Text(2))) }] }))]
final x = 1 ⇒ refused UnexpectedToken at 1:7
final def x = 1 ⇒ [Stmt(Decl(Decl { place: 1:1, is_final: true, written: Def, vars: [Var { ident: 1:11#2, initial: Some(Atom(1:15, Int(1))) }] }))]
final int x = 1 ⇒ [Stmt(Decl(Decl { place: 1:1, is_final: true, written: Typed(Int(1:7)), vars: [Var { ident: 1:11#2, initial: Some(Atom(1:15, Int(1))) }] }))]
def x = a b ⇒ [Stmt(Decl(Decl { place: 1:1, is_final: false, written: Def, vars: [Var { ident: 1:5#1, initial: Some(Call(1:11, Atom(1:9, Name(2)), [Plain(Atom(1:11, Name(3)))])) }] }))]
def (a, b) = [1, 2] ⇒ [Stmt(Multiple(1:1, [1:6#1, 1:9#2], List(1:14, [Plain(Atom(1:15, Int(1))), Plain(Atom(1:18, Int(2)))])))]
def (a) = b ⇒ [Stmt(Multiple(1:1, [1:6#1], Atom(1:11, Name(2))))]
if (a) b ⇒ [Stmt(If(1:1, Atom(1:5, Name(1)), Expr(Atom(1:8, Name(2))), None))]
if (a) { b } ⇒ [Stmt(If(1:1, Atom(1:5, Name(1)), Block(1:8, [Expr(Atom(1:10, Name(2)))]), None))]
if (a) { b } else { c } ⇒ [Stmt(If(1:1, Atom(1:5, Name(1)), Block(1:8, [Expr(Atom(1:10, Name(2)))]), Some(Block(1:19, [Expr(Atom(1:21, Name(4)))]))))]
if (a) b else c ⇒ [Stmt(If(1:1, Atom(1:5, Name(1)), Expr(Atom(1:8, Name(2))), Some(Expr(Atom(1:15, Name(4))))))]
if (a)⏎b⏎else⏎c ⇒ [Stmt(If(1:1, Atom(1:5, Name(1)), Expr(Atom(2:1, Name(2))), Some(Expr(Atom(4:1, Name(4))))))]
if (a) if (b) c else d ⇒ [Stmt(If(1:1, Atom(1:5, Name(1)), If(1:8, Atom(1:12, Name(2)), Expr(Atom(1:15, Name(3))), Some(Expr(Atom(1:22, Name(5))))), None))]
if (a) { b } else if (c) { d } else { e } ⇒ [Stmt(If(1:1, Atom(1:5, Name(1)), Block(1:8, [Expr(Atom(1:10, Name(2)))]), Some(If(1:19, Atom(1:23, Name(4)), Block(1:26, [Expr(Atom(1:28, Name(5)))]), Some(Block(1:37, [Expr(Atom(1:39, Name(6)))]))))))]
while (a) b ⇒ [Stmt(While(1:1, Atom(1:8, Name(1)), Expr(Atom(1:11, Name(2)))))]
while (a) { b; c } ⇒ [Stmt(While(1:1, Atom(1:8, Name(1)), Block(1:11, [Expr(Atom(1:13, Name(2))), Expr(Atom(1:16, Name(3)))])))]
for (x in a) b ⇒ [Stmt(ForIn(1:1, None, 1:6#1, Atom(1:11, Name(3)), Expr(Atom(1:14, Name(4)))))]
for (x in 1..3) { println x } ⇒ [Stmt(ForIn(1:1, None, 1:6#1, Binary(1:12, Range, Atom(1:11, Int(1)), Atom(1:14, Int(3))), Block(1:17, [Expr(Call(1:27, Atom(1:19, Name(3)), [Plain(Atom(1:27, Name(1)))]))])))]
for (def x in a) b ⇒ [Stmt(ForIn(1:1, Some(Def), 1:10#2, Atom(1:15, Name(4)), Expr(Atom(1:18, Name(5)))))]
for (int x : a) { b } ⇒ [Stmt(ForIn(1:1, Some(Typed(Int(1:6))), 1:10#2, Atom(1:14, Name(3)), Block(1:17, [Expr(Atom(1:19, Name(4)))])))]
for (String x in a) b ⇒ [Stmt(ForIn(1:1, Some(Typed(Class(1:6#1))), 1:13#2, Atom(1:18, Name(4)), Expr(Atom(1:21, Name(5)))))]
for (int i = 0; i < 3; i++) b ⇒ [Stmt(For(1:1, Some(Decl(Decl { place: 1:6, is_final: false, written: Typed(Int(1:6)), vars: [Var { ident: 1:10#2, initial: Some(Atom(1:14, Int(0))) }] })), Some(Binary(1:19, Less, Atom(1:17, Name(2)), Atom(1:21, Int(3)))), Some(Unary(1:25, IncrementAfter, Atom(1:24, Name(2)))), Expr(Atom(1:29, Name(3)))))]
for (;;) { break } ⇒ [Stmt(For(1:1, None, None, None, Block(1:10, [Leave(1:12, Break)])))]
for (i = 0; a; b) c ⇒ [Stmt(For(1:1, Some(Expr(Assign(1:8, Plain, Atom(1:6, Name(1)), Atom(1:10, Int(0))))), Some(Atom(1:13, Name(2))), Some(Atom(1:16, Name(3))), Expr(Atom(1:19, Name(4)))))]
for (x in a; ; ) { } ⇒ [Stmt(For(1:1, Some(Expr(Binary(1:8, In, Atom(1:6, Name(1)), Atom(1:11, Name(3))))), None, None, Block(1:18, [])))]
for (a; ; b) { } ⇒ [Stmt(For(1:1, Some(Expr(Atom(1:6, Name(1)))), None, Some(Atom(1:11, Name(2))), Block(1:14, [])))]
switch (a) { case 1: b; break; default: c } ⇒ [Stmt(Switch(1:1, Atom(1:9, Name(1)), [Case { place: 1:14, value: Some(Atom(1:19, Int(1))), body: [Expr(Atom(1:22, Name(3))), Leave(1:25, Break)] }, Case { place: 1:32, value: None, body: [Expr(Atom(1:41, Name(6)))] }]))]
switch (a) {⏎case 1:⏎case 2:⏎b⏎} ⇒ [Stmt(Switch(1:1, Atom(1:9, Name(1)), [Case { place: 2:1, value: Some(Atom(2:6, Int(1))), body: [] }, Case { place: 3:1, value: Some(Atom(3:6, Int(2))), body: [Expr(Atom(4:1, Name(3)))] }]))]
switch (a) { } ⇒ [Stmt(Switch(1:1, Atom(1:9, Name(1)), []))]
try { a } catch (E e) { b } ⇒ [Stmt(Try(1:1, [Expr(Atom(1:7, Name(1)))], [Catch { place: 1:11, types: [Class(1:18#3)], ident: 1:20#4, body: [Expr(Atom(1:25, Name(5)))] }], None))]
try { a } catch (E | F e) { b } catch (e) { c } ⇒ [Stmt(Try(1:1, [Expr(Atom(1:7, Name(1)))], [Catch { place: 1:11, types: [Class(1:18#3), Class(1:22#4)], ident: 1:24#5, body: [Expr(Atom(1:29, Name(6)))] }, Catch { place: 1:33, types: [], ident: 1:40#5, body: [Expr(Atom(1:45, Name(7)))] }], None))]
try { a } finally { b } ⇒ [Stmt(Try(1:1, [Expr(Atom(1:7, Name(1)))], [], Some([Expr(Atom(1:21, Name(3)))])))]
try { a } catch (e) { b } finally { c } ⇒ [Stmt(Try(1:1, [Expr(Atom(1:7, Name(1)))], [Catch { place: 1:11, types: [], ident: 1:18#3, body: [Expr(Atom(1:23, Name(4)))] }], Some([Expr(Atom(1:37, Name(6)))])))]
throw a ⇒ [Stmt(Throw(1:1, Atom(1:7, Name(1))))]
throw new E('a') ⇒ [Stmt(Throw(1:1, New(1:7, 1:11#2, [Plain(Atom(1:13, Text(3)))])))]
return ⇒ [Stmt(Return(1:1, None))]
return a ⇒ [Stmt(Return(1:1, Some(Atom(1:8, Name(1)))))]
assert a ⇒ [Stmt(Assert(1:1, Atom(1:8, Name(1)), None))]
assert a : b ⇒ [Stmt(Assert(1:1, Atom(1:8, Name(1)), Some(Atom(1:12, Name(2)))))]
while (a) { continue } ⇒ [Stmt(While(1:1, Atom(1:8, Name(1)), Block(1:11, [Leave(1:13, Continue)])))]
a; b ⇒ [Stmt(Expr(Atom(1:1, Name(0)))), Stmt(Expr(Atom(1:4, Name(1))))]
a⏎b ⇒ [Stmt(Expr(Atom(1:1, Name(0)))), Stmt(Expr(Atom(2:1, Name(1))))]
;; a ;; b ;; ⇒ [Stmt(Expr(Atom(1:4, Name(0)))), Stmt(Expr(Atom(1:9, Name(1))))]
⏎⏎a⏎⏎ ⇒ [Stmt(Expr(Atom(3:1, Name(0))))]
a⏎.b⏎.c() ⇒ [Stmt(Expr(Call(3:3, Member(3:1, Dot, Member(2:1, Dot, Atom(1:1, Name(0)), Name(2:2#1)), Name(3:2#2)), [])))]
a = [⏎1,⏎2⏎] ⇒ [Stmt(Expr(Assign(1:3, Plain, Atom(1:1, Name(0)), List(1:5, [Plain(Atom(2:1, Int(1))), Plain(Atom(3:1, Int(2)))]))))]
a(⏎b⏎) ⇒ [Stmt(Expr(Call(1:2, Atom(1:1, Name(0)), [Plain(Atom(2:1, Name(1)))])))]
def f() { } ⇒ [Method(Method { annotations: [], modifiers: -, answer: Value(Def), ident: 1:5#1, params: [], body: [] })]
def f(a) { a } ⇒ [Method(Method { annotations: [], modifiers: -, answer: Value(Def), ident: 1:5#1, params: [Param { ident: 1:7#2, is_final: false, written: None, is_rest: false, initial: None }], body: [Expr(Atom(1:12, Name(2)))] })]
void f(int a, b = 1) { } ⇒ [Method(Method { annotations: [], modifiers: -, answer: Void, ident: 1:6#1, params: [Param { ident: 1:12#3, is_final: false, written: Some(Typed(Int(1:8))), is_rest: false, initial: None }, Param { ident: 1:15#4, is_final: false, written: None, is_rest: false, initial: Some(Atom(1:19, Int(1))) }], body: [] })]
int f(String a, int... b) { return 1 } ⇒ [Method(Method { annotations: [], modifiers: -, answer: Value(Typed(Int(1:1))), ident: 1:5#1, params: [Param { ident: 1:14#3, is_final: false, written: Some(Typed(Class(1:7#2))), is_rest: false, initial: None }, Param { ident: 1:24#4, is_final: false, written: Some(Typed(Int(1:17))), is_rest: true, initial: None }], body: [Return(1:29, Some(Atom(1:36, Int(1))))] })]
String f()⏎{ a } ⇒ [Method(Method { annotations: [], modifiers: -, answer: Value(Typed(Class(1:1#0))), ident: 1:8#1, params: [], body: [Expr(Atom(2:3, Name(2)))] })]
static def f() { } ⇒ [Method(Method { annotations: [], modifiers: Modifiers { is_public: false, is_private: false, is_protected: false, is_static: true, is_final: false }, answer: Value(Def), ident: 1:12#2, params: [], body: [] })]
private int f(final a) { } ⇒ [Method(Method { annotations: [], modifiers: Modifiers { is_public: false, is_private: true, is_protected: false, is_static: false, is_final: false }, answer: Value(Typed(Int(1:9))), ident: 1:13#2, params: [Param { ident: 1:21#4, is_final: true, written: None, is_rest: false, initial: None }], body: [] })]
import a.B ⇒ [Import(Import { place: 1:1, path: [1:8#1, 1:10#2], is_all: false })]
import a.b.* ⇒ [Import(Import { place: 1:1, path: [1:8#1, 1:10#2], is_all: true })]
class A { } ⇒ [Class(ClassTree { annotations: [], modifiers: -, ident: 1:7#1, superclass: None, interface: None, members: [] })]
class A extends B implements C { } ⇒ [Class(ClassTree { annotations: [], modifiers: -, ident: 1:7#1, superclass: Some(1:17#3), interface: Some(1:30#5), members: [] })]
class A⏎{ } ⇒ [Class(ClassTree { annotations: [], modifiers: -, ident: 1:7#1, superclass: None, interface: None, members: [] })]
public class A { } ⇒ [Class(ClassTree { annotations: [], modifiers: Modifiers { is_public: true, is_private: false, is_protected: false, is_static: false, is_final: false }, ident: 1:14#2, superclass: None, interface: None, members: [] })]
final class A { } ⇒ [Class(ClassTree { annotations: [], modifiers: Modifiers { is_public: false, is_private: false, is_protected: false, is_static: false, is_final: true }, ident: 1:13#2, superclass: None, interface: None, members: [] })]
class A { def b } ⇒ [Class(ClassTree { annotations: [], modifiers: -, ident: 1:7#1, superclass: None, interface: None, members: [Field(Field { annotations: [], modifiers: -, written: Def, vars: [Var { ident: 1:15#3, initial: None }] })] })]
class A { int b = 1, c⏎String d } ⇒ [Class(ClassTree { annotations: [], modifiers: -, ident: 1:7#1, superclass: None, interface: None, members: [Field(Field { annotations: [], modifiers: -, written: Typed(Int(1:11)), vars: [Var { ident: 1:15#3, initial: Some(Atom(1:19, Int(1))) }, Var { ident: 1:22#4, initial: None }] }), Field(Field { annotations: [], modifiers: -, written: Typed(Class(2:1#5)), vars: [Var { ident: 2:8#6, initial: None }] })] })]
class A { static final int B = 1 } ⇒ [Class(ClassTree { annotations: [], modifiers: -, ident: 1:7#1, superclass: None, interface: None, members: [Field(Field { annotations: [], modifiers: Modifiers { is_public: false, is_private: false, is_protected: false, is_static: true, is_final: true }, written: Typed(Int(1:24)), vars: [Var { ident: 1:28#5, initial: Some(Atom(1:32, Int(1))) }] })] })]
class A { A() { } } ⇒ [Class(ClassTree { annotations: [], modifiers: -, ident: 1:7#1, superclass: None, interface: None, members: [Constructor(Constructor { annotations: [], modifiers: -, ident: 1:11#1, params: [], body: [] })] })]
class A { A(int b) { c = b }⏎A(b) { } } ⇒ [Class(ClassTree { annotations: [], modifiers: -, ident: 1:7#1, superclass: None, interface: None, members: [Constructor(Constructor { annotations: [], modifiers: -, ident: 1:11#1, params: [Param { ident: 1:17#3, is_final: false, written: Some(Typed(Int(1:13))), is_rest: false, initial: None }], body: [Expr(Assign(1:24, Plain, Atom(1:22, Name(4)), Atom(1:26, Name(3))))] }), Constructor(Constructor { annotations: [], modifiers: -, ident: 2:1#1, params: [Param { ident: 2:3#3, is_final: false, written: None, is_rest: false, initial: None }], body: [] })] })]
class A { def b() { c } } ⇒ [Class(ClassTree { annotations: [], modifiers: -, ident: 1:7#1, superclass: None, interface: None, members: [Method(Method { annotations: [], modifiers: -, answer: Value(Def), ident: 1:15#3, params: [], body: [Expr(Atom(1:21, Name(4)))] })] })]
class A { private void b(c) { } ; def d } ⇒ [Class(ClassTree { annotations: [], modifiers: -, ident: 1:7#1, superclass: None, interface: None, members: [Method(Method { annotations: [], modifiers: Modifiers { is_public: false, is_private: true, is_protected: false, is_static: false, is_final: false }, answer: Void, ident: 1:24#4, params: [Param { ident: 1:26#5, is_final: false, written: None, is_rest: false, initial: None }], body: [] }), Field(Field { annotations: [], modifiers: -, written: Def, vars: [Var { ident: 1:39#7, initial: None }] })] })]
@B class A { } ⇒ [Class(ClassTree { annotations: [Annotation { place: 1:1, path: [1:2#0], settings: [] }], modifiers: -, ident: 1:10#2, superclass: None, interface: None, members: [] })]
@a.B(c = 1, d = [2]) class A { } ⇒ [Class(ClassTree { annotations: [Annotation { place: 1:1, path: [1:2#0, 1:4#1], settings: [Setting { ident: 1:6#2, value: Atom(1:10, Int(1)) }, Setting { ident: 1:13#3, value: List(1:17, [Plain(Atom(1:18, Int(2)))]) }] }], modifiers: -, ident: 1:28#5, superclass: None, interface: None, members: [] })]
@B⏎class A { @C def d; @E f() { } } ⇒ refused UnexpectedToken at 2:24
@B def f() { } ⇒ [Method(Method { annotations: [Annotation { place: 1:1, path: [1:2#0], settings: [] }], modifiers: -, answer: Value(Def), ident: 1:8#2, params: [], body: [] })]
@B def x = 1 ⇒ [Decl([Annotation { place: 1:1, path: [1:2#0], settings: [] }], Decl { place: 1:4, is_final: false, written: Def, vars: [Var { ident: 1:8#2, initial: Some(Atom(1:12, Int(1))) }] })]
@B @C final int x = 1 ⇒ [Decl([Annotation { place: 1:1, path: [1:2#0], settings: [] }, Annotation { place: 1:4, path: [1:5#1], settings: [] }], Decl { place: 1:7, is_final: true, written: Typed(Int(1:13)), vars: [Var { ident: 1:17#4, initial: Some(Atom(1:21, Int(1))) }] })]
this.a ⇒ [Stmt(Expr(Member(1:5, Dot, Atom(1:1, This), Name(1:6#1))))]
super.b(c) ⇒ [Stmt(Expr(Call(1:8, Member(1:6, Dot, Atom(1:1, Super), Name(1:7#1)), [Plain(Atom(1:9, Name(2)))])))]
null ⇒ [Stmt(Expr(Atom(1:1, Null)))]
true && false ⇒ [Stmt(Expr(Binary(1:6, And, Atom(1:1, Bool(true)), Atom(1:9, Bool(false)))))]
1 + ⇒ refused UnexpectedToken at 1:4
a b c + ⇒ refused UnexpectedToken at 1:7
) ⇒ refused UnexpectedToken at 1:1
(a ⇒ refused UnexpectedToken at 1:3
(a b) ⇒ refused UnexpectedToken at 1:4
[1, 2 ⇒ refused UnexpectedToken at 1:6
[,] ⇒ refused UnexpectedToken at 1:2
[a: 1, b] ⇒ refused UnexpectedToken at 1:9
[a, b: 1] ⇒ refused UnexpectedToken at 1:9
a( ⇒ refused UnexpectedToken at 1:3
a(1, 2,) ⇒ refused UnexpectedToken at 1:8
a(b: ) ⇒ refused UnexpectedToken at 1:6
a ? b ⇒ refused UnexpectedToken at 1:6
a ? b : ⇒ refused UnexpectedToken at 1:8
a +⏎⏎ ⇒ refused UnexpectedToken at 3:1
a. ⇒ refused UnexpectedToken at 1:3
a.⏎ ⇒ refused UnexpectedToken at 2:1
new ⇒ refused UnexpectedToken at 1:4
new a() ⇒ refused UnexpectedToken at 1:5
new A ⇒ refused UnexpectedToken at 1:6
a = ⇒ refused UnexpectedToken at 1:4
1 = 2 ⇒ refused UnexpectedToken at 1:3
a + b = c ⇒ refused UnexpectedToken at 1:7
f() = 1 ⇒ refused UnexpectedToken at 1:5
x = { a -> ⇒ refused UnexpectedToken at 1:5
x = { a, -> b } ⇒ refused UnexpectedToken at 1:10
x = { int... a, b -> c } ⇒ refused UnexpectedToken at 1:15
{ a } ⇒ refused UnexpectedToken at 1:1
f { 1 + } ⇒ refused UnexpectedToken at 1:9
if a ⇒ refused UnexpectedToken at 1:4
if (a) ⇒ refused UnexpectedToken at 1:7
if (a) else b ⇒ refused UnexpectedToken at 1:8
else a ⇒ refused UnexpectedToken at 1:1
while (a) ⇒ refused UnexpectedToken at 1:10
for (a) b ⇒ refused UnexpectedToken at 1:7
for (a in) b ⇒ refused UnexpectedToken at 1:10
for (int i = 0; i < 3) b ⇒ refused UnexpectedToken at 1:22
for (int i in a b) c ⇒ refused UnexpectedToken at 1:17
switch (a) { b } ⇒ refused UnexpectedToken at 1:14
switch (a) { case 1 } ⇒ refused UnexpectedToken at 1:21
try { a } ⇒ refused UnexpectedToken at 1:10
try a catch (e) { b } ⇒ refused UnexpectedToken at 1:5
catch (e) { a } ⇒ refused UnexpectedToken at 1:1
throw ⇒ refused UnexpectedToken at 1:6
assert ⇒ refused UnexpectedToken at 1:7
assert a : ⇒ refused UnexpectedToken at 1:11
def ⇒ refused UnexpectedToken at 1:4
def 1 ⇒ refused UnexpectedToken at 1:5
def (a, b) ⇒ refused UnexpectedToken at 1:11
def (a b) = c ⇒ refused UnexpectedToken at 1:8
int ⇒ refused UnexpectedToken at 1:4
final ⇒ refused UnexpectedToken at 1:6
a b c) d ⇒ refused UnexpectedToken at 1:6
a /b ⇒ refused PlainDivision at 1:3
a / b ⇒ refused PlainDivision at 1:3
a /= b ⇒ refused PlainDivision at 1:3
a ** b ⇒ refused NotInProfile(Power) at 1:3
a =~ b ⇒ refused NotInProfile(Find) at 1:3
a ==~ b ⇒ refused NotInProfile(Match) at 1:3
a === b ⇒ refused NotInProfile(Identical) at 1:3
do { a } while (b) ⇒ refused NotInProfile(Do) at 1:1
enum A { } ⇒ refused NotInProfile(Enum) at 1:1
goto a ⇒ refused NotInProfile(Goto) at 1:1
double x ⇒ refused NotInProfile(Double) at 1:1
synchronized (a) { } ⇒ refused NotInProfile(Synchronized) at 1:1
interface A { } ⇒ refused NotInProfile(Interface) at 1:1
import ⇒ refused UnexpectedToken at 1:7
import a. ⇒ refused UnexpectedToken at 1:10
import 1 ⇒ refused UnexpectedToken at 1:8
class ⇒ refused UnexpectedToken at 1:6
class a { } ⇒ refused UnexpectedToken at 1:7
class A ⇒ refused UnexpectedToken at 1:8
class A { a } ⇒ refused UnexpectedToken at 1:11
class A { def } ⇒ refused UnexpectedToken at 1:15
class A { B() { } } ⇒ refused UnexpectedToken at 1:12
class A { A() } ⇒ refused UnexpectedToken at 1:15
@ ⇒ refused UnexpectedToken at 1:2
@A ⇒ refused UnexpectedToken at 1:3
@A 1 ⇒ refused UnexpectedToken at 1:4
@A println 1 ⇒ refused UnexpectedToken at 1:4
def f( { } ⇒ refused UnexpectedToken at 1:8
def f(a { } ⇒ refused UnexpectedToken at 1:9
def f(int... a, b) { } ⇒ refused UnexpectedToken at 1:15
f(a) { b } c d } ⇒ refused UnexpectedToken at 1:16
"a${b c d e)}" ⇒ refused UnexpectedToken at 1:7
"${a +}" ⇒ refused UnexpectedToken at 1:7
"${}" ⇒ refused UnexpectedToken at 1:4
case 1: a ⇒ refused UnexpectedToken at 1:1
default: b ⇒ refused UnexpectedToken at 1:1
a in b in c ⇒ refused UnexpectedToken at 1:8
a as ⇒ refused UnexpectedToken at 1:5
a instanceof ⇒ refused UnexpectedToken at 1:13
a..b..c ⇒ refused UnexpectedToken at 1:5
a == b == c ⇒ [Stmt(Expr(Binary(1:8, Equal, Binary(1:3, Equal, Atom(1:1, Name(0)), Atom(1:6, Name(1))), Atom(1:11, Name(2)))))]
a < b < c ⇒ refused UnexpectedToken at 1:7
class A { } class B { } ⇒ refused UnexpectedToken at 1:13
a.b.1 ⇒ refused UnexpectedToken at 1:5
break a ⇒ refused UnexpectedToken at 1:7
a: b ⇒ refused UnexpectedToken at 1:2
1.a ⇒ [Stmt(Expr(Member(1:2, Dot, Atom(1:1, Int(1)), Name(1:3#0))))]
a b: ⇒ refused UnexpectedToken at 1:5
println a, ⇒ refused UnexpectedToken at 1:11
"#;

#[test]
fn each_script_has_its_tree(rt: HostRuntime) -> Result<(), Fail> {
    let mut wrong = String::new(rt.alloc());
    for row in TREES.lines() {
        if !is_right(rt.alloc(), row)? {
            wrong.push_str(row)?;
            wrong.push_str("\n")?;
        }
    }
    assert_eq!(rt; wrong.as_str(), "");
    Ok(())
}

fn is_right(alloc: Global, row: &str) -> Result<bool, Fail> {
    match row.split_once(" ⇒ ") {
        Some((script, tree)) => Ok(told(alloc, script)?.as_str() == tree),
        None => Ok(false),
    }
}

/// The tree of a script, or the kind and the place of its refusal.
fn told(alloc: Global, script: &str) -> Result<String, Fail> {
    let text = with_line_ends(alloc, script)?;
    let mut told = String::new(alloc);
    if text.len() >= 100_000 {
        return Ok(told);
    }
    let mut names = Names::new(alloc);
    match lex(alloc, 0, text.as_bytes(), &mut names) {
        Ok(tokens) => match parse(alloc, tokens.as_slice()) {
            Ok(tree) => write!(told, "{tree:?}")?,
            Err(ParseError::Refused(refusal)) => write!(told, "{refusal:?}")?,
            Err(ParseError::OutOfMemory) => return Err(OutOfMemory)?,
        },
        Err(LexError::Refused(refusal)) => write!(told, "{refusal:?}")?,
        Err(LexError::OutOfMemory) => return Err(OutOfMemory)?,
    }
    Ok(shortened(alloc, told.as_str())?)
}

fn with_line_ends(alloc: Global, script: &str) -> Result<String, AllocError> {
    let mut text = String::new(alloc);
    for character in script.chars() {
        text.push(if character == '⏎' { '\n' } else { character })?;
    }
    Ok(text)
}

/// What a debug text begins with, what stands for it, and, where it opens a brace, whether that is shown.
const SHORTER: [(&str, &str, Option<bool>); 11] = [
    ("Boxed { inner: ", "", Some(false)),
    ("Items { items: ", "", Some(false)),
    ("Script { tops: ", "", Some(false)),
    ("Place { file: 0, line: ", "", Some(false)),
    (", column: ", ":", None),
    ("Ident { place: ", "", Some(false)),
    ("Refusal { kind: ", "refused ", Some(false)),
    (", place: ", " at ", None),
    (
        "Modifiers { is_public: false, is_private: false, is_protected: false, is_static: false, is_final: false }",
        "-",
        None,
    ),
    (" { ", " { ", Some(true)),
    (", name: ", "#", None),
];

/// The row of a debug text's front, and the text behind that.
fn shorter(debug: &str) -> Option<(&str, Option<bool>, &str)> {
    for (long, short, brace) in SHORTER {
        if let Some(behind) = debug.strip_prefix(long) {
            return Some((short, brace, behind));
        }
    }
    None
}

/// A debug text without the words around trees, lists and places.
fn shortened(alloc: Global, debug: &str) -> Result<String, AllocError> {
    let mut text = String::new(alloc);
    let mut braces = Vec::new(alloc);
    let mut rest = debug;
    for _ in 0..debug.len() {
        if let Some((short, brace, behind)) = shorter(rest) {
            text.push_str(short)?;
            if let Some(is_shown) = brace {
                braces.push(is_shown)?;
            }
            rest = behind;
        } else if let Some(behind) = rest.strip_prefix(" }") {
            if braces.pop() == Some(true) {
                text.push_str(" }")?;
            }
            rest = behind;
        } else {
            let mut characters = rest.chars();
            if let Some(character) = characters.next() {
                text.push(character)?;
            }
            rest = characters.as_str();
        }
    }
    Ok(text)
}
