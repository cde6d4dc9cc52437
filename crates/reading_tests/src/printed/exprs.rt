//! Expressions.

use super::wrong;
use std::test::Fail;

const OPERATORS: &str = r#"println 1+2 // c ⇒ println(1 + 2)
a*b%c-d ⇒ a * b % c - d
a<<b>>c>>>d ⇒ a << b >> c >>> d
x=1..2 ⇒ x = 1 .. 2
x=1..<y ⇒ x = 1 ..< y
a<b&&c<=d||e>f&&g>=h ⇒ a < b && c <= d || e > f && g >= h
x==y!=z<=>w ⇒ x == y != z <=> w
a&b^c|d ⇒ a & b ^ c | d
a in b ⇒ a in b
a instanceof C ⇒ a instanceof C
a as int ⇒ a as int
x as C ⇒ x as C
a?b:c ⇒ a ? b : c
a?:b ⇒ a ?: b
a=b=c ⇒ a = b = c
a+=1;b-=2;c*=3;d%=4 ⇒ a += 1⏎b -= 2⏎c *= 3⏎d %= 4
a<<=1;b>>=2;c>>>=3 ⇒ a <<= 1⏎b >>= 2⏎c >>>= 3
a&=b;c|=d;e^=f ⇒ a &= b⏎c |= d⏎e ^= f
!a ⇒ !a
a++;b--;++c;--d ⇒ a++⏎b--⏎++c⏎--d
(a + b)*c ⇒ (a + b) * c"#;

#[test]
fn operators(rt: HostRuntime) -> Result<(), Fail> {
    assert_eq!(rt; wrong(rt.alloc(), OPERATORS)?.as_str(), "");
    Ok(())
}

const MEMBERS: &str = r#"take 3 cookies ⇒ take(3).cookies
a b c d ⇒ a(b).c(d)
a.b.c ⇒ a.b.c
a?.b*.c.&d ⇒ a?.b*.c.&d
a.@b ⇒ a.@b
a.class ⇒ a.class
x.in; y ⇒ x.in⏎y
a.'b c' ⇒ a.'b c'
a."b$c" ⇒ a."b${c}"
a[1,2] ⇒ a[1, 2]
a.b[c].d() ⇒ a.b[c].d()
a(1,b:2,*c,*:d) ⇒ a(1, b: 2, *c, *:d)
a('k':1,2:3,4L:5,"$b":6) ⇒ a('k': 1, 2: 3, 4L: 5, "${b}": 6)
new A(1,b:2).c ⇒ new A(1, b: 2).c
[] ⇒ []
[:] ⇒ [:]
x=[1,*a,2,] ⇒ x = [1, *a, 2]
x=[a:1,(b):2,*:c,'d':3,] ⇒ x = [a: 1, (b): 2, *:c, 'd': 3]
this.a(null,true,false) ⇒ this.a(null, true, false)
super.m() ⇒ super.m()
println x:1,2 ⇒ println(x: 1, 2)"#;

#[test]
fn members(rt: HostRuntime) -> Result<(), Fail> {
    assert_eq!(rt; wrong(rt.alloc(), MEMBERS)?.as_str(), "");
    Ok(())
}
