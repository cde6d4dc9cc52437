//! Texts, and behind ` ⇒ ` what `lex` gives of them: each token behind its line and column, or the number of the first
//! refusal and its place. A word is shown as its class and its text, a piece of a string as its kind and its text in
//! brackets. In the tables ␊ stands for LF, ␍ for CR, and likewise each picture for its control character.

ghost use Rattle.std.specs.Prelude.{◌<◌, length};
ghost use Rattle.gv_lex.specs.Tokens.{IsNameOf};

use gv_base::{Names, OutOfMemory, Place};
use gv_lex::{LexError, TokenKind, Word, lex};
use std::alloc::Global;
use std::fmt::Write;
use std::test::Fail;

const WORDS: &str = r#" ⇒ 1:1 End
a ⇒ 1:1 Name:a 1:2 End
Foo foo ⇒ 1:1 TypeName:Foo 1:5 Name:foo 1:8 End
$a _b a$1 $ ⇒ 1:1 Name:$a 1:4 Name:_b 1:7 Name:a$1 1:11 Name:$ 1:12 End
é été Été ⇒ 1:1 Name:é 1:3 Name:été 1:7 Name:Été 1:10 End
as assert boolean break case catch class continue def default ⇒ 1:1 Keyword(As):as 1:4 Keyword(Assert):assert 1:11 Keyword(Boolean):boolean 1:19 Keyword(Break):break 1:25 Keyword(Case):case 1:30 Keyword(Catch):catch 1:36 Keyword(Class):class 1:42 Keyword(Continue):continue 1:51 Keyword(Def):def 1:55 Keyword(Default):default 1:62 End
else extends false final finally for if implements import in ⇒ 1:1 Keyword(Else):else 1:6 Keyword(Extends):extends 1:14 Keyword(False):false 1:20 Keyword(Final):final 1:26 Keyword(Finally):finally 1:34 Keyword(For):for 1:38 Keyword(If):if 1:41 Keyword(Implements):implements 1:52 Keyword(Import):import 1:59 Keyword(In):in 1:61 End
instanceof int long new null private protected public return ⇒ 1:1 Keyword(InstanceOf):instanceof 1:12 Keyword(Int):int 1:16 Keyword(Long):long 1:21 Keyword(New):new 1:25 Keyword(Null):null 1:30 Keyword(Private):private 1:38 Keyword(Protected):protected 1:48 Keyword(Public):public 1:55 Keyword(Return):return 1:61 End
static super switch this throw true try void while ⇒ 1:1 Keyword(Static):static 1:8 Keyword(Super):super 1:14 Keyword(Switch):switch 1:21 Keyword(This):this 1:26 Keyword(Throw):throw 1:32 Keyword(True):true 1:37 Keyword(Try):try 1:41 Keyword(Void):void 1:46 Keyword(While):while 1:51 End
abstract byte char const do double enum float goto interface ⇒ 1:1 Refused(Abstract):abstract 1:10 Refused(Byte):byte 1:15 Refused(Char):char 1:20 Refused(Const):const 1:26 Refused(Do):do 1:29 Refused(Double):double 1:36 Refused(Enum):enum 1:41 Refused(Float):float 1:47 Refused(Goto):goto 1:52 Refused(Interface):interface 1:61 End
native package short strictfp synchronized throws trait transient volatile ⇒ 1:1 Refused(Native):native 1:8 Refused(Package):package 1:16 Refused(Short):short 1:22 Refused(Strictfp):strictfp 1:31 Refused(Synchronized):synchronized 1:44 Refused(Throws):throws 1:51 Refused(Trait):trait 1:57 Refused(Transient):transient 1:67 Refused(Volatile):volatile 1:75 End
ifs Byte NULL _if ⇒ 1:1 Name:ifs 1:5 TypeName:Byte 1:10 TypeName:NULL 1:15 Name:_if 1:18 End
"#;

const NUMBERS: &str = r#"0 7 42 ⇒ 1:1 0 1:3 7 1:5 42 1:7 End
1_000 1__0 ⇒ 1:1 1000 1:7 10 1:11 End
017 00 0_7 ⇒ 1:1 15 1:5 0 1:8 7 1:11 End
0x1F 0xff 0xA_B ⇒ 1:1 31 1:6 255 1:11 171 1:16 End
0b101 0b1_0 ⇒ 1:1 5 1:7 2 1:12 End
5L 5l 5I 5i ⇒ 1:1 5L 1:4 5L 1:7 5 1:10 5 1:12 End
0xFL 0x1I 017L 0b1i ⇒ 1:1 15L 1:6 1 1:11 15L 1:16 1 1:20 End
2147483647 2147483648 ⇒ 1:1 2147483647 1:12 2147483648L 1:22 End
-2147483648 ⇒ 1:1 -2147483648 1:12 End
-2147483648I ⇒ 1:1 -2147483648 1:13 End
-2147483649 ⇒ 1:1 -2147483649L 1:12 End
9223372036854775807 ⇒ 1:1 9223372036854775807L 1:20 End
-9223372036854775808 ⇒ 1:1 -9223372036854775808L 1:21 End
0x7FFFFFFF 0x80000000 ⇒ 1:1 2147483647 1:12 2147483648L 1:22 End
0x7FFFFFFFFFFFFFFF ⇒ 1:1 9223372036854775807L 1:19 End
1L.5 ⇒ 1:1 1L 1:3 Dot 1:4 5 1:5 End
1..5 ⇒ 1:1 1 1:2 Range 1:4 5 1:5 End
1.a ⇒ 1:1 1 1:2 Dot 1:3 Name:a 1:4 End
1.5 ⇒ 5 at 1:1
09 ⇒ 5 at 1:1
1abc ⇒ 5 at 1:1
a 1_ ⇒ 5 at 1:3
0X1 ⇒ 5 at 1:1
0x ⇒ 5 at 1:1
0b2 ⇒ 5 at 1:1
0x_1 ⇒ 5 at 1:1
1e5 ⇒ 5 at 1:1
-1.5 ⇒ 5 at 1:2
x = -09 ⇒ 5 at 1:6
a -1.5 ⇒ 5 at 1:4
9223372036854775808 ⇒ 6 at 1:1
-9223372036854775809 ⇒ 6 at 1:1
a-9223372036854775808 ⇒ 6 at 1:3
9223372036854775808L ⇒ 6 at 1:1
2147483648I ⇒ 6 at 1:1
x = -2147483649i ⇒ 6 at 1:5
␊ 0xFFFFFFFFFFFFFFFF ⇒ 6 at 2:2
99999999999999999999999999999 ⇒ 6 at 1:1
"#;

const SYMBOLS: &str =
    r#"(){}[],;: ⇒ 1:1 LeftParen 1:2 RightParen 1:3 LeftBrace 1:4 RightBrace 1:5 LeftBracket 1:6 RightBracket 1:7 Comma 1:8 Semicolon 1:9 Colon 1:10 End
. ?. *. .& .@ .* .. ..< ... ⇒ 1:1 Dot 1:3 SafeDot 1:6 SpreadDot 1:9 MethodPointer 1:12 FieldDot 1:15 DotStar 1:18 Range 1:21 HalfOpenRange 1:25 Ellipsis 1:28 End
-> ? ?: ! + - * % ⇒ 1:1 Arrow 1:4 Question 1:6 Elvis 1:9 Not 1:11 Plus 1:13 Minus 1:15 Star 1:17 Percent 1:18 End
++ -- << >> >>> ⇒ 1:1 Increment 1:4 Decrement 1:7 ShiftLeft 1:10 ShiftRight 1:13 ShiftRightUnsigned 1:16 End
< <= > >= <=> == != ⇒ 1:1 Less 1:3 LessEqual 1:6 Greater 1:8 GreaterEqual 1:11 Spaceship 1:15 Equal 1:18 NotEqual 1:20 End
& | ^ && || = ⇒ 1:1 Ampersand 1:3 Bar 1:5 Caret 1:7 And 1:10 Or 1:13 Assign 1:14 End
+= -= *= %= <<= >>= >>>= ⇒ 1:1 PlusAssign 1:4 MinusAssign 1:7 StarAssign 1:10 PercentAssign 1:13 ShiftLeftAssign 1:17 ShiftRightAssign 1:21 ShiftRightUnsignedAssign 1:25 End
&= |= ^= @ *: ⇒ 1:1 AmpersandAssign 1:4 BarAssign 1:7 CaretAssign 1:10 At 1:12 SpreadColon 1:14 End
** **= ~ =~ ==~ === ⇒ 1:1 Power 1:4 PowerAssign 1:8 Tilde 1:10 Find 1:13 Match 1:17 Identical 1:20 End
a/b a/=b ⇒ 1:1 Name:a 1:2 Slash 1:3 Name:b 1:5 Name:a 1:6 SlashAssign 1:8 Name:b 1:9 End
..<= >>>=> .... ⇒ 1:1 HalfOpenRange 1:4 Assign 1:6 ShiftRightUnsignedAssign 1:10 Greater 1:12 Ellipsis 1:15 Dot 1:16 End
a+++b ?:?. !== ⇒ 1:1 Name:a 1:2 Increment 1:4 Plus 1:5 Name:b 1:7 Elvis 1:9 SafeDot 1:12 NotEqual 1:14 Assign 1:15 End
-1 ⇒ 1:1 -1 1:3 End
a -1 Foo-1 ⇒ 1:1 Name:a 1:3 Minus 1:4 1 1:6 TypeName:Foo 1:9 Minus 1:10 1 1:11 End
1-1 2L-1 -1-1 ⇒ 1:1 1 1:2 Minus 1:3 1 1:5 2L 1:7 Minus 1:8 1 1:10 Minus 1:11 1 1:12 Minus 1:13 1 1:14 End
'a'-1 ⇒ 1:1 Whole[a] 1:4 Minus 1:5 1 1:6 End
)-1 ]-1 }-1 ⇒ 1:1 RightParen 1:2 Minus 1:3 1 1:5 RightBracket 1:6 Minus 1:7 1 1:9 RightBrace 1:10 Minus 1:11 1 1:12 End
this-1 super-1 ⇒ 1:1 Keyword(This):this 1:5 Minus 1:6 1 1:8 Keyword(Super):super 1:13 Minus 1:14 1 1:15 End
null-1 true-1 false-1 ⇒ 1:1 Keyword(Null):null 1:5 Minus 1:6 1 1:8 Keyword(True):true 1:12 Minus 1:13 1 1:15 Keyword(False):false 1:20 Minus 1:21 1 1:22 End
a++-1 a---1 ⇒ 1:1 Name:a 1:2 Increment 1:4 Minus 1:5 1 1:7 Name:a 1:8 Decrement 1:10 Minus 1:11 1 1:12 End
return -1 ⇒ 1:1 Keyword(Return):return 1:8 -1 1:10 End
in-1 do-1 ⇒ 1:1 Keyword(In):in 1:3 -1 1:6 Refused(Do):do 1:8 -1 1:10 End
(-1 [-1 {-1 ,-1 ⇒ 1:1 LeftParen 1:2 -1 1:5 LeftBracket 1:6 -1 1:9 LeftBrace 1:10 -1 1:13 Comma 1:14 -1 1:16 End
+-1 - 1 ⇒ 1:1 Plus 1:2 -1 1:5 Minus 1:7 1 1:8 End
a␊-1 ⇒ 1:1 Name:a 1:2 LineEnd 2:1 -1 2:3 End
a /* c */ -1 ⇒ 1:1 Name:a 1:11 Minus 1:12 1 1:13 End
"${a}"-1 ⇒ 1:1 Head(Braces)[] 1:4 Name:a 1:5 End 1:6 Tail[] 1:7 Minus 1:8 1 1:9 End
1/2 )/ ]/ }/ 'a'/ ⇒ 1:1 1 1:2 Slash 1:3 2 1:5 RightParen 1:6 Slash 1:8 RightBracket 1:9 Slash 1:11 RightBrace 1:12 Slash 1:14 Whole[a] 1:17 Slash 1:18 End
a$/b ⇒ 1:1 Name:a$ 1:3 Slash 1:4 Name:b 1:5 End
/a/ ⇒ 8 at 1:1
/= ⇒ 8 at 1:1
a = /b ⇒ 8 at 1:5
(/ ⇒ 8 at 1:2
return /a/ ⇒ 8 at 1:8
a␊/b ⇒ 8 at 2:1
$/a ⇒ 8 at 1:1
a $/ ⇒ 8 at 1:3
"#;

const SPACE: &str =
    r#"a␊b␍c␍␊d ⇒ 1:1 Name:a 1:2 LineEnd 2:1 Name:b 2:2 LineEnd 3:1 Name:c 3:2 LineEnd 4:1 Name:d 4:2 End
␊␍␍␊␍ ⇒ 1:1 LineEnd 2:1 LineEnd 3:1 LineEnd 4:1 LineEnd 5:1 End
␉␌ a ⇒ 1:4 Name:a 1:5 End
#!/bin/groovy␊a ⇒ 1:14 LineEnd 2:1 Name:a 2:2 End
#!x␍␊y ⇒ 1:4 LineEnd 2:1 Name:y 2:2 End
#! only ⇒ 1:8 End
# ⇒ 7 at 1:1
 #! ⇒ 7 at 1:2
a␊#!b ⇒ 7 at 2:1
a // b␊c ⇒ 1:1 Name:a 1:7 LineEnd 2:1 Name:c 2:2 End
// x ⇒ 1:5 End
/* a␊b */c ⇒ 2:5 Name:c 2:6 End
/* ␍␊␍ */x ⇒ 3:4 Name:x 3:5 End
/**/a /* * **/b ⇒ 1:5 Name:a 1:15 Name:b 1:16 End
a /* // */ b // /* ⇒ 1:1 Name:a 1:12 Name:b 1:19 End
/*/ ⇒ 3 at 1:1
a /* b␊ ⇒ 3 at 1:3
/* a */ /* b ⇒ 3 at 1:9
` ⇒ 7 at 1:1
a # b ⇒ 7 at 1:3
\ ⇒ 7 at 1:1
a␋b ⇒ 7 at 1:2
␀ ⇒ 7 at 1:1
é# ⇒ 7 at 1:2
# 'a ⇒ 7 at 1:1
9223372036854775808 # ⇒ 6 at 1:1
"#;

const STRINGS: &str = r#"'' ⇒ 1:1 Whole[] 1:3 End
'a b' "a b" ⇒ 1:1 Whole[a b] 1:7 Whole[a b] 1:12 End
'a"$b' "a'b" ⇒ 1:1 Whole[a"$b] 1:8 Whole[a'b] 1:13 End
'$a ${b}' ⇒ 1:1 Whole[$a ${b}] 1:10 End
'''a''b''' ⇒ 1:1 Whole[a''b] 1:11 End
''''a''' ⇒ 1:1 Whole['a] 1:9 End
'''a'''' ⇒ 2 at 1:8
'''a␊b␍c␍␊d'''x ⇒ 1:1 Whole[a␊b␊c␊d] 4:5 Name:x 4:6 End
"""a"b""" ⇒ 1:1 Whole[a"b] 1:10 End
"""␊""" ⇒ 1:1 Whole[␊] 2:4 End
'\b\f\n\r\t' ⇒ 1:1 Whole[␈␌␊␍␉] 1:13 End
'\\\'\"\$' ⇒ 1:1 Whole[\'"$] 1:11 End
"\\\'\"\$a" ⇒ 1:1 Whole[\'"$a] 1:12 End
'''\n''' ⇒ 1:1 Whole[␊] 1:9 End
'a\␊b' ⇒ 1:1 Whole[ab] 2:3 End
"a\␍␊b" ⇒ 1:1 Whole[ab] 2:3 End
'''\␍''' ⇒ 1:1 Whole[] 2:4 End
'\uD800' ⇒ 4 at 1:2
"\udfff" ⇒ 4 at 1:2
'\u12' ⇒ 4 at 1:2
'\uu0041' ⇒ 4 at 1:2
'a\q' ⇒ 4 at 1:3
'\0' ⇒ 4 at 1:2
'a ⇒ 2 at 1:1
x = "a ⇒ 2 at 1:5
'a␊b ⇒ 2 at 1:1
"a␍␊# ⇒ 2 at 1:1
'''a' ⇒ 2 at 1:1
"""a␊ ⇒ 2 at 1:1
'\q ⇒ 2 at 1:1
'\q␊ ⇒ 2 at 1:1
'a\ ⇒ 2 at 1:1
"#;

const PARTS: &str = r#""$a" ⇒ 1:1 Head(Path)[] 1:3 Name:a 1:4 End 1:4 Tail[] 1:5 End
"x$a.b y" ⇒ 1:1 Head(Path)[x] 1:4 Name:a 1:5 Dot 1:6 Name:b 1:7 End 1:7 Tail[ y] 1:10 End
"$a.b." ⇒ 1:1 Head(Path)[] 1:3 Name:a 1:4 Dot 1:5 Name:b 1:6 End 1:6 Tail[.] 1:8 End
"$a.1" ⇒ 1:1 Head(Path)[] 1:3 Name:a 1:4 End 1:4 Tail[.1] 1:7 End
"$a$b" ⇒ 1:1 Head(Path)[] 1:3 Name:a 1:4 End 1:4 Middle(Path)[] 1:5 Name:b 1:6 End 1:6 Tail[] 1:7 End
"$class" ⇒ 1:1 Head(Path)[] 1:3 Keyword(Class):class 1:8 End 1:8 Tail[] 1:9 End
"$a.do" ⇒ 1:1 Head(Path)[] 1:3 Name:a 1:4 Dot 1:5 Refused(Do):do 1:7 End 1:7 Tail[] 1:8 End
"$Foo.bar" ⇒ 1:1 Head(Path)[] 1:3 TypeName:Foo 1:6 Dot 1:7 Name:bar 1:10 End 1:10 Tail[] 1:11 End
"$é1" ⇒ 1:1 Head(Path)[] 1:3 Name:é1 1:5 End 1:5 Tail[] 1:6 End
"\$a" ⇒ 1:1 Whole[$a] 1:6 End
"""$a␊b""" ⇒ 1:1 Head(Path)[] 1:5 Name:a 1:6 End 1:6 Tail[␊b] 2:5 End
"${a}" ⇒ 1:1 Head(Braces)[] 1:4 Name:a 1:5 End 1:6 Tail[] 1:7 End
"a${1 + 2}b${x}c" ⇒ 1:1 Head(Braces)[a] 1:5 1 1:7 Plus 1:9 2 1:10 End 1:11 Middle(Braces)[b] 1:14 Name:x 1:15 End 1:16 Tail[c] 1:18 End
"${}" ⇒ 1:1 Head(Braces)[] 1:4 End 1:5 Tail[] 1:6 End
"${ { } }" ⇒ 1:1 Head(Braces)[] 1:5 LeftBrace 1:7 RightBrace 1:9 End 1:10 Tail[] 1:11 End
"${-> x}" ⇒ 1:1 Head(Braces)[] 1:4 Arrow 1:7 Name:x 1:8 End 1:9 Tail[] 1:10 End
a "${-1}" ⇒ 1:1 Name:a 1:3 Head(Braces)[] 1:6 -1 1:8 End 1:9 Tail[] 1:10 End
"${a}$b" ⇒ 1:1 Head(Braces)[] 1:4 Name:a 1:5 End 1:6 Middle(Path)[] 1:7 Name:b 1:8 End 1:8 Tail[] 1:9 End
"${␊}" ⇒ 1:1 Head(Braces)[] 1:4 LineEnd 2:1 End 2:2 Tail[] 2:3 End
"${'}'}" ⇒ 1:1 Head(Braces)[] 1:4 Whole[}] 1:7 End 1:8 Tail[] 1:9 End
"a${"b${"c${d}"}"}" ⇒ 1:1 Head(Braces)[a] 1:5 Head(Braces)[b] 1:9 Head(Braces)[c] 1:13 Name:d 1:14 End 1:15 Tail[] 1:16 End 1:17 Tail[] 1:18 End 1:19 Tail[] 1:20 End
"""${"x"}""" ⇒ 1:1 Head(Braces)[] 1:6 Whole[x] 1:9 End 1:10 Tail[] 1:13 End
"${ /* } */ a}" ⇒ 1:1 Head(Braces)[] 1:13 Name:a 1:14 End 1:15 Tail[] 1:16 End
"a${ #  ⇒ 9 at 1:3
"a${ # }" ⇒ 7 at 1:6
"$ ⇒ 2 at 1:1
"a$" ⇒ 9 at 1:3
"$1" ⇒ 9 at 1:2
"$/" ⇒ 9 at 1:2
"${ ⇒ 9 at 1:2
"x${a ⇒ 9 at 1:3
"${'a ⇒ 9 at 1:2
"${'a␊}" ⇒ 2 at 1:4
"${ /* }" ⇒ 9 at 1:2
"${"${ /* }"}" ⇒ 9 at 1:2
"${ { }" ⇒ 9 at 1:2
"${a} ⇒ 2 at 1:1
"""${a} ⇒ 2 at 1:1
"${a}␊" ⇒ 2 at 1:1
"\q${a}" ⇒ 4 at 1:2
"${09}" ⇒ 5 at 1:4
"${/x/}" ⇒ 8 at 1:4
"#;

/// The same for characters that a page does not show.
const UNSEEN: [(&str, &str); 10] = [
    ("\u{feff}a", "1:2 Name:a 1:3 End"),
    ("\u{feff}", "1:2 End"),
    ("\u{feff}#!x", "7 at 1:2"),
    ("\u{feff}\u{feff}", "7 at 1:2"),
    ("a\u{feff}", "7 at 1:2"),
    ("a\u{a0}b", "7 at 1:2"),
    ("'\u{1f600}é' #", "7 at 1:6"),
    ("\u{1f600}", "7 at 1:1"),
    ("'\\u0041\\u00e9\\uFFFF'", "1:1 Whole[Aé\u{ffff}] 1:21 End"),
    ("'\\uD7FF\\uE000'", "1:1 Whole[\u{d7ff}\u{e000}] 1:15 End"),
];

/// The same for bytes.
const NOT_UTF8: [(&[u8], &str); 10] = [
    (b"\xff", "1 at 1:1"),
    (b"ab\xff", "1 at 1:3"),
    (b"\xc3\xa9\xff", "1 at 1:2"),
    (b"a\r\n\xc3", "1 at 2:1"),
    (b"# 'a\n\xff", "1 at 2:1"),
    (b"\xef\xbb\xbf\xff", "1 at 1:2"),
    (b"\xed\xa0\x80", "1 at 1:1"),
    (b"\xc0\x80", "1 at 1:1"),
    (b"\xf4\x90\x80\x80", "1 at 1:1"),
    (b"'\xe2\x82", "1 at 1:2"),
];

#[test]
fn reads_words(rt: HostRuntime) -> Result<(), Fail> {
    assert_eq!(rt; misread(rt.alloc(), WORDS)?.as_str(), "");
    Ok(())
}

#[test]
fn reads_numbers(rt: HostRuntime) -> Result<(), Fail> {
    assert_eq!(rt; misread(rt.alloc(), NUMBERS)?.as_str(), "");
    Ok(())
}

#[test]
fn reads_symbols(rt: HostRuntime) -> Result<(), Fail> {
    assert_eq!(rt; misread(rt.alloc(), SYMBOLS)?.as_str(), "");
    Ok(())
}

#[test]
fn reads_space(rt: HostRuntime) -> Result<(), Fail> {
    assert_eq!(rt; misread(rt.alloc(), SPACE)?.as_str(), "");
    Ok(())
}

#[test]
fn reads_strings(rt: HostRuntime) -> Result<(), Fail> {
    assert_eq!(rt; misread(rt.alloc(), STRINGS)?.as_str(), "");
    Ok(())
}

#[test]
fn reads_parts(rt: HostRuntime) -> Result<(), Fail> {
    assert_eq!(rt; misread(rt.alloc(), PARTS)?.as_str(), "");
    Ok(())
}

/// The rows of a table whose text is read otherwise.
fn misread(alloc: Global, table: &str) -> Result<String, Fail> {
    let mut misread = String::new(alloc);
    for row in table.lines() {
        if !is_right(alloc, row)? {
            misread.push_str(row)?;
            misread.push_str("\n")?;
        }
    }
    Ok(misread)
}

fn is_right(alloc: Global, row: &str) -> Result<bool, Fail> {
    let Some((text, want)) = row.split_once(" ⇒ ") else {
        return Ok(false);
    };
    let text = plain(alloc, text)?;
    if text.len() >= 300 {
        return Ok(false);
    }
    Ok(shown(alloc, text.as_bytes())?.as_str() == plain(alloc, want)?.as_str())
}

/// A text with control characters in place of their pictures.
fn plain(alloc: Global, text: &str) -> Result<String, Fail> {
    let mut plain = String::new(alloc);
    for c in text.chars() {
        let code = c as u32;
        if 0x2400 <= code && code < 0x2420 {
            plain.push((code - 0x2400) as u8 as char)?;
        } else {
            plain.push(c)?;
        }
    }
    Ok(plain)
}

#[test]
fn reads_unseen_characters(rt: HostRuntime) -> Result<(), Fail> {
    for (text, want) in UNSEEN {
        assert!(rt; text.len() < 300);
        assert_eq!(rt; shown(rt.alloc(), text.as_bytes())?.as_str(), want);
    }
    Ok(())
}

#[test]
fn refuses_bytes_that_are_not_utf8(rt: HostRuntime) -> Result<(), Fail> {
    for (bytes, want) in NOT_UTF8 {
        assert!(rt; bytes.len() < 300);
        assert_eq!(rt; shown(rt.alloc(), bytes)?.as_str(), want);
    }
    Ok(())
}

/// The tokens of a file with their places, or its refusal.
fn shown(alloc: Global, bytes: &[u8]) -> Result<String, Fail>
    requires { length bytes.now < 300 }
{
    let mut names = Names::new(alloc);
    match lex(alloc, 0, bytes, &mut names) {
        Ok(tokens) => {
            let mut shown = String::new(alloc);
            'tokens: for token in &tokens {
                if !shown.is_empty() {
                    shown.push_str(" ")?;
                }
                let place = token.place;
                write!(shown, "{}:{} ", place.line, place.column)?;
                show(&mut shown, token.kind, &names)?;
            }
            Ok(shown)
        }
        Err(LexError::Refused(refusal)) => Ok(format!(in alloc;
            "{} at {}:{}",
            refusal.kind.number(),
            refusal.place.line,
            refusal.place.column
        )?),
        Err(LexError::OutOfMemory) => Err(OutOfMemory)?,
    }
}

fn show(shown: &mut String, kind: TokenKind, names: &Names) -> Result<(), Fail>
    requires { IsNameOf names.now kind }
{
    match kind {
        TokenKind::Word(word, name) => write!(shown, "{word:?}:{}", names.text(name))?,
        TokenKind::Int(value) => write!(shown, "{value}")?,
        TokenKind::Long(value) => write!(shown, "{value}L")?,
        TokenKind::Symbol(symbol) => write!(shown, "{symbol:?}")?,
        TokenKind::Text(piece, name) => write!(shown, "{piece:?}[{}]", names.text(name))?,
        TokenKind::LineEnd => shown.push_str("LineEnd")?,
        TokenKind::End => shown.push_str("End")?,
    }
    Ok(())
}

#[test]
fn takes_names_of_the_table(rt: HostRuntime) -> Result<(), Fail> {
    let mut names = Names::new(rt.alloc());
    names.intern("x")?;
    let tokens = lex(rt.alloc(), 7, b"println x", &mut names)?;
    assert_eq!(rt; tokens.len(), 3);
    assert_eq!(rt;
        tokens[0].kind,
        TokenKind::Word(Word::Name, names.intern("println")?)
    );
    assert_eq!(rt; tokens[1].kind, TokenKind::Word(Word::Name, 0));
    assert_eq!(rt;
        tokens[1].place,
        Place {
            file: 7,
            line: 1,
            column: 9
        }
    );
    Ok(())
}
