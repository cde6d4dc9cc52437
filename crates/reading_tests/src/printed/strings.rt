//! Strings.

use super::wrong;
use std::test::Fail;

const STRINGS: &str = r#"'a' ⇒ 'a'
x = "a" ⇒ x = 'a'
x = "it's" ⇒ x = 'it\'s'
x = 'say "a"' ⇒ x = 'say "a"'
x = 'a\\b' ⇒ x = 'a\\b'
x = '$a \$b' ⇒ x = '$a $b'
x = '\b\f\n\r\t' ⇒ x = '\b\f\n\r\t'
x = '\u0000\u001f\u001A\u000b' ⇒ x = '\u0000\u001F\u001A\u000B'
x = '\u0041\u00e9' ⇒ x = 'Aé'
x = """a⏎b""" ⇒ x = 'a\nb'
x = '' ⇒ x = ''
x = 'ü€𝄞' ⇒ x = 'ü€𝄞'
x = "$a" ⇒ x = "${a}"
x = "a${b}c$d.e" ⇒ x = "a${b}c${d.e}"
x = "${-> a}" ⇒ x = "${-> a}"
x = "\$a${b}\"'\\" ⇒ x = "\$a${b}\"'\\"
x = "a\n${b}\t" ⇒ x = "a\n${b}\t"
x = "${"${a}"}" ⇒ x = "${"${a}"}"
x = "${a { b }}c" ⇒ x = "${a({⏎  b⏎})}c""#;

#[test]
fn strings(rt: HostRuntime) -> Result<(), Fail> {
    assert_eq!(rt; wrong(rt.alloc(), STRINGS)?.as_str(), "");
    Ok(())
}
