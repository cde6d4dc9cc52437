use crate::strings::cases::{Cut, wrong_list};
use crate::strings::world::{AA, AAAA, EMPTY, HELLO, L, MARKS, SEPARATORS, SPACED, WIDE, WORD};
use gv_base::Value;
use std::test::Fail;

/// A text cut into pieces, and into characters.
const CUT: [Cut; 11] = [
    (SPACED, "tokenize", &[], &["a", "b"], 7),
    (EMPTY, "tokenize", &[], &[], 1),
    (HELLO, "tokenize", &[], &["hello"], 4),
    (WORD, "tokenize", &[], &["x1"], 4),
    (MARKS, "tokenize", &[SEPARATORS], &["a", "b", "€"], 10),
    (MARKS, "tokenize", &[EMPTY], &[",a;b,,€;"], 5),
    (HELLO, "tokenize", &[L], &["he", "o"], 7),
    (AAAA, "tokenize", &[AA], &[], 1),
    (HELLO, "toList", &[], &["h", "e", "l", "l", "o"], 16),
    (WIDE, "toList", &[], &["a", "ß", "€", "😀"], 13),
    (EMPTY, "toList", &[], &[], 1),
];

#[test]
fn cut(rt: HostRuntime) -> Result<(), Fail> {
    assert_eq!(rt; wrong_list(rt.alloc(), &CUT)?, None);
    Ok(())
}
