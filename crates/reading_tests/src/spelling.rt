ghost use Rattle.std.specs.Prelude.{◌<◌, length};

use gv_spelling::{Fault, Keyword, Lexeme, Quote, RefusedWord, Symbol, Unit, between, inside};
use std::test::Fail;

/// Whether an operand ends before the text, the text, what its longest spelling stands for, and that one's length.
const BETWEEN: [(bool, &str, Lexeme, usize); 52] = [
    (false, "0x1F", Lexeme::Int(31), 4),
    (false, "0b101", Lexeme::Int(5), 5),
    (false, "017", Lexeme::Int(15), 3),
    (false, "09", Lexeme::Fault(Fault::Number), 2),
    (false, "1__0", Lexeme::Int(10), 4),
    (false, "0_7", Lexeme::Int(7), 3),
    (false, "1_", Lexeme::Fault(Fault::Number), 2),
    (false, "0x_1", Lexeme::Fault(Fault::Number), 4),
    (false, "0X1", Lexeme::Fault(Fault::Number), 3),
    (false, "1L.5", Lexeme::Long(1), 2),
    (false, "1.5", Lexeme::Fault(Fault::Number), 3),
    (false, "1..5", Lexeme::Int(1), 1),
    (false, "1e5", Lexeme::Fault(Fault::Number), 3),
    (false, "1abc", Lexeme::Fault(Fault::Number), 4),
    (true, "-1", Lexeme::Symbol(Symbol::Minus), 1),
    (false, "-1", Lexeme::Int(-1), 2),
    (false, "-1.5", Lexeme::Fault(Fault::SignedNumber), 4),
    (false, "2147483648", Lexeme::Long(2147483648), 10),
    (false, "-2147483648", Lexeme::Int(-2147483648), 11),
    (false, "3000000000I", Lexeme::Fault(Fault::Past), 11),
    (
        false,
        "9223372036854775807",
        Lexeme::Long(9223372036854775807),
        19,
    ),
    (false, "9223372036854775808", Lexeme::Fault(Fault::Past), 19),
    (
        false,
        "-9223372036854775808",
        Lexeme::Long(-9223372036854775808),
        20,
    ),
    (true, "..<9", Lexeme::Symbol(Symbol::HalfOpenRange), 3),
    (true, "...", Lexeme::Symbol(Symbol::Ellipsis), 3),
    (true, "..9", Lexeme::Symbol(Symbol::Range), 2),
    (true, "?.a", Lexeme::Symbol(Symbol::SafeDot), 2),
    (true, "?:", Lexeme::Symbol(Symbol::Elvis), 2),
    (
        true,
        ">>>=",
        Lexeme::Symbol(Symbol::ShiftRightUnsignedAssign),
        4,
    ),
    (true, "<=>", Lexeme::Symbol(Symbol::Spaceship), 3),
    (true, "===", Lexeme::Symbol(Symbol::Identical), 3),
    (true, "/", Lexeme::Symbol(Symbol::Slash), 1),
    (true, "/=", Lexeme::Symbol(Symbol::SlashAssign), 2),
    (false, "/=", Lexeme::Fault(Fault::Slashy), 1),
    (false, "$/a", Lexeme::Fault(Fault::Slashy), 2),
    (false, "a$/b", Lexeme::Name, 2),
    (false, "//x\ny", Lexeme::Space, 3),
    (true, "/* **/*/", Lexeme::Space, 6),
    (false, "/*/", Lexeme::Fault(Fault::Comment), 3),
    (false, " \t\u{c}\n", Lexeme::Space, 3),
    (false, "\r\n\n", Lexeme::LineEnd, 2),
    (false, "\u{e9}t\u{e9}+", Lexeme::Name, 3),
    (false, "$_1.", Lexeme::Name, 3),
    (false, "in a", Lexeme::Keyword(Keyword::In), 2),
    (
        false,
        "instanceof",
        Lexeme::Keyword(Keyword::InstanceOf),
        10,
    ),
    (false, "trait", Lexeme::RefusedWord(RefusedWord::Trait), 5),
    (false, "traits", Lexeme::Name, 6),
    (false, "'''", Lexeme::Open(Quote::SingleTriple), 3),
    (false, "''", Lexeme::Open(Quote::Single), 1),
    (false, "\"a\"", Lexeme::Open(Quote::Double), 1),
    (false, "#", Lexeme::Fault(Fault::Stray), 1),
    (false, "\u{feff}", Lexeme::Fault(Fault::Stray), 1),
];

/// What the string opened with, the text, what its longest spelling stands for, and that one's length.
const INSIDE: [(Quote, &str, Unit, usize); 20] = [
    (Quote::Single, "a'", Unit::Char('a'), 1),
    (Quote::Single, "'", Unit::Close, 1),
    (Quote::Single, "\"", Unit::Char('"'), 1),
    (Quote::Single, "${", Unit::Char('$'), 1),
    (Quote::SingleTriple, "''a", Unit::Char('\''), 1),
    (Quote::SingleTriple, "''''", Unit::Close, 3),
    (Quote::Single, "\\tn", Unit::Char('\t'), 2),
    (Quote::Double, "\\$a", Unit::Char('$'), 2),
    (Quote::Double, "\\u0041", Unit::Char('A'), 6),
    (Quote::Double, "\\ud800", Unit::BadEscape, 1),
    (Quote::Double, "\\q", Unit::BadEscape, 1),
    (Quote::Double, "$a.b.", Unit::Path, 4),
    (Quote::DoubleTriple, "$a$b", Unit::Path, 2),
    (Quote::Double, "${", Unit::Part, 2),
    (Quote::Double, "$1", Unit::LoneDollar, 1),
    (Quote::Double, "\r\n", Unit::Unended, 2),
    (Quote::Single, "\n\n", Unit::Unended, 1),
    (Quote::DoubleTriple, "\r\n", Unit::Char('\n'), 2),
    (Quote::SingleTriple, "\r\r", Unit::Char('\n'), 1),
    (Quote::Double, "\\\r\n", Unit::Join, 3),
];

#[test]
fn reads_between_strings(rt: HostRuntime) -> Result<(), Fail> {
    for (operand, text, what, len) in BETWEEN {
        let chars: Vec<char> = text.chars().collect(rt.alloc())?;
        assert!(rt; !chars.is_empty());
        let (found, length) = between(operand, &chars);
        assert_eq!(rt; found, what, "at {text}");
        assert_eq!(rt; length, len, "at {text}");
    }
    Ok(())
}

#[test]
fn reads_inside_strings(rt: HostRuntime) -> Result<(), Fail> {
    for (quote, text, what, len) in INSIDE {
        let chars: Vec<char> = text.chars().collect(rt.alloc())?;
        assert!(rt; !chars.is_empty());
        let (found, length) = inside(quote, &chars);
        assert_eq!(rt; found, what, "at {text}");
        assert_eq!(rt; length, len, "at {text}");
    }
    Ok(())
}
