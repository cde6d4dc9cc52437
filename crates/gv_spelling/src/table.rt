//! The spellings that are always the same: a row for each.

ghost use Rattle.std.specs.Prelude.{◌≡◌, map, Some, None, IfSome, IfNone, length, ◌≤◌, ℕ, take, ◌<◌, true};
ghost use Rattle.std.specs.Str.{bytes_eq};
ghost use Rattle.gv_spelling.specs.Table as spec;
ghost use Rattle.gv_spelling.specs.Longest.{IsLongest};

use crate::kinds::{Keyword, Lexeme, Quote, RefusedWord, Symbol, Unit};

/// Symbols, line ends and opening quotes.
pub const SYMBOLS: [(&[u8], Lexeme); 71] = [
    (b"(", Lexeme::Symbol(Symbol::LeftParen)),
    (b")", Lexeme::Symbol(Symbol::RightParen)),
    (b"[", Lexeme::Symbol(Symbol::LeftBracket)),
    (b"]", Lexeme::Symbol(Symbol::RightBracket)),
    (b"{", Lexeme::Symbol(Symbol::LeftBrace)),
    (b"}", Lexeme::Symbol(Symbol::RightBrace)),
    (b",", Lexeme::Symbol(Symbol::Comma)),
    (b";", Lexeme::Symbol(Symbol::Semicolon)),
    (b":", Lexeme::Symbol(Symbol::Colon)),
    (b".", Lexeme::Symbol(Symbol::Dot)),
    (b"?.", Lexeme::Symbol(Symbol::SafeDot)),
    (b"*.", Lexeme::Symbol(Symbol::SpreadDot)),
    (b".&", Lexeme::Symbol(Symbol::MethodPointer)),
    (b".@", Lexeme::Symbol(Symbol::FieldDot)),
    (b".*", Lexeme::Symbol(Symbol::DotStar)),
    (b"..", Lexeme::Symbol(Symbol::Range)),
    (b"..<", Lexeme::Symbol(Symbol::HalfOpenRange)),
    (b"...", Lexeme::Symbol(Symbol::Ellipsis)),
    (b"->", Lexeme::Symbol(Symbol::Arrow)),
    (b"?", Lexeme::Symbol(Symbol::Question)),
    (b"?:", Lexeme::Symbol(Symbol::Elvis)),
    (b"!", Lexeme::Symbol(Symbol::Not)),
    (b"+", Lexeme::Symbol(Symbol::Plus)),
    (b"-", Lexeme::Symbol(Symbol::Minus)),
    (b"*", Lexeme::Symbol(Symbol::Star)),
    (b"%", Lexeme::Symbol(Symbol::Percent)),
    (b"++", Lexeme::Symbol(Symbol::Increment)),
    (b"--", Lexeme::Symbol(Symbol::Decrement)),
    (b"<<", Lexeme::Symbol(Symbol::ShiftLeft)),
    (b">>", Lexeme::Symbol(Symbol::ShiftRight)),
    (b">>>", Lexeme::Symbol(Symbol::ShiftRightUnsigned)),
    (b"<", Lexeme::Symbol(Symbol::Less)),
    (b"<=", Lexeme::Symbol(Symbol::LessEqual)),
    (b">", Lexeme::Symbol(Symbol::Greater)),
    (b">=", Lexeme::Symbol(Symbol::GreaterEqual)),
    (b"<=>", Lexeme::Symbol(Symbol::Spaceship)),
    (b"==", Lexeme::Symbol(Symbol::Equal)),
    (b"!=", Lexeme::Symbol(Symbol::NotEqual)),
    (b"&", Lexeme::Symbol(Symbol::Ampersand)),
    (b"|", Lexeme::Symbol(Symbol::Bar)),
    (b"^", Lexeme::Symbol(Symbol::Caret)),
    (b"&&", Lexeme::Symbol(Symbol::And)),
    (b"||", Lexeme::Symbol(Symbol::Or)),
    (b"=", Lexeme::Symbol(Symbol::Assign)),
    (b"+=", Lexeme::Symbol(Symbol::PlusAssign)),
    (b"-=", Lexeme::Symbol(Symbol::MinusAssign)),
    (b"*=", Lexeme::Symbol(Symbol::StarAssign)),
    (b"%=", Lexeme::Symbol(Symbol::PercentAssign)),
    (b"<<=", Lexeme::Symbol(Symbol::ShiftLeftAssign)),
    (b">>=", Lexeme::Symbol(Symbol::ShiftRightAssign)),
    (b">>>=", Lexeme::Symbol(Symbol::ShiftRightUnsignedAssign)),
    (b"&=", Lexeme::Symbol(Symbol::AmpersandAssign)),
    (b"|=", Lexeme::Symbol(Symbol::BarAssign)),
    (b"^=", Lexeme::Symbol(Symbol::CaretAssign)),
    (b"@", Lexeme::Symbol(Symbol::At)),
    (b"*:", Lexeme::Symbol(Symbol::SpreadColon)),
    (b"/", Lexeme::Symbol(Symbol::Slash)),
    (b"/=", Lexeme::Symbol(Symbol::SlashAssign)),
    (b"**", Lexeme::Symbol(Symbol::Power)),
    (b"**=", Lexeme::Symbol(Symbol::PowerAssign)),
    (b"~", Lexeme::Symbol(Symbol::Tilde)),
    (b"=~", Lexeme::Symbol(Symbol::Find)),
    (b"==~", Lexeme::Symbol(Symbol::Match)),
    (b"===", Lexeme::Symbol(Symbol::Identical)),
    (b"\n", Lexeme::LineEnd),
    (b"\r", Lexeme::LineEnd),
    (b"\r\n", Lexeme::LineEnd),
    (b"'", Lexeme::Open(Quote::Single)),
    (b"'''", Lexeme::Open(Quote::SingleTriple)),
    (b"\"", Lexeme::Open(Quote::Double)),
    (b"\"\"\"", Lexeme::Open(Quote::DoubleTriple)),
];

/// Keywords and refused words.
pub const WORDS: [(&[u8], Lexeme); 57] = [
    (b"as", Lexeme::Keyword(Keyword::As)),
    (b"assert", Lexeme::Keyword(Keyword::Assert)),
    (b"boolean", Lexeme::Keyword(Keyword::Boolean)),
    (b"break", Lexeme::Keyword(Keyword::Break)),
    (b"case", Lexeme::Keyword(Keyword::Case)),
    (b"catch", Lexeme::Keyword(Keyword::Catch)),
    (b"class", Lexeme::Keyword(Keyword::Class)),
    (b"continue", Lexeme::Keyword(Keyword::Continue)),
    (b"def", Lexeme::Keyword(Keyword::Def)),
    (b"default", Lexeme::Keyword(Keyword::Default)),
    (b"else", Lexeme::Keyword(Keyword::Else)),
    (b"extends", Lexeme::Keyword(Keyword::Extends)),
    (b"false", Lexeme::Keyword(Keyword::False)),
    (b"final", Lexeme::Keyword(Keyword::Final)),
    (b"finally", Lexeme::Keyword(Keyword::Finally)),
    (b"for", Lexeme::Keyword(Keyword::For)),
    (b"if", Lexeme::Keyword(Keyword::If)),
    (b"implements", Lexeme::Keyword(Keyword::Implements)),
    (b"import", Lexeme::Keyword(Keyword::Import)),
    (b"in", Lexeme::Keyword(Keyword::In)),
    (b"instanceof", Lexeme::Keyword(Keyword::InstanceOf)),
    (b"int", Lexeme::Keyword(Keyword::Int)),
    (b"long", Lexeme::Keyword(Keyword::Long)),
    (b"new", Lexeme::Keyword(Keyword::New)),
    (b"null", Lexeme::Keyword(Keyword::Null)),
    (b"private", Lexeme::Keyword(Keyword::Private)),
    (b"protected", Lexeme::Keyword(Keyword::Protected)),
    (b"public", Lexeme::Keyword(Keyword::Public)),
    (b"return", Lexeme::Keyword(Keyword::Return)),
    (b"static", Lexeme::Keyword(Keyword::Static)),
    (b"super", Lexeme::Keyword(Keyword::Super)),
    (b"switch", Lexeme::Keyword(Keyword::Switch)),
    (b"this", Lexeme::Keyword(Keyword::This)),
    (b"throw", Lexeme::Keyword(Keyword::Throw)),
    (b"true", Lexeme::Keyword(Keyword::True)),
    (b"try", Lexeme::Keyword(Keyword::Try)),
    (b"void", Lexeme::Keyword(Keyword::Void)),
    (b"while", Lexeme::Keyword(Keyword::While)),
    (b"abstract", Lexeme::RefusedWord(RefusedWord::Abstract)),
    (b"byte", Lexeme::RefusedWord(RefusedWord::Byte)),
    (b"char", Lexeme::RefusedWord(RefusedWord::Char)),
    (b"const", Lexeme::RefusedWord(RefusedWord::Const)),
    (b"do", Lexeme::RefusedWord(RefusedWord::Do)),
    (b"double", Lexeme::RefusedWord(RefusedWord::Double)),
    (b"enum", Lexeme::RefusedWord(RefusedWord::Enum)),
    (b"float", Lexeme::RefusedWord(RefusedWord::Float)),
    (b"goto", Lexeme::RefusedWord(RefusedWord::Goto)),
    (b"interface", Lexeme::RefusedWord(RefusedWord::Interface)),
    (b"native", Lexeme::RefusedWord(RefusedWord::Native)),
    (b"package", Lexeme::RefusedWord(RefusedWord::Package)),
    (b"short", Lexeme::RefusedWord(RefusedWord::Short)),
    (b"strictfp", Lexeme::RefusedWord(RefusedWord::Strictfp)),
    (
        b"synchronized",
        Lexeme::RefusedWord(RefusedWord::Synchronized),
    ),
    (b"throws", Lexeme::RefusedWord(RefusedWord::Throws)),
    (b"trait", Lexeme::RefusedWord(RefusedWord::Trait)),
    (b"transient", Lexeme::RefusedWord(RefusedWord::Transient)),
    (b"volatile", Lexeme::RefusedWord(RefusedWord::Volatile)),
];

/// Inside `'`.
pub const SINGLE: [(&[u8], Unit); 17] = [
    (b"'", Unit::Close),
    (b"\n", Unit::Unended),
    (b"\r", Unit::Unended),
    (b"\r\n", Unit::Unended),
    (b"\\", Unit::BadEscape),
    (b"\\b", Unit::Char('\u{8}')),
    (b"\\f", Unit::Char('\u{c}')),
    (b"\\n", Unit::Char('\n')),
    (b"\\r", Unit::Char('\r')),
    (b"\\t", Unit::Char('\t')),
    (b"\\\\", Unit::Char('\\')),
    (b"\\'", Unit::Char('\'')),
    (b"\\\"", Unit::Char('"')),
    (b"\\$", Unit::Char('$')),
    (b"\\\n", Unit::Join),
    (b"\\\r", Unit::Join),
    (b"\\\r\n", Unit::Join),
];

/// Inside `'''`.
pub const SINGLE_TRIPLE: [(&[u8], Unit); 17] = [
    (b"'''", Unit::Close),
    (b"\n", Unit::Char('\n')),
    (b"\r", Unit::Char('\n')),
    (b"\r\n", Unit::Char('\n')),
    (b"\\", Unit::BadEscape),
    (b"\\b", Unit::Char('\u{8}')),
    (b"\\f", Unit::Char('\u{c}')),
    (b"\\n", Unit::Char('\n')),
    (b"\\r", Unit::Char('\r')),
    (b"\\t", Unit::Char('\t')),
    (b"\\\\", Unit::Char('\\')),
    (b"\\'", Unit::Char('\'')),
    (b"\\\"", Unit::Char('"')),
    (b"\\$", Unit::Char('$')),
    (b"\\\n", Unit::Join),
    (b"\\\r", Unit::Join),
    (b"\\\r\n", Unit::Join),
];

/// Inside `"`.
pub const DOUBLE: [(&[u8], Unit); 19] = [
    (b"\"", Unit::Close),
    (b"\n", Unit::Unended),
    (b"\r", Unit::Unended),
    (b"\r\n", Unit::Unended),
    (b"\\", Unit::BadEscape),
    (b"\\b", Unit::Char('\u{8}')),
    (b"\\f", Unit::Char('\u{c}')),
    (b"\\n", Unit::Char('\n')),
    (b"\\r", Unit::Char('\r')),
    (b"\\t", Unit::Char('\t')),
    (b"\\\\", Unit::Char('\\')),
    (b"\\'", Unit::Char('\'')),
    (b"\\\"", Unit::Char('"')),
    (b"\\$", Unit::Char('$')),
    (b"\\\n", Unit::Join),
    (b"\\\r", Unit::Join),
    (b"\\\r\n", Unit::Join),
    (b"$", Unit::LoneDollar),
    (b"${", Unit::Part),
];

/// Inside `"""`.
pub const DOUBLE_TRIPLE: [(&[u8], Unit); 19] = [
    (b"\"\"\"", Unit::Close),
    (b"\n", Unit::Char('\n')),
    (b"\r", Unit::Char('\n')),
    (b"\r\n", Unit::Char('\n')),
    (b"\\", Unit::BadEscape),
    (b"\\b", Unit::Char('\u{8}')),
    (b"\\f", Unit::Char('\u{c}')),
    (b"\\n", Unit::Char('\n')),
    (b"\\r", Unit::Char('\r')),
    (b"\\t", Unit::Char('\t')),
    (b"\\\\", Unit::Char('\\')),
    (b"\\'", Unit::Char('\'')),
    (b"\\\"", Unit::Char('"')),
    (b"\\$", Unit::Char('$')),
    (b"\\\n", Unit::Join),
    (b"\\\r", Unit::Join),
    (b"\\\r\n", Unit::Join),
    (b"$", Unit::LoneDollar),
    (b"${", Unit::Part),
];

/// The rows of the table between strings.
#[tactic(auto, unfolding(crate::specs::Table::symbols))]
pub fn symbols() -> &'static [(&'static [u8], Lexeme)]
    ensures value { map (λ k. (k.0.now, k.1)) result.now ≡ spec.symbols }
    ensures short { spec.are_short (map (λ k. (k.0.now, k.1)) result.now) ≡ true }
{
    &SYMBOLS
}

/// The rows of the table inside a string.
#[tactic(auto, unfolding(crate::specs::Table::units))]
pub fn units(quote: Quote) -> &'static [(&'static [u8], Unit)]
    ensures value { map (λ k. (k.0.now, k.1)) result.now ≡ spec.units quote }
    ensures short { spec.are_short (map (λ k. (k.0.now, k.1)) result.now) ≡ true }
{
    match quote {
        Quote::Single => &SINGLE,
        Quote::SingleTriple => &SINGLE_TRIPLE,
        Quote::Double => &DOUBLE,
        Quote::DoubleTriple => &DOUBLE_TRIPLE,
    }
}

fn is_spelled(mut spelling: &[u8], mut word: &[char]) -> bool
    ensures { result ≡ bytes_eq spelling.entry.now word.entry.now }
{
    while let ([byte, bytes @ ..], [c, chars @ ..]) = (spelling, word) {
        if char::from(*byte) != *c {
            return false;
        }
        spelling = bytes;
        word = chars;
    }
    spelling.is_empty() && word.is_empty()
}

fn lookup<T: Copy>(mut table: &[(&[u8], T)], word: &[char]) -> Option<T>
    ensures { result ≡ spec.lookup (map (λ k. (k.0.now, k.1)) table.entry.now) word.now }
{
    while let [entry, rest @ ..] = table {
        if is_spelled(entry.0, word) {
            return Some(entry.1);
        }
        table = rest;
    }
    None
}

/// The longest spelling of the rows with which the text begins.
pub fn longest<T: Copy>(table: &[(&[u8], T)], text: &[char]) -> Option<(T, usize)>
    requires { spec.are_short (map (λ k. (k.0.now, k.1)) table.now) ≡ true }
    ensures some { IfSome result (λ r. IsLongest (spec.lookup (map (λ k. (k.0.now, k.1)) table.now)) text.now r.0 r.1) }
    ensures none { IfNone result ((n : ℕ) → 0 < n → n ≤ length text.now → spec.lookup (map (λ k. (k.0.now, k.1)) table.now) (take n text.now) ≡ None) }
{
    let mut len = text.len().min(4);
    while len > 0 {
        if let Some(found) = lookup(table, &text[..len]) {
            return Some((found, len));
        }
        len -= 1;
    }
    None
}

/// The keyword or refused word, or a name.
#[tactic(auto, unfolding(crate::specs::Table::word_of))]
pub fn word_of(word: &[char]) -> Lexeme
    ensures { result ≡ spec.word_of word.now }
{
    match lookup(&WORDS, word) {
        Some(word) => word,
        None => Lexeme::Name,
    }
}
