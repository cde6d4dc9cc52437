//! What a token means to the grammar: one function for each of its words.

ghost use Rattle.std.specs.Prelude.{◌≡◌, ◌≤◌, ◌<◌, ◌&&◌, ◌||◌, ℕ, MatchBool};
ghost use Rattle.gv_lex.specs.declared.token.TokenKind.TheVariants as kind;
ghost use Rattle.gv_lex.specs.declared.token.Word.TheVariants as word;
ghost use Rattle.gv_grammar.specs.Tokens as spec;

use gv_base::{Name, Place};
use gv_lex::{Piece, TokenKind, Word};
use gv_spelling::{Keyword, Symbol};
use gv_tree::{AssignOp, Atom, BinaryOp, Ident, MemberOp, TypeOp, TypeTree, UnaryOp};

// ---- names

pub fn name_of(kind: TokenKind) -> Option<Name>
    ensures { result ≡ spec.name_of kind }
{
    match kind {
        TokenKind::Word(Word::Name | Word::TypeName, name) => Some(name),
        _ => None,
    }
}

/// The name of a class.
pub fn type_name_of(kind: TokenKind) -> Option<Name>
    ensures { result ≡ spec.type_name_of kind }
{
    match kind {
        TokenKind::Word(Word::TypeName, name) => Some(name),
        _ => None,
    }
}

/// Any word names a member.
pub fn member_name_of(kind: TokenKind) -> Option<Name>
    ensures { result ≡ spec.member_name_of kind }
{
    match kind {
        TokenKind::Word(_, name) => Some(name),
        _ => None,
    }
}

/// A word that isn't refused is a key.
pub fn key_name_of(kind: TokenKind) -> Option<Name>
    ensures { result ≡ spec.key_name_of kind }
{
    match kind {
        TokenKind::Word(Word::Refused(_), _) => None,
        TokenKind::Word(_, name) => Some(name),
        _ => None,
    }
}

/// The text of a string without parts.
pub fn text_of(kind: TokenKind) -> Option<Name>
    ensures { result ≡ spec.text_of kind }
{
    match kind {
        TokenKind::Text(Piece::Whole, text) => Some(text),
        _ => None,
    }
}

// ---- single tokens

fn atom_of_keyword(keyword: Keyword) -> Option<Atom>
    ensures { result ≡ spec.atom_of_keyword keyword }
{
    match keyword {
        Keyword::Null => Some(Atom::Null),
        Keyword::True => Some(Atom::Bool(true)),
        Keyword::False => Some(Atom::Bool(false)),
        Keyword::This => Some(Atom::This),
        Keyword::Super => Some(Atom::Super),
        _ => None,
    }
}

/// An expression of one token.
pub fn atom_of(kind: TokenKind) -> Option<Atom>
    ensures { result ≡ spec.atom_of kind }
{
    match kind {
        TokenKind::Word(Word::Name | Word::TypeName, name) => Some(Atom::Name(name)),
        TokenKind::Word(Word::Keyword(keyword), _) => atom_of_keyword(keyword),
        TokenKind::Int(value) => Some(Atom::Int(value)),
        TokenKind::Long(value) => Some(Atom::Long(value)),
        TokenKind::Text(Piece::Whole, text) => Some(Atom::Text(text)),
        _ => None,
    }
}

fn primitive_of(place: Place, keyword: Keyword) -> Option<TypeTree>
    ensures { (n : ℕ) → result ≡ spec.type_of place (kind.Word (word.Keyword keyword) n) }
{
    match keyword {
        Keyword::Int => Some(TypeTree::Int(place)),
        Keyword::Long => Some(TypeTree::Long(place)),
        Keyword::Boolean => Some(TypeTree::Boolean(place)),
        _ => None,
    }
}

/// A type, which is one token, at this place.
pub fn type_of(place: Place, kind: TokenKind) -> Option<TypeTree>
    ensures { result ≡ spec.type_of place kind }
{
    match kind {
        TokenKind::Word(Word::Keyword(keyword), _) => primitive_of(place, keyword),
        TokenKind::Word(Word::TypeName, name) => Some(TypeTree::Class(Ident { place, name })),
        _ => None,
    }
}

// ---- operators

fn binary_symbol(symbol: Symbol) -> Option<BinaryOp>
    ensures { result ≡ spec.binary_symbol symbol }
{
    match symbol {
        Symbol::Star => Some(BinaryOp::Multiply),
        Symbol::Percent => Some(BinaryOp::Mod),
        Symbol::Plus => Some(BinaryOp::Plus),
        Symbol::Minus => Some(BinaryOp::Minus),
        Symbol::ShiftLeft => Some(BinaryOp::LeftShift),
        Symbol::ShiftRight => Some(BinaryOp::RightShift),
        Symbol::ShiftRightUnsigned => Some(BinaryOp::RightShiftUnsigned),
        Symbol::Range => Some(BinaryOp::Range),
        Symbol::HalfOpenRange => Some(BinaryOp::HalfOpenRange),
        Symbol::Less => Some(BinaryOp::Less),
        Symbol::LessEqual => Some(BinaryOp::LessEqual),
        Symbol::Greater => Some(BinaryOp::Greater),
        Symbol::GreaterEqual => Some(BinaryOp::GreaterEqual),
        Symbol::Equal => Some(BinaryOp::Equal),
        Symbol::NotEqual => Some(BinaryOp::NotEqual),
        Symbol::Spaceship => Some(BinaryOp::Compare),
        Symbol::Ampersand => Some(BinaryOp::BitAnd),
        Symbol::Caret => Some(BinaryOp::BitXor),
        Symbol::Bar => Some(BinaryOp::BitOr),
        Symbol::And => Some(BinaryOp::And),
        Symbol::Or => Some(BinaryOp::Or),
        _ => None,
    }
}

pub fn binary_of(kind: TokenKind) -> Option<BinaryOp>
    ensures { result ≡ spec.binary_of kind }
{
    match kind {
        TokenKind::Symbol(symbol) => binary_symbol(symbol),
        TokenKind::Word(Word::Keyword(Keyword::In), _) => Some(BinaryOp::In),
        _ => None,
    }
}

/// How tightly an operator joins, from 1 on, the tightest first.
pub fn level_of(op: BinaryOp) -> u8
    ensures { result ≡ spec.level_of op }
{
    match op {
        BinaryOp::Multiply | BinaryOp::Mod => 1,
        BinaryOp::Plus | BinaryOp::Minus => 2,
        BinaryOp::LeftShift
        | BinaryOp::RightShift
        | BinaryOp::RightShiftUnsigned
        | BinaryOp::Range
        | BinaryOp::HalfOpenRange => 3,
        BinaryOp::Less
        | BinaryOp::LessEqual
        | BinaryOp::Greater
        | BinaryOp::GreaterEqual
        | BinaryOp::In => 4,
        BinaryOp::Equal | BinaryOp::NotEqual | BinaryOp::Compare => 5,
        BinaryOp::BitAnd => 6,
        BinaryOp::BitXor => 7,
        BinaryOp::BitOr => 8,
        BinaryOp::And => 9,
        BinaryOp::Or => 10,
    }
}

fn joins_once(op: BinaryOp) -> bool
    ensures { result ≡ spec.joins_once op }
{
    matches!(
        op,
        BinaryOp::Range
            | BinaryOp::HalfOpenRange
            | BinaryOp::Less
            | BinaryOp::LessEqual
            | BinaryOp::Greater
            | BinaryOp::GreaterEqual
            | BinaryOp::In
    )
}

/// Whether an operator may not join, since one that joins at most once stands before it.
pub fn is_barred(joined: bool, op: BinaryOp) -> bool
    ensures { result ≡ (joined && spec.joins_once op) }
{
    joined && joins_once(op)
}

/// Whether one that joins at most once stands before what follows the operator.
pub fn joined_by(joined: bool, op: BinaryOp) -> bool
    ensures { result ≡ (joined || spec.joins_once op) }
{
    joined || joins_once(op)
}

/// An operator with a type on its right.
pub fn typing_of(kind: TokenKind) -> Option<TypeOp>
    ensures { result ≡ spec.typing_of kind }
{
    match kind {
        TokenKind::Word(Word::Keyword(Keyword::InstanceOf), _) => Some(TypeOp::InstanceOf),
        TokenKind::Word(Word::Keyword(Keyword::As), _) => Some(TypeOp::As),
        _ => None,
    }
}

pub fn prefix_of(kind: TokenKind) -> Option<UnaryOp>
    ensures { result ≡ spec.prefix_of kind }
{
    match kind {
        TokenKind::Symbol(Symbol::Not) => Some(UnaryOp::Not),
        TokenKind::Symbol(Symbol::Minus) => Some(UnaryOp::Minus),
        TokenKind::Symbol(Symbol::Plus) => Some(UnaryOp::Plus),
        TokenKind::Symbol(Symbol::Increment) => Some(UnaryOp::Increment),
        TokenKind::Symbol(Symbol::Decrement) => Some(UnaryOp::Decrement),
        _ => None,
    }
}

pub fn postfix_of(kind: TokenKind) -> Option<UnaryOp>
    ensures { result ≡ spec.postfix_of kind }
{
    match kind {
        TokenKind::Symbol(Symbol::Increment) => Some(UnaryOp::IncrementAfter),
        TokenKind::Symbol(Symbol::Decrement) => Some(UnaryOp::DecrementAfter),
        _ => None,
    }
}

pub fn assign_of(kind: TokenKind) -> Option<AssignOp>
    ensures { result ≡ spec.assign_of kind }
{
    match kind {
        TokenKind::Symbol(Symbol::Assign) => Some(AssignOp::Plain),
        TokenKind::Symbol(Symbol::PlusAssign) => Some(AssignOp::Plus),
        TokenKind::Symbol(Symbol::MinusAssign) => Some(AssignOp::Minus),
        TokenKind::Symbol(Symbol::StarAssign) => Some(AssignOp::Multiply),
        TokenKind::Symbol(Symbol::PercentAssign) => Some(AssignOp::Mod),
        TokenKind::Symbol(Symbol::ShiftLeftAssign) => Some(AssignOp::LeftShift),
        TokenKind::Symbol(Symbol::ShiftRightAssign) => Some(AssignOp::RightShift),
        TokenKind::Symbol(Symbol::ShiftRightUnsignedAssign) => Some(AssignOp::RightShiftUnsigned),
        TokenKind::Symbol(Symbol::AmpersandAssign) => Some(AssignOp::BitAnd),
        TokenKind::Symbol(Symbol::BarAssign) => Some(AssignOp::BitOr),
        TokenKind::Symbol(Symbol::CaretAssign) => Some(AssignOp::BitXor),
        _ => None,
    }
}

/// What stands between a receiver and the name of its member.
pub fn member_of(kind: TokenKind) -> Option<MemberOp>
    ensures { result ≡ spec.member_of kind }
{
    match kind {
        TokenKind::Symbol(Symbol::Dot) => Some(MemberOp::Dot),
        TokenKind::Symbol(Symbol::SafeDot) => Some(MemberOp::Safe),
        TokenKind::Symbol(Symbol::SpreadDot) => Some(MemberOp::Spread),
        TokenKind::Symbol(Symbol::MethodPointer) => Some(MemberOp::Pointer),
        _ => None,
    }
}

// ---- brackets and strings

/// The bracket that closes this one.
pub fn closing(kind: TokenKind) -> Option<Symbol>
    ensures { result ≡ spec.closing kind }
{
    match kind {
        TokenKind::Symbol(Symbol::LeftParen) => Some(Symbol::RightParen),
        TokenKind::Symbol(Symbol::LeftBracket) => Some(Symbol::RightBracket),
        TokenKind::Symbol(Symbol::LeftBrace) => Some(Symbol::RightBrace),
        _ => None,
    }
}

/// A bracket that closes, or the end of a list.
pub fn is_closing(kind: TokenKind) -> bool
    ensures { result ≡ spec.is_closing kind }
{
    matches!(
        kind,
        TokenKind::Symbol(Symbol::RightParen | Symbol::RightBracket | Symbol::RightBrace)
            | TokenKind::End
    )
}

/// The head of a string with parts.
pub fn is_head(kind: TokenKind) -> bool
    ensures { result ≡ spec.is_head kind }
{
    matches!(kind, TokenKind::Text(Piece::Head(_), _))
}

// ---- what goes on, and what begins

fn keyword_begins_arguments(keyword: Keyword) -> bool
    ensures { result ≡ spec.keyword_begins_arguments keyword }
{
    matches!(
        keyword,
        Keyword::This
            | Keyword::Super
            | Keyword::Null
            | Keyword::True
            | Keyword::False
            | Keyword::New
    )
}

/// Whether the arguments of a command begin with it.
pub fn begins_arguments(kind: TokenKind) -> bool
    ensures { result ≡ spec.begins_arguments kind }
{
    match kind {
        TokenKind::Word(Word::Name | Word::TypeName, _) => true,
        TokenKind::Word(Word::Keyword(keyword), _) => keyword_begins_arguments(keyword),
        TokenKind::Int(_) | TokenKind::Long(_) => true,
        TokenKind::Text(Piece::Whole | Piece::Head(_), _) => true,
        TokenKind::Symbol(Symbol::Not) => true,
        _ => false,
    }
}

fn symbol_begins_expr(symbol: Symbol) -> bool
    ensures { result ≡ spec.symbol_begins_expr symbol }
{
    matches!(
        symbol,
        Symbol::LeftParen
            | Symbol::LeftBracket
            | Symbol::LeftBrace
            | Symbol::Not
            | Symbol::Minus
            | Symbol::Plus
            | Symbol::Increment
            | Symbol::Decrement
    )
}

/// Whether an expression begins with it.
pub fn begins_expr(kind: TokenKind) -> bool
    ensures { result ≡ spec.begins_expr kind }
{
    match kind {
        TokenKind::Symbol(symbol) => symbol_begins_expr(symbol),
        other => begins_arguments(other),
    }
}

/// Whether a call begins with it, behind what is called.
pub fn begins_call(kind: TokenKind) -> bool
    ensures { result ≡ spec.begins_call kind }
{
    matches!(
        kind,
        TokenKind::Symbol(Symbol::LeftParen | Symbol::LeftBrace)
    )
}

fn suffix_begins(symbol: Symbol) -> bool
    ensures { MatchBool result (spec.symbol_reach symbol ≤ 12) (12 < spec.symbol_reach symbol) }
{
    matches!(
        symbol,
        Symbol::Dot
            | Symbol::SafeDot
            | Symbol::SpreadDot
            | Symbol::MethodPointer
            | Symbol::FieldDot
            | Symbol::LeftParen
            | Symbol::LeftBracket
            | Symbol::LeftBrace
            | Symbol::Increment
            | Symbol::Decrement
            | Symbol::Question
            | Symbol::Elvis
    )
}

/// Whether an expression may go on with it.
pub fn goes_on(kind: TokenKind) -> bool
    ensures { MatchBool result (spec.reach kind ≤ 12) (12 < spec.reach kind) }
{
    if binary_of(kind).is_some() {
        return true;
    }
    if typing_of(kind).is_some() {
        return true;
    }
    if assign_of(kind).is_some() {
        return true;
    }
    match kind {
        TokenKind::Symbol(symbol) => suffix_begins(symbol),
        _ => false,
    }
}
