//! The tokens of a file.

ghost use Rattle.std.specs.Prelude.{◌≡◌, ◌<◌, ◌≤◌, ◌-◌, ◌^◌, map, length, take, drop, All, Ok, IfOk, IfErr, OnOk, IsUtf8};
ghost use Rattle.std.specs.Str.{chars};
ghost use Rattle.std.specs.Str.Lossy.{utf8_valid_len};
ghost use Rattle.std.specs.List.{prefix_len};
ghost use Rattle.gv_spelling.specs.Table.{is_in};
ghost use Rattle.gv_spelling.specs.declared.classes.Class.TheVariants.{NotLine};
ghost use Rattle.gv_lex.specs.Lexing as spec;
ghost use Rattle.gv_lex.specs.Steps.{RefusedAs};
ghost use Rattle.gv_lex.specs.Tokens.{told, IsNamed, KeepsNames};

use crate::acts::refusal;
use crate::error::LexError;
use crate::lexer::Lexer;
use crate::places::{file_start, past};
use crate::token::Token;
use gv_base::{Names, OutOfMemory, Refusal, RefusalKind};
use std::alloc::Global;
use std::str;

/// The tokens of a file's bytes, their names and texts put into a table. After an error the table may
/// hold more.
pub fn lex(alloc: Global, file: u8, bytes: &[u8], names: &mut Names) -> Result<Vec<Token>, LexError>
    requires { length bytes.now < 2 ^ 32 - 1 }
    ensures tokens { IfOk result (λ tokens. spec.lexed file bytes.now ≡ Ok (map (told names.new) tokens.items)) }
    ensures named { IfOk result (λ tokens. All (IsNamed names.new) tokens.items) }
    ensures refused { IfErr result (RefusedAs (spec.lexed file bytes.now)) }
    ensures names { KeepsNames names.old names.new }
{
    match str::from_utf8(bytes) {
        Ok(text) => {
            let characters = characters_of(alloc, text)?;
            lex_characters(alloc, file, characters.as_slice(), names)
        }
        Err(error) => Err(LexError::Refused(not_utf8(alloc, file, bytes, error.valid_up_to())?)),
    }
}

fn characters_of(alloc: Global, text: &str) -> Result<Vec<char>, OutOfMemory>
    ensures value { IfOk result (λ characters. characters.items ≡ chars text.now) }
    ensures few { IfOk result (λ characters. length characters.items ≤ length text.now) }
{
    text.chars().collect(alloc)
}

/// The refusal of bytes of which only the first ones are UTF-8.
fn not_utf8(alloc: Global, file: u8, bytes: &[u8], valid: usize) -> Result<Refusal, OutOfMemory>
    requires small { length bytes.now < 2 ^ 32 - 1 }
    requires valid { valid ≡ utf8_valid_len bytes.now }
    requires within { valid ≤ length bytes.now }
    requires front { IsUtf8 (take valid bytes.now) }
    ensures { IfOk result (λ refusal. refusal ≡ spec.not_utf8 file bytes.now) }
{
    match str::from_utf8(bytes.split_at(valid).0) {
        Ok(front) => {
            let before = characters_of(alloc, front)?;
            let place = past(file_start(file), before.as_slice());
            Ok(refusal(place, RefusalKind::NotUtf8))
        }
        Err(_) => unreachable!(),
    }
}

/// The tokens of a file's characters.
fn lex_characters(
    alloc: Global,
    file: u8,
    text: &[char],
    names: &mut Names,
) -> Result<Vec<Token>, LexError>
    requires { length text.now < 2 ^ 32 - 1 }
    ensures tokens { IfOk result (λ tokens. spec.judged_reading (spec.reading_of file text.now) ≡ Ok (map (told names.new) tokens.items)) }
    ensures named { IfOk result (λ tokens. All (IsNamed names.new) tokens.items) }
    ensures refused { IfErr result (RefusedAs (spec.judged_reading (spec.reading_of file text.now))) }
    ensures names { KeepsNames names.old names.new }
{
    let (head, body) = text.split_at(head_len(text));
    let mut lexer = Lexer::new(alloc, past(file_start(file), head));
    let mut rest = body;
    'turns: while !rest.is_empty() {
        let len = lexer.turn(names, rest)?;
        rest = rest.split_at(len).1;
    }
    lexer.finish()
}

/// How many characters stand before all tokens.
fn head_len(text: &[char]) -> usize
    ensures value { result ≡ spec.head_len text.now }
    ensures within { result ≤ length text.now }
{
    match text {
        ['\u{FEFF}', ..] => 1,
        ['#', '!', ..] => line_len(text),
        _ => 0,
    }
}

/// How many characters stand before the first line end.
fn line_len(text: &[char]) -> usize
    ensures value { result ≡ prefix_len (is_in NotLine) text.now }
    ensures within { result ≤ length text.now }
{
    for (index, c) in text.iter().enumerate() {
        if !is_in_line(*c) {
            return index;
        }
    }
    text.len()
}

/// Whether a character ends no line.
#[tactic(auto, unfolding(gv_spelling::specs::Table::is_in))]
fn is_in_line(c: char) -> bool
    ensures { result ≡ is_in NotLine c }
{
    c != '\n' && c != '\r'
}
