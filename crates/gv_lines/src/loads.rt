//! The first token whose load is too much.

ghost use Rattle.std.specs.Prelude.{◌≡◌, ◌∷◌, ◌+◌, ◌≤◌, [], List, Some, false, reverse, OnOk, IfOk, if◌then◌else◌};
ghost use Rattle.std.specs.Option.{option_map};
ghost use Rattle.gv_lex.specs.declared.token.Token.{Token};
ghost use Rattle.gv_lines.specs.Loads as spec;
ghost use Rattle.gv_lines.specs.Steps.{levels_of, IsSummed};

use crate::counting::counted;
use gv_base::{OutOfMemory, Place};
use gv_lex::{Piece, Token, TokenKind};
use gv_spelling::Symbol;
use std::alloc::Global;

/// The most that a token's load may be.
pub const MOST_LOAD: usize = 300;

/// What the token before is, of the same level.
#[derive(Clone, Copy, Debug, PartialEq, Eq)]
pub enum Before {
    /// A name, a literal, a string or a closing bracket.
    Operand,
    /// The `)` that closes the head of an `if`, a `while` or a `for`.
    HeadEnd,
    /// `if`, `while` or `for`, where it is no member's name.
    HeadWord,
    /// What a member's name follows.
    Dot,
    Other,
}

/// A list of tokens is a level, and so is what stands between two brackets.
#[derive(Clone, Copy, Debug, PartialEq, Eq)]
pub struct Level {
    /// 1 for a part of a string, so that strings in strings add up.
    pub base: usize,
    /// How many tokens were counted since the last `;` or line end, or `,` of a list.
    pub count: usize,
    pub before: Before,
    /// Whether it is a list: `( )` that is no head, or `[ ]`.
    pub list: bool,
    /// Whether it is the head of an `if`, a `while` or a `for`.
    pub head: bool,
    /// Whether it is a part of a string.
    pub part: bool,
}

/// What is open around a place.
#[derive(Drop)]
pub struct Loads {
    pub innermost: Level,
    /// The levels around it, the outermost first.
    pub around: Vec<Level>,
    /// The load of the levels around it.
    pub load_around: usize,
}

/// The place of the first token whose load is past `MOST_LOAD`, in a list of tokens without the line
/// ends that don't count.
pub fn too_deep(alloc: Global, tokens: &[Token]) -> Result<Option<Place>, OutOfMemory>
    ensures { IfOk result (λ place. place ≡ option_map (λ t. t.place) (spec.too_deep tokens.now)) }
{
    let mut loads = Loads::new(alloc);
    for token in tokens {
        if loads.turn(token.kind)? {
            return Ok(Some(token.place));
        }
    }
    Ok(None)
}

impl Loads {
    fn new(alloc: Global) -> Loads
        ensures levels { levels_of result ≡ spec.start }
        ensures summed { IsSummed result }
    {
        Loads {
            innermost: new_level(),
            around: Vec::new(alloc),
            load_around: 0,
        }
    }

    /// Reads a token, and answers whether its load is too much.
    fn turn(&mut self, kind: TokenKind) -> Result<bool, OutOfMemory>
        requires { IsSummed self.old }
        ensures turns { IfOk result (λ deep. (t : Token) (rest : List Token) → t.kind ≡ kind → spec.too_deep_from (levels_of self.old) (t ∷ rest) ≡ if deep then Some t else spec.too_deep_from (levels_of self.new) rest) }
        ensures summed { IfOk result (λ deep. deep ≡ false → IsSummed self.new) }
    {
        let before = self.innermost.before;
        self.innermost = counted(self.innermost, kind);
        if MOST_LOAD < self.innermost.base + self.innermost.count + self.load_around {
            return Ok(true);
        }
        self.pass(before, kind)?;
        Ok(false)
    }

    /// Opens and closes levels behind a token that is counted already.
    fn pass(&mut self, before: Before, kind: TokenKind) -> Result<(), OutOfMemory>
        requires summed { IsSummed self.old }
        requires room { self.old.innermost.base + self.old.innermost.count + self.old.load_around ≤ MOST_LOAD }
        ensures levels { OnOk result (levels_of self.new ≡ spec.levels_behind before self.old.innermost (reverse self.old.around.items) kind) }
        ensures summed { OnOk result (IsSummed self.new) }
    {
        match kind {
            TokenKind::Symbol(Symbol::LeftParen) => {
                self.open(list_level(matches!(before, Before::HeadWord)))?
            }
            TokenKind::Symbol(Symbol::LeftBracket) => self.open(list_level(false))?,
            TokenKind::Symbol(Symbol::LeftBrace) => self.open(new_level())?,
            TokenKind::Symbol(Symbol::RightParen | Symbol::RightBracket | Symbol::RightBrace) => {
                self.close()
            }
            TokenKind::Text(Piece::Head(_) | Piece::Middle(_), _) => self.open(part_level())?,
            TokenKind::End => self.end_part(),
            _ => {}
        }
        Ok(())
    }

    /// Opens a level.
    fn open(&mut self, level: Level) -> Result<(), OutOfMemory>
        requires summed { IsSummed self.old }
        requires room { self.old.innermost.base + self.old.innermost.count + self.old.load_around ≤ MOST_LOAD }
        requires level { level.base + level.count ≤ 1 }
        ensures levels { OnOk result (levels_of self.new ≡ level ∷ levels_of self.old) }
        ensures summed { OnOk result (IsSummed self.new) }
    {
        self.around.push(self.innermost)?;
        self.load_around += self.innermost.base + self.innermost.count;
        self.innermost = level;
        Ok(())
    }

    /// What a closing bracket does: it closes the innermost level, unless that is a whole list of tokens.
    fn close(&mut self)
        requires { IsSummed self.old }
        ensures levels { levels_of self.new ≡ spec.closed self.old.innermost (reverse self.old.around.items) }
        ensures summed { IsSummed self.new }
    {
        let mut before = Before::Operand;
        if !self.innermost.part {
            let head = self.innermost.head;
            if self.leave() && head {
                before = Before::HeadEnd;
            }
        }
        self.innermost.before = before;
    }

    /// Goes back to the level around, and answers whether there is one.
    fn leave(&mut self) -> bool
        requires { IsSummed self.old }
        ensures levels { reverse self.old.around.items ≡ if result then levels_of self.new else [] }
        ensures none { result ≡ false → levels_of self.new ≡ levels_of self.old }
        ensures summed { IsSummed self.new }
    {
        match self.around.pop() {
            Some(level) => {
                self.load_around -= level.base + level.count;
                self.innermost = level;
                true
            }
            None => false,
        }
    }

    /// Takes away the innermost part, and what is open in it.
    fn end_part(&mut self)
        requires { IsSummed self.old }
        ensures levels { levels_of self.new ≡ spec.part_ended (levels_of self.old) }
        ensures summed { IsSummed self.new }
    {
        'levels: loop {
            let part = self.innermost.part;
            if !self.leave() || part {
                return;
            }
        }
    }
}

fn new_level() -> Level
    ensures { result ≡ spec.new_level }
{
    Level {
        base: 0,
        count: 0,
        before: Before::Other,
        list: false,
        head: false,
        part: false,
    }
}

fn list_level(head: bool) -> Level
    ensures { result ≡ spec.list_level head }
{
    Level {
        list: !head,
        head,
        ..new_level()
    }
}

fn part_level() -> Level
    ensures { result ≡ spec.part_level }
{
    Level {
        base: 1,
        part: true,
        ..new_level()
    }
}
