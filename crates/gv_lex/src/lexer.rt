//! What is found so far, and what each spelling adds to it.

ghost use Rattle.std.specs.Prelude.{◌≡◌, ◌+◌, ◌<◌, ◌≤◌, ◌∷◌, ◌++◌, [], List, ℕ, None, length, take, drop, reverse, OnOk, IfOk, IfErr};
ghost use Rattle.gv_spelling.specs.Table as table;
ghost use Rattle.gv_lex.specs.declared.open.Here.TheVariants.{Between, Inside};
ghost use Rattle.gv_lex.specs.Lexing as spec;
ghost use Rattle.gv_lex.specs.Lexing.{Reading};
ghost use Rattle.gv_lex.specs.Places.{first_of};
ghost use Rattle.gv_lex.specs.Steps.{state_of, Completes, IsJudged, RefusedAs, Puts, AlwaysPuts, Follows, AlwaysFollows, Turns, HasRoom, word_len};
ghost use Rattle.gv_lex.specs.Tokens.{KeepsNames, IsNameOf, what_of};

use crate::acts::{
    as_word, ends_operand, fault_refusal, piece_before, refusal, symbol_ends_operand,
};
use crate::error::LexError;
use crate::names::{intern, intern_word};
use crate::open::{Here, Open, OpenPart, OpenText};
use crate::places::{earlier, next_column, past};
use crate::token::{Part, Token, TokenKind, Word};
use gv_base::{Names, OutOfMemory, Place, Refusal, RefusalKind};
use gv_spelling::{Lexeme, Quote, Symbol, Unit, between, inside, word_of};
use std::alloc::Global;

#[derive(Drop)]
pub struct Lexer {
    pub tokens: Vec<Token>,
    /// The first refusal so far.
    pub first: Option<Refusal>,
    /// What is open around the place, the innermost last.
    pub around: Vec<Open>,
    pub here: Here,
    /// The open string's text since its last part.
    pub text: String,
    /// Whether the token before ends an operand.
    pub operand: bool,
    pub place: Place,
    /// Of any content.
    pub buffer: String,
}

impl Lexer {
    /// A lexer that has found nothing before a place.
    pub fn new(alloc: Global, place: Place) -> Lexer
        ensures tokens { result.tokens.items ≡ [] }
        ensures first { result.first ≡ None }
        ensures state { state_of result ≡ spec.start place }
    {
        Lexer {
            tokens: Vec::new(alloc),
            first: None,
            around: Vec::new(alloc),
            here: Here::Between,
            text: String::new(alloc),
            operand: false,
            place,
            buffer: String::new(alloc),
        }
    }

    /// Reads the first spelling of a text, and answers its length.
    pub fn turn(&mut self, names: &mut Names, text: &[char]) -> Result<usize, OutOfMemory>
        requires some { 0 < length text.now }
        requires room { HasRoom self.old.place (length text.now) }
        ensures turns { IfOk result (λ len. Turns names.new self.old text.now len self.new) }
        ensures names { KeepsNames names.old names.new }
    {
        match self.here {
            Here::Between => self.turn_between(names, text),
            Here::Inside(opened) => self.turn_inside(names, opened, text),
        }
    }

    fn turn_between(&mut self, names: &mut Names, text: &[char]) -> Result<usize, OutOfMemory>
        requires here { self.old.here ≡ Between }
        requires some { 0 < length text.now }
        requires room { HasRoom self.old.place (length text.now) }
        ensures turns { IfOk result (λ len. Turns names.new self.old text.now len self.new) }
        ensures names { KeepsNames names.old names.new }
    {
        let (what, len) = between(self.operand, text);
        let spelling = front(text, len);
        let behind = past(self.place, spelling);
        self.between(names, spelling, what)?;
        self.place = behind;
        Ok(len)
    }

    fn turn_inside(
        &mut self,
        names: &mut Names,
        opened: OpenText,
        text: &[char],
    ) -> Result<usize, OutOfMemory>
        requires here { self.old.here ≡ Inside opened }
        requires some { 0 < length text.now }
        requires room { HasRoom self.old.place (length text.now) }
        ensures turns { IfOk result (λ len. Turns names.new self.old text.now len self.new) }
        ensures names { KeepsNames names.old names.new }
    {
        let (what, len) = inside(opened.quote, text);
        let spelling = front(text, len);
        let behind = past(self.place, spelling);
        self.inside(names, opened, spelling, what)?;
        self.place = behind;
        Ok(len)
    }

    /// What a spelling between strings does.
    fn between(&mut self, names: &mut Names, text: &[char], what: Lexeme) -> Result<(), OutOfMemory>
        requires some { 0 < length text.now }
        requires room { HasRoom self.old.place (length text.now) }
        ensures follows { OnOk result (AlwaysFollows names.new self.old (spec.act_between (state_of self.old) text.now what) self.new) }
        ensures names { KeepsNames names.old names.new }
    {
        match what {
            Lexeme::Space => Ok(()),
            Lexeme::LineEnd => self.put(TokenKind::LineEnd, false),
            Lexeme::Int(value) => self.put(TokenKind::Int(value), true),
            Lexeme::Long(value) => self.put(TokenKind::Long(value), true),
            Lexeme::Symbol(symbol) => self.symbol(symbol),
            Lexeme::Open(quote) => {
                self.begin_text(quote);
                Ok(())
            }
            Lexeme::Fault(fault) => {
                self.refuse(fault_refusal(self.place, fault));
                Ok(())
            }
            Lexeme::Name | Lexeme::Keyword(_) | Lexeme::RefusedWord(_) => {
                self.word(names, text, as_word(text, what))
            }
        }
    }

    /// The tokens of a text that was read to its end, unless something is refused.
    pub fn finish(mut self) -> Result<Vec<Token>, LexError>
        ensures tokens { IfOk result (λ tokens. (names : List (List ℕ)) (whole : Reading) → Completes names self (spec.reading_of_end (state_of self)) whole → IsJudged names whole tokens.items) }
        ensures refused { IfErr result (λ error. (names : List (List ℕ)) (whole : Reading) → Completes names self (spec.reading_of_end (state_of self)) whole → RefusedAs (spec.judged_reading whole) error) }
    {
        let place = self.place;
        self.put_at(TokenKind::End, place)?;
        match first_open(self.first, self.here, self.around.as_slice()) {
            Some(refusal) => Err(LexError::Refused(refusal)),
            None => Ok(self.tokens),
        }
    }

    /// Puts a token here.
    fn put(&mut self, kind: TokenKind, operand: bool) -> Result<(), OutOfMemory>
        ensures { OnOk result ((names : List (List ℕ)) → IsNameOf names kind → Follows names self.old (spec.puts (state_of self.old) (what_of names kind) operand) self.new) }
    {
        self.put_at(kind, self.place)?;
        self.operand = operand;
        Ok(())
    }

    /// Puts a token.
    fn put_at(&mut self, kind: TokenKind, place: Place) -> Result<(), OutOfMemory>
        ensures { OnOk result ((names : List (List ℕ)) → IsNameOf names kind → Puts names self.old (spec.spelled place (what_of names kind) ∷ []) self.new) }
    {
        self.tokens.push(Token { kind, place })?;
        Ok(())
    }

    fn refuse(&mut self, refusal: Refusal)
        ensures { (names : List (List ℕ)) → Follows names self.old (spec.refuses (state_of self.old) refusal) self.new }
    {
        self.first = earlier(self.first, Some(refusal));
    }

    fn word(&mut self, names: &mut Names, text: &[char], word: Word) -> Result<(), OutOfMemory>
        ensures follows { OnOk result (AlwaysFollows names.new self.old (spec.puts_word (state_of self.old) text.now word) self.new) }
        ensures names { KeepsNames names.old names.new }
    {
        let name = intern_word(names, text, &mut self.buffer)?;
        self.put(TokenKind::Word(word, name), ends_operand(word))
    }

    fn symbol(&mut self, symbol: Symbol) -> Result<(), OutOfMemory>
        requires { self.old.place.column + 1 < 4294967296 }
        ensures { OnOk result ((names : List (List ℕ)) → Follows names self.old (spec.act_symbol (state_of self.old) symbol) self.new) }
    {
        match symbol {
            Symbol::LeftBrace => {
                self.around.push(Open::Brace)?;
                self.put_symbol(Symbol::LeftBrace)
            }
            Symbol::RightBrace => self.close(),
            _ => self.put_symbol(symbol),
        }
    }

    fn put_symbol(&mut self, symbol: Symbol) -> Result<(), OutOfMemory>
        ensures { OnOk result ((names : List (List ℕ)) → Follows names self.old (spec.puts_symbol (state_of self.old) symbol) self.new) }
    {
        self.put(TokenKind::Symbol(symbol), symbol_ends_operand(symbol))
    }

    /// What a `}` does.
    fn close(&mut self) -> Result<(), OutOfMemory>
        requires { self.old.place.column + 1 < 4294967296 }
        ensures { OnOk result ((names : List (List ℕ)) → Follows names self.old (spec.closes (state_of self.old) (state_of self.old).around) self.new) }
    {
        match self.around.pop() {
            Some(Open::Part(part)) => self.end_part(part),
            Some(Open::Brace) => self.put_symbol(Symbol::RightBrace),
            None => self.put_symbol(Symbol::RightBrace),
        }
    }

    /// Ends a part of a string, which goes on.
    fn end_part(&mut self, part: OpenPart) -> Result<(), OutOfMemory>
        requires { self.old.place.column + 1 < 4294967296 }
        ensures { OnOk result ((names : List (List ℕ)) → Follows names self.old (spec.ends_part (state_of self.old) part) self.new) }
    {
        let behind = next_column(self.place);
        self.put_at(TokenKind::End, self.place)?;
        self.here = Here::Inside(OpenText {
            quote: part.quote,
            start: part.start,
            behind: Some(behind),
        });
        Ok(())
    }

    fn begin_text(&mut self, quote: Quote)
        ensures { (names : List (List ℕ)) → Follows names self.old (spec.begins_text (state_of self.old) quote) self.new }
    {
        self.here = Here::Inside(OpenText {
            quote,
            start: self.place,
            behind: None,
        });
    }

    /// What a spelling inside a string does.
    fn inside(
        &mut self,
        names: &mut Names,
        opened: OpenText,
        text: &[char],
        what: Unit,
    ) -> Result<(), OutOfMemory>
        requires some { 0 < length text.now }
        requires room { HasRoom self.old.place (length text.now) }
        ensures follows { OnOk result (AlwaysFollows names.new self.old (spec.act_inside (state_of self.old) opened text.now what) self.new) }
        ensures names { KeepsNames names.old names.new }
    {
        match what {
            Unit::Char(c) => {
                self.text.push(c)?;
                Ok(())
            }
            Unit::Join => Ok(()),
            Unit::Close => self.end_text(names, opened, true),
            Unit::Unended => {
                self.end_text(names, opened, false)?;
                self.refuse(refusal(opened.start, RefusalKind::UnendedString));
                Ok(())
            }
            Unit::Part => self.begin_part(names, opened),
            Unit::Path => self.path(names, opened, text),
            Unit::BadEscape => {
                self.refuse(refusal(self.place, RefusalKind::BadEscape));
                Ok(())
            }
            Unit::LoneDollar => {
                self.refuse(refusal(self.place, RefusalKind::UnendedInterpolation));
                Ok(())
            }
        }
    }

    /// Puts the piece of a string that ends here.
    fn put_piece(
        &mut self,
        names: &mut Names,
        opened: OpenText,
        part: Option<Part>,
    ) -> Result<(), OutOfMemory>
        ensures puts { OnOk result (AlwaysPuts names.new self.old (spec.piece_token (state_of self.old) opened part ∷ []) self.new) }
        ensures names { KeepsNames names.old names.new }
    {
        let name = intern(names, self.text.as_str())?;
        let place = opened.behind.unwrap_or(opened.start);
        self.put_at(TokenKind::Text(piece_before(opened, part), name), place)
    }

    fn end_text(
        &mut self,
        names: &mut Names,
        opened: OpenText,
        operand: bool,
    ) -> Result<(), OutOfMemory>
        ensures follows { OnOk result (AlwaysFollows names.new self.old (spec.ends_text (state_of self.old) opened operand None) self.new) }
        ensures names { KeepsNames names.old names.new }
    {
        self.put_piece(names, opened, None)?;
        self.here = Here::Between;
        self.text.clear();
        self.operand = operand;
        Ok(())
    }

    fn begin_part(&mut self, names: &mut Names, opened: OpenText) -> Result<(), OutOfMemory>
        ensures follows { OnOk result (AlwaysFollows names.new self.old (spec.begins_part (state_of self.old) opened) self.new) }
        ensures names { KeepsNames names.old names.new }
    {
        self.put_piece(names, opened, Some(Part::Braces))?;
        self.around.push(Open::Part(OpenPart {
            quote: opened.quote,
            start: opened.start,
            dollar: self.place,
        }))?;
        self.here = Here::Between;
        self.text.clear();
        self.operand = false;
        Ok(())
    }

    /// What a `$a.b` does.
    fn path(
        &mut self,
        names: &mut Names,
        opened: OpenText,
        text: &[char],
    ) -> Result<(), OutOfMemory>
        requires some { 0 < length text.now }
        requires room { HasRoom self.old.place (length text.now) }
        ensures follows { OnOk result (AlwaysFollows names.new self.old (spec.puts_path (state_of self.old) opened text.now) self.new) }
        ensures names { KeepsNames names.old names.new }
    {
        let start = next_column(self.place);
        let behind = past(self.place, text);
        self.put_piece(names, opened, Some(Part::Path))?;
        self.put_words(names, start, back(text, 1))?;
        self.put_at(TokenKind::End, behind)?;
        self.text.clear();
        self.here = Here::Inside(OpenText {
            behind: Some(behind),
            ..opened
        });
        Ok(())
    }

    /// Puts the words of a path, and the dots between them.
    fn put_words(
        &mut self,
        names: &mut Names,
        place: Place,
        path: &[char],
    ) -> Result<(), OutOfMemory>
        requires { HasRoom place (length path.now) }
        ensures puts { OnOk result (AlwaysPuts names.new self.old (spec.path_tokens place (spec.words_of path.now)) self.new) }
        ensures names { KeepsNames names.old names.new }
    {
        let mut here = place;
        let mut rest = path;
        'words: loop {
            let (word, behind) = rest.split_at(word_len(rest));
            self.put_word(names, here, word)?;
            if behind.is_empty() {
                return Ok(());
            }
            let dot = past(here, word);
            self.put_at(TokenKind::Symbol(Symbol::Dot), dot)?;
            here = next_column(dot);
            rest = back(behind, 1);
        }
    }

    /// Puts a word of a path.
    fn put_word(
        &mut self,
        names: &mut Names,
        place: Place,
        word: &[char],
    ) -> Result<(), OutOfMemory>
        ensures puts { OnOk result (AlwaysPuts names.new self.old (spec.path_word place word.now ∷ []) self.new) }
        ensures names { KeepsNames names.old names.new }
    {
        let name = intern_word(names, word, &mut self.buffer)?;
        self.put_at(TokenKind::Word(as_word(word, word_of(word)), name), place)
    }
}

/// The first of a refusal and those of what stays open: a string and parts of strings.
fn first_open(first: Option<Refusal>, here: Here, around: &[Open]) -> Option<Refusal>
    ensures { result ≡ first_of first (spec.here_refusals here ++ spec.open_refusals (reverse around.now)) }
{
    let mut first = match here {
        Here::Between => first,
        Here::Inside(opened) => earlier(
            first,
            Some(refusal(opened.start, RefusalKind::UnendedString)),
        ),
    };
    let mut rest = around;
    'around: while let Some((innermost, outer)) = rest.split_last() {
        if let Open::Part(part) = innermost {
            first = earlier(
                first,
                Some(refusal(part.dollar, RefusalKind::UnendedInterpolation)),
            );
        }
        rest = outer;
    }
    first
}

/// The number of characters before the first dot.
fn word_len(path: &[char]) -> usize
    ensures value { result ≡ word_len path.now }
    ensures within { result ≤ length path.now }
{
    for (index, c) in path.iter().enumerate() {
        if *c == '.' {
            return index;
        }
    }
    path.len()
}

/// The first characters.
fn front(text: &[char], len: usize) -> &[char]
    requires { len ≤ length text.now }
    ensures { result.now ≡ take len text.now }
{
    text.split_at(len).0
}

/// The characters from a place on.
fn back(text: &[char], from: usize) -> &[char]
    requires { from ≤ length text.now }
    ensures { result.now ≡ drop from text.now }
{
    text.split_at(from).1
}
