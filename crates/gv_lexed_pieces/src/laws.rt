//! What each kind of piece is read as.

ghost use Rattle.std.specs.Prelude.{◌≡◌, ◌∷◌, ℕ, Bool, true, false, List, codes};
ghost use Rattle.std.specs.List.{list_all};
ghost use Rattle.gv_spelling.specs.Table.{Text, is_in, judge, word_of};
ghost use Rattle.gv_spelling.specs.declared.classes.Class.TheVariants as class;
ghost use Rattle.gv_spelling.specs.declared.kinds.Lexeme.TheVariants as lexeme;
ghost use Rattle.gv_spelling.specs.declared.kinds.Symbol.{Symbol};
ghost use Rattle.gv_print.specs.declared.strings.Quotes.{Quotes};
ghost use Rattle.gv_pieces.specs.Pieces.{quote_text, symbol_text};
ghost use Rattle.gv_lexed_pieces.specs.Read.{IsRead, no_longer_row, none_first, quote_of, is_number, is_word, number_ends, symbol_ends, word_ends};

/// Blanks, where none follows.
pub fn blanks_read()
    ensures { (operand : Bool) (more rest : Text) → list_all (is_in class.Blank) more ≡ true → none_first class.Blank rest ≡ true → IsRead operand (32 ∷ more) rest lexeme.Space }
{}

/// The end of a line, whatever follows.
pub fn line_ends_read()
    ensures { (operand : Bool) (rest : Text) → IsRead operand (codes "\n") rest lexeme.LineEnd }
{}

/// A symbol, where what follows makes no longer one of it.
pub fn symbols_read()
    ensures { (operand : Bool) (s : Symbol) (rest : Text) → symbol_ends operand s rest ≡ true → IsRead operand (symbol_text s) rest (lexeme.Symbol s) }
{}

/// The quote at which a string starts, where no two more of its kind follow.
pub fn quotes_read()
    ensures { (operand : Bool) (q : Quotes) (rest : Text) → no_longer_row (quote_text q) rest ≡ true → IsRead operand (quote_text q) rest (lexeme.Open (quote_of q)) }
{}

/// A word, which is a keyword, a refused word or a name.
pub fn words_read()
    ensures { (operand : Bool) (text rest : Text) → is_word text ≡ true → word_ends rest ≡ true → IsRead operand text rest (word_of text) }
{}

/// A number of digits, with or without a suffix, and one behind its sign, where no operand ends before that.
pub fn numbers_read()
    ensures plain { (operand : Bool) (text rest : Text) → is_number text ≡ true → number_ends rest ≡ true → IsRead operand text rest (judge false text) }
    ensures signed { (text rest : Text) → is_number text ≡ true → number_ends rest ≡ true → IsRead false (45 ∷ text) rest (judge true text) }
{}
