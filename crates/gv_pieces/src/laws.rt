//! What the pieces of a script come to.

ghost use Rattle.std.specs.Prelude.{◌≡◌, ℕ, List, Some};
ghost use Rattle.gv_tree.specs.declared.top.Script.{Script};
ghost use Rattle.gv_spelling.specs.Table as table;
ghost use Rattle.gv_spelling.specs.declared.kinds.Keyword.{Keyword};
ghost use Rattle.gv_spelling.specs.declared.kinds.Lexeme.TheVariants as lexeme;
ghost use Rattle.gv_spelling.specs.declared.kinds.Symbol.{Symbol};
ghost use Rattle.gv_print.specs.Printed.{printed};
ghost use Rattle.gv_pieces.specs.Pieced.{pieces_of};
ghost use Rattle.gv_pieces.specs.Pieces.{keyword_text, symbol_text, texts_of};

/// The text of a script is that of its pieces, by every table of names.
pub fn printed_as_pieces()
    ensures { (names : List (List ℕ)) (script : Script) → printed names script ≡ texts_of names (pieces_of script) }
{}

/// The text of each symbol and keyword is a row of the table of spellings.
pub fn symbols_spelled()
    ensures symbols { (s : Symbol) → table.lookup table.symbols (symbol_text s) ≡ Some (lexeme.Symbol s) }
    ensures keywords { (k : Keyword) → table.word_of (keyword_text k) ≡ lexeme.Keyword k }
{}
