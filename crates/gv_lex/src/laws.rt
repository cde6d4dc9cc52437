//! What the definitions say together.

ghost use Rattle.std.specs.Prelude.{◌≡◌, ◌↔◌, ℕ, Bool, true, List, [], Some, Ok, Err, map, All};
ghost use Rattle.std.specs.Str.{chars, is_utf8};
ghost use Rattle.gv_base.specs.declared.refusal.Refusal.{Refusal};
ghost use Rattle.gv_spelling.specs.Longest.{IsLongest};
ghost use Rattle.gv_spelling.specs.Table as table;
ghost use Rattle.gv_spelling.specs.Table.{Text};
ghost use Rattle.gv_spelling.specs.declared.kinds.Lexeme.{Lexeme};
ghost use Rattle.gv_spelling.specs.declared.kinds.Quote.{Quote};
ghost use Rattle.gv_spelling.specs.declared.kinds.Unit.{Unit as StringUnit};
ghost use Rattle.gv_lex.specs.declared.token.Token.{Token};
ghost use Rattle.gv_lex.specs.Lexing.{longest, lexed, reading_of};
ghost use Rattle.gv_lex.specs.Laws.{IsEarliest, AreDistinct};
ghost use Rattle.gv_lex.specs.Tokens.{Spelled, told, IsNamed};

/// The longest spelling of a text is the one that `IsLongest` says, between strings and inside them.
pub fn longest_is()
    ensures between { (operand : Bool) (text : Text) (what : Lexeme) (len : ℕ) → (longest (table.between operand) text ≡ Some (what, len)) ↔ IsLongest (table.between operand) text what len }
    ensures inside { (quote : Quote) (text : Text) (what : StringUnit) (len : ℕ) → (longest (table.inside quote) text ≡ Some (what, len)) ↔ IsLongest (table.inside quote) text what len }
{}

/// The refusal of a file is one of those of its reading, and none of them stands before it.
pub fn earliest()
    ensures { (file : ℕ) (bytes : List ℕ) (r : Refusal) → is_utf8 bytes ≡ true → lexed file bytes ≡ Err r → IsEarliest r (reading_of file (chars bytes)).refusals }
{}

/// A file that has tokens has no refusal at all, and one without a refusal has the tokens of its reading.
pub fn not_both()
    ensures tokens { (file : ℕ) (bytes : List ℕ) (tokens : List Spelled) → lexed file bytes ≡ Ok tokens → (reading_of file (chars bytes)).refusals ≡ [] }
    ensures no_refusal { (file : ℕ) (bytes : List ℕ) → is_utf8 bytes ≡ true → (reading_of file (chars bytes)).refusals ≡ [] → lexed file bytes ≡ Ok (reading_of file (chars bytes)).tokens }
{}

/// By a table of distinct texts a file has one list of tokens at most.
pub fn one_list()
    ensures { (names : List (List ℕ)) (file : ℕ) (bytes : List ℕ) (ts us : List Token) → AreDistinct names → All (IsNamed names) ts → All (IsNamed names) us → lexed file bytes ≡ Ok (map (told names) ts) → lexed file bytes ≡ Ok (map (told names) us) → ts ≡ us }
{}
