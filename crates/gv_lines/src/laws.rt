//! What `kept` leaves.

ghost use Rattle.std.specs.Prelude.{◌≡◌, List};
ghost use Rattle.gv_lex.specs.declared.token.Token.{Token};
ghost use Rattle.gv_lines.specs.Laws.{IsThinned};
ghost use Rattle.gv_lines.specs.Lines.{kept};

/// Nothing but line ends goes, and what stays keeps its order.
pub fn only_line_ends_go()
    ensures { (tokens : List Token) → IsThinned (kept tokens) tokens }
{}

/// Of what was kept everything is kept.
pub fn kept_again()
    ensures { (tokens : List Token) → kept (kept tokens) ≡ kept tokens }
{}
