//! Laws of the grammar: each is a function without a body, whose contract is the law.

ghost use Rattle.std.specs.Prelude.{◌≡◌, ◌<◌, ℕ, Bool, true, List, ◌∷◌, length};
ghost use Rattle.gv_spelling.specs.declared.kinds.Symbol.TheVariants as symbol;
ghost use Rattle.gv_lex.specs.declared.token.Token.{Token};
ghost use Rattle.gv_tree.specs.declared.expr.Arg.{Arg};
ghost use Rattle.gv_tree.specs.declared.expr.Closure.{Closure};
ghost use Rattle.gv_tree.specs.declared.expr.Entry.{Entry};
ghost use Rattle.gv_tree.specs.declared.expr.Expr.{Expr};
ghost use Rattle.gv_tree.specs.declared.expr.GString.{GString};
ghost use Rattle.gv_tree.specs.declared.expr.Item.{Item};
ghost use Rattle.gv_tree.specs.declared.expr.Param.{Param};
ghost use Rattle.gv_tree.specs.declared.stmt.Decl.{Decl};
ghost use Rattle.gv_tree.specs.declared.stmt.Stmt.{Stmt};
ghost use Rattle.gv_grammar.specs.Tokens.{begins_expr, kind_of, reach};
ghost use Rattle.gv_grammar.specs.Phrases.{Takes};
ghost use Rattle.gv_grammar.specs.Meeting.{Meet, Level, CondGoes, Same};
ghost use Rattle.gv_grammar.specs.Closures.{unread_places, Within};
ghost use Rattle.gv_grammar.specs.Commands.{IsFull};
ghost use Rattle.gv_grammar.specs.Stmts.{Reads, IsBodyOf, AreParams, IsValue, IsFullValue, IsDecl, IsStmt, IsBody, IsBlock, AreStmts};
ghost use Rattle.gv_grammar.specs.Scripts.{IsScript, IsTop, IsClass, IsMethod, AreMembers};
ghost use Rattle.gv_tree.specs.declared.top.ClassTree.{ClassTree};
ghost use Rattle.gv_tree.specs.declared.top.Member.{Member};
ghost use Rattle.gv_tree.specs.declared.top.Method.{Method};
ghost use Rattle.gv_tree.specs.declared.top.Script.{Script};
ghost use Rattle.gv_tree.specs.declared.top.Top.{Top};
ghost use Rattle.gv_tree.specs.declared.expr.Key.{Key};
ghost use Rattle.gv_grammar.specs.Exprs.{IsExpr, IsCond, IsBin, IsUnary, IsPath, IsPrimary, IsGString, IsKey, AreClosures, AreIndexes, AreArguments, AreElements, AreEntries};
ghost use Rattle.gv_grammar.specs.Examples.{the_end, sum_tokens, sum_tree, call_tokens, call_tree, map_tokens, map_tree, assignment_tokens, assignment_tree, string_tokens, string_tree};

/// The same tokens have one tree at most.
pub fn one_expr()
    ensures exprs { (all : ℕ) (x y : Expr) (ts rest : List Token) → IsExpr all x ts rest → IsExpr all y ts rest → x ≡ y }
    ensures conditions { (all : ℕ) (x y : Expr) (ts rest : List Token) → IsCond all x ts rest → IsCond all y ts rest → x ≡ y }
    ensures binaries { (all n : ℕ) (x y : Expr) (ts rest : List Token) → IsBin all n x ts rest → IsBin all n y ts rest → x ≡ y }
    ensures units { (all : ℕ) (x y : Expr) (ts rest : List Token) → IsUnary all x ts rest → IsUnary all y ts rest → x ≡ y }
    ensures paths { (all : ℕ) (x y : Expr) (ts rest : List Token) → IsPath all x ts rest → IsPath all y ts rest → x ≡ y }
{}

/// Two readings of the same tokens are one, or one of them ends before a token with which the other
/// goes on. That is a suffix behind a path or a unit, an operator of one of the first n levels behind
/// those, a `?` or a `?:` behind all operators, and then an assignment.
pub fn readings_meet()
    ensures exprs { (all : ℕ) (x y : Expr) (ts us vs : List Token) → IsExpr all x ts us → IsExpr all y ts vs → Meet (Level 12) x us y vs }
    ensures conditions { (all : ℕ) (x y : Expr) (ts us vs : List Token) → IsCond all x ts us → IsCond all y ts vs → Meet CondGoes x us y vs }
    ensures binaries { (all n : ℕ) (x y : Expr) (ts us vs : List Token) → IsBin all n x ts us → IsBin all n y ts vs → Meet (Level n) x us y vs }
    ensures units { (all : ℕ) (x y : Expr) (ts us vs : List Token) → IsUnary all x ts us → IsUnary all y ts vs → Meet (Level 0) x us y vs }
    ensures paths { (all : ℕ) (x y : Expr) (ts us vs : List Token) → IsPath all x ts us → IsPath all y ts vs → Meet (Level 0) x us y vs }
{}

/// Two readings of the same tokens as full expressions are one, or one of them ends before a token with
/// which an expression goes on.
pub fn one_full()
    ensures { (all : ℕ) (x y : Expr) (ts us vs : List Token) → IsFull all x ts us → IsFull all y ts vs → Meet (Level 12) x us y vs }
{}

/// What ends with a token of its own has one reading at most, whatever follows it; so have the closures
/// that follow one another.
pub fn one_reading()
    ensures primaries { (all : ℕ) (x y : Expr) (ts us vs : List Token) → IsPrimary all x ts us → IsPrimary all y ts vs → Same x us y vs }
    ensures strings { (all : ℕ) (x y : GString) (ts us vs : List Token) → IsGString all x ts us → IsGString all y ts vs → Same x us y vs }
    ensures keys { (all : ℕ) (x y : Key) (ts us vs : List Token) → IsKey all x ts us → IsKey all y ts vs → Same x us y vs }
    ensures closures { (all : ℕ) (x y : List Expr) (ts us vs : List Token) → AreClosures all x ts us → AreClosures all y ts vs → Same x us y vs }
    ensures indexes { (all : ℕ) (x y : List Expr) (ts us vs : List Token) → AreIndexes all x ts us → AreIndexes all y ts vs → Same x us y vs }
    ensures arguments { (all : ℕ) (x y : List Arg) (ts us vs : List Token) → AreArguments all x ts us → AreArguments all y ts vs → Same x us y vs }
    ensures elements { (all : ℕ) (x y : List Item) (ts us vs : List Token) → AreElements all x ts us → AreElements all y ts vs → Same x us y vs }
    ensures entries { (all : ℕ) (x y : List Entry) (ts us vs : List Token) → AreEntries all x ts us → AreEntries all y ts vs → Same x us y vs }
{}

/// A reading takes one token at least, from the front, and gives back all that is behind.
pub fn takes_tokens()
    ensures exprs { (all : ℕ) (x : Expr) (ts rest : List Token) → IsExpr all x ts rest → Takes 1 ts rest }
    ensures conditions { (all : ℕ) (x : Expr) (ts rest : List Token) → IsCond all x ts rest → Takes 1 ts rest }
    ensures units { (all : ℕ) (x : Expr) (ts rest : List Token) → IsUnary all x ts rest → Takes 1 ts rest }
    ensures paths { (all : ℕ) (x : Expr) (ts rest : List Token) → IsPath all x ts rest → Takes 1 ts rest }
    ensures primaries { (all : ℕ) (x : Expr) (ts rest : List Token) → IsPrimary all x ts rest → Takes 1 ts rest }
{}

/// An unread closure of an expression lies in the list of all tokens and ends no earlier than it begins,
/// and there are fewer tokens from it on than from the expression on.
pub fn closures_within()
    ensures exprs { (all : ℕ) (x : Expr) (ts rest : List Token) → IsExpr all x ts rest → Within all (length ts) (unread_places x) }
    ensures fulls { (all : ℕ) (x : Expr) (ts rest : List Token) → IsFull all x ts rest → Within all (length ts) (unread_places x) }
{}

/// An expression begins with one of the tokens of `begins_expr`, and each of these begins one.
pub fn begins()
    ensures only { (all : ℕ) (x : Expr) (t : Token) (ts rest : List Token) → IsExpr all x (t ∷ ts) rest → begins_expr t.kind ≡ true }
    ensures each { (all : ℕ) (t : Token) → begins_expr t.kind ≡ true → (x : Expr) × (ts : List Token) × (rest : List Token) × IsExpr all x (t ∷ ts) rest }
{}

/// Two readings of the same tokens, each of which ends before a token with which no expression goes
/// on, are one.
pub fn one_stmt()
    ensures stmts { (tokens : List Token) (x y : Stmt) (ts us vs : List Token) → IsStmt tokens x ts us → IsStmt tokens y ts vs → 12 < reach (kind_of us) → 12 < reach (kind_of vs) → Same x us y vs }
    ensures bodies { (tokens : List Token) (x y : Stmt) (ts us vs : List Token) → IsBody tokens x ts us → IsBody tokens y ts vs → 12 < reach (kind_of us) → 12 < reach (kind_of vs) → Same x us y vs }
    ensures decls { (tokens : List Token) (x y : Decl) (ts us vs : List Token) → IsDecl tokens x ts us → IsDecl tokens y ts vs → 12 < reach (kind_of us) → 12 < reach (kind_of vs) → Same x us y vs }
    ensures values { (tokens : List Token) (x y : Expr) (ts us vs : List Token) → IsValue tokens x ts us → IsValue tokens y ts vs → 12 < reach (kind_of us) → 12 < reach (kind_of vs) → Same x us y vs }
    ensures fulls { (tokens : List Token) (x y : Expr) (ts us vs : List Token) → IsFullValue tokens x ts us → IsFullValue tokens y ts vs → 12 < reach (kind_of us) → 12 < reach (kind_of vs) → Same x us y vs }
{}

/// What ends with a token of its own, or before one, has one reading at most, whatever follows it.
pub fn one_stmts()
    ensures stmts { (tokens : List Token) (x y : List Stmt) (ts us vs : List Token) → AreStmts tokens x ts us → AreStmts tokens y ts vs → Same x us y vs }
    ensures blocks { (tokens : List Token) (x y : List Stmt) (ts us vs : List Token) → IsBlock tokens x ts us → IsBlock tokens y ts vs → Same x us y vs }
    ensures closures { (tokens : List Token) (x y : Closure) (ts us vs : List Token) → IsBodyOf tokens x ts us → IsBodyOf tokens y ts vs → Same x us y vs }
    ensures params { (tokens : List Token) (x y : List Param) (ts us vs : List Token) → AreParams tokens symbol.RightParen x ts us → AreParams tokens symbol.RightParen y ts vs → Same x us y vs }
    ensures arrows { (tokens : List Token) (x y : List Param) (ts us vs : List Token) → AreParams tokens symbol.Arrow x ts us → AreParams tokens symbol.Arrow y ts vs → Same x us y vs }
    ensures readings { (tokens : List Token) (x y z : Expr) → Reads tokens x y → Reads tokens x z → y ≡ z }
{}

/// A list of tokens is the script of one tree at most, and likewise each part of it.
pub fn one_script()
    ensures scripts { (x y : Script) (ts : List Token) → IsScript x ts → IsScript y ts → x ≡ y }
    ensures tops { (tokens : List Token) (x y : Top) (ts us vs : List Token) → IsTop tokens x ts us → IsTop tokens y ts vs → 12 < reach (kind_of us) → 12 < reach (kind_of vs) → Same x us y vs }
    ensures classes { (tokens : List Token) (x y : ClassTree) (ts us vs : List Token) → IsClass tokens x ts us → IsClass tokens y ts vs → Same x us y vs }
    ensures methods { (tokens : List Token) (x y : Method) (ts us vs : List Token) → IsMethod tokens x ts us → IsMethod tokens y ts vs → Same x us y vs }
    ensures members { (tokens : List Token) (class : ℕ) (x y : List Member) (ts us vs : List Token) → AreMembers tokens class x ts us → AreMembers tokens class y ts vs → Same x us y vs }
{}

/// `a + b * c`, `f(x: 1, *y) { }`, `[a: 1, (b): 2, *:c]`, `x = a ? b as int : new T()[0]++` and
/// `"x${-> y}$a.b"` are read as the trees that are written out for them.
pub fn examples()
    ensures sum { IsExpr 6 sum_tree sum_tokens (the_end 10) }
    ensures call { IsExpr 12 call_tree call_tokens (the_end 16) }
    ensures map { IsExpr 15 map_tree map_tokens (the_end 20) }
    ensures assignment { IsExpr 17 assignment_tree assignment_tokens (the_end 32) }
    ensures string { IsExpr 11 string_tree string_tokens (the_end 15) }
{}
