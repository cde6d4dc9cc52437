//! An expression at a place of a list.

ghost use Rattle.std.specs.Prelude.{◌<◌, length};
ghost use Rattle.gv_exprs.specs.Parsed.{ParsesExpr};

use crate::top::read_expr;
use gv_base::{OutOfMemory, Refusal, RefusalKind};
use gv_cursor::{ReadError, Tokens, refusal_at};
use gv_lex::Token;
use gv_lines::too_deep;
use gv_tree::Expr;
use std::alloc::Global;
use thiserror::Error;

/// Why tokens have no tree.
#[derive(Clone, Copy, Debug, PartialEq, Eq, Error)]
pub enum ParseError {
    /// The token that is refused.
    #[error("refused")]
    Refused(Refusal),
    #[error("out of memory")]
    OutOfMemory,
}

impl From<OutOfMemory> for ParseError {
    ghost use Rattle.std.specs.Prelude.{◌≡◌};
    ghost use Rattle.gv_exprs.specs.declared.parse.ParseError.TheVariants.{OutOfMemory};

    ghost from_gives = { λ _ e. e ≡ OutOfMemory };

    fn from(_: OutOfMemory) -> ParseError {
        ParseError::OutOfMemory
    }
}

/// The longest expression from a place of a list, and the place behind it. Closures stay unread: a
/// pair of braces around tokens whose brackets match, with the places of these. Refused where no
/// expression begins; and where any token of the list stands too deep, as `too_deep` tells.
pub fn parse_expr(alloc: Global, tokens: &[Token], at: usize) -> Result<(Expr, usize), ParseError>
    requires { at < length tokens.now }
    ensures { ParsesExpr result tokens.now at }
{
    if let Some(place) = too_deep(alloc, tokens)? {
        return Err(ParseError::Refused(Refusal {
            kind: RefusalKind::NestedTooDeep,
            place,
        }));
    }
    let (_, rest) = tokens.split_at(at);
    let mut cursor = Tokens {
        rest,
        furthest: rest.len(),
    };
    match read_expr(alloc, tokens.len(), &mut cursor) {
        Ok(expr) => Ok((expr, tokens.len().saturating_sub(cursor.rest.len()))),
        Err(ReadError::OutOfMemory) => Err(ParseError::OutOfMemory),
        Err(ReadError::Refused) => Err(ParseError::Refused(refusal_at(tokens, cursor.furthest))),
    }
}
