//! The script of a file's tokens.

ghost use Rattle.gv_stmts.specs.Parsed.{Parses, ParsesKept, IsRefusalOf};

use crate::script::tops;
use gv_base::{Place, Refusal, RefusalKind};
use gv_cursor::{ReadError, Tokens, refusal_at};
use gv_exprs::ParseError;
use gv_lex::Token;
use gv_lines::{keep_lines, too_deep};
use gv_tree::Script;
use std::alloc::Global;

/// The script that the tokens of a file spell. A line end that doesn't count is left out first. Refused
/// exactly where there is none, or a token stands too deep.
pub fn parse(alloc: Global, tokens: &[Token]) -> Result<Script, ParseError>
    ensures { Parses result tokens.now }
{
    let kept = keep_lines(alloc, tokens)?;
    parse_kept(alloc, kept.as_slice())
}

/// The script of a list whose line ends all count.
fn parse_kept(alloc: Global, tokens: &[Token]) -> Result<Script, ParseError>
    ensures { ParsesKept result tokens.now }
{
    if let Some(place) = too_deep(alloc, tokens)? {
        return Err(ParseError::Refused(Refusal {
            kind: RefusalKind::NestedTooDeep,
            place,
        }));
    }
    let mut cursor = Tokens {
        rest: tokens,
        furthest: tokens.len(),
    };
    match tops(alloc, tokens, &mut cursor) {
        Ok(tops) => {
            if cursor.rest.is_empty() {
                Ok(Script { tops })
            } else {
                Err(ParseError::Refused(refused(tokens, cursor.furthest)))
            }
        }
        Err(ReadError::OutOfMemory) => Err(ParseError::OutOfMemory),
        Err(ReadError::Refused) => Err(ParseError::Refused(refused(tokens, cursor.furthest))),
    }
}

/// The refusal of a list, of which so many tokens were left where it was refused.
fn refused(tokens: &[Token], left: usize) -> Refusal
    ensures { IsRefusalOf tokens.now result }
{
    if tokens.is_empty() {
        return Refusal {
            kind: RefusalKind::UnexpectedToken,
            place: Place {
                file: 0,
                line: 0,
                column: 0,
            },
        };
    }
    refusal_at(tokens, left)
}
