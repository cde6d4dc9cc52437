//! The order of texts.

ghost use Rattle.std.specs.Prelude.{◌≡◌};
ghost use Rattle.std.specs.Str.{chars};
ghost use Rattle.gv_chars.specs.Chars as spec;

use crate::steps::first_of;

/// -1, 0 or 1, as `a` comes before `b`, is the same or comes after it, by the scalar values of their characters in
/// order.
pub fn compared(a: &str, b: &str) -> i32
    ensures { result ≡ spec.compared (chars a.now) (chars b.now) }
{
    let mut left = a;
    let mut right = b;
    'turns: while let Some((c, after_c)) = first_of(left) {
        let Some((d, after_d)) = first_of(right) else {
            return 1;
        };
        if c < d {
            return -1;
        }
        if d < c {
            return 1;
        }
        left = after_c;
        right = after_d;
    }
    match first_of(right) {
        Some(_) => -1,
        None => 0,
    }
}
