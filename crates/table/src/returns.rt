// What commands return: rule 11.
ghost use Rattle.std.specs.Prelude.{◌≡◌};
ghost use Rattle.rules.specs.Rules.{return_fits};

use builtins::FIRST_ROW;
use rows::rows::word;
use rules::{kind, row};

// Whether a command may return type t: nothing, a struct or a union.
pub fn return_fits(rows: &[u32], t: usize) -> bool
    ensures { result ≡ return_fits rows.now t }
{
    if t == 0 {
        return true;
    }
    if t < FIRST_ROW {
        return false;
    }
    matches!(
        word(rows, t - FIRST_ROW, row::KIND),
        kind::STRUCT | kind::UNION
    )
}
