// References: every link and every type reference is to a row of a fitting kind, and flags are 0 or 1.
ghost use Rattle.std.specs.Prelude.{◌≡◌, ◌||◌, ◌<◌};
ghost use Rattle.rules.specs.Rows.{owns};
ghost use Rattle.rules.specs.Sound.{to_struct, to_type, references_fit, member_linked, union_linked, data_linked, command_linked};
ghost use Rattle.rows.specs.Rows.{Near};

use builtins::FIRST_ROW;
use rows::rows::{is_unnamed, owns_struct, word};
use rules::{kind, row};

// A link to a struct that has a name.
pub fn to_struct(rows: &[u32], link: usize) -> bool
    requires { Near link }
    ensures { result ≡ to_struct rows.now link }
{
    if link == 0 {
        return false;
    }
    if word(rows, link - 1, row::KIND) != kind::STRUCT {
        return false;
    }
    !is_unnamed(rows, link - 1)
}

// A link of row r to its own inline struct or to a struct that has a name.
fn to_own_or_struct(rows: &[u32], r: usize, link: usize) -> bool
    requires { Near r × Near link }
    ensures { result ≡ owns rows.now r || to_struct rows.now link }
{
    owns_struct(rows, r) || to_struct(rows, link)
}

// A reference to a built-in or to a type that has a name.
pub fn to_type(rows: &[u32], t: usize) -> bool
    requires { Near t }
    ensures { result ≡ to_type rows.now t }
{
    if t < FIRST_ROW {
        return t != 0;
    }
    let k = word(rows, t - FIRST_ROW, row::KIND);
    match k {
        kind::ENUM => true,
        kind::STRUCT => !is_unnamed(rows, t - FIRST_ROW),
        kind::UNION => true,
        kind::ALTERNATE => true,
        _ => false,
    }
}

fn member_fits(rows: &[u32], r: usize) -> bool
    ensures { result ≡ member_linked rows.now r }
{
    if !to_type(rows, word(rows, r, row::TYPE_REF) as usize) {
        return false;
    }
    if 1 < word(rows, r, row::ARRAY_MARK) {
        return false;
    }
    word(rows, r, row::OPTIONAL) <= 1
}

fn union_fits(rows: &[u32], r: usize) -> bool
    requires { Near r }
    ensures { result ≡ union_linked rows.now r }
{
    if !to_own_or_struct(rows, r, word(rows, r, row::UNION_BASE) as usize) {
        return false;
    }
    let d = word(rows, r, row::DISCRIMINATOR) as usize;
    if d == 0 {
        return false;
    }
    word(rows, d - 1, row::KIND) == kind::MEMBER
}

// The argument link of command r.
fn arguments_fit(rows: &[u32], r: usize) -> bool
    requires { Near r }
    ensures { result ≡ data_linked rows.now r }
{
    let link = word(rows, r, row::DATA_STRUCT) as usize;
    if link == 0 {
        return true;
    }
    to_own_or_struct(rows, r, link)
}

fn command_fits(rows: &[u32], r: usize) -> bool
    requires { Near r }
    ensures { result ≡ command_linked rows.now r }
{
    if !arguments_fit(rows, r) {
        return false;
    }
    if 1 < word(rows, r, row::ALLOW_OOB) {
        return false;
    }
    let t = word(rows, r, row::RETURNS) as usize;
    let array = word(rows, r, row::RETURNS_ARRAY);
    if t == 0 {
        return array == 0;
    }
    if 1 < array {
        return false;
    }
    to_type(rows, t)
}

// Whether every reference of row r fits.
pub fn references_fit(rows: &[u32], r: usize) -> bool
    requires { Near r }
    ensures { result ≡ references_fit rows.now r }
{
    let k = word(rows, r, row::KIND);
    match k {
        kind::STRUCT => {
            let link = word(rows, r, row::BASE) as usize;
            if link == 0 {
                return true;
            }
            to_struct(rows, link)
        }
        kind::MEMBER => member_fits(rows, r),
        kind::UNION => union_fits(rows, r),
        kind::BRANCH => to_struct(rows, word(rows, r, row::BRANCH_STRUCT) as usize),
        kind::ALTERNATIVE => to_type(rows, word(rows, r, row::TYPE_REF) as usize),
        kind::COMMAND => command_fits(rows, r),
        _ => true,
    }
}
