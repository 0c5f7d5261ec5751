// The JSON kinds, in the order of the grid's columns in `rules` specs/Types.
ghost use Rattle.std.specs.Prelude.{◌≡◌};
ghost use Rattle.rules.specs.Types.{column};
ghost use Rattle.builtins.specs.Kinds.{kind_in};

#[derive(Clone, Copy, PartialEq, Eq)]
pub enum JsonKind {
    Object,
    Array,
    String,
    Number,
    Boolean,
    Null,
}

// How many there are.
pub const JSON_KINDS: usize = 6;

// The column of a kind.
pub fn column(kind: JsonKind) -> usize
    ensures { result ≡ column (kind_in kind) }
{
    kind as usize
}
