// Blanks, and in a schema comments.
ghost use Rattle.std.specs.Prelude.{◌≡◌};
ghost use Rattle.grammar.specs.Serving.Machine.Schema.{schema};
ghost use Rattle.strings.specs.Strings.{grammar_of};
ghost use Rattle.tokens.specs.Tokens.{Skipped};
ghost use Rattle.tokens.specs.TokenParts.{CommentRuns};

use strings::dialects::Dialect;
use strings::sources::Source;

// The place past the comment that goes on at `from`: past its LF, or the end.
fn comment_end(s: &[u8], from: usize) -> usize
    ensures { CommentRuns schema s.now from result }
{
    for i in from..s.len() {
        if s[i] == b'\n' {
            return i + 1;
        }
    }
    from.max(s.len())
}

// Whether the byte opens a comment.
fn opens_comment(b: u8, dialect: Dialect) -> bool
    ensures { result ≡ (grammar_of dialect).lexis.comment b }
{
    match dialect {
        Dialect::Schema => b == b'#',
        Dialect::Message => false,
    }
}

// The first place from `from` on that is neither a blank nor inside a comment.
pub fn skip_blanks(source: Source, from: usize) -> usize
    ensures { Skipped (grammar_of source.entry.dialect) source.entry.bytes.now from result }
{
    let s = source.bytes;
    let mut i = from;
    while i < s.len() {
        if source.classes.is_blank(s[i]) {
            i += 1;
        } else {
            if !opens_comment(s[i], source.dialect) {
                return i;
            }
            i = comment_end(s, i + 1);
        }
    }
    i
}
