// Lines put together over reads: bytes that are carried, then those of the next chunk.
ghost use Rattle.std.specs.Prelude.{◌≡◌, ◌+◌, ◌<◌, length, drop, MatchOption};
ghost use Rattle.lines.specs.Lines.{before_lf};
ghost use Rattle.console.specs.Serving.Joining.{line_so_far};

use lines::ends::line_end;
use lines::page::Page;

// The line goes on in a chunk. What is left of the chunk after its LF; or the chunk is used up, and the line goes on.
pub fn join_line<'a, const N: usize>(line: &mut Page<N>, chunk: &'a [u8]) -> Option<&'a [u8]>
    ensures joined { line.new ≡ line_so_far N line.old chunk.now }
    ensures left { MatchOption result (before_lf chunk.now ≡ length chunk.now) (λ rest. (before_lf chunk.now < length chunk.now) × (rest.now ≡ drop (before_lf chunk.now + 1) chunk.now)) }
{
    match line_end(chunk) {
        Some(n) => {
            line.keep(&chunk[..n]);
            Some(&chunk[n + 1..])
        }
        None => {
            line.keep(chunk);
            None
        }
    }
}
