// The end of a line.
ghost use Rattle.std.specs.Prelude.{◌≡◌, ◌==◌, position};

// The place of the first LF, if there is one.
pub fn line_end(s: &[u8]) -> Option<usize>
    ensures { result ≡ position (λ b. b == 10) s.now }
{
    s.iter().position(|b| *b == b'\n')
}
