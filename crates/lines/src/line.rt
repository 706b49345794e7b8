ghost use Rattle.std.specs.Prelude.{◌≡◌};
ghost use Rattle.lines.specs.Printable.{printable};

// Whether each byte of a line is printable.
pub fn is_printable(line: &[u8]) -> bool
    ensures { printable line.now ≡ result }
{
    line.iter().all(|b| 32 <= *b && *b <= 126)
}
