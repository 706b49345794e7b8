ghost use Rattle.std.specs.Prelude.{◌≡◌, ℕ, ◌+◌, ◌<◌, ◌≤◌, length, IfSome};
ghost use Rattle.tables.specs.Lines.{cut_at, cut_line, parts, nth_line};

// What stands before and after the first byte that is `separator`.
pub fn cut_at(bytes: &[u8], separator: u8) -> Option<(&[u8], &[u8])>
    ensures halves { cut_at separator bytes.now ≡ parts result }
    ensures lengths { IfSome result (λ p. length p.0.now + 1 + length p.1.now ≡ length bytes.now) }
{
    let at = bytes.iter().position(|byte| *byte == separator)?;
    Some((&bytes[..at], &bytes[at + 1..]))
}

// The first line without its end, and what follows it. Whatever reads lines cuts them off here.
pub fn cut_line(text: &[u8]) -> Option<(&[u8], &[u8])>
    ensures halves { cut_line text.now ≡ parts result }
    ensures lengths { IfSome result (λ p. length p.0.now + length p.1.now < length text.now) }
{
    cut_at(text, b'\n')
}

// The line of that number, counted from 0, without its end; empty where there are fewer lines. It counts by `cut_line`,
// so that one place says where a line ends.
pub fn nth_line(lines: &[u8], index: usize) -> &[u8]
    ensures { result.now ≡ nth_line index lines.now }
{
    let mut rest = lines;
    for _i in 0..index {
        let Some((_, after)) = cut_line(rest) else {
            return &[];
        };
        rest = after;
    }
    let Some((line, _)) = cut_line(rest) else {
        return rest;
    };
    line
}
