ghost use Rattle.std.specs.Prelude.{◌+◌, ◌≤◌, length};

// What is left of a text, how many bytes and lines were taken before it, and the operator whose lines are being read.
#[derive(Drop)]
pub struct Cursor<'a> {
    pub rest: &'a [u8],
    pub at: usize,
    pub line: u32,
    pub operator: Option<u16>,
    ghost bounded: { at + length rest.now ≤ 65536 },
    ghost counted: { line ≤ at },
}
