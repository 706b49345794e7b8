// What the programs share: reading a text from standard input.
#![tactic(auto)]

ghost use Rattle.std.specs.Prelude.{◌≡◌, ◌≤◌, take, IfOk, IfSome, vec_len};

use std::alloc::Global;
use std::io;
use std::io::Read;

// The most bytes that are read: one more than the longest text, so that a longer one is seen to be too long.
const LIMIT: usize = 65537;

// The first bytes of the source, at most 65,537 of them.
pub fn read_text<R: Read>(source: &mut R, heap: Global) -> io::Result<Vec<u8>>
    ensures short { IfOk result (λ v. vec_len v ≤ 65537) }
    ensures first { IfOk result (λ v. IfSome (R.remaining source.old) (λ bytes. v.items ≡ take 65537 bytes)) }
{
    // Room for them all at once: a vector that grows holds the old bytes beside the new ones.
    let mut bytes = Vec::with_capacity(heap, LIMIT)?;
    source.take(LIMIT as u64).read_to_end(&mut bytes)?;
    // No more can have come, which only the contract of a source whose bytes are known says.
    bytes.truncate(LIMIT);
    Ok(bytes)
}
