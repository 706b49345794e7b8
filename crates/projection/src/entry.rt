ghost use Rattle.std.specs.Prelude.{◌≡◌};
ghost use Rattle.projection.specs.Distances.{distance};

// The distance that an entry of the table stands for.
pub(crate) fn distance(entry: u32) -> Option<u32>
    ensures { result ≡ distance entry }
{
    (entry != u32::MAX).then_some(entry)
}
