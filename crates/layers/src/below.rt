ghost use Rattle.std.specs.Prelude.{◌≡◌};
ghost use Rattle.layers.specs.Below as numbers;

// The number of a layer below a layer: of the first at place 0, of the second at place 1.
pub fn below(layer: u16, place: u16) -> u16
    ensures { result ≡ numbers.below layer place }
{
    layer.saturating_mul(2).saturating_add(place)
}
