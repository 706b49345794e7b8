// What a place of a pattern has: how many values its variable has, the product of the numbers of values of the later places,
// and the variable's value in a goal state, if the goal gives it one.
#[derive(Clone, Copy)]
pub struct Place {
    pub domain: u8,
    pub weight: u32,
    pub goal: Option<u8>,
}

impl Place {
    // A place past the pattern.
    pub const UNUSED: Place = Place {
        domain: 0,
        weight: 0,
        goal: None,
    };
}
