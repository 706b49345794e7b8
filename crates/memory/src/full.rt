// No room is left for a new state, the one that this operator leads to.
#[derive(Clone, Copy, Debug)]
pub struct Full {
    pub operator: u16,
}
