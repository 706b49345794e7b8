// A held state's record: its path cost, and the node and the operator that it came from at this cost.
#[derive(Clone, Copy, Default)]
pub struct Node {
    pub g: u32,
    pub parent: u32,
    pub operator: u16,
}
