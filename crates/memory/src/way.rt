// The way back from a node to node 0.
ghost use Rattle.std.specs.Iterator.{YieldsFirst, item_count};
ghost use Rattle.memory.specs.Ways.{way_of};

use crate::node::Node;

// Gives the operators on the way back, the last one first: at most `left` more.
#[derive(Drop)]
pub struct Way<'m> {
    pub nodes: &'m [Node],
    pub node: usize,
    pub left: usize,
}

impl<'m> Iterator for Way<'m> {
    type Item = u16;

    ghost next_gives = { YieldsFirst way_of };

    ghost remaining = { item_count way_of };

    fn next(&mut self) -> Option<u16> {
        if self.node == 0 {
            return None;
        }
        let record = self.nodes.get(self.node)?;
        self.left = self.left.checked_sub(1)?;
        self.node = record.parent as usize;
        Some(record.operator)
    }
}
