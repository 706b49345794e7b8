// Writing the plan of a find.
ghost use Rattle.std.specs.Prelude.{◌≡◌};
ghost use Rattle.plain.specs.Plain.{Writes, Answer};
ghost use Rattle.memory.specs.Plans.{plan_text};
ghost use Rattle.search.specs.Search.{plain_of, find_of};
ghost use Rattle.search.specs.Plans.{Written};

use crate::answer::Find;
use crate::inner::Status;
use crate::search::Search;
use tables::cause::Cause;
use text::{Tail, digit_count};

impl<'a> Search<'a> {
    // Writes the plan of a find into the buffer, and answers how many bytes it has.
    pub fn write(&self, find: Find, buffer: &mut [u8]) -> Result<usize, Cause>
        ensures { (a : Answer) × Writes (plan_text self.now.task) (find_of find) buffer.old (plain_of self.now.core) a × Written result buffer.new a }
    {
        if self.core.status != Status::Found(find) {
            return Err(Cause::Other);
        }
        let node = find.node as usize;
        let lines = self.core.memory.lines_len(&self.task, node);
        let text = lines + digit_count(find.cost) as u128 + 25;
        if (buffer.len() as u128) < text {
            return Err(Cause::Short);
        }
        let len = text as usize;
        let mut tail = Tail { buffer, at: len };
        tail.cost(find.cost);
        self.core.memory.lines_back(&self.task, node, &mut tail);
        Ok(len)
    }
}
