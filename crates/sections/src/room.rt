ghost use Rattle.std.specs.Prelude.{◌≡◌, ◌+◌, ◌<◌, ◌≤◌, [], ◌∷◌, ◌++◌, true, not, length, nat_lt};

// Lent records, the first of which are in use.
#[derive(Drop)]
pub struct Room<'a, T> {
    pub records: &'a mut [T],
    pub used: usize,
    ghost inside: { used ≤ length records.now },
}

impl<'a, T: Copy> Room<'a, T> {
    ghost use Rattle.sections.specs.Held.{held, capacity, SameLoan};

    // None of the records is in use yet.
    pub fn new(records: &'a mut [T]) -> Self
        ensures empty { held result ≡ [] }
        ensures unused { result.used ≡ 0 }
        ensures capacity { capacity result ≡ length records.old }
        ensures lender { result.records.ghost_name ≡ records.entry.ghost_name }
    {
        Room { records, used: 0 }
    }

    // The records in use.
    pub fn held(&self) -> &[T]
        ensures { result.now ≡ held self.now }
    {
        &self.records[..self.used]
    }

    // Whether every record is in use.
    pub fn is_full(&self) -> bool
        ensures { nat_lt (length (held self.now)) (capacity self.now) ≡ not result }
    {
        self.used == self.records.len()
    }

    // Puts a record after those in use.
    pub fn push(&mut self, item: T)
        requires { nat_lt (length (held self.old)) (capacity self.old) ≡ true }
        ensures held { held self.new ≡ held self.old ++ item ∷ [] }
        ensures same { SameLoan self.old self.new }
        ensures used { self.new.used ≡ self.old.used + 1 }
    {
        self.records[self.used] = item;
        self.used += 1;
    }
}
