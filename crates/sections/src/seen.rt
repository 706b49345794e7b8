ghost use Rattle.std.specs.Prelude.{◌≡◌, ◌<◌, List, [], ◌∷◌, ◌++◌};
ghost use Rattle.sections.specs.Entries.{names};
ghost use Rattle.sections.specs.Marks.{Marked};

use tables::records::Entry;

// The variables that a goal or an operator has named so far.
#[derive(Clone, Copy)]
pub struct Seen {
    pub marks: [bool; 32],
}

impl Seen {
    // No variable yet.
    pub fn none() -> Seen
        ensures { Marked result [] }
    {
        Seen { marks: [false; 32] }
    }

    // Whether the variable was named.
    pub fn contains(&self, variable: u8) -> bool
        requires { variable < 32 }
        ensures { (group : List Entry) → Marked self.now group → names variable group ≡ result }
    {
        self.marks[variable as usize]
    }

    // The variable of one entry more.
    pub fn add(&mut self, entry: Entry)
        requires { entry.variable < 32 }
        ensures { (group : List Entry) → Marked self.old group → Marked self.new (group ++ entry ∷ []) }
    {
        self.marks[entry.variable as usize] = true;
    }
}
