ghost use Rattle.std.specs.Prelude.{◌≡◌, ◌≤◌, length};
ghost use Rattle.tables.specs.Records.{spanned, conditions_of, effects_of, entries_of, end_at};
ghost use Rattle.tables.specs.Rules.{SpanFits};
ghost use Rattle.tables.specs.Tells.{Tells};

// A part of the task text: the bytes from `from` up to, and without, `to`.
#[derive(Clone, Copy, PartialEq, Eq, Debug)]
pub struct Span {
    pub from: usize,
    pub to: usize,
}

impl Span {
    pub const ZERO: Span = Span { from: 0, to: 0 };

    // Whether the span lies inside a text of that many bytes.
    pub fn fits(self, bytes: usize) -> bool
        ensures { Tells result (SpanFits bytes self) }
    {
        self.from <= self.to && self.to <= bytes
    }

    // The span's part of the text.
    pub fn of(self, text: &[u8]) -> &[u8]
        requires { SpanFits (length text.now) self }
        ensures { result.now ≡ spanned text.now self }
    {
        &text[self.from..self.to]
    }
}

// A variable: its name, the lines that hold its values' names, how many values it has, and its value in the initial state.
#[derive(Clone, Copy, PartialEq, Eq, Debug)]
pub struct Variable {
    pub name: Span,
    pub values: Span,
    pub domain: u8,
    pub initial: u8,
}

impl Variable {
    pub const ZERO: Variable = Variable {
        name: Span::ZERO,
        values: Span::ZERO,
        domain: 0,
        initial: 0,
    };
}

// A goal fact, a condition or an effect. As a fact it says that the variable has the value. As an effect it gives the
// variable the value, and applies only where the variable has the required one, if any.
#[derive(Clone, Copy, PartialEq, Eq, Debug)]
pub struct Entry {
    pub variable: u8,
    pub required: Option<u8>,
    pub value: u8,
}

impl Entry {
    pub const ZERO: Entry = Entry {
        variable: 0,
        required: None,
        value: 0,
    };
}

// An operator: its name, its price, and where its entries stand: from `first` on first its prevail conditions, then its effects.
#[derive(Clone, Copy, PartialEq, Eq, Debug)]
pub struct Operator {
    pub name: Span,
    pub price: u32,
    pub first: usize,
    pub conditions: usize,
    pub effects: usize,
}

impl Operator {
    pub const ZERO: Operator = Operator {
        name: Span::ZERO,
        price: 0,
        first: 0,
        conditions: 0,
        effects: 0,
    };

    // The operator's conditions, among all entries.
    pub fn conditions_in(self, entries: &[Entry]) -> &[Entry]
        requires { end_at self ≤ length entries.now }
        ensures { result.now ≡ conditions_of entries.now self }
    {
        &entries[self.first..self.first + self.conditions]
    }

    // The operator's effects, among all entries.
    pub fn effects_in(self, entries: &[Entry]) -> &[Entry]
        requires { end_at self ≤ length entries.now }
        ensures { result.now ≡ effects_of entries.now self }
    {
        let from = self.first + self.conditions;
        &entries[from..from + self.effects]
    }

    // The operator's conditions and effects together, among all entries.
    pub fn entries_in(self, entries: &[Entry]) -> &[Entry]
        requires { end_at self ≤ length entries.now }
        ensures { result.now ≡ entries_of entries.now self }
    {
        &entries[self.first..self.first + self.conditions + self.effects]
    }
}

// How many records of each sort a task uses, counted from the first; the goal facts are the first entries.
#[derive(Clone, Copy, PartialEq, Eq, Debug)]
pub struct Counts {
    pub variables: usize,
    pub goals: usize,
    pub operators: usize,
    pub entries: usize,
}
