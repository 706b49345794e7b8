// The worked example: a sofa to carry from the hall to the loft, by way of the den through a door, or by a hoist.
use tables::records::{Counts, Entry, Operator, Span, Variable};
use task::task::Task;

// The names: each variable's name and its values' lines, then the operators' names.
pub const TEXT: &[u8] =
    b"sofa\nhall\nden\nloft\ndoor\nshut\nopen\nopen\ncarry hall den\ncarry den loft\nhoist\n";

pub const VARIABLES: [Variable; 2] = [
    Variable {
        name: Span { from: 0, to: 4 },
        values: Span { from: 5, to: 19 },
        domain: 3,
        initial: 0,
    },
    Variable {
        name: Span { from: 19, to: 23 },
        values: Span { from: 24, to: 34 },
        domain: 2,
        initial: 0,
    },
];

// The goal fact, then each operator's conditions and effects.
pub const ENTRIES: [Entry; 6] = [
    Entry {
        variable: 0,
        required: Some(2),
        value: 2,
    },
    Entry {
        variable: 1,
        required: Some(0),
        value: 1,
    },
    Entry {
        variable: 1,
        required: Some(1),
        value: 1,
    },
    Entry {
        variable: 0,
        required: Some(0),
        value: 1,
    },
    Entry {
        variable: 0,
        required: Some(1),
        value: 2,
    },
    Entry {
        variable: 0,
        required: Some(0),
        value: 2,
    },
];

pub const OPERATORS: [Operator; 4] = [
    Operator {
        name: Span { from: 34, to: 38 },
        price: 1,
        first: 1,
        conditions: 0,
        effects: 1,
    },
    Operator {
        name: Span { from: 39, to: 53 },
        price: 3,
        first: 2,
        conditions: 1,
        effects: 1,
    },
    Operator {
        name: Span { from: 54, to: 68 },
        price: 2,
        first: 4,
        conditions: 0,
        effects: 1,
    },
    Operator {
        name: Span { from: 69, to: 74 },
        price: 7,
        first: 5,
        conditions: 0,
        effects: 1,
    },
];

// How many of the records the task uses.
pub const COUNTS: Counts = Counts {
    variables: 2,
    goals: 1,
    operators: 4,
    entries: 6,
};

// The task of these records.
pub fn task() -> Task<'static> {
    Task::new(TEXT, &VARIABLES, &OPERATORS, &ENTRIES, COUNTS).unwrap_or(Task::built_in())
}
