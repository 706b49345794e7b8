use super::leaf::Leaf;
use estimator::blind::Blind;
use estimator::estimator::Estimator;
use layers::maximum::Maximum;
use layers::partition::Partition;
use std::process::Abort;
use tables::records::{Counts, Entry, Operator, Span, Variable};
use task::task::Task;

const NAMELESS: Span = Span { from: 0, to: 0 };

const VARIABLES: [Variable; 1] = [Variable {
    name: NAMELESS,
    values: NAMELESS,
    domain: 2,
    initial: 0,
}];

const GOAL: Entry = Entry {
    variable: 0,
    required: None,
    value: 1,
};

const ENTRIES: [Entry; 2] = [
    GOAL,
    Entry {
        required: Some(0),
        ..GOAL
    },
];

const CHEAP: Operator = Operator {
    name: NAMELESS,
    price: 3,
    first: 1,
    conditions: 0,
    effects: 1,
};

const OPERATORS: [Operator; 2] = [CHEAP, Operator { price: 7, ..CHEAP }];

// A task of one variable and two operators.
fn task() -> Task<'static> {
    let mut task = Task::built_in();
    let counts = Counts {
        variables: 1,
        goals: 1,
        operators: 2,
        entries: 2,
    };
    let _ = task.put(b"", &VARIABLES, &OPERATORS, &ENTRIES, counts);
    task
}

// The cause's number, kind and layer of the fault with which a set at that layer refuses the row, if it does.
fn refusal<E: Estimator>(estimator: &mut E, row: &mut [u32], layer: u16) -> Option<(u8, u8, u16)> {
    let fault = estimator.set(&task(), row, layer).err()?;
    Some((fault.cause.number(), fault.kind, fault.layer))
}

// Sets the pile four deep whose leaf of that number, counted from the deepest, refuses.
fn refused_leaf(rt: &impl Abort, number: usize, layer: u16) {
    let [a, b, c, d, e] = [0, 1, 2, 3, 4].map(|leaf| Leaf::new(leaf == number));
    let deepest = Maximum::new(a, b);
    let upper = Maximum::new(Partition::new(deepest, c), d);
    let mut pile = Partition::new(upper, e);
    let mut row = [3, 7];
    let fault = refusal(&mut pile, &mut row, 1);
    assert_eq!(rt; fault, Some((13, 9, layer)));
    assert_eq!(rt; row, [3, 7]);
}

#[test]
fn refusal_in_each_position(rt: HostRuntime) {
    for (number, layer) in [16, 17, 9, 5, 3].into_iter().enumerate() {
        refused_leaf(&rt, number, layer);
    }
}

#[test]
fn accepted_pile_takes_its_part(rt: HostRuntime) {
    let mut row = [3, 7];
    let mut shared = Partition::new(Maximum::new(Blind::new(), Blind::new()), Leaf::new(false));
    assert_eq!(rt; refusal(&mut shared, &mut row, 1), None);
    assert_eq!(rt; row, [0, 0]);
    row = [3, 65535];
    let mut blind = Maximum::new(Blind::new(), Blind::new());
    assert_eq!(rt; refusal(&mut blind, &mut row, 1), None);
    assert_eq!(rt; row, [3, 65535]);
    assert_eq!(rt; blind.estimate(&task(), &[0]), Some(0));
}

#[test]
fn layers_refuse_rows_themselves(rt: HostRuntime) {
    let mut maximum = Maximum::new(Blind::new(), Leaf::new(true));
    let mut partition = Partition::new(Leaf::new(true), Blind::new());
    let mut high = [3, 65536];
    assert_eq!(rt; refusal(&mut maximum, &mut high, 6), Some((11, 3, 6)));
    assert_eq!(rt; refusal(&mut partition, &mut high, 7), Some((11, 4, 7)));
    assert_eq!(rt; high, [3, 65536]);
    let mut long = [3, 7, 0];
    assert_eq!(rt; refusal(&mut maximum, &mut long, 6), Some((11, 3, 6)));
    assert_eq!(rt; refusal(&mut partition, &mut long, 7), Some((11, 4, 7)));
}

#[test]
fn layer_numbers_are_cut(rt: HostRuntime) {
    let mut first = Maximum::new(Leaf::new(true), Blind::new());
    let mut second = Partition::new(Blind::new(), Leaf::new(true));
    let mut row = [3, 7];
    assert_eq!(rt; refusal(&mut first, &mut row, 32767), Some((13, 9, 65534)));
    assert_eq!(rt; refusal(&mut second, &mut row, 32767), Some((13, 9, 65535)));
    assert_eq!(rt; refusal(&mut first, &mut row, 32768), Some((13, 9, 65535)));
    assert_eq!(rt; refusal(&mut second, &mut row, 65535), Some((13, 9, 65535)));
}

#[test]
fn kind_numbers(rt: HostRuntime) {
    assert_eq!(rt; Blind::KIND, 1);
    assert_eq!(rt; <Maximum<Blind, Blind> as Estimator>::KIND, 3);
    assert_eq!(rt; <Partition<Blind, Blind> as Estimator>::KIND, 4);
}
