use super::sofa;
use super::sofa::COUNTS;
use tables::cause::Cause;
use tables::fault::Fault;
use tables::records::{Counts, Entry, Operator, Span, Variable};
use task::task::Task;

// RANGE at line 0.
const REFUSAL: Fault = Fault {
    cause: Cause::Range,
    line: 0,
    operator: None,
};

// Whether making refuses with RANGE at line 0 and leaves the built-in task.
fn refuses<'x>(
    variables: &'x [Variable],
    operators: &'x [Operator],
    entries: &'x [Entry],
    counts: Counts,
) -> bool {
    let mut task = Task::built_in();
    task.put(sofa::TEXT, variables, operators, entries, counts) == Err(REFUSAL)
        && task.variable_count() == 1
        && task.operator_count() == 0
}

// The same with one variable record in the place of the first.
fn refuses_variable(variable: Variable) -> bool {
    let mut variables = sofa::VARIABLES;
    variables[0] = variable;
    refuses(&variables, &sofa::OPERATORS, &sofa::ENTRIES, COUNTS)
}

// The same with one operator record in the place of the second.
fn refuses_operator(operator: Operator) -> bool {
    let mut operators = sofa::OPERATORS;
    operators[1] = operator;
    refuses(&sofa::VARIABLES, &operators, &sofa::ENTRIES, COUNTS)
}

// The same with one entry in that place.
fn refuses_entry(at: usize, entry: Entry) -> bool {
    let mut entries = sofa::ENTRIES;
    if let Some(place) = entries.get_mut(at) {
        *place = entry;
    }
    refuses(&sofa::VARIABLES, &sofa::OPERATORS, &entries, COUNTS)
}

#[test]
fn variables_keep_their_rules(rt: HostRuntime) {
    let good = sofa::VARIABLES[0];
    assert!(rt; !refuses_variable(good));
    assert!(rt; refuses_variable(Variable::ZERO));
    assert!(rt; refuses_variable(Variable { initial: 3, ..good }));
    assert!(rt;
        refuses_variable(Variable {
            name: Span { from: 1, to: 0 },
            ..good
        })
    );
    assert!(rt;
        refuses_variable(Variable {
            name: Span { from: 0, to: 76 },
            ..good
        })
    );
    assert!(rt;
        refuses_variable(Variable {
            values: Span { from: 5, to: 76 },
            ..good
        })
    );
    assert!(rt; refuses_variable(Variable { domain: 2, ..good }));
}

#[test]
fn operators_keep_their_rules(rt: HostRuntime) {
    let good = sofa::OPERATORS[1];
    assert!(rt;
        !refuses_operator(Operator {
            price: 65535,
            ..good
        })
    );
    assert!(rt;
        refuses_operator(Operator {
            price: 65536,
            ..good
        })
    );
    assert!(rt;
        refuses_operator(Operator {
            name: Span { from: 70, to: 76 },
            ..good
        })
    );
    assert!(rt; refuses_operator(Operator { first: 6, ..good }));
    assert!(rt;
        refuses_operator(Operator {
            conditions: usize::MAX,
            ..good
        })
    );
    assert!(rt;
        refuses_operator(Operator {
            effects: usize::MAX,
            ..good
        })
    );
    assert!(rt; refuses_operator(Operator { effects: 4, ..good }));
    assert!(rt;
        refuses_operator(Operator {
            first: 3,
            conditions: 1,
            effects: 1,
            ..good
        })
    );
}

#[test]
fn entries_keep_their_rules(rt: HostRuntime) {
    assert!(rt;
        refuses_entry(
            0,
            Entry {
                variable: 2,
                required: None,
                value: 0,
            },
        )
    );
    assert!(rt;
        refuses_entry(
            0,
            Entry {
                variable: 0,
                required: None,
                value: 3,
            },
        )
    );
    assert!(rt;
        refuses_entry(
            3,
            Entry {
                variable: 0,
                required: Some(3),
                value: 1,
            },
        )
    );
    assert!(rt;
        refuses_entry(
            3,
            Entry {
                variable: 1,
                required: Some(0),
                value: 1,
            },
        )
    );
    assert!(rt;
        refuses_entry(
            5,
            Entry {
                variable: 32,
                required: None,
                value: 0,
            },
        )
    );
    assert!(rt;
        !refuses_entry(
            5,
            Entry {
                variable: 0,
                required: None,
                value: 2,
            },
        )
    );
}

// The same with these counts.
fn refuses_counts(counts: Counts) -> bool {
    refuses(&sofa::VARIABLES, &sofa::OPERATORS, &sofa::ENTRIES, counts)
}

#[test]
fn counts_lie_within_the_records(rt: HostRuntime) {
    assert!(rt;
        refuses_counts(Counts {
            variables: 3,
            ..COUNTS
        })
    );
    assert!(rt;
        refuses_counts(Counts {
            variables: 1,
            ..COUNTS
        })
    );
    assert!(rt;
        refuses_counts(Counts {
            variables: 0,
            ..COUNTS
        })
    );
    assert!(rt;
        refuses_counts(Counts {
            operators: 5,
            ..COUNTS
        })
    );
    assert!(rt;
        refuses_counts(Counts {
            entries: 7,
            ..COUNTS
        })
    );
    assert!(rt;
        refuses_counts(Counts {
            entries: 5,
            ..COUNTS
        })
    );
    assert!(rt; refuses_counts(Counts { goals: 7, ..COUNTS }));
    assert!(rt; refuses_counts(Counts { goals: 4, ..COUNTS }));
}

#[test]
fn empty_records(rt: HostRuntime) {
    assert!(rt;
        refuses(
            &[],
            &[],
            &[],
            Counts {
                variables: 0,
                goals: 0,
                operators: 0,
                entries: 0,
            },
        )
    );
    assert!(rt;
        !refuses(
            &sofa::VARIABLES,
            &[],
            &[],
            Counts {
                variables: 2,
                goals: 0,
                operators: 0,
                entries: 0,
            },
        )
    );
}

#[test]
fn new_refuses_as_put_does(rt: HostRuntime) {
    let counts = Counts {
        variables: 3,
        ..COUNTS
    };
    let made = Task::new(
        sofa::TEXT,
        &sofa::VARIABLES,
        &sofa::OPERATORS,
        &sofa::ENTRIES,
        counts,
    );
    assert_eq!(rt; made.err(), Some(REFUSAL));
}
