use super::records::*;
use tables::records::Variable;

fn variables() -> [Variable; 3] {
    [variable(3), variable(1), variable(2)]
}

// The goal gives variables 0 and 2 values. Operator 0 sets variable 0 from any value, operator 1 steps it on while variable 2
// is 1, operator 2 changes variable 2 only, and operator 3 changes nothing.
fn records() -> Records<3, 4, 6> {
    Records {
        variables: variables(),
        operators: [
            operator(9, 2, 0, 1),
            operator(4, 3, 1, 1),
            operator(5, 5, 0, 1),
            operator(6, 6, 0, 0),
        ],
        entries: [
            fact(0, 2),
            fact(2, 1),
            effect(0, None, 2),
            fact(2, 1),
            effect(0, Some(0), 1),
            effect(2, None, 1),
        ],
        goals: 2,
    }
}

#[test]
fn empty_pattern(rt: HostRuntime) {
    let records = records();
    let task = records.task();
    let mut row = [9, 4, 5, 6];
    let mut table = [9; 2];
    let answer = ask::<1>(&task, &[], &mut table, &mut row, &[0, 0, 0]);
    assert_eq!(rt; answer, (None, Some(0)));
    assert_eq!(rt; table, [0, 9]);
    assert_eq!(rt; row, [9, 4, 5, 6]);
}

#[test]
fn effect_without_required_value(rt: HostRuntime) {
    let records = records();
    let task = records.task();
    let mut row = [9, 4, 5, 6];
    let mut table = [9; 3];
    let answer = ask::<3>(&task, &[0], &mut table, &mut row, &[1, 0, 0]);
    assert_eq!(rt; answer, (None, Some(9)));
    assert_eq!(rt; table, [9, 9, 0]);
    assert_eq!(rt; row, [0, 4, 5, 6]);
}

#[test]
fn one_value_variable(rt: HostRuntime) {
    let records = records();
    let task = records.task();
    let mut row = [9, 4, 5, 6];
    let mut table = [9; 1];
    let answer = ask::<1>(&task, &[1], &mut table, &mut row, &[0, 0, 0]);
    assert_eq!(rt; answer, (None, Some(0)));
    assert_eq!(rt; row, [9, 4, 5, 6]);
    let mut wide = [9; 6];
    let answer = ask::<6>(&task, &[0, 1, 2], &mut wide, &mut row, &[1, 0, 0]);
    assert_eq!(rt; answer, (None, Some(14)));
    assert_eq!(rt; wide, [14, 9, 14, 9, 5, 0]);
    assert_eq!(rt; row, [0, 4, 0, 6]);
}

#[test]
fn difference_below_zero(rt: HostRuntime) {
    let records = Records {
        variables: variables(),
        operators: [operator(3, 1, 0, 1), operator(5, 2, 0, 1)],
        entries: [fact(0, 1), effect(0, Some(0), 1), effect(0, Some(1), 0)],
        goals: 1,
    };
    let task = records.task();
    let mut row = [3, 5];
    let mut table = [9; 3];
    let answer = ask::<3>(&task, &[0], &mut table, &mut row, &[0, 0, 0]);
    assert_eq!(rt; answer, (None, Some(3)));
    assert_eq!(rt; table, [3, 0, 4294967295]);
    assert_eq!(rt; row, [0, 5]);
}

#[test]
fn zero_and_highest_prices(rt: HostRuntime) {
    let records = Records {
        variables: variables(),
        operators: [operator(0, 1, 0, 1), operator(0, 2, 0, 1)],
        entries: [fact(0, 2), effect(0, Some(0), 1), effect(0, Some(1), 2)],
        goals: 1,
    };
    let task = records.task();
    let mut row = [0, 0];
    let mut table = [9; 3];
    let answer = ask::<3>(&task, &[0], &mut table, &mut row, &[0, 0, 0]);
    assert_eq!(rt; answer, (None, Some(0)));
    assert_eq!(rt; table, [0, 0, 0]);
    let mut high = [65535, 65535];
    let answer = ask::<3>(&task, &[0], &mut table, &mut high, &[0, 0, 0]);
    assert_eq!(rt; answer, (None, Some(131070)));
    assert_eq!(rt; table, [131070, 65535, 0]);
    assert_eq!(rt; high, [0, 0]);
}
