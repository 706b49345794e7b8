use super::records::*;
use estimator::estimator::Estimator;
use layers::partition::Partition;
use projection::projection::Projection;

// The sofa (hall, den, loft) and the door (shut, open); the goal is the sofa in the loft.
fn records() -> Records<2, 4, 6> {
    Records {
        variables: [variable(3), variable(2)],
        operators: [
            operator(1, 1, 0, 1),
            operator(3, 2, 1, 1),
            operator(2, 4, 0, 1),
            operator(7, 5, 0, 1),
        ],
        entries: [
            fact(0, 2),
            effect(1, Some(0), 1),
            fact(1, 1),
            effect(0, Some(0), 1),
            effect(0, Some(1), 2),
            effect(0, Some(0), 2),
        ],
        goals: 1,
    }
}

#[test]
fn sofa_then_door(rt: HostRuntime) {
    let records = records();
    let task = records.task();
    let mut row = [1, 3, 2, 7];
    let mut table = [9; 4];
    let answer = ask::<3>(&task, &[0], &mut table, &mut row, &[0, 0]);
    assert_eq!(rt; answer, (None, Some(5)));
    assert_eq!(rt; table, [5, 2, 0, 9]);
    assert_eq!(rt; row, [1, 0, 0, 2]);
    let answer = ask::<2>(&task, &[1], &mut table, &mut row, &[0, 1]);
    assert_eq!(rt; answer, (None, Some(0)));
    assert_eq!(rt; table, [0, 0, 0, 9]);
    assert_eq!(rt; row, [1, 0, 0, 2]);
}

#[test]
fn sofa_and_door_together(rt: HostRuntime) {
    let records = records();
    let task = records.task();
    let mut row = [1, 3, 2, 7];
    let mut table = [9; 6];
    let answer = ask::<6>(&task, &[0, 1], &mut table, &mut row, &[0, 0]);
    assert_eq!(rt; answer, (None, Some(6)));
    assert_eq!(rt; table, [6, 5, 2, 2, 0, 0]);
    assert_eq!(rt; row, [0, 0, 0, 1]);
}

#[test]
fn partition_of_both(rt: HostRuntime) {
    let records = records();
    let task = records.task();
    let (mut sofa_table, mut sofa_entries, mut sofa_places) = ([0; 3], [STALE; 3], [0; 3]);
    let (mut door_table, mut door_entries, mut door_places) = ([0; 2], [STALE; 2], [0; 2]);
    let sofa = Projection::new(&[0], &mut sofa_table, &mut sofa_entries, &mut sofa_places);
    let door = Projection::new(&[1], &mut door_table, &mut door_entries, &mut door_places);
    let mut both = Partition::new(sofa, door);
    let mut row = [1, 3, 2, 7];
    assert!(rt; both.set(&task, &mut row, 1).is_ok());
    assert_eq!(rt; both.estimate(&task, &[0, 0]), Some(5));
    assert_eq!(rt; row, [1, 0, 0, 2]);
}

#[test]
fn no_way_to_the_loft(rt: HostRuntime) {
    let records = records();
    let task = task(
        &records.variables,
        &records.operators[0..2],
        &records.entries[0..4],
        1,
    );
    let mut row = [1, 3];
    let mut table = [9; 3];
    let answer = ask::<3>(&task, &[0], &mut table, &mut row, &[0, 0]);
    assert_eq!(rt; answer, (None, None));
    assert_eq!(rt; table, [4294967295, 4294967295, 0]);
    assert_eq!(rt; row, [1, 3]);
}

#[test]
fn rows_that_are_no_states(rt: HostRuntime) {
    let records = records();
    let task = records.task();
    let (mut table, mut entries, mut places) = ([0; 3], [STALE; 3], [0; 3]);
    let mut sofa = Projection::new(&[0], &mut table, &mut entries, &mut places);
    assert_eq!(rt; sofa.estimate(&task, &[0, 0]), Some(0));
    let mut row = [1, 3, 2, 7];
    assert!(rt; sofa.set(&task, &mut row, 1).is_ok());
    assert_eq!(rt; sofa.estimate(&task, &[1, 1]), Some(2));
    assert_eq!(rt; sofa.estimate(&task, &[3, 0]), Some(0));
    assert_eq!(rt; sofa.estimate(&task, &[0]), Some(0));
    assert_eq!(rt; sofa.estimate(&task, &[0, 0, 0]), Some(0));
    let mut short = [1, 3, 2];
    assert!(rt; sofa.set(&task, &mut short, 1).is_err());
    assert_eq!(rt; sofa.estimate(&task, &[0, 0]), Some(0));
}
