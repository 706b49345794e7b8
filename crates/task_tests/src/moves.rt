use super::sofa;
use task::walk::Walked;

#[test]
fn operators_apply(rt: HostRuntime) {
    let task = sofa::task();
    let mut row = [0u8, 0];
    assert!(rt; !task.apply(1, &mut row));
    assert_eq!(rt; row, [0, 0]);
    assert!(rt; task.apply(0, &mut row));
    assert_eq!(rt; row, [0, 1]);
    assert!(rt; task.apply(1, &mut row));
    assert!(rt; task.apply(2, &mut row));
    assert_eq!(rt; row, [2, 1]);
    assert!(rt; task.is_goal_state(&row));
    assert!(rt; !task.apply(4, &mut row));
    assert_eq!(rt; row, [2, 1]);
}

#[test]
fn rows_that_are_no_states_stay(rt: HostRuntime) {
    let task = sofa::task();
    let mut high = [0u8, 2];
    assert!(rt; !task.apply(3, &mut high));
    assert_eq!(rt; high, [0, 2]);
    let mut long = [0u8, 0, 0];
    assert!(rt; !task.apply(0, &mut long));
    assert!(rt; !task.initial_into(&mut long));
    assert_eq!(rt; long, [0, 0, 0]);
    assert!(rt; !task.is_state(&[3, 0]));
    assert!(rt; !task.is_goal_state(&[2, 2]));
    assert!(rt; !task.is_goal_state(&[2]));
    assert!(rt; !task.is_goal_state(&[]));
}

#[test]
fn prices_and_sizes(rt: HostRuntime) {
    let task = sofa::task();
    let mut prices = [0u32; 4];
    assert!(rt; task.prices_into(&mut prices));
    assert_eq!(rt; prices, [1, 3, 2, 7]);
    let mut short = [9u32; 3];
    assert!(rt; !task.prices_into(&mut short));
    assert_eq!(rt; short, [9, 9, 9]);
    assert_eq!(rt; task.variable_count(), 2);
    assert_eq!(rt; task.operator_count(), 4);
    assert_eq!(rt; task.domain(0), 3);
    assert_eq!(rt; task.domain(2), 0);
    assert_eq!(rt; task.price(3), 7);
    assert_eq!(rt; task.price(4), 0);
}

#[test]
fn names_are_parts_of_the_text(rt: HostRuntime) {
    let task = sofa::task();
    assert_eq!(rt; task.variable_name(1), Some(&b"door"[..]));
    assert_eq!(rt; task.variable_name(2), None);
    assert_eq!(rt; task.value_name(0, 2), Some(&b"loft"[..]));
    assert_eq!(rt; task.value_name(0, 3), None);
    assert_eq!(rt; task.value_name(2, 0), None);
    assert_eq!(rt; task.operator_name(1), Some(&b"carry hall den"[..]));
    assert_eq!(rt; task.operator_name(4), None);
    assert_eq!(rt; task.operator_named(b"hoist"), Some(3));
    assert_eq!(rt; task.operator_named(b"hois"), None);
}

#[test]
fn walks(rt: HostRuntime) {
    let task = sofa::task();
    let mut row = [0u8, 0];
    let whole = task.walk(&[0, 1, 2], &mut row);
    assert_eq!(rt;
        whole,
        Walked {
            steps: 3,
            cost: 6,
            goal: true
        }
    );
    let mut row = [0u8, 0];
    let broken = task.walk(&[0, 2, 1], &mut row);
    assert_eq!(rt;
        broken,
        Walked {
            steps: 1,
            cost: 1,
            goal: false
        }
    );
    assert_eq!(rt; row, [0, 1]);
    let mut row = [0u8, 5];
    let none = task.walk(&[3], &mut row);
    assert_eq!(rt;
        none,
        Walked {
            steps: 0,
            cost: 0,
            goal: false
        }
    );
}
