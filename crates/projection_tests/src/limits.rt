use super::records::*;
use tables::records::Variable;
use task::task::Task;

// The records of those variables and of one operator, which takes the first of them from 0 to its goal, 1.
fn records<const V: usize>(variables: [Variable; V]) -> Records<V, 1, 2> {
    Records {
        variables,
        operators: [operator(3, 1, 0, 1)],
        entries: [fact(0, 1), effect(0, Some(0), 1)],
        goals: 1,
    }
}

// The number of the fault's cause with that much memory, at most 8 of each, if it is refused; no cause's number, 254, if
// the memory is not left as it was then.
fn refusal(
    task: &Task<'_>,
    pattern: &[u8],
    row: &mut [u32],
    table: usize,
    entries: usize,
    places: usize,
) -> Option<u8> {
    let mut table_memory = [9; 8];
    let mut entry_memory = [STALE; 8];
    let mut place_memory = [9; 8];
    let (refused, _) = set_and_ask(
        task,
        pattern,
        &mut table_memory[..table.min(8)],
        &mut entry_memory[..entries.min(8)],
        &mut place_memory[..places.min(8)],
        row,
        &[],
    );
    if refused.is_some() && (table_memory != [9; 8] || place_memory != [9; 8]) {
        return Some(254);
    }
    refused
}

#[test]
fn memory_exactly_enough_and_one_short(rt: HostRuntime) {
    let records = records([variable(3), variable(2)]);
    let task = records.task();
    let mut row = [3];
    assert_eq!(rt; refusal(&task, &[0, 1], &mut row, 5, 6, 6), Some(13));
    assert_eq!(rt; refusal(&task, &[0, 1], &mut row, 6, 5, 6), Some(13));
    assert_eq!(rt; refusal(&task, &[0, 1], &mut row, 6, 6, 5), Some(13));
    assert_eq!(rt; row, [3]);
    assert_eq!(rt; refusal(&task, &[0, 1], &mut row, 6, 6, 6), None);
    assert_eq!(rt; row, [0]);
}

#[test]
fn order_of_tests(rt: HostRuntime) {
    let records = records([variable(3), variable(2)]);
    let task = records.task();
    let mut high = [65536];
    assert_eq!(rt; refusal(&task, &[1, 0], &mut high, 0, 0, 0), Some(11));
    assert_eq!(rt; high, [65536]);
    assert_eq!(rt; refusal(&task, &[0], &mut [], 3, 3, 3), Some(11));
    let mut row = [3];
    assert_eq!(rt; refusal(&task, &[1, 0], &mut row, 0, 0, 0), Some(12));
    assert_eq!(rt; refusal(&task, &[0, 0], &mut row, 8, 8, 8), Some(12));
    assert_eq!(rt; refusal(&task, &[0, 2], &mut row, 8, 8, 8), Some(12));
    assert_eq!(rt; refusal(&task, &[0], &mut row, 2, 3, 3), Some(13));
    assert_eq!(rt; row, [3]);
}

#[test]
fn pattern_of_eight_and_nine(rt: HostRuntime) {
    let records = records([variable(2); 9]);
    let task = records.task();
    let (mut table, mut entries, mut places) = ([9; 512], [STALE; 512], [0; 512]);
    let mut row = [3];
    let nine = [0, 1, 2, 3, 4, 5, 6, 7, 8];
    // The same memory is lent each time.
    let mut ask_again = |pattern: &[u8], row: &mut [u32]| {
        set_and_ask(
            &task,
            pattern,
            &mut table,
            &mut entries,
            &mut places,
            row,
            &[0; 9],
        )
    };
    assert_eq!(rt; ask_again(&nine, &mut row), (Some(12), Some(0)));
    assert_eq!(rt; row, [3]);
    assert_eq!(rt; ask_again(&nine[1..9], &mut row), (None, Some(0)));
    assert_eq!(rt; ask_again(&nine[0..8], &mut row), (None, Some(3)));
    assert_eq!(rt;
        (table[127], table[128], table[255], table[256]),
        (3, 0, 0, 9)
    );
    assert_eq!(rt; row, [0]);
}

// Sets a projection to three variables of those numbers of values with memory for 65,536 ranks.
fn with_most_ranks(first: u8, second: u8, third: u8, row: &mut [u32]) -> (Option<u8>, Option<u32>) {
    let records = records([variable(first), variable(second), variable(third)]);
    let task = records.task();
    ask::<65536>(&task, &[0, 1, 2], &mut [9; 65536], row, &[0, 0, 0])
}

#[test]
fn most_ranks_and_more(rt: HostRuntime) {
    let mut row = [3];
    assert_eq!(rt; with_most_ranks(20, 29, 113, &mut row), (Some(13), Some(0)));
    assert_eq!(rt; row, [3]);
    assert_eq!(rt; with_most_ranks(128, 128, 4, &mut row), (None, Some(3)));
    assert_eq!(rt; row, [0]);
    let mut again = [3];
    assert_eq!(rt;
        with_most_ranks(255, 255, 255, &mut again),
        (Some(13), Some(0))
    );
}
