ghost use Rattle.std.specs.Prelude.{◌≡◌, ℕ, ◌+◌, ◌-◌, ◌<◌, ◌≤◌, [], length, take, OnOk};
ghost use Rattle.lines.specs.Views.{place_of, answered, answered_by};
ghost use Rattle.sections.specs.Variables.{variable_of, variables_of, initials_of};

use crate::room::Room;
use lines::cursor::Cursor;
use tables::cause::Cause;
use tables::fault::Fault;
use tables::records::{Span, Variable};

// The lines of a variable after the first.
fn variable(cursor: &mut Cursor) -> Result<Variable, Fault>
    ensures { variable_of (place_of cursor.old) ≡ answered result cursor.new }
{
    let name = cursor.name()?;
    cursor.word(b"-1")?;
    let domain = cursor.number(1..256)?;
    let from = cursor.at;
    cursor.skip(domain)?;
    let values = Span {
        from,
        to: cursor.at,
    };
    cursor.word(b"end_variable")?;
    Ok(Variable {
        name,
        values,
        domain: domain as u8,
        initial: 0,
    })
}

// Reads `count` variables into the first records.
pub fn variable_list(
    cursor: &mut Cursor,
    count: usize,
    records: &mut [Variable],
) -> Result<(), Fault>
    ensures reads { variables_of (length records.old) count (place_of cursor.old) ≡ answered_by result (take count records.new) cursor.new }
    ensures room { OnOk result (count ≤ length records.new) }
{
    let mut room = Room::new(records);
    for _ in 0..count {
        cursor.word(b"begin_variable")?;
        if room.is_full() {
            return Err(cursor.fault(Cause::Room));
        }
        room.push(variable(cursor)?);
    }
    Ok(())
}

// Reads the value of each variable in the initial state.
pub fn initial_values(cursor: &mut Cursor, variables: &mut [Variable]) -> Result<(), Fault>
    ensures { initials_of [] variables.old (place_of cursor.old) ≡ answered_by result variables.new cursor.new }
{
    for variable in variables.iter_mut() {
        let value = cursor.number(0..usize::from(variable.domain))?;
        variable.initial = value as u8;
    }
    Ok(())
}
