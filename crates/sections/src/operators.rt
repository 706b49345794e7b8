ghost use Rattle.std.specs.Prelude.{◌≡◌, ◌≤◌, length, take, OnOk, IfOk};
ghost use Rattle.lines.specs.Views.{place_of, answered_by};
ghost use Rattle.sections.specs.Operators.{operator_of, operators_of};
ghost use Rattle.sections.specs.Views.{answered_operator, entries_in, SameLender};

use crate::entries::{Effect, Entries, Fact};
use crate::room::Room;
use lines::cursor::Cursor;
use tables::cause::Cause;
use tables::fault::Fault;
use tables::records::Operator;

// The lines of an operator after the first; its entries are a group of their own.
fn operator(cursor: &mut Cursor, entries: &mut Entries) -> Result<Operator, Fault>
    ensures reads { operator_of entries.old.variables.now (length entries.old.records.now) (entries_in entries.old) (place_of cursor.old) ≡ answered_operator result (entries_in entries.new) cursor.new }
    ensures same { SameLender entries.old entries.new }
{
    entries.start_group();
    let name = cursor.name()?;
    let conditions = cursor.number(0..entries.variables.len() + 1)?;
    entries.group::<Fact>(cursor, conditions)?;
    let effects = cursor.number(0..entries.variables.len() + 1)?;
    entries.group::<Effect>(cursor, effects)?;
    let price = cursor.number(0..65536)?;
    cursor.word(b"end_operator")?;
    Ok(Operator {
        name,
        price: price as u32,
        first: entries.first,
        conditions,
        effects,
    })
}

// Reads `count` operators into the first records, and their entries after those in use.
pub fn operator_list(
    cursor: &mut Cursor,
    entries: &mut Entries,
    records: &mut [Operator],
    count: usize,
) -> Result<(), Fault>
    requires { count ≤ 256 }
    ensures reads { operators_of entries.old.variables.now (length records.old) (length entries.old.records.now) count (entries_in entries.old) (place_of cursor.old) ≡ answered_by result (take count records.new, entries_in entries.new) cursor.new }
    ensures room { OnOk result (count ≤ length records.new) }
    ensures same { SameLender entries.old entries.new }
{
    let mut room = Room::new(records);
    // `i` is the operator's number in its faults.
    for i in 0..count {
        cursor.operator = Some(i as u16);
        cursor.word(b"begin_operator")?;
        if room.is_full() {
            return Err(cursor.fault(Cause::Room));
        }
        room.push(operator(cursor, entries)?);
    }
    cursor.operator = None;
    Ok(())
}
