ghost use Rattle.std.specs.Prelude.{◌≡◌, ℕ, ◌+◌, ◌<◌, ◌≤◌, true, List, [], ◌∷◌, ◌++◌, Option, length, take, drop, IfSome, IfOk, OnOk, nat_lt};
ghost use Rattle.lines.specs.declared.number.Number.{Number};
ghost use Rattle.sections.specs.Entries.{fact_numbers, effect_numbers, required_of, entry_in, four, four_among};
ghost use Rattle.sections.specs.Marks.{Marked};

use crate::seen::Seen;
use lines::cursor::Cursor;
use lines::number::{Number, numbers};
use tables::cause::Cause;
use tables::fault::Fault;
use tables::records::{Entry, Variable};

// What a line of an entry holds.
pub trait Shape {
    ghost numbers_of: { List ℕ → Option (Number × Number × Number × Number) };

    // The four numbers of a line: a zero, the variable, its value before and its value after.
    fn numbers(line: &[u8]) -> Option<[Number; 4]>
        ensures { numbers_of line.now ≡ four_among result };
}

// A fact is an effect that keeps its value.
#[derive(Clone, Copy)]
pub struct Fact;

#[derive(Clone, Copy)]
pub struct Effect;

impl Shape for Fact {
    ghost numbers_of = { fact_numbers };

    fn numbers(line: &[u8]) -> Option<[Number; 4]> {
        let [variable, value] = numbers::<2>(line)?;
        Some([Number::Value(0), variable, value, value])
    }
}

impl Shape for Effect {
    ghost numbers_of = { effect_numbers };

    fn numbers(line: &[u8]) -> Option<[Number; 4]> {
        numbers(line)
    }
}

// A required value, or none for -1.
fn required(number: Number, domain: usize) -> Option<Option<u8>>
    requires { domain < 256 }
    ensures { required_of domain number ≡ result }
{
    if let Number::MinusOne = number {
        return Some(None);
    }
    let value = number.within(0..domain)?;
    Some(Some(value as u8))
}

// The entry of four numbers that lie in their ranges.
fn ranged(numbers: [Number; 4], variables: &[Variable]) -> Option<Entry>
    requires { length variables.now ≤ 32 }
    ensures reads { entry_in variables.now (four numbers) ≡ result }
    ensures range { IfSome result (λ e. e.variable < 32) }
{
    let [zero, variable, before, after] = numbers;
    zero.within(0..1)?;
    let index = variable.within(0..variables.len())?;
    let domain = usize::from(variables[index].domain);
    let required = required(before, domain)?;
    let value = after.within(0..domain)?;
    Some(Entry {
        variable: index as u8,
        required,
        value: value as u8,
    })
}

// The entries of a text, each read after those in use: the variables that they name, where their group begins, and which
// variables it has named.
// Their records stand here and not in a Room of their own: of a slice that a struct within a struct borrows, nothing is
// known once the loan is over (the goal of what reading a whole text returns stays open).
#[derive(Drop)]
pub struct Entries<'v, 'e> {
    pub variables: &'v [Variable],
    pub records: &'e mut [Entry],
    pub used: usize,
    pub first: usize,
    pub seen: Seen,
    ghost few: { length variables.now ≤ 32 },
    ghost begun: { first ≤ used },
    ghost inside: { used ≤ length records.now },
    ghost marked: { Marked seen (drop first (take used records.now)) },
}

impl<'v, 'e> Entries<'v, 'e> {
    ghost use Rattle.lines.specs.Views.{place_of, answered, answered_by};
    ghost use Rattle.sections.specs.Entries.{entry_of, group_of};
    ghost use Rattle.sections.specs.Views.{entries_in, SameLender};

    // No entry is read yet.
    pub fn new(variables: &'v [Variable], records: &'e mut [Entry]) -> Self
        requires { length variables.now ≤ 32 }
        ensures empty { (result.used ≡ 0) × (length result.records.now ≡ length records.old) }
        ensures same { (result.variables ≡ variables.entry) × (result.records.ghost_name ≡ records.entry.ghost_name) }
    {
        Entries {
            variables,
            records,
            used: 0,
            first: 0,
            seen: Seen::none(),
        }
    }

    // A group begins after the entries in use.
    pub fn start_group(&mut self)
        ensures same { SameLender self.old self.new }
        ensures read { (self.new.used ≡ self.old.used) × (self.new.records.now ≡ self.old.records.now) }
        ensures first { self.new.first ≡ self.old.used }
    {
        self.first = self.used;
        self.seen = Seen::none();
    }

    // The entry in the due line, its variable new in its group, where a record is free: the tests in their order.
    fn entry<S: Shape>(&self, cursor: &mut Cursor) -> Result<Entry, Fault>
        ensures reads { entry_of S.numbers_of self.now.variables.now (drop self.now.first (entries_in self.now)) (nat_lt (length (entries_in self.now)) (length self.now.records.now)) (place_of cursor.old) ≡ answered result cursor.new }
        ensures room { OnOk result (self.now.used < length self.now.records.now) }
        ensures range { IfOk result (λ e. e.variable < 32) }
    {
        let line = cursor.line()?;
        let Some(found) = S::numbers(line) else {
            return Err(cursor.fault(Cause::Number));
        };
        let Some(entry) = ranged(found, self.variables) else {
            return Err(cursor.fault(Cause::Range));
        };
        if self.seen.contains(entry.variable) {
            return Err(cursor.fault(Cause::Twice));
        }
        if self.used == self.records.len() {
            return Err(cursor.fault(Cause::Room));
        }
        Ok(entry)
    }

    // Reads `count` entries of the group.
    pub fn group<S: Shape>(&mut self, cursor: &mut Cursor, count: usize) -> Result<(), Fault>
        ensures reads { group_of S.numbers_of self.old.variables.now (length self.old.records.now) self.old.first count (entries_in self.old) (place_of cursor.old) ≡ answered_by result (entries_in self.new) cursor.new }
        ensures same { SameLender self.old self.new × (self.new.first ≡ self.old.first) }
        ensures used { OnOk result (self.new.used ≡ self.old.used + count) }
    {
        for _ in 0..count {
            let entry = self.entry::<S>(cursor)?;
            self.records[self.used] = entry;
            self.used += 1;
            self.seen.add(entry);
        }
        Ok(())
    }
}
