ghost use Rattle.std.specs.Prelude.{◌≡◌, Some};
ghost use Rattle.tables.specs.Causes.{number_of, name_of};

use std::fmt;

// Why a call refuses: the whole fault table, each cause with its number.
#[derive(Clone, Copy, PartialEq, Eq, Debug)]
pub enum Cause {
    Long = 1,
    Cut = 2,
    Byte = 3,
    Word = 4,
    Number = 5,
    Range = 6,
    Twice = 7,
    After = 8,
    Room = 9,
    Order = 10,
    Row = 11,
    Pattern = 12,
    Table = 13,
    Other = 14,
    Short = 15,
    Item = 16,
}

impl Cause {
    // The cause's number in the fault table.
    pub fn number(self) -> u8
        ensures { result ≡ number_of self }
    {
        self as u8
    }

    // The cause's printed name.
    pub fn name(self) -> &'static str
        ensures { result.now ≡ name_of self }
    {
        match self {
            Cause::Long => "LONG",
            Cause::Cut => "CUT",
            Cause::Byte => "BYTE",
            Cause::Word => "WORD",
            Cause::Number => "NUMBER",
            Cause::Range => "RANGE",
            Cause::Twice => "TWICE",
            Cause::After => "AFTER",
            Cause::Room => "ROOM",
            Cause::Order => "ORDER",
            Cause::Row => "ROW",
            Cause::Pattern => "PATTERN",
            Cause::Table => "TABLE",
            Cause::Other => "OTHER",
            Cause::Short => "SHORT",
            Cause::Item => "ITEM",
        }
    }
}

impl fmt::Display for Cause {
    ghost output = { λ cause. Some (name_of cause) };

    fn fmt<W: fmt::Write>(&self, f: &mut fmt::Formatter<W>) -> fmt::Result {
        f.write_str(self.name())
    }
}
