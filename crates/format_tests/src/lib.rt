// The reading of damaged texts: what each fault is, and where.
#![tactic(auto)]

ghost use Rattle.std.specs.Prelude.{◌≡◌, ◌+◌, ◌≤◌, length};
ghost use Rattle.format_tests.specs.Cut.{due_line};

use format::reading::read_task;
use std::alloc::{AllocError, Global};
use tables::fault::Fault;
use tables::records::{Counts, Entry, Operator, Variable};

// The text of the sofa and the door.
pub fn sofa() -> &'static [u8] {
    b"begin_version\n3\nend_version\nbegin_metric\n1\nend_metric\n2\nbegin_variable\nsofa\n-1\n3\nhall\nden\nloft\nend_variable\nbegin_variable\ndoor\n-1\n2\nshut\nopen\nend_variable\n0\nbegin_state\n0\n0\nend_state\nbegin_goal\n1\n0 2\nend_goal\n4\nbegin_operator\nopen\n0\n1\n0 1 0 1\n1\nend_operator\nbegin_operator\ncarry hall den\n1\n1 1\n1\n0 0 0 1\n3\nend_operator\nbegin_operator\ncarry den loft\n0\n1\n0 0 1 2\n2\nend_operator\nbegin_operator\nhoist\n0\n1\n0 0 0 2\n7\nend_operator\n0\n"
}

// The reading of a text into as many records as `room` says, at most 32, 16 and 64 of them.
pub fn read(text: &[u8], room: Counts) -> Result<(), Fault> {
    let mut variables = [Variable::ZERO; 32];
    let mut operators = [Operator::ZERO; 16];
    let mut entries = [Entry::ZERO; 64];
    let few_variables = room.variables.min(32);
    let few_operators = room.operators.min(16);
    let few_entries = room.entries.min(64);
    read_task(
        text,
        &mut variables[..few_variables],
        &mut operators[..few_operators],
        &mut entries[..few_entries],
    )?;
    Ok(())
}

// The line that is due where the text ends: one more than the lines that end in it.
pub fn due_line(text: &[u8]) -> u32
    requires { length text.now ≤ 65536 }
    ensures { result ≡ due_line text.now }
{
    1 + text.iter().filter(|b| **b == b'\n').count() as u32
}

// The sofa's text with another line in the place of one of its lines.
pub fn with_line(heap: Global, number: u32, line: &[u8]) -> Result<Vec<u8>, AllocError> {
    let mut text = Vec::new(heap);
    for (at, old) in (1..).zip(sofa().split_inclusive(|b| *b == b'\n')) {
        if at == number {
            text.extend_from_slice(line)?;
            text.push(b'\n')?;
        } else {
            text.extend_from_slice(old)?;
        }
    }
    Ok(text)
}

#[cfg(test)]
mod tests {
    use super::*;
    use std::process::Abort;
    use std::test::Fail;
    use tables::cause::Cause;

    const ALL: Counts = Counts {
        variables: 32,
        goals: 0,
        operators: 16,
        entries: 64,
    };

    // The sofa's text with one line replaced is refused with this cause at that line.
    fn refused(
        rt: &impl Abort,
        heap: Global,
        number: u32,
        line: &[u8],
        cause: Cause,
        operator: Option<u16>,
    ) -> Result<(), Fail> {
        let text = with_line(heap, number, line)?;
        assert_eq!(rt;
            read(text.as_slice(), ALL),
            Err(Fault {
                cause,
                line: number,
                operator,
            })
        );
        Ok(())
    }

    #[test]
    fn accepts_the_sofa(rt: HostRuntime) {
        assert_eq!(rt; read(sofa(), ALL), Ok(()));
        let exact = Counts {
            variables: 2,
            goals: 0,
            operators: 4,
            entries: 6,
        };
        assert_eq!(rt; read(sofa(), exact), Ok(()));
    }

    #[test]
    fn says_room_where_the_first_lacking_record_is_due(rt: HostRuntime) {
        assert_eq!(rt;
            read(
                sofa(),
                Counts {
                    variables: 1,
                    ..ALL
                },
            ),
            Err(Fault {
                cause: Cause::Room,
                line: 16,
                operator: None,
            })
        );
        assert_eq!(rt;
            read(
                sofa(),
                Counts {
                    operators: 3,
                    ..ALL
                },
            ),
            Err(Fault {
                cause: Cause::Room,
                line: 55,
                operator: Some(3),
            })
        );
        assert_eq!(rt;
            read(sofa(), Counts { entries: 0, ..ALL }),
            Err(Fault {
                cause: Cause::Room,
                line: 30,
                operator: None,
            })
        );
        assert_eq!(rt;
            read(sofa(), Counts { entries: 3, ..ALL }),
            Err(Fault {
                cause: Cause::Room,
                line: 45,
                operator: Some(1),
            })
        );
    }

    // The operator in whose lines the line is due.
    fn operator_at(line: u32) -> Option<u16> {
        match line {
            33..=39 => Some(0),
            40..=47 => Some(1),
            48..=54 => Some(2),
            55..=61 => Some(3),
            _ => None,
        }
    }

    #[test]
    fn cut_at_every_byte(rt: HostRuntime) {
        let text = sofa();
        for k in 0..text.len() {
            let rest = &text[0..k];
            assert!(rt; rest.len() <= 65536);
            let line = due_line(rest);
            assert_eq!(rt;
                read(rest, ALL),
                Err(Fault {
                    cause: Cause::Cut,
                    line,
                    operator: operator_at(line),
                })
            );
        }
    }

    #[test]
    fn bytes_and_words(rt: HostRuntime) -> Result<(), Fail> {
        let heap = rt.alloc();
        refused(&rt, heap, 1, b"begin_version ", Cause::Word, None)?;
        refused(&rt, heap, 1, b"", Cause::Word, None)?;
        refused(&rt, heap, 2, b"4", Cause::Word, None)?;
        refused(&rt, heap, 9, b"so\x7ffa", Cause::Byte, None)?;
        refused(&rt, heap, 9, b"so\x1ffa", Cause::Byte, None)?;
        refused(&rt, heap, 7, b"2\r", Cause::Byte, None)?;
        refused(&rt, heap, 10, b"0", Cause::Word, None)?;
        refused(&rt, heap, 23, b"00", Cause::Word, None)?;
        refused(&rt, heap, 33, b"Begin_operator", Cause::Word, Some(0))?;
        refused(&rt, heap, 61, b"end_operator.", Cause::Word, Some(3))?;
        refused(&rt, heap, 62, b"1", Cause::Word, None)
    }

    #[test]
    fn numbers_and_ranges(rt: HostRuntime) -> Result<(), Fail> {
        let heap = rt.alloc();
        refused(&rt, heap, 7, b"007", Cause::Number, None)?;
        refused(&rt, heap, 7, b"0000000002", Cause::Number, None)?;
        refused(&rt, heap, 7, b"0", Cause::Range, None)?;
        refused(&rt, heap, 7, b"33", Cause::Range, None)?;
        refused(&rt, heap, 7, b"999999999", Cause::Range, None)?;
        refused(&rt, heap, 7, b"4294967298", Cause::Range, None)?;
        refused(&rt, heap, 11, b"256", Cause::Range, None)?;
        refused(&rt, heap, 11, b"+3", Cause::Number, None)?;
        refused(&rt, heap, 25, b"3", Cause::Range, None)?;
        refused(&rt, heap, 26, b"-1", Cause::Range, None)?;
        refused(&rt, heap, 29, b"3", Cause::Range, None)?;
        refused(&rt, heap, 32, b"257", Cause::Range, None)?;
        refused(&rt, heap, 38, b"65536", Cause::Range, Some(0))
    }

    #[test]
    fn entries(rt: HostRuntime) -> Result<(), Fail> {
        let heap = rt.alloc();
        refused(&rt, heap, 30, b"0  2", Cause::Number, None)?;
        refused(&rt, heap, 30, b"0 2 ", Cause::Number, None)?;
        refused(&rt, heap, 30, b"0", Cause::Number, None)?;
        refused(&rt, heap, 30, b"0 3", Cause::Range, None)?;
        refused(&rt, heap, 30, b"2 0", Cause::Range, None)?;
        refused(&rt, heap, 37, b"1 1 0 1", Cause::Range, Some(0))?;
        refused(&rt, heap, 37, b"0 1 2 1", Cause::Range, Some(0))?;
        refused(&rt, heap, 37, b"0 1 -1 2", Cause::Range, Some(0))?;
        refused(&rt, heap, 37, b"0 1 -01 1", Cause::Number, Some(0))?;
        refused(&rt, heap, 43, b"1 2", Cause::Range, Some(1))?;
        refused(&rt, heap, 45, b"0 1 0 1", Cause::Twice, Some(1))
    }

    #[test]
    fn after_the_last_line(rt: HostRuntime) -> Result<(), Fail> {
        let heap = rt.alloc();
        let mut text = with_line(heap, 62, b"0")?;
        assert_eq!(rt; read(text.as_slice(), ALL), Ok(()));
        text.push(b'\n')?;
        assert_eq!(rt;
            read(text.as_slice(), ALL),
            Err(Fault {
                cause: Cause::After,
                line: 63,
                operator: None,
            })
        );
        Ok(())
    }
}
