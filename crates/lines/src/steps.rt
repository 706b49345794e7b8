ghost use Rattle.std.specs.Prelude.{◌≡◌, ℕ, ◌+◌, ◌<◌, ◌≤◌, length, IfOk};
ghost use Rattle.lines.specs.Reading.{top, fault_at, fault_next, line_of, word_of, number_in, name_of, turns, passed};
ghost use Rattle.lines.specs.Views.{place_of, answered, answered_part};

use crate::cursor::Cursor;
use crate::line::is_printable;
use crate::number::Number;
use std::ops::Range;
use tables::cause::Cause;
use tables::fault::Fault;
use tables::line::cut_line;
use tables::records::Span;

impl<'a> Cursor<'a> {
    // A cursor at the top of a text.
    pub fn new(text: &'a [u8]) -> Self
        requires { length text.now ≤ 65536 }
        ensures { place_of result ≡ top text.now }
    {
        Cursor {
            rest: text,
            at: 0,
            line: 0,
            operator: None,
        }
    }

    // A fault in the line that was taken last.
    pub fn fault(&self, cause: Cause) -> Fault
        ensures { result ≡ fault_at (place_of self.now) cause }
    {
        Fault {
            cause,
            line: self.line,
            operator: self.operator,
        }
    }

    // A fault in the line that is due.
    pub fn next_fault(&self, cause: Cause) -> Fault
        ensures { result ≡ fault_next (place_of self.now) cause }
    {
        Fault {
            cause,
            line: self.line + 1,
            operator: self.operator,
        }
    }

    // The due line.
    #[tactic(auto, unfolding(crate::specs::Reading::line_of))]
    pub fn line(&mut self) -> Result<&'a [u8], Fault>
        ensures { line_of (place_of self.old) ≡ answered_part result self.new }
    {
        let Some((line, rest)) = cut_line(self.rest) else {
            return Err(self.next_fault(Cause::Cut));
        };
        self.at += self.rest.len() - rest.len();
        self.rest = rest;
        self.line += 1;
        if !is_printable(line) {
            return Err(self.fault(Cause::Byte));
        }
        Ok(line)
    }

    // The due line is `word`.
    pub fn word(&mut self, word: &[u8]) -> Result<(), Fault>
        ensures { word_of word.now (place_of self.old) ≡ answered result self.new }
    {
        let line = self.line()?;
        if line != word {
            return Err(self.fault(Cause::Word));
        }
        Ok(())
    }

    // The due line holds one number, which lies in the range.
    pub fn number(&mut self, range: Range<usize>) -> Result<usize, Fault>
        ensures reads { number_in range.start range.end (place_of self.old) ≡ answered result self.new }
        ensures range { IfOk result (λ n. (range.start ≤ n) × (n < range.end)) }
    {
        let line = self.line()?;
        let Some(number) = Number::parse(line) else {
            return Err(self.fault(Cause::Number));
        };
        let Some(value) = number.within(range) else {
            return Err(self.fault(Cause::Range));
        };
        Ok(value)
    }

    // The due line is a name.
    pub fn name(&mut self) -> Result<Span, Fault>
        ensures { name_of (place_of self.old) ≡ answered result self.new }
    {
        let from = self.at;
        let line = self.line()?;
        Ok(Span {
            from,
            to: from + line.len(),
        })
    }

    // Lines of any names, as many as `count`: a chain's closure would move the cursor, and a proof knows nothing of what
    // a closure moved.
    pub fn skip(&mut self, count: usize) -> Result<(), Fault>
        ensures { turns count passed tt (place_of self.old) ≡ answered result self.new }
    {
        for _ in 0..count {
            self.line()?;
        }
        Ok(())
    }
}
