// The names of variables, values and operators, as parts of the task's text.
ghost use Rattle.std.specs.Prelude.{◌≡◌, length};
ghost use Rattle.tables.specs.Records.{spanned};
ghost use Rattle.tables.specs.Rules.{SpanFits};
ghost use Rattle.tables.specs.Tells.{Tells};
ghost use Rattle.task.specs.Names.{OperatorName, OperatorNamed, VariableName, ValueName};

use super::task::Task;
use tables::line::nth_line;
use tables::records::Operator;

impl<'a> Task<'a> {
    // The name of the variable of that number, if there is one.
    pub fn variable_name(&self, variable: usize) -> Option<&'a [u8]>
        ensures { VariableName self.now variable result }
    {
        let variable = self.variables.get(variable)?;
        Some(variable.name.of(self.text))
    }

    // The name of a variable's value, if the variable has it.
    pub fn value_name(&self, variable: usize, value: u8) -> Option<&'a [u8]>
        ensures { ValueName self.now variable value result }
    {
        let variable = self.variables.get(variable)?;
        if value >= variable.domain {
            return None;
        }
        let lines = variable.values.of(self.text);
        Some(nth_line(lines, value as usize))
    }

    // The name of the operator of that number, if there is one.
    pub fn operator_name(&self, operator: usize) -> Option<&'a [u8]>
        ensures { OperatorName self.now operator result }
    {
        let operator = self.operators.get(operator)?;
        Some(operator.name.of(self.text))
    }

    // The first operator of that name, if any.
    pub fn operator_named(&self, name: &[u8]) -> Option<usize>
        ensures { OperatorNamed self.now name.now result }
    {
        self.operators
            .iter()
            .position(|operator| self.has_name(operator, name))
    }

    // Whether the operator has that name.
    fn has_name(&self, operator: &Operator, name: &[u8]) -> bool
        requires { SpanFits (length self.now.text.now) operator.now.name }
        ensures { Tells result (spanned self.now.text.now operator.now.name ≡ name.now) }
    {
        operator.name.of(self.text) == name
    }
}
