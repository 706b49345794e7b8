ghost use Rattle.std.specs.Prelude.{ℕ, ◌<◌, ◌≤◌, length};
ghost use Rattle.tables.specs.Rules.{VariablesFit, EntriesFit, RequiredFit, Distinct, OperatorsFit, OperatorsDistinct};

use tables::records::{Entry, Operator, Variable};

// A planning task over lent text and records, only read. Its rules are ghost fields, so every task that exists keeps them.
#[derive(Clone, Copy)]
pub struct Task<'a> {
    pub text: &'a [u8],
    pub variables: &'a [Variable],
    pub goal: &'a [Entry],
    pub operators: &'a [Operator],
    pub entries: &'a [Entry],
    ghost some: { 1 ≤ length variables.now },
    ghost few: { length variables.now ≤ 32 },
    ghost listed: { length operators.now ≤ 256 },
    ghost stored: { length entries.now ≤ 4096 },
    ghost variables_fit: { VariablesFit (length text.now) variables.now },
    ghost goal_fits: { EntriesFit variables.now goal.now },
    ghost goal_distinct: { Distinct goal.now },
    ghost operators_fit: { OperatorsFit (length text.now) (length entries.now) operators.now },
    ghost entries_fit: { EntriesFit variables.now entries.now },
    ghost required_fit: { RequiredFit variables.now entries.now },
    ghost operators_distinct: { ∥ OperatorsDistinct entries.now operators.now ∥₁ },
}
