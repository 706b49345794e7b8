ghost use Rattle.task.specs.Model.{model};
ghost use Rattle.abstraction.specs.Standing.{Stands};
ghost use Rattle.abstraction.specs.Lawful.Standing.{stands-prop};

use super::part::AbstractOperator;
use super::place::Place;
use task::task::Task;

// A task cut down to a pattern: what each place of the pattern has, and each operator cut down to it.
#[derive(Drop)]
pub struct AbstractTask<'a> {
    pub task: &'a Task<'a>,
    pub pattern: &'a [u8],
    pub places: [Place; 8],
    pub operators: [AbstractOperator; 256],
    pub ghost stands: { Stands (model task.now) pattern.now places operators } by { stands-prop (model task.now) pattern.now places operators },
}
