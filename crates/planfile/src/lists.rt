// The six lists of a table, lent to be filled.

ghost use Rattle.std.specs.Prelude.{◌≡◌, ◌≤◌, length, take};
ghost use Rattle.facts.specs.Filled.{laid};
ghost use Rattle.table.specs.Table.{long_enough};
ghost use Rattle.planned.specs.Lists.{table_in_lists};
ghost use Rattle.planfile.specs.Answered.{table_in};
ghost use Rattle.planfile.specs.Lent.{lists_in, places};
ghost use Rattle.planfile.specs.Reader.{laid_front, stored};
ghost use Rattle.planfile.specs.StoreLaws.{Fronts, Slots};

use crate::due::Due;
use crate::read::Counts;
use planned::check::long_enough;
use planned::lists::TableLists;
use table::keys;

// Lists in parallel, as callers lend them and `Lists` (specs/Reading.antt) names them.
#[derive(Drop)]
pub struct TableListsMut<'a> {
    pub period: &'a mut [u64],
    pub deadline: &'a mut [u64],
    pub steps: &'a mut [u64],
    pub processor: &'a mut [u64],
    pub priority: &'a mut [u64],
    pub time: &'a mut [u64],
}

// Lays the first entries of a list over the front of another.
#[tactic(auto, using(crate::specs::StoreLaws::laid_copied))]
fn lay(from: &[u64], count: usize, over: &mut [u64])
    requires { (count ≤ length from.now) × (count ≤ length over.old) }
    ensures { over.new ≡ laid (take count from.now) over.old }
{
    over[..count].copy_from_slice(&from[..count]);
}

impl<'a> TableListsMut<'a> {
    // The table of these counts in the lists.
    pub fn table(&self, counts: Counts) -> TableLists<'_>
        ensures { table_in_lists result ≡ table_in counts (lists_in self.now) }
    {
        TableLists {
            processors: counts.processors,
            tasks: counts.tasks,
            period: self.period,
            deadline: self.deadline,
            steps: self.steps,
            processor: self.processor,
            priority: self.priority,
            time: self.time,
        }
    }

    // Whether the lists of the tasks have so many entries.
    pub(crate) fn tasks_held(&self, n: usize) -> bool
        ensures { result ≡ long_enough n self.now.period.now self.now.deadline.now self.now.steps.now }
    {
        long_enough(n, self.period, self.deadline, self.steps)
    }

    // Whether the lists of the rows have so many entries.
    pub(crate) fn rows_held(&self, n: usize) -> bool
        ensures { result ≡ long_enough n self.now.processor.now self.now.priority.now self.now.time.now }
    {
        long_enough(n, self.processor, self.priority, self.time)
    }

    // Stores the value of a key in the key's list, at the task or the row that is due.
    #[inline(always)]
    #[tactic(auto, using(crate::specs::StoreLaws::stored_period, crate::specs::StoreLaws::stored_deadline, crate::specs::StoreLaws::stored_steps, crate::specs::StoreLaws::stored_processor, crate::specs::StoreLaws::stored_priority, crate::specs::StoreLaws::stored_time, crate::specs::StoreLaws::stored_nowhere))]
    pub(crate) fn store(&mut self, key: usize, due: &Due, value: u64)
        requires { Slots due.now (lists_in self.old) × (key ≡ due.now.key) }
        ensures same_place { places self.new ≡ places self.old }
        ensures lists { lists_in self.new ≡ stored due.now.key due.now.task due.now.row value (lists_in self.old) }
    {
        let task = due.task as usize;
        let row = due.row as usize;
        match key {
            keys::PERIOD => {
                self.period[task] = value;
            }
            keys::DEADLINE => {
                self.deadline[task] = value;
            }
            keys::STEPS => {
                self.steps[task] = value;
            }
            keys::PROCESSOR => {
                self.processor[row] = value;
            }
            keys::PRIORITY => {
                self.priority[row] = value;
            }
            keys::TIME => {
                self.time[row] = value;
            }
            _ => {}
        }
    }

    // Lays the first entries of other lists over the fronts of these.
    #[tactic(auto, unfolding(crate::specs::Reader::laid_front))]
    pub(crate) fn lay(&mut self, from: &TableListsMut<'_>, tasks: usize, rows: usize)
        requires from { Fronts tasks rows (lists_in from.now) }
        requires over { Fronts tasks rows (lists_in self.old) }
        ensures same_place { places self.new ≡ places self.old }
        ensures lists { lists_in self.new ≡ laid_front tasks rows (lists_in from.now) (lists_in self.old) }
    {
        lay(from.period, tasks, self.period);
        lay(from.deadline, tasks, self.deadline);
        lay(from.steps, tasks, self.steps);
        lay(from.processor, rows, self.processor);
        lay(from.priority, rows, self.priority);
        lay(from.time, rows, self.time);
    }
}
