// A table in number lists.

use crate::check::long_enough;
use table::view::TableView;

// A table in six lists.
// Lists in parallel, as callers lend them and `Table` names them.
#[derive(Clone, Copy)]
pub struct TableLists<'a> {
    pub processors: u64,
    pub tasks: u64,
    pub period: &'a [u64],
    pub deadline: &'a [u64],
    pub steps: &'a [u64],
    pub processor: &'a [u64],
    pub priority: &'a [u64],
    pub time: &'a [u64],
}

impl<'a> TableView for TableLists<'a> {
    ghost use Rattle.planned.specs.Lists.{table_in_lists};

    ghost table = { table_in_lists };

    fn processors(&self) -> u64 {
        self.processors
    }

    fn tasks(&self) -> u64 {
        self.tasks
    }

    fn tasks_held(&self, n: usize) -> bool {
        long_enough(n, self.period, self.deadline, self.steps)
    }

    fn times_held(&self, n: usize) -> bool {
        n <= self.time.len()
    }

    fn rows_held(&self, n: usize) -> bool {
        long_enough(n, self.processor, self.priority, self.time)
    }

    fn period(&self, task: usize) -> u64 {
        self.period[task]
    }

    fn deadline(&self, task: usize) -> u64 {
        self.deadline[task]
    }

    fn steps(&self, task: usize) -> u64 {
        self.steps[task]
    }

    fn processor(&self, row: usize) -> u64 {
        self.processor[row]
    }

    fn priority(&self, row: usize) -> u64 {
        self.priority[row]
    }

    fn time(&self, row: usize) -> u64 {
        self.time[row]
    }
}
