// The lists that the rows' numbers are filled into.

ghost use Rattle.std.specs.Prelude.{◌≡◌, ℕ, ◌≤◌, length};
ghost use Rattle.facts.specs.Filled.{filled};
ghost use Rattle.table.specs.Table.{at, long_enough};
ghost use Rattle.busy.specs.Held.{names_in, row_lists_in};
ghost use Rattle.busy.specs.Numbering.{row_lists_of};

use crate::numbers::Numbers;
use planned::check::long_enough;

// Three lent lists, each with an entry for each row.
// Lists in parallel, as callers lend them and `RowLists` (specs/Numbering.antt) names them.
#[derive(Drop)]
pub struct RowLists<'a> {
    pub busy: &'a mut [u64],
    pub instances: &'a mut [u64],
    pub bounds: &'a mut [u64],
}

impl<'a> RowLists<'a> {
    // Whether each list has an entry for each of so many rows.
    pub(crate) fn hold(&self, rows: usize) -> bool
        ensures { result ≡ long_enough rows self.now.busy.now self.now.instances.now self.now.bounds.now }
    {
        long_enough(rows, self.busy, self.instances, self.bounds)
    }

    // Fills the lists with the numbers, row by row.
    pub(crate) fn fill(&mut self, rows: usize, numbers: &Numbers)
        requires few { rows ≤ 128 }
        requires room { (rows ≤ length self.old.busy.now) × (rows ≤ length self.old.instances.now) × (rows ≤ length self.old.bounds.now) }
        ensures same_place { names_in self.new ≡ names_in self.old }
        ensures filled { row_lists_in self.new ≡ row_lists_of (filled (at numbers.now.busy) rows self.old.busy.now) (filled (at numbers.now.instances) rows self.old.instances.now) (filled (at numbers.now.bounds) rows self.old.bounds.now) }
    {
        for i in 0..rows {
            self.busy[i] = numbers.busy[i];
            self.instances[i] = numbers.instances[i];
            self.bounds[i] = numbers.bounds[i];
        }
    }
}
