// A table held as records in lent lists: one for each task, and one for each row.

use crate::getters::{chain_at, row_at};
use columns::columns::{Chain, Row};
use table::view::TableView;

// A table's counts and its records.
#[derive(Clone, Copy)]
pub struct TableRecords<'a> {
    pub processors: u64,
    pub tasks: u64,
    pub chains: &'a [Chain],
    pub rows: &'a [Row],
}

#[tactic(auto, using(crate::proofs::RecordsLemmas::tasks_held, crate::proofs::RecordsLemmas::rows_held, crate::proofs::RecordsLemmas::times_held, crate::proofs::RecordsLemmas::period_long, crate::proofs::RecordsLemmas::deadline_long, crate::proofs::RecordsLemmas::steps_long, crate::proofs::RecordsLemmas::processor_long, crate::proofs::RecordsLemmas::priority_long, crate::proofs::RecordsLemmas::time_long, crate::proofs::RecordsLemmas::processors_in, crate::proofs::RecordsLemmas::tasks_in, crate::proofs::RecordsLemmas::period_in, crate::proofs::RecordsLemmas::deadline_in, crate::proofs::RecordsLemmas::steps_in, crate::proofs::RecordsLemmas::processor_in, crate::proofs::RecordsLemmas::priority_in, crate::proofs::RecordsLemmas::time_in))]
impl<'a> TableView for TableRecords<'a> {
    ghost use Rattle.records.specs.Held.{table_in_records};

    ghost table = { table_in_records };

    fn processors(&self) -> u64 {
        self.processors
    }

    fn tasks(&self) -> u64 {
        self.tasks
    }

    // A record past the end of its list reads as 0, so that as many are held as a plan may have.
    fn tasks_held(&self, n: usize) -> bool {
        n <= 32
    }

    fn times_held(&self, n: usize) -> bool {
        n <= 128
    }

    fn rows_held(&self, n: usize) -> bool {
        n <= 128
    }

    fn period(&self, task: usize) -> u64 {
        chain_at(self.chains, task).period
    }

    fn deadline(&self, task: usize) -> u64 {
        chain_at(self.chains, task).deadline
    }

    fn steps(&self, task: usize) -> u64 {
        chain_at(self.chains, task).steps
    }

    fn processor(&self, row: usize) -> u64 {
        row_at(self.rows, row).processor
    }

    fn priority(&self, row: usize) -> u64 {
        row_at(self.rows, row).priority
    }

    fn time(&self, row: usize) -> u64 {
        row_at(self.rows, row).time
    }
}
