// Lists for a table, and what is asked of the table that they hold.

use planfile::lists::TableListsMut;
use planfile::read::{Counts, read};
use planfile::write::write;
use planned::lists::TableLists;
use planned::rows::count_rows;
use table::refusal::Refusal;

// What each entry holds before a file is read.
const UNTOUCHED: u64 = 7;

// Lists with room for T tasks and R rows.
// Lists in parallel, as `Table` names them and `TableListsMut` takes them, and of fixed size: there is no heap.
#[derive(Drop)]
pub(crate) struct Sheet<const T: usize, const R: usize> {
    pub(crate) period: [u64; T],
    pub(crate) deadline: [u64; T],
    pub(crate) steps: [u64; T],
    pub(crate) processor: [u64; R],
    pub(crate) priority: [u64; R],
    pub(crate) time: [u64; R],
}

impl<const T: usize, const R: usize> Sheet<T, R> {
    // Lists in which nothing is read yet.
    pub(crate) fn untouched() -> Sheet<T, R> {
        Sheet {
            period: [UNTOUCHED; T],
            deadline: [UNTOUCHED; T],
            steps: [UNTOUCHED; T],
            processor: [UNTOUCHED; R],
            priority: [UNTOUCHED; R],
            time: [UNTOUCHED; R],
        }
    }

    // Reads a file into the lists.
    pub(crate) fn read(&mut self, file: &[u8]) -> Result<Counts, Refusal> {
        let mut lists = TableListsMut {
            period: &mut self.period,
            deadline: &mut self.deadline,
            steps: &mut self.steps,
            processor: &mut self.processor,
            priority: &mut self.priority,
            time: &mut self.time,
        };
        read(file, &mut lists)
    }

    // The table of these counts that the lists hold.
    pub(crate) fn table(&self, processors: u64, tasks: u64) -> TableLists<'_> {
        TableLists {
            processors,
            tasks,
            period: &self.period,
            deadline: &self.deadline,
            steps: &self.steps,
            processor: &self.processor,
            priority: &self.priority,
            time: &self.time,
        }
    }

    // Whether all entries past so many tasks and rows are untouched.
    pub(crate) fn stayed(&self, tasks: usize, rows: usize) -> bool {
        stayed(&self.period, tasks, UNTOUCHED)
            && stayed(&self.deadline, tasks, UNTOUCHED)
            && stayed(&self.steps, tasks, UNTOUCHED)
            && stayed(&self.processor, rows, UNTOUCHED)
            && stayed(&self.priority, rows, UNTOUCHED)
            && stayed(&self.time, rows, UNTOUCHED)
    }
}

// Whether the entries from the place on are as they were.
pub(crate) fn stayed<E: PartialEq + Copy>(list: &[E], from: usize, untouched: E) -> bool {
    list.iter().skip(from).all(|entry| *entry == untouched)
}

// How many rows the table has; 0 if it is no plan.
// No Result: only a table that was read is asked about, and an arm for a refusal that can't come is no plainer.
pub(crate) fn rows_of(table: &TableLists<'_>) -> usize {
    count_rows(table).unwrap_or(0) as usize
}

// Whether the table is written back to the same bytes.
pub(crate) fn writes_back(file: &[u8], table: &TableLists<'_>) -> bool {
    let mut out = [0u8; 8192];
    match write(table, &mut out) {
        Ok(bytes) => out.get(..bytes as usize) == Some(file),
        Err(_) => false,
    }
}
