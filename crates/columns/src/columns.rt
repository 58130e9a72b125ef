// The columns of a table, and its records: one for each task, one for each row.

ghost use Rattle.std.specs.Prelude.{◌≡◌};
ghost use Rattle.columns.specs.Columns.{blank_of, chain_of, row_of, table_in, with_chain, with_row};

use planned::check::long_enough;
use table::view::TableView;

// The numbers of one task.
#[derive(Clone, Copy)]
pub struct Chain {
    pub period: u64,
    pub deadline: u64,
    pub steps: u64,
}

// What a place without a task reads as. No Option: `chain_of` and `chain_at` say 0 there, which no range of a period has.
pub const NO_CHAIN: Chain = Chain {
    period: 0,
    deadline: 0,
    steps: 0,
};

// The numbers of one row.
#[derive(Clone, Copy)]
pub struct Row {
    pub processor: u64,
    pub priority: u64,
    pub time: u64,
}

// What a place without a row reads as. No Option: `row_of` and `row_at` say 0 there, which no range of a time has.
pub const NO_ROW: Row = Row {
    processor: 0,
    priority: 0,
    time: 0,
};

// A table's counts and columns.
// Lists in parallel, as `Table` names them, and of fixed size: there is no heap.
#[derive(Clone, Copy)]
pub struct Columns {
    pub processors: u64,
    pub tasks: u64,
    pub period: [u64; 32],
    pub deadline: [u64; 32],
    pub steps: [u64; 32],
    pub processor: [u64; 128],
    pub priority: [u64; 128],
    pub time: [u64; 128],
}

impl Columns {
    // The counts, and no record yet.
    pub fn blank(processors: u64, tasks: u64) -> Columns
        ensures { result ≡ blank_of processors tasks }
    {
        Columns {
            processors,
            tasks,
            period: [0; 32],
            deadline: [0; 32],
            steps: [0; 32],
            processor: [0; 128],
            priority: [0; 128],
            time: [0; 128],
        }
    }

    // The columns with this record for the task of this place, counted from 0; a place that no column has changes nothing.
    // Apart from `with_row`, for tasks and for rows: the bodies share only the test of the place, and one generic body is no plainer.
    pub fn with_chain(self, place: usize, chain: Chain) -> Columns
        ensures { result ≡ with_chain self place chain }
    {
        if 32 <= place {
            return self;
        }
        let mut next = self;
        next.period[place] = chain.period;
        next.deadline[place] = chain.deadline;
        next.steps[place] = chain.steps;
        next
    }

    // The columns with this record for the row of this place, counted from 0; a place that no column has changes nothing.
    pub fn with_row(self, place: usize, row: Row) -> Columns
        ensures { result ≡ with_row self place row }
    {
        if 128 <= place {
            return self;
        }
        let mut next = self;
        next.processor[place] = row.processor;
        next.priority[place] = row.priority;
        next.time[place] = row.time;
        next
    }

    // The record of the task of this place, counted from 0; all 0 at a place that no column has.
    // Apart from `row_of`, for tasks and for rows: the bodies share only the test of the place, and one generic body is no plainer.
    pub fn chain_of(&self, place: usize) -> Chain
        ensures { result ≡ chain_of self.now place }
    {
        if 32 <= place {
            return NO_CHAIN;
        }
        Chain {
            period: self.period[place],
            deadline: self.deadline[place],
            steps: self.steps[place],
        }
    }

    // The record of the row of this place, counted from 0; all 0 at a place that no column has.
    pub fn row_of(&self, place: usize) -> Row
        ensures { result ≡ row_of self.now place }
    {
        if 128 <= place {
            return NO_ROW;
        }
        Row {
            processor: self.processor[place],
            priority: self.priority[place],
            time: self.time[place],
        }
    }
}

impl TableView for Columns {
    ghost table = { table_in };

    fn processors(&self) -> u64 {
        self.processors
    }

    fn tasks(&self) -> u64 {
        self.tasks
    }

    fn tasks_held(&self, n: usize) -> bool {
        long_enough(n, &self.period, &self.deadline, &self.steps)
    }

    fn times_held(&self, n: usize) -> bool {
        let times: &[u64] = &self.time;
        n <= times.len()
    }

    fn rows_held(&self, n: usize) -> bool {
        long_enough(n, &self.processor, &self.priority, &self.time)
    }

    fn period(&self, task: usize) -> u64 {
        self.period[task]
    }

    fn deadline(&self, task: usize) -> u64 {
        self.deadline[task]
    }

    fn steps(&self, task: usize) -> u64 {
        self.steps[task]
    }

    fn processor(&self, row: usize) -> u64 {
        self.processor[row]
    }

    fn priority(&self, row: usize) -> u64 {
        self.priority[row]
    }

    fn time(&self, row: usize) -> u64 {
        self.time[row]
    }
}
