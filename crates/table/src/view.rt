// What holds a table: number lists, columns by value, or records.

ghost use Rattle.std.specs.Prelude.{◌≡◌, ℕ, ◌≤◌, ◌<◌, leb, length};
ghost use Rattle.table.specs.Table.{Table, at, first_row, long_enough};

pub trait TableView {
    // The table that it holds.
    ghost table: { Self → Table };

    fn processors(&self) -> u64
        ensures { result ≡ (table self.now).processors };

    fn tasks(&self) -> u64
        ensures { result ≡ (table self.now).tasks };

    // Whether the lists of the tasks have so many entries.
    fn tasks_held(&self, n: usize) -> bool
        ensures { result ≡ long_enough n (table self.now).period (table self.now).deadline (table self.now).steps };

    // Whether the list of the rows' times has so many entries.
    fn times_held(&self, n: usize) -> bool
        ensures { result ≡ leb n (length (table self.now).time) };

    // Whether the lists of the rows have so many entries.
    fn rows_held(&self, n: usize) -> bool
        ensures { result ≡ long_enough n (table self.now).processor (table self.now).priority (table self.now).time };

    fn period(&self, task: usize) -> u64
        requires { task < length (table self.now).period }
        ensures { result ≡ at (table self.now).period task };

    fn deadline(&self, task: usize) -> u64
        requires { task < length (table self.now).deadline }
        ensures { result ≡ at (table self.now).deadline task };

    fn steps(&self, task: usize) -> u64
        requires { task < length (table self.now).steps }
        ensures { result ≡ at (table self.now).steps task };

    fn processor(&self, row: usize) -> u64
        requires { row < length (table self.now).processor }
        ensures { result ≡ at (table self.now).processor row };

    fn priority(&self, row: usize) -> u64
        requires { row < length (table self.now).priority }
        ensures { result ≡ at (table self.now).priority row };

    fn time(&self, row: usize) -> u64
        requires { row < length (table self.now).time }
        ensures { result ≡ at (table self.now).time row };

    // The rows before a task: its first row, counted from 0. The steps are those of a plan.
    #[tactic(auto, using(crate::proofs::FirstRows::first_row_zero, crate::proofs::FirstRows::first_row_more))]
    final fn first_row(&self, task: usize) -> u64
        requires few { task ≤ 32 }
        requires long { task ≤ length (table self.now).steps }
        requires most { (i : ℕ) → i < task → at (table self.now).steps i ≤ 16 }
        ensures { result ≡ first_row (table self.now) task }
    {
        let mut row = 0;
        for i in 0..task {
            row += self.steps(i);
        }
        row
    }
}
