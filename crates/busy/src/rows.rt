// The rows of a plan as the analysis reads them.

ghost use Rattle.busy.specs.Level.{Usable};

use table::view::TableView;

// What a table holds of its plan's rows, and the period that each row takes from its task.
#[derive(Drop)]
pub(crate) struct Rows<'a, T: TableView> {
    pub(crate) table: &'a T,
    pub(crate) count: usize,
    pub(crate) periods: &'a [u64; 128],
    pub(crate) ghost usable: { Usable count periods.now (T.table table.now).processor (T.table table.now).priority (T.table table.now).time },
}
