// The lists that a plan's bounds are filled into.

ghost use Rattle.std.specs.Prelude.{◌≡◌, ◌<◌, IfErr, OnOk};
ghost use Rattle.table.specs.declared.refusal.Refusal.TheVariants.{TooShort};
ghost use Rattle.busy.specs.Numbering.{Numbering, row_lists_of};
ghost use Rattle.bounds.specs.Held.{lists_in, names_in};
ghost use Rattle.bounds.specs.Room.{needed_for};

use busy::lists::RowLists;
use busy::row_bounds;
use planned::check::long_enough;
use table::refusal::Refusal;
use table::view::TableView;

// Five lent lists: three with an entry for each row, and two with an entry for each task.
// Lists in parallel, as callers lend them and `Lists` (specs/Bounds.antt) names them.
#[derive(Drop)]
pub struct BoundLists<'a> {
    pub busy: &'a mut [u64],
    pub instances: &'a mut [u64],
    pub bounds: &'a mut [u64],
    pub chains: &'a mut [u64],
    pub slack: &'a mut [i64],
}

impl<'a> BoundLists<'a> {
    // Refuses lists that are too short for so many rows and tasks: it says what the first short one needs, row lists before
    // task lists.
    #[tactic(auto, unfolding(crate::specs::Room::needed_for, table::specs::Table::long_enough))]
    pub(crate) fn check_room(&self, rows: u64, tasks: u64) -> Result<(), Refusal>
        ensures room { OnOk result (needed_for rows tasks (lists_in self.now) ≡ 0) }
        ensures short { IfErr result (λ r. (r ≡ TooShort (needed_for rows tasks (lists_in self.now))) × (0 < needed_for rows tasks (lists_in self.now))) }
    {
        let count = rows as usize;
        if !long_enough(count, self.busy, self.instances, self.bounds) {
            return Err(Refusal::TooShort(rows));
        }
        let chained = tasks as usize;
        if self.chains.len() < chained {
            return Err(Refusal::TooShort(tasks));
        }
        if self.slack.len() < chained {
            return Err(Refusal::TooShort(tasks));
        }
        Ok(())
    }

    // Fills the row lists; a refusal leaves them as they are.
    pub(crate) fn fill_rows<T: TableView>(&mut self, table: &T) -> Result<u64, Refusal>
        ensures same_place { names_in self.new ≡ names_in self.old }
        ensures stay { (self.new.chains.now ≡ self.old.chains.now) × (self.new.slack.now ≡ self.old.slack.now) }
        ensures outcome { Numbering (T.table table.now) (row_lists_of self.old.busy.now self.old.instances.now self.old.bounds.now) (row_lists_of self.new.busy.now self.new.instances.now self.new.bounds.now) result }
    {
        let mut rows = RowLists {
            busy: &mut *self.busy,
            instances: &mut *self.instances,
            bounds: &mut *self.bounds,
        };
        row_bounds(table, &mut rows)
    }
}
