// The level of a row: the rows of its processor with its priority or a greater one, gathered side by side.

ghost use Rattle.std.specs.Prelude.{◌≡◌, ℕ, ◌+◌, ◌≤◌, ◌<◌};
ghost use Rattle.table.specs.Table.{at};
ghost use Rattle.busy.specs.Collected.{count_if};
ghost use Rattle.busy.specs.Climb.{Ranged};
ghost use Rattle.busy.specs.Level.{LevelOf, chosen, chosen_by, gathered, plan_seen, pushed};

use crate::rows::Rows;
use table::view::TableView;

// Rows gathered side by side: the ones tied with the row asked about come first, then the more urgent ones. The lists are
// parallel since a clock walks over the periods and costs alone.
#[derive(Drop)]
pub(crate) struct Level {
    pub(crate) tied: usize,
    pub(crate) count: usize,
    pub(crate) index: [u64; 128],
    pub(crate) period: [u64; 128],
    pub(crate) cost: [u64; 128],
    pub(crate) ghost ranged: { Ranged count period cost },
    pub(crate) ghost tied_in: { tied ≤ count },
}

// Whether a row of this processor and priority is tied with one of `place` and `rank`, or else is more urgent there.
#[tactic(auto, unfolding(crate::specs::Level::chosen))]
fn is_chosen(processor: u64, priority: u64, place: u64, rank: u64, tied: bool) -> bool
    ensures { result ≡ chosen processor priority place rank tied }
{
    if processor != place {
        return false;
    }
    if tied {
        return priority == rank;
    }
    rank < priority
}

impl Level {
    ghost use Rattle.busy.specs.Held.{level_in};

    // A level of no rows.
    pub(crate) fn empty() -> Level {
        Level {
            tied: 0,
            count: 0,
            index: [0; 128],
            period: [0; 128],
            cost: [0; 128],
        }
    }

    // One row more.
    fn push(&mut self, row: u64, period: u64, cost: u64)
        requires room { self.old.count < 128 }
        requires period_in { (1 ≤ period) × (period ≤ 1000000) }
        requires cost_in { (1 ≤ cost) × (cost ≤ 1000000) }
        ensures { level_in self.new ≡ pushed row period cost (level_in self.old) }
    {
        self.index[self.count] = row;
        self.period[self.count] = period;
        self.cost[self.count] = cost;
        self.count += 1;
    }

    // Gathers the rows tied with row `row`, or else the more urgent ones, behind those that it has.
    fn gather<T: TableView>(&mut self, rows: &Rows<'_, T>, row: usize, tied: bool)
        requires row_in { row < rows.now.count }
        requires room { self.old.count + count_if rows.now.count (chosen_by (T.table rows.now.table.now) row tied) ≤ 128 }
        ensures { level_in self.new ≡ gathered (chosen_by (T.table rows.now.table.now) row tied) rows.now.periods.now (T.table rows.now.table.now).time rows.now.count (level_in self.old) }
    {
        let place = rows.table.processor(row);
        let rank = rows.table.priority(row);
        for k in 0..rows.count {
            let processor = rows.table.processor(k);
            if is_chosen(processor, rows.table.priority(k), place, rank, tied) {
                self.push(k as u64, rows.periods[k], rows.table.time(k));
            }
        }
    }

    // Gathers the level of row `row`.
    pub(crate) fn gather_for<T: TableView>(&mut self, rows: &Rows<'_, T>, row: usize)
        requires { row < rows.now.count }
        ensures { LevelOf (plan_seen rows.now.count rows.now.periods.now (T.table rows.now.table.now)) row (level_in self.new) }
    {
        self.tied = 0;
        self.count = 0;
        self.gather(rows, row, true);
        self.tied = self.count;
        self.gather(rows, row, false);
    }
}
