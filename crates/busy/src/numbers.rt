// The numbers of all rows: busy length, instances and bound.

ghost use Rattle.std.specs.Prelude.{ℕ, ◌≤◌, ◌<◌, IfErr, OnOk};
ghost use Rattle.table.specs.Table.{at};
ghost use Rattle.busy.specs.Climb.{Zeros};
ghost use Rattle.busy.specs.Level.{Analysed, Laid, Stopped, plan_seen};

use crate::clock::{Clock, periods_in};
use crate::ends::Ends;
use crate::level::Level;
use crate::rows::Rows;
use table::refusal::Refusal;
use table::view::TableView;

// The longest busy length that counts.
const LIMIT: u64 = 10000000;

// The numbers of each row that has some, and 0 as the busy length of each other: three lists, as `row_bounds` fills three.
#[derive(Drop)]
pub(crate) struct Numbers {
    pub(crate) busy: [u64; 128],
    pub(crate) instances: [u64; 128],
    pub(crate) bounds: [u64; 128],
}

impl Numbers {
    pub(crate) fn none() -> Numbers
        ensures { Zeros result.busy }
    {
        Numbers {
            busy: [0; 128],
            instances: [0; 128],
            bounds: [0; 128],
        }
    }

    // Lays the numbers of a level's tied rows, where `span` is its busy length and `best` has their bounds.
    fn lay(&mut self, level: &Level, span: u64, best: &[u64; 128])
        requires span_in { (0 < span) × (span ≤ 10000000) }
        requires places { (i : ℕ) → i < level.now.tied → at level.now.index i < 128 }
        ensures { Laid level.now.tied span level.now.index level.now.period best.now self.old.busy self.old.instances self.old.bounds self.new.busy self.new.instances self.new.bounds }
    {
        for i in 0..level.tied {
            let row = level.index[i] as usize;
            self.busy[row] = span;
            self.instances[row] = periods_in(span, level.period[i]);
            self.bounds[row] = best[i];
        }
    }

    // Solves the rows in turn, up to the first that has no busy length: both loops are left with that row's number. Tied
    // rows have one busy length: they are solved together, at the first of them. The clock climbs to it from 1, each time
    // to all the work that is asked for by then, until no more is.
    pub(crate) fn solve_all<T: TableView>(&mut self, rows: &Rows<'_, T>) -> Result<(), Refusal>
        requires { Zeros self.old.busy }
        ensures solved { OnOk result (Analysed (plan_seen rows.now.count rows.now.periods.now (T.table rows.now.table.now)) self.new.busy self.new.instances self.new.bounds rows.now.count) }
        ensures stuck { IfErr result (λ r. Stopped (plan_seen rows.now.count rows.now.periods.now (T.table rows.now.table.now)) self.new.busy self.new.instances self.new.bounds r) }
    {
        let mut level = Level::empty();
        let mut clock = Clock::new();
        let mut ends = Ends::new();
        // Both loops are left by the label, with the row's number: document 01 names this form.
        'rows: {
            for row in 0..rows.count {
                // 0 is no busy length: `Zeros` (specs/Climb.antt) and `Partly` (specs/Level.antt) say so, and an Option of each would double the list.
                if self.busy[row] != 0 {
                    continue;
                }
                level.gather_for(rows, row);
                let mut t: u64 = 1;
                let mut work = clock.start(&level);
                while work != t {
                    if LIMIT < work {
                        break 'rows Err(Refusal::NoBusyLength(row as u64 + 1));
                    }
                    t = work;
                    work += clock.advance(&level, t);
                }
                ends.find(&level, t, &mut clock);
                self.lay(&level, t, &ends.best);
            }
            Ok(())
        }
    }
}
