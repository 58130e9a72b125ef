// The work that the rows of a level ask for as the clock moves on.

ghost use Rattle.std.specs.Prelude.{◌≡◌, ℕ, ◌≤◌, ◌<◌};
ghost use Rattle.facts.specs.Rounding.{ceil};
ghost use Rattle.table.specs.Table.{at};
ghost use Rattle.busy.specs.Climb.{Advanced, Begun};

use crate::level::Level;

// Of each row, the clock after which its next instance comes, and the work of its instances behind the one that is sought.
// The lists are parallel since the clock walks over `due` alone until something comes.
#[derive(Drop)]
pub(crate) struct Clock {
    pub(crate) due: [u64; 128],
    pub(crate) later: [u64; 128],
}

// How many periods begin in so many ticks. Most clocks move on by less than a period: those need no division.
// What is known of `period` is a clause: it bounds one number, and a struct of one field is no plainer.
pub(crate) fn periods_in(ticks: u64, period: u64) -> u64
    requires { (0 < ticks) × (ticks ≤ 10000000) × (0 < period) × (period ≤ 1000000) }
    ensures { result ≡ ceil ticks period }
{
    if ticks <= period {
        return 1;
    }
    ticks.div_ceil(period)
}

impl Clock {
    pub(crate) fn new() -> Clock {
        Clock {
            due: [0; 128],
            later: [0; 128],
        }
    }

    // The first instance of each row comes: its work, and the clock after which the row's next one comes. Times are 1 or
    // more: the test is there for speed. Without it the stores become calls of memcpy and memset, too dear for a level of
    // few rows.
    pub(crate) fn start(&mut self, level: &Level) -> u64
        ensures { Begun level.now.count level.now.period level.now.cost self.old.due self.old.later self.new.due self.new.later result }
    {
        let mut work: u64 = 0;
        for i in 0..level.count {
            if 0 < level.cost[i] {
                self.due[i] = level.period[i];
                self.later[i] = 0;
                work += level.cost[i];
            }
        }
        work
    }

    // The clock moves on to t: the work that comes by then and has not come before. The bounds take nearly all their time here.
    // Never inlined, for speed: its jumps are the faster or slower by where they lie, and in a function of its own they lie well.
    #[inline(never)]
    pub(crate) fn advance(&mut self, level: &Level, t: u64) -> u64
        requires within { t ≤ 10000000 }
        requires by_index { (i : ℕ) → i < level.now.count → at self.old.later i ≤ 10000000000000 }
        ensures { Advanced level.now.count t level.now.period level.now.cost self.old.due self.old.later self.new.due self.new.later result }
    {
        let mut fresh: u64 = 0;
        for i in 0..level.count {
            let was = self.due[i];
            if was < t {
                let came = periods_in(t - was, level.period[i]);
                let work = came * level.cost[i];
                self.due[i] = was + came * level.period[i];
                self.later[i] += work;
                fresh += work;
            }
        }
        fresh
    }
}
