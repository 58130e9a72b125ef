// The ends of the instances of tied rows, and with them the rows' bounds.

ghost use Rattle.std.specs.Prelude.{◌≡◌, ℕ, max, ◌-◌, ◌≤◌, ◌<◌};
ghost use Rattle.facts.specs.Filled.{filled};
ghost use Rattle.facts.specs.Least.{Least};
ghost use Rattle.table.specs.Table.{at};
ghost use Rattle.busy.specs.Climb.{Settled, Sought};
ghost use Rattle.busy.specs.Level.{TiedBounds, level_work};
ghost use Rattle.busy.specs.Held.{level_in};

use crate::clock::Clock;
use crate::level::Level;

// Of each tied row, when the instance that is sought begins, and the greatest bound of those before it: lists in parallel,
// since most turns of the clock read neither.
#[derive(Drop)]
pub(crate) struct Ends {
    pub(crate) begin: [u64; 128],
    pub(crate) best: [u64; 128],
}

impl Ends {
    pub(crate) fn new() -> Ends {
        Ends {
            begin: [0; 128],
            best: [0; 128],
        }
    }

    // Of each tied row one instance is sought: it ends where all work is done but that of the row's own later instances. One
    // that ends at t has its bound, and the row's next is sought. Answers a clock after t before which none of them ends.
    fn settle(&mut self, level: &Level, t: u64, work: u64, later: &mut [u64; 128]) -> u64
        requires within { t ≤ 10000000 }
        requires sought { Sought level.now.tied t work level.now.cost later.old self.old.begin }
        ensures { Settled level.now.tied t work level.now.period level.now.cost later.old self.old.begin self.old.best later.new self.new.begin self.new.best result }
    {
        let mut next = work;
        for i in 0..level.tied {
            if work - later[i] == t {
                self.best[i] = self.best[i].max(t - self.begin[i]);
                self.begin[i] += level.period[i];
                later[i] -= level.cost[i];
            }
            next = next.min(work - later[i]);
        }
        next
    }

    // The last instance of each tied row ends with the busy length.
    fn settle_last(&mut self, level: &Level, span: u64)
        requires { (i : ℕ) → i < level.now.tied → at self.old.begin i ≤ span }
        ensures { self.new.best ≡ filled (λ i. max (at self.old.best i) (span - at self.old.begin i)) level.now.tied self.old.best }
    {
        for i in 0..level.tied {
            self.best[i] = self.best[i].max(span - self.begin[i]);
        }
    }

    // The first instance of each tied row is sought: it begins at 0, and there is no bound yet. Periods are 1 or more: the
    // test is there for speed, as in `Clock::start`.
    fn seek_first(&mut self, level: &Level)
        ensures { (self.new.begin ≡ filled (λ i. 0) level.now.tied self.old.begin) × (self.new.best ≡ filled (λ i. 0) level.now.tied self.old.best) }
    {
        for i in 0..level.tied {
            if 0 < level.period[i] {
                self.begin[i] = 0;
                self.best[i] = 0;
            }
        }
    }

    // The clock climbs to the busy length, `span`, past every end of an instance of a tied row: `best` has their bounds.
    // Never inlined, for speed, as `Clock::advance`.
    #[inline(never)]
    pub(crate) fn find(&mut self, level: &Level, span: u64, clock: &mut Clock)
        requires any { 0 < level.now.count }
        requires busy { Least (level_work (level_in level.now)) span × (span ≤ 10000000) }
        ensures { TiedBounds (level_in level.now) span self.new.best }
    {
        self.seek_first(level);
        let mut t: u64 = 1;
        let mut work = clock.start(level);
        while t < span {
            t = self.settle(level, t, work, &mut clock.later);
            work += clock.advance(level, t);
        }
        self.settle_last(level, span);
    }
}
