// Bound and slack of each chain, and whether the plan is accepted.

ghost use Rattle.std.specs.Prelude.{◌≡◌, ℕ, ◌+◌, ◌≤◌, ◌<◌, length, pos, ◌-ℤ◌};
ghost use Rattle.facts.specs.Filled.{filled};
ghost use Rattle.facts.specs.Sums.{sum};
ghost use Rattle.table.specs.Table.{at};
ghost use Rattle.bounds.specs.Bounds.{accepted, chain_bound, lists_of, slack_of};
ghost use Rattle.bounds.specs.Chains.{Chained, bounds_of};
ghost use Rattle.bounds.specs.Held.{lists_in, names_in};

use crate::lists::BoundLists;
use table::deadline::in_force;
use table::view::TableView;

// What is left of the deadline: signed, since the bound may be the greater.
fn slack_of(deadline: u64, bound: u64) -> i64
    requires { (deadline ≤ 160000000) × (bound ≤ 160000000) }
    ensures { result ≡ pos deadline -ℤ pos bound }
{
    (deadline as i64) - (bound as i64)
}

impl<'a> BoundLists<'a> {
    // The bounds of `steps` rows together, from row `first` on.
    fn chain_bound(&self, first: usize, steps: usize) -> u64
        requires { (first + steps ≤ 128) × (first + steps ≤ length self.now.bounds.now) × (steps ≤ 16) × ((i : ℕ) → i < first + steps → at self.now.bounds.now i ≤ 10000000) }
        ensures { (result ≡ sum steps (λ s. at self.now.bounds.now (first + s))) × (result ≤ 160000000) }
    {
        let mut all: u64 = 0;
        for step in 0..steps {
            all += self.bounds[first + step];
        }
        all
    }

    // Fills the task lists from the rows' bounds, and says whether every slack is zero or more.
    pub(crate) fn fill_chains<T: TableView>(&mut self, table: &T) -> bool
        requires chained { Chained (T.table table.now) self.old.bounds.now }
        requires room { ((T.table table.now).tasks ≤ length self.old.chains.now) × ((T.table table.now).tasks ≤ length self.old.slack.now) }
        ensures same_place { names_in self.new ≡ names_in self.old }
        ensures lists { lists_in self.new ≡ lists_of self.old.busy.now self.old.instances.now self.old.bounds.now (filled (chain_bound (T.table table.now) (bounds_of self.old.bounds.now)) (T.table table.now).tasks self.old.chains.now) (filled (slack_of (T.table table.now) (bounds_of self.old.bounds.now)) (T.table table.now).tasks self.old.slack.now) }
        ensures accepted { result ≡ accepted (T.table table.now) (bounds_of self.old.bounds.now) }
    {
        let tasks = table.tasks() as usize;
        let mut accepted = true;
        let mut first: usize = 0;
        for i in 0..tasks {
            let count = table.steps(i) as usize;
            let bound = self.chain_bound(first, count);
            let left = slack_of(in_force(table.period(i), table.deadline(i)), bound);
            self.chains[i] = bound;
            self.slack[i] = left;
            if left < 0 {
                accepted = false;
            }
            first += count;
        }
        accepted
    }
}
