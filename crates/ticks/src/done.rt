// What is wrong with a done list: 11 and 12.

ghost use Rattle.std.specs.Prelude.{◌≡◌, ℕ, suc, ◌<◌, length};
ghost use Rattle.table.specs.Table.{at};
ghost use Rattle.table.specs.declared.refusal.Refusal.TheVariants as refusal;
ghost use Rattle.ticks.specs.Done.{Marked, Timely, refusing, up_here, wrong_here};
ghost use Rattle.ticks.specs.Numbers.{number, numbers};

use guards::run::StateView;
use table::refusal::Refusal;
use table::view::TableView;

// Whether a done byte is above 1, or 1 where nothing runs.
#[tactic(auto, unfolding(crate::specs::Done::wrong_here, crate::specs::Numbers::number))]
fn is_wrong(done: u8, running: Option<usize>) -> bool
    ensures { result ≡ wrong_here done (number running) }
{
    match done {
        0 => false,
        1 => running.is_none(),
        _ => true,
    }
}

// Whether the row that runs has used all but one tick of its time and done is 0.
#[tactic(auto, unfolding(crate::specs::Done::up_here, crate::specs::Numbers::number))]
fn is_up<T: TableView, S: StateView>(table: &T, state: &S, done: u8, running: Option<usize>) -> bool
    requires { Timely (number running) (S.state state.now).used (T.table table.now).time }
    ensures { result ≡ up_here (S.state state.now).used (T.table table.now).time done (number running) }
{
    match running {
        Some(row) if done == 0 => state.used(row) + 1 == table.time(row),
        _ => false,
    }
}

// The lowest processor whose done byte is wrong is refused.
// A loop apart from that of `check_ends`: their tests read other things, and a closure would have to carry both contracts.
pub(crate) fn check_bytes(done: &[u8], running: &[Option<usize>]) -> Result<(), Refusal>
    requires { Marked (length done.now) done.now (numbers running.now) }
    ensures { result ≡ refusing (length done.now) (λ i. wrong_here (at done.now i) (at (numbers running.now) (suc i))) refusal.WrongDoneByte }
{
    for i in 0..done.len() {
        if is_wrong(done[i], running[i + 1]) {
            return Err(Refusal::WrongDoneByte(i as u64 + 1));
        }
    }
    Ok(())
}

// The lowest processor whose running row has its time used up is refused.
// Table and state are no struct: a tick holds the table shared and the state by &mut, and one made for this call alone is no plainer.
pub(crate) fn check_ends<T: TableView, S: StateView>(
    table: &T,
    state: &S,
    done: &[u8],
    running: &[Option<usize>],
) -> Result<(), Refusal>
    requires { Marked (length done.now) done.now (numbers running.now) × ((i : ℕ) → i < length done.now → Timely (at (numbers running.now) (suc i)) (S.state state.now).used (T.table table.now).time) }
    ensures { result ≡ refusing (length done.now) (λ i. up_here (S.state state.now).used (T.table table.now).time (at done.now i) (at (numbers running.now) (suc i))) refusal.TimeUsedUp }
{
    for i in 0..done.len() {
        if is_up(table, state, done[i], running[i + 1]) {
            return Err(Refusal::TimeUsedUp(i as u64 + 1));
        }
    }
    Ok(())
}
