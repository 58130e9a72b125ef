// Which line is due, and which follows it.

ghost use Rattle.std.specs.Prelude.{◌≡◌, ◌≤◌};
ghost use Rattle.planfile.specs.Due.{begun, next_key, own_number, past};
ghost use Rattle.planfile.specs.DueLaws.{Few};

use table::keys;

// The key due and the counts so far: processors, tasks, tasks with a `steps` line, rows with a `time` line, rows asked for.
// No ghost field for `Few`: the definitions `begun` and `past` build a `Due` of numbers alone, and `past` from any value.
#[derive(Clone, Copy)]
pub struct Due {
    pub key: usize,
    pub processors: u64,
    pub tasks: u64,
    pub task: u64,
    pub row: u64,
    pub asked: u64,
}

// The first line's.
pub(crate) fn first() -> Due
    ensures { result ≡ begun }
{
    Due {
        key: keys::PLAN,
        processors: 0,
        tasks: 0,
        task: 0,
        row: 0,
        asked: 0,
    }
}

// The plan's own number for the range of the key due.
// The key stands beside `due`, here and below: reading gives a constant, so that each key's line is compiled by itself.
#[inline(always)]
#[tactic(auto, unfolding(crate::specs::Due::own_number))]
pub(crate) fn own_number(key: usize, due: &Due) -> u64
    requires { Few due.now × (key ≡ due.now.key) }
    ensures { result ≡ own_number due.now }
{
    if key == keys::TASK {
        return due.task + 1;
    }
    due.processors
}

// What is due behind the line with this value.
#[inline(always)]
#[tactic(auto, unfolding(crate::specs::Due::past, crate::specs::Due::keyed, crate::specs::Due::counted))]
pub(crate) fn advance(key: usize, due: &Due, value: u64) -> Due
    requires { Few due.now × (value ≤ 1000000000) × (key ≡ due.now.key) }
    ensures { result ≡ past due.now value }
{
    let mut next = *due;
    match key {
        keys::PROCESSORS => {
            next.processors = value;
        }
        keys::TASKS => {
            next.tasks = value;
        }
        keys::STEPS => {
            next.task = due.task + 1;
            next.asked = due.asked + value;
        }
        keys::TIME => {
            next.row = due.row + 1;
        }
        _ => {}
    }
    next.key = next_key(key, &next);
    next
}

// The key that follows: after a row's `time` the task's next row, else the next task, else none; after any other key the
// next in order.
#[inline(always)]
#[tactic(auto, unfolding(crate::specs::Due::next_key))]
fn next_key(key: usize, due: &Due) -> usize
    requires { (due.now.key ≤ 10) × (key ≡ due.now.key) }
    ensures { result ≡ next_key due.now }
{
    match key {
        keys::TIME => {
            if due.row < due.asked {
                return keys::PROCESSOR;
            }
            if due.task < due.tasks {
                return keys::TASK;
            }
            keys::KEYS
        }
        _ => key + 1,
    }
}
