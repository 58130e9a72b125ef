// The tables that are written.

use crate::sheet::Sheet;
use crate::show::say;
use crate::written::show_written;
use planned::lists::TableLists;

// Room for any file, and for one of two tasks and four rows.
const ROOM: usize = 8192;

const LITTLE_ROOM: usize = 256;

// A table whose tasks are alike and whose rows are alike: its numbers in the file's order.
#[derive(Clone, Copy)]
struct Alike {
    processors: u64,
    tasks: u64,
    period: u64,
    deadline: u64,
    steps: u64,
    processor: u64,
    priority: u64,
    time: u64,
}

// Every number the least of its range.
const LEAST: Alike = Alike {
    processors: 1,
    tasks: 1,
    period: 1,
    deadline: 0,
    steps: 1,
    processor: 1,
    priority: 1,
    time: 1,
};

// Writes such a table into an output of so many bytes.
fn try_alike(rt: &HostRuntime, name: &str, alike: Alike, room: usize) {
    let sheet = Sheet {
        period: [alike.period; 32],
        deadline: [alike.deadline; 32],
        steps: [alike.steps; 32],
        processor: [alike.processor; 128],
        priority: [alike.priority; 128],
        time: [alike.time; 128],
    };
    let table = sheet.table(alike.processors, alike.tasks);
    show_written(rt, name, &table, room);
}

// The number that follows in a list whose numbers are spread over a range: about twice this one, or the least again.
fn next(value: u64, least: u64, most: u64) -> u64 {
    if value < most / 2 + most % 2 {
        return 2 * value + 1;
    }
    least
}

// Fills a list with numbers spread over a range, from the first on.
fn spread(list: &mut [u64], first: u64, least: u64, most: u64) {
    let mut value = first;
    for entry in list.iter_mut() {
        *entry = value;
        value = next(value, least, most);
    }
}

// A table of so many tasks with numbers spread over their ranges: tasks of 1, 3 and 7 steps, and every 28th deadline is 0.
fn try_spread(rt: &HostRuntime, tasks: u64) {
    let mut sheet = Sheet::<32, 128>::untouched();
    spread(&mut sheet.period, tasks, 1, 1000000);
    spread(&mut sheet.deadline, 0, 0, 160000000);
    spread(&mut sheet.steps, 1, 1, 7);
    spread(&mut sheet.processor, 1, 1, 16);
    spread(&mut sheet.priority, tasks, 1, 255);
    spread(&mut sheet.time, tasks, 1, 1000000);
    say(rt, format_args!("spread, tasks {tasks}"));
    show_written(rt, "", &sheet.table(16, tasks), ROOM);
}

// Such tables of 1 to 32 tasks.
pub(crate) fn spreads(rt: &HostRuntime) {
    for tasks in 1..=32 {
        try_spread(rt, tasks);
    }
}

// Tables that are plans.
pub(crate) fn plans(rt: &HostRuntime) {
    try_alike(rt, "all at least", LEAST, ROOM);
    let most = Alike {
        processors: 16,
        tasks: 32,
        period: 1000000,
        deadline: 160000000,
        steps: 4,
        processor: 16,
        priority: 255,
        time: 1000000,
    };
    try_alike(rt, "all at most, 32 tasks, 128 rows", most, ROOM);
    let long = Alike {
        tasks: 8,
        period: 1000000,
        steps: 16,
        ..LEAST
    };
    try_alike(rt, "16 steps, 128 rows, deadlines 0", long, ROOM);
}

// Outputs that are exactly long enough and too short; no plan comes before too short.
pub(crate) fn rooms(rt: &HostRuntime) {
    try_alike(rt, "room for all bytes", LEAST, 93);
    try_alike(rt, "room for all bytes but one", LEAST, 92);
    try_alike(rt, "no room", LEAST, 0);
    try_alike(rt, "no room and no plan", Alike { period: 0, ..LEAST }, 0);
}

// Tables that are no plans by one number.
pub(crate) fn no_plans(rt: &HostRuntime) {
    let cases = [
        (
            "processors 0",
            Alike {
                processors: 0,
                ..LEAST
            },
        ),
        (
            "processors 17",
            Alike {
                processors: 17,
                ..LEAST
            },
        ),
        ("tasks 0", Alike { tasks: 0, ..LEAST }),
        ("tasks 33", Alike { tasks: 33, ..LEAST }),
        ("period 0", Alike { period: 0, ..LEAST }),
        (
            "period 1000001",
            Alike {
                period: 1000001,
                ..LEAST
            },
        ),
        (
            "deadline 160000001",
            Alike {
                deadline: 160000001,
                ..LEAST
            },
        ),
        ("steps 0", Alike { steps: 0, ..LEAST }),
        ("steps 17", Alike { steps: 17, ..LEAST }),
        (
            "144 rows",
            Alike {
                tasks: 9,
                steps: 16,
                ..LEAST
            },
        ),
        (
            "160 rows",
            Alike {
                tasks: 32,
                steps: 5,
                ..LEAST
            },
        ),
        (
            "processor 0",
            Alike {
                processor: 0,
                ..LEAST
            },
        ),
        (
            "processor 2 of 1",
            Alike {
                processor: 2,
                ..LEAST
            },
        ),
        (
            "priority 0",
            Alike {
                priority: 0,
                ..LEAST
            },
        ),
        (
            "priority 256",
            Alike {
                priority: 256,
                ..LEAST
            },
        ),
        ("time 0", Alike { time: 0, ..LEAST }),
        (
            "time 1000001",
            Alike {
                time: 1000001,
                ..LEAST
            },
        ),
    ];
    for (name, alike) in cases {
        say(rt, "written, ");
        try_alike(rt, name, alike, LITTLE_ROOM);
    }
}

// Two tasks of two rows each in lists that just have them, and in lists of which one is too short.
pub(crate) fn short_lists(rt: &HostRuntime) {
    let whole = TableLists {
        processors: 1,
        tasks: 2,
        period: &[5, 6],
        deadline: &[0, 7],
        steps: &[2, 2],
        processor: &[1, 1, 1, 1],
        priority: &[1, 2, 3, 4],
        time: &[4, 3, 2, 1],
    };
    show_written(rt, "lists of 2 and 4", &whole, LITTLE_ROOM);
    let short = TableLists {
        deadline: &[0],
        ..whole
    };
    show_written(rt, "a task list of 1", &short, LITTLE_ROOM);
    let short = TableLists {
        time: &[4, 3, 2],
        ..whole
    };
    show_written(rt, "a row list of 3", &short, LITTLE_ROOM);
}
