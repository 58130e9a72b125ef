// The files of the cases.

use arrayvec::ArrayString;
use std::fmt::{Error, Write};

// Room for one byte more than a file may have.
pub(crate) type File = ArrayString<8193>;

// A plan of one task and one row.
const SMALL: &str =
    "plan=1\nprocessors=1\ntasks=1\ntask=1\nperiod=10\ndeadline=0\nsteps=1\nprocessor=1\npriority=1\ntime=1\n";

// The first lines of the small plan, with another text behind them.
pub(crate) fn small_plan(lines: usize, tail: &str) -> Result<File, Error> {
    let mut file = File::new();
    for line in SMALL.lines().take(lines) {
        write!(file, "{line}\n")?;
    }
    file.write_str(tail)?;
    Ok(file)
}

// The small plan with more bytes behind it, up to a length.
pub(crate) fn long_plan(length: usize) -> Result<File, Error> {
    let mut file = File::new();
    file.write_str(SMALL)?;
    for _ in file.len()..length {
        file.write_str("x")?;
    }
    Ok(file)
}

// A plan of so many tasks with as many of them as are given, of 16 rows each, and another text behind them.
pub(crate) fn full_tasks(tasks: u64, given: u64, tail: &str) -> Result<File, Error> {
    let mut file = File::new();
    write!(file, "plan=1\nprocessors=1\ntasks={tasks}\n")?;
    for task in 1..=given {
        write_task(&mut file, task)?;
    }
    file.write_str(tail)?;
    Ok(file)
}

// Appends the lines of a task of 16 rows.
fn write_task(file: &mut File, task: u64) -> Result<(), Error> {
    write!(file, "task={task}\nperiod=100\ndeadline=0\nsteps=16\n")?;
    for _ in 0..16 {
        file.write_str("processor=1\npriority=1\ntime=1\n")?;
    }
    Ok(())
}
