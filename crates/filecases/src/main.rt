// Plan files at the edges of the rules, read and written back, and tables, written and read back. Each line says the case's
// name and then either `read`, the processors, tasks and rows, whether the file is written back to the same bytes, and whether
// all entries past the table stayed; or `written`, the bytes, whether they are read back to the same table and that is written
// to the same bytes, and whether all bytes past them stayed; or the refusal's number and place, and whether all stayed.
#![tactic(auto)]

mod build;
mod sheet;
mod show;
mod tables;
mod written;

use build::{full_tasks, long_plan, small_plan};
use sheet::Sheet;
use show::{show, show_in};
use std::fmt::Error;

// A file of the first lines of a small plan with another text behind them.
fn try_lines(rt: &HostRuntime, name: &str, lines: usize, tail: &str) -> Result<(), Error> {
    let file = small_plan(lines, tail)?;
    show(rt, name, file.as_str());
    Ok(())
}

// A file of tasks with 16 rows each and another text behind them.
fn try_tasks(
    rt: &HostRuntime,
    name: &str,
    tasks: u64,
    given: u64,
    tail: &str,
) -> Result<(), Error> {
    let file = full_tasks(tasks, given, tail)?;
    show(rt, name, file.as_str());
    Ok(())
}

// A small plan with other bytes behind it, up to a length.
fn try_length(rt: &HostRuntime, name: &str, length: usize) -> Result<(), Error> {
    let file = long_plan(length)?;
    show(rt, name, file.as_str());
    Ok(())
}

// The plan that document 01 prints.
fn printed_plan(rt: &HostRuntime) {
    show(
        rt,
        "document 01's plan",
        "plan=1\nprocessors=2\ntasks=3\ntask=1\nperiod=4\ndeadline=0\nsteps=1\nprocessor=1\npriority=2\ntime=2\ntask=2\nperiod=6\ndeadline=0\nsteps=2\nprocessor=1\npriority=1\ntime=2\nprocessor=2\npriority=2\ntime=2\ntask=3\nperiod=6\ndeadline=0\nsteps=1\nprocessor=2\npriority=1\ntime=3\n",
    );
}

// The form of a file and of a line.
fn forms(rt: &HostRuntime) -> Result<(), Error> {
    try_lines(rt, "whole", 10, "")?;
    try_lines(rt, "empty", 0, "")?;
    try_lines(rt, "ends early", 7, "")?;
    try_lines(rt, "last LF missing", 9, "time=1")?;
    try_lines(rt, "last LF missing, out of range", 9, "time=0")?;
    try_lines(rt, "a byte behind", 10, "\n")?;
    try_lines(rt, "a line behind", 10, "task=2\n")?;
    try_lines(rt, "CR LF", 0, "plan=1\r\n")?;
    try_lines(rt, "two LFs", 1, "\n")?;
    try_lines(rt, "blank before the value", 4, "period= 4\n")?;
    try_lines(rt, "blank behind the value", 4, "period=4 \n")?;
    try_lines(rt, "blank for the mark", 4, "period 4\n")?;
    try_lines(rt, "key misspelt", 4, "perion=4\n")?;
    try_lines(rt, "key in capitals", 4, "Period=4\n")?;
    try_lines(rt, "key too long", 4, "periods=4\n")?;
    try_lines(rt, "key out of order", 4, "deadline=0\n")?;
    Ok(())
}

// The form of a value.
fn values(rt: &HostRuntime) -> Result<(), Error> {
    try_lines(rt, "no value", 4, "period=\n")?;
    try_lines(rt, "plus", 4, "period=+4\n")?;
    try_lines(rt, "minus", 4, "period=-4\n")?;
    try_lines(rt, "a letter", 4, "period=4a\n")?;
    try_lines(rt, "leading zero", 4, "period=04\n")?;
    try_lines(rt, "two zeros", 5, "deadline=00\n")?;
    try_lines(
        rt,
        "nine digits, in range",
        5,
        "deadline=160000000\nsteps=1\nprocessor=1\npriority=1\ntime=1\n",
    )?;
    try_lines(rt, "nine digits, out of range", 5, "deadline=160000001\n")?;
    try_lines(rt, "ten digits", 5, "deadline=1600000000\n")?;
    try_lines(
        rt,
        "lone zero, in range",
        5,
        "deadline=0\nsteps=1\nprocessor=1\npriority=1\ntime=1\n",
    )?;
    try_lines(rt, "lone zero, out of range", 4, "period=0\n")?;
    Ok(())
}

// Ranges.
fn ranges(rt: &HostRuntime) -> Result<(), Error> {
    show(
        rt,
        "all at least",
        "plan=1\nprocessors=1\ntasks=1\ntask=1\nperiod=1\ndeadline=0\nsteps=1\nprocessor=1\npriority=1\ntime=1\n",
    );
    show(
        rt,
        "all at most in one row",
        "plan=1\nprocessors=16\ntasks=1\ntask=1\nperiod=1000000\ndeadline=160000000\nsteps=1\nprocessor=16\npriority=255\ntime=1000000\n",
    );
    try_lines(rt, "plan 2", 0, "plan=2\n")?;
    try_lines(rt, "processors 17", 1, "processors=17\n")?;
    try_lines(rt, "tasks 33", 2, "tasks=33\n")?;
    try_lines(rt, "task not the next", 3, "task=2\n")?;
    try_lines(rt, "period 1000001", 4, "period=1000001\n")?;
    try_lines(rt, "steps 17", 6, "steps=17\n")?;
    try_lines(rt, "processor above the plan's", 7, "processor=2\n")?;
    try_lines(rt, "priority 256", 8, "priority=256\n")?;
    try_lines(rt, "time out of range, last line", 9, "time=1000001\n")?;
    Ok(())
}

// Rows and bytes in all.
fn sizes(rt: &HostRuntime) -> Result<(), Error> {
    try_tasks(rt, "128 rows", 8, 8, "")?;
    try_tasks(
        rt,
        "129 rows",
        9,
        8,
        "task=9\nperiod=1\ndeadline=0\nsteps=1\n",
    )?;
    try_tasks(
        rt,
        "129 rows, steps 17",
        9,
        8,
        "task=9\nperiod=1\ndeadline=0\nsteps=17\n",
    )?;
    try_tasks(
        rt,
        "128 rows, no further steps line",
        9,
        8,
        "task=9\nperiod=1\ndeadline=0\n",
    )?;
    try_length(rt, "8192 bytes", 8192)?;
    try_length(rt, "8193 bytes", 8193)?;
    Ok(())
}

// A small plan for lists with room for so many tasks and rows.
fn lists(rt: &HostRuntime) -> Result<(), Error> {
    let plan = small_plan(10, "")?;
    let file = plan.as_str();
    show_in(
        rt,
        "room for 32 tasks and 128 rows",
        file,
        &mut Sheet::<32, 128>::untouched(),
    );
    show_in(
        rt,
        "room for 32 tasks and 127 rows",
        file,
        &mut Sheet::<32, 127>::untouched(),
    );
    show_in(
        rt,
        "room for 31 tasks and 128 rows",
        file,
        &mut Sheet::<31, 128>::untouched(),
    );
    show_in(
        rt,
        "room for 31 tasks and 127 rows",
        file,
        &mut Sheet::<31, 127>::untouched(),
    );
    Ok(())
}

fn main(rt: HostRuntime) -> Result<(), Error> {
    printed_plan(&rt);
    forms(&rt)?;
    values(&rt)?;
    ranges(&rt)?;
    sizes(&rt)?;
    lists(&rt)?;
    tables::plans(&rt);
    tables::spreads(&rt);
    tables::rooms(&rt);
    tables::no_plans(&rt);
    tables::short_lists(&rt);
    Ok(())
}
