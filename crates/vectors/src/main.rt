// Runs document 01's examples and prints what came out, to be read beside it: of P1 to P8 each plan's report or refusal, of
// P9 to P12 and the clock's end every call on the guards. P7 has a busy length of 10,000,000 and is run here and not proved.
// The examples of plan files are run by `filecases`. A write that fails is let go, and the program goes on.

#![tactic(auto)]

mod paper;
mod runs;
mod say;

use report::report_file;
use say::say;

fn main(rt: HostRuntime) {
    let plans = [
        (
            "P1",
            "plan=1\nprocessors=2\ntasks=3\ntask=1\nperiod=4\ndeadline=0\nsteps=1\nprocessor=1\npriority=2\ntime=2\ntask=2\nperiod=6\ndeadline=0\nsteps=2\nprocessor=1\npriority=1\ntime=2\nprocessor=2\npriority=2\ntime=2\ntask=3\nperiod=6\ndeadline=0\nsteps=1\nprocessor=2\npriority=1\ntime=3\n",
        ),
        (
            "P2",
            "plan=1\nprocessors=1\ntasks=1\ntask=1\nperiod=5\ndeadline=0\nsteps=1\nprocessor=1\npriority=1\ntime=5\n",
        ),
        (
            "P3",
            "plan=1\nprocessors=1\ntasks=1\ntask=1\nperiod=5\ndeadline=0\nsteps=1\nprocessor=1\npriority=1\ntime=6\n",
        ),
        (
            "P4",
            "plan=1\nprocessors=1\ntasks=2\ntask=1\nperiod=70\ndeadline=0\nsteps=1\nprocessor=1\npriority=2\ntime=26\ntask=2\nperiod=100\ndeadline=0\nsteps=1\nprocessor=1\npriority=1\ntime=62\n",
        ),
        (
            "P5",
            "plan=1\nprocessors=1\ntasks=2\ntask=1\nperiod=10\ndeadline=0\nsteps=1\nprocessor=1\npriority=1\ntime=3\ntask=2\nperiod=10\ndeadline=0\nsteps=1\nprocessor=1\npriority=1\ntime=4\n",
        ),
        (
            "P6",
            "plan=1\nprocessors=1\ntasks=2\ntask=1\nperiod=10\ndeadline=0\nsteps=1\nprocessor=1\npriority=2\ntime=3\ntask=2\nperiod=10\ndeadline=0\nsteps=1\nprocessor=1\npriority=1\ntime=4\n",
        ),
        (
            "P7",
            "plan=1\nprocessors=1\ntasks=2\ntask=1\nperiod=625000\ndeadline=0\nsteps=1\nprocessor=1\npriority=2\ntime=312500\ntask=2\nperiod=80000\ndeadline=0\nsteps=1\nprocessor=1\npriority=1\ntime=40000\n",
        ),
        (
            "P8",
            "plan=1\nprocessors=1\ntasks=2\ntask=1\nperiod=1000000\ndeadline=0\nsteps=1\nprocessor=1\npriority=2\ntime=500000\ntask=2\nperiod=999998\ndeadline=0\nsteps=1\nprocessor=1\npriority=1\ntime=499999\n",
        ),
    ];
    for (name, file) in plans {
        show(&rt, name, file);
    }
    runs::full_runs(&rt);
    runs::too_soon(&rt);
    runs::time_used_up(&rt);
    runs::clock_end(&rt);
}

// A plan's name, and its report or its refusal.
fn show(rt: &HostRuntime, name: &str, file: &str) {
    say(rt, format_args!("{name}\n"));
    let mut out = [0u8; 10240];
    match report_file(file.as_bytes(), &mut out) {
        Ok(count) => print_front(rt, &out, count as usize),
        Err(refusal) => {
            let number = refusal.number();
            let place = refusal.place();
            say(rt, format_args!("refused={number}\nat={place}\n"));
        }
    }
}

// The first bytes of a list.
fn print_front(rt: &HostRuntime, bytes: &[u8], end: usize) {
    if let Some(front) = bytes.get(..end) {
        let _ = rt.write_all(front);
    }
}
