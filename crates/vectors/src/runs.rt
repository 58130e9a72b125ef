// Runs of the guards on document 01's plan. A line says the clock at which a call is made, the call, and what came of it.

use crate::paper::{arrived, full_time, started, ticked};
use crate::say::{say, say_completed, say_done, say_released, say_whether_stayed};
use guards::state::State;

// What a release list of document 01's plan holds before a tick.
const UNTOUCHED: [u8; 4] = [7, 7, 7, 7];

// A run that is printed: where it is printed to, and the state that it has reached.
#[derive(Drop)]
struct Run<'a> {
    rt: &'a HostRuntime,
    state: State,
}

impl<'a> Run<'a> {
    // A run at a fresh start.
    fn new(rt: &'a HostRuntime) -> Run<'a> {
        Run {
            rt,
            state: started(),
        }
    }

    // An instance of the task arrives: the row released, or the refusal and whether the state stayed.
    fn arrives(&mut self, task: u64) {
        let rt = self.rt;
        let before = self.state;
        let clock = before.clock;
        say(rt, format_args!("clock {clock}: task {task} arrives; "));
        match arrived(&mut self.state, task) {
            Ok(row) => say(rt, format_args!("row {row} released\n")),
            Err(refusal) => {
                say(rt, refusal);
                say_whether_stayed(rt, before == self.state);
            }
        }
    }

    // One tick: the new clock, the rows completed and released by it, or the refusal and whether all stayed.
    fn ticks(&mut self, done: &[u8]) {
        let rt = self.rt;
        let before = self.state;
        let mut released = UNTOUCHED;
        let clock = before.clock;
        say(rt, format_args!("clock {clock}: "));
        say_done(rt, done);
        match ticked(&mut self.state, done, &mut released) {
            Ok(clock) => {
                say(rt, format_args!("; clock {clock}"));
                say_completed(rt, &before, &self.state);
                say_released(rt, &released);
                say(rt, "\n");
            }
            Err(refusal) => {
                say(rt, format_args!("; {refusal}"));
                let stayed = released == UNTOUCHED && before == self.state;
                say_whether_stayed(rt, stayed);
            }
        }
    }

    // A tick by which all that runs takes its full time.
    fn ticks_full(&mut self) {
        let done = [full_time(&self.state, 0, 1), full_time(&self.state, 2, 3)];
        self.ticks(&done);
    }

    // Each task arrives, if the clock is one of its own.
    fn arrive_by(&mut self, clocks: &[&[u64]; 3]) {
        for (place, own) in clocks.iter().enumerate() {
            if own.contains(&self.state.clock) {
                self.arrives(place as u64 + 1);
            }
        }
    }
}

// A run of 12 ticks from a fresh start at full times, with the clocks at which each task arrives.
fn play(rt: &HostRuntime, clocks: &[&[u64]; 3]) {
    let mut run = Run::new(rt);
    for _ in 0..12 {
        run.arrive_by(clocks);
        run.ticks_full();
    }
}

// P9 and P10: with task 3, row 3 is released at 4 and 9 and row 4 completes at 9; without it, row 3 at 4 and 8.
pub(crate) fn full_runs(rt: &HostRuntime) {
    say(rt, "P9\n");
    play(rt, &[&[0, 4, 8], &[0, 6], &[4]]);
    say(rt, "P10\n");
    play(rt, &[&[0, 4, 8], &[0, 6], &[]]);
}

// P11: task 1 arrives at 0 and again at 3.
pub(crate) fn too_soon(rt: &HostRuntime) {
    say(rt, "P11\n");
    let mut run = Run::new(rt);
    run.arrives(1);
    for _ in 0..3 {
        run.ticks_full();
    }
    run.arrives(1);
}

// P12: task 1 arrives at 0, two ticks with done 0.
pub(crate) fn time_used_up(rt: &HostRuntime) {
    say(rt, "P12\n");
    let mut run = Run::new(rt);
    run.arrives(1);
    for _ in 0..2 {
        run.ticks(&[0, 0]);
    }
}

// The clock's last tick, and one more.
pub(crate) fn clock_end(rt: &HostRuntime) {
    say(rt, "the clock's end\n");
    let mut run = Run::new(rt);
    run.state.clock = 999999999999;
    for _ in 0..2 {
        run.ticks(&[0, 0]);
    }
}
