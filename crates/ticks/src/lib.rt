// The walk over tasks by their periods, job times and first releases: the state, the ticks of it, and the loop over the
// ticks. Whose periods and job times these are, and what was checked before, are left to others.
#![tactic(auto)]

ghost use Rattle.std.specs.Prelude.{◌≡◌, ◌≤◌, length, take};
ghost use Rattle.ticks.specs.Arrays.{Early, IsPick, cuts_short, Begun, TickReady, Ticked, RunReady, Says};

use taskset::WalkEnd;

// A task as the walk has it: its period, the ticks that each of its jobs takes, and its first release.
#[derive(Clone, Copy)]
pub struct Timing {
    pub period: u32,
    pub time: u32,
    pub first: u32,
}

// What the walk holds: of each task the ticks left of its job, and that job's deadline, which is its next release: before
// its first job that first release; the counts so far; and the place of the job of the tick before, where it is
// unfinished.
#[derive(Drop)]
struct State {
    left: [u32; 32],
    due: [u32; 32],
    busy: u32,
    idle: u32,
    preempted: u32,
    last: Option<usize>,
}

// The job that runs next: its place and its ticks left.
#[derive(Clone, Copy)]
struct Picked {
    place: usize,
    left: u32,
}

// Whether a job at `best` cuts the one of the tick before short: another that is unfinished.
fn preempts(best: usize, last: Option<usize>) -> bool
    ensures { result ≡ cuts_short best last }
{
    last.is_some_and(|at| best != at)
}

// The unfinished job with the earliest deadline, of several the first.
fn pick(left: &[u32; 32], due: &[u32; 32], n: usize) -> Option<Picked>
    requires { Early n left.now due.now }
    ensures { IsPick left.now due.now n result }
{
    // No ticks left stands for none here: with an Option in the loop, 8 tasks or more take 1.1 to 1.4 of the time.
    let mut best = Picked { place: n, left: 0 };
    let mut when = u32::MAX;
    for i in 0..n {
        let l = left[i];
        let d = due[i];
        if 0 < l && d < when {
            best = Picked { place: i, left: l };
            when = d;
        }
    }
    if 0 < best.left { Some(best) } else { None }
}

impl State {
    // From no task to these, before tick 0, where each task's first job is to come. The state is changed where it stands:
    // by value the archive would ask for memcpy.
    fn begin(&mut self, tasks: &[Timing])
        requires few { length tasks.now ≤ 32 }
        requires fresh { Begun (take 0 tasks.now) self.old }
        ensures { Begun tasks.now self.new }
    {
        for (i, task) in tasks.iter().enumerate() {
            self.due[i] = task.first;
        }
    }

    // One tick or more, with no release after the first of them: the job that is picked runs to its finish or to the
    // bound. Where there is none, all ticks up to the bound are idle. Returns how many ticks were made.
    fn tick(&mut self, n: usize, room: u32) -> u32
        requires { TickReady n room self.old }
        ensures { Ticked n room self.old result self.new }
    {
        let Some(job) = pick(&self.left, &self.due, n) else {
            self.idle += room;
            self.last = None;
            return room;
        };
        let ran = job.left.min(room);
        let rest = job.left - ran;
        self.left[job.place] = rest;
        let cut = u32::from(preempts(job.place, self.last));
        self.busy += ran;
        self.preempted += cut;
        self.last = (0 < rest).then_some(job.place);
        ran
    }
}

// The walk of tasks, 32 at most, to the tick end. It goes from each tick with a release to the next one, or to `end`, and
// in between from job to job; the loop over the ticks is left at the first task with work left.
pub fn run(tasks: &[Timing], end: u32) -> WalkEnd
    requires { RunReady tasks.now end }
    ensures { Says tasks.now end result }
{
    let n = tasks.len();
    let mut s = State {
        left: [0; 32],
        due: [0; 32],
        busy: 0,
        idle: 0,
        preempted: 0,
        last: None,
    };
    s.begin(tasks);
    let mut late: Option<usize> = None;
    let mut t: u32 = 0;
    'ticks: while t <= end {
        let mut next = end;
        for i in 0..n {
            if s.due[i] == t {
                let is_late = 0 < s.left[i];
                if is_late {
                    late = Some(i);
                    break 'ticks;
                }
                s.left[i] = tasks[i].time;
                s.due[i] = t + tasks[i].period;
            }
            next = next.min(s.due[i]);
        }
        if t == end {
            break 'ticks;
        }
        while t < next {
            let made = s.tick(n, next - t);
            t += made;
        }
    }
    match late {
        Some(i) => WalkEnd::Missed {
            tick: u64::from(t),
            task: (i + 1) as u64,
        },
        None => WalkEnd::Kept {
            busy: u64::from(s.busy),
            idle: u64::from(s.idle),
            preempted: u64::from(s.preempted),
        },
    }
}
