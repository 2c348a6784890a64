// A set's options, laid out for whoever chooses among them: the load of each task at each rate, and the energy less what
// idle ticks would draw in that time, by task and rate number, in two arrays; what an engine is asked for the set, or
// that no plan fits; and from what it chose to the answer. Which plan is chosen, and how, is left to the engines.
#![tactic(auto)]

ghost use Rattle.std.specs.Prelude.{◌≡◌, ◌+◌, ◌*◌, ◌^◌, ◌<◌, length, Ok};
ghost use Rattle.layout.specs.Words.{idle_place, idle};
ghost use Rattle.taskset.specs.Planning.{planning};
ghost use Rattle.taskset.specs.Answers.{ok_planned};
ghost use Rattle.checks.specs.Steps.{OfCounts};
ghost use Rattle.options.specs.Options.{LaidBoth};
ghost use Rattle.options.specs.Posed.{SetGiven, PosedFor};

use checks::Set;
use engine::{Choice, Request};
use layout::Layout;
use taskset::{Planned, Refusal};

// Puts down the loads and energies of the task at place t: at each rate, that of one job times the jobs in a
// hyper-period.
fn put_task(loads: &mut [u64; 512], energies: &mut [u64; 512], set: &Set, hyper: u64, t: usize)
    requires set_given { SetGiven set.now.layout set.now.words.now hyper }
    requires is_task { t < set.now.tasks }
    requires laid_both { LaidBoth set.now.layout set.now.words.now set.now.rates t 1 loads.old energies.old }
    ensures { LaidBoth set.now.layout set.now.words.now set.now.rates (t + 1) 1 loads.new energies.new }
{
    let jobs = hyper / u64::from(set.period(t));
    let idle = u64::from(set.idle());
    for r in 1..=set.rates {
        let time = u64::from(set.job_time(t, r));
        let energy = u64::from(set.energy(t, r));
        loads[t * 16 + r] = jobs * time;
        energies[t * 16 + r] = jobs * (energy - idle * time);
    }
}

// The same for all tasks.
fn put_tasks(loads: &mut [u64; 512], energies: &mut [u64; 512], set: &Set, hyper: u64)
    requires set_given { SetGiven set.now.layout set.now.words.now hyper }
    requires laid_both { LaidBoth set.now.layout set.now.words.now set.now.rates 0 1 loads.old energies.old }
    ensures { LaidBoth set.now.layout set.now.words.now set.now.rates set.now.tasks 1 loads.new energies.new }
{
    for t in 0..set.tasks {
        put_task(loads, energies, set, hyper, t);
    }
}

// The options of a set that has passed the checks before 7, and check 7. No load is lower than at the last rate, so
// some plan fits exactly when the plan with every task at that rate does.
pub fn pose(
    loads: &mut [u64; 512],
    energies: &mut [u64; 512],
    set: &[u32],
    layout: Layout,
    rates: usize,
    tasks: usize,
    hyper: u64,
) -> Result<Request, Refusal>
    requires set_given { SetGiven layout set.now hyper }
    requires counted { OfCounts layout rates tasks set.now }
    requires laid_both { LaidBoth layout set.now rates 0 1 loads.old energies.old }
    ensures laid { LaidBoth layout set.now rates tasks 1 loads.new energies.new }
    ensures posed { PosedFor (planning layout set.now) loads.new energies.new result }
{
    let given = Set {
        words: set,
        layout,
        rates,
        tasks,
    };
    put_tasks(loads, energies, &given, hyper);
    let fastest = engine::fastest_sum(loads, tasks, rates);
    let is_too_much = hyper < fastest;
    if is_too_much {
        return Err(Refusal::NoPlan);
    }
    let limit = hyper as u32;
    Ok(Request {
        tasks,
        rates,
        limit,
        slack: checks::slack_of(set),
    })
}

// What is answered of a plan that was chosen. The choice goes by what is drawn over idling: with the idle energy of
// every tick it is what is reported, the plan's task energies and H for each idle tick.
pub fn planned(set: &[u32], hyper: u64, c: Choice) -> Planned
    requires { (idle_place < length set.now) × (c.energy + idle set.now * hyper < 2 ^ 64) }
    ensures { ok_planned c.unit c.load hyper (c.energy + idle set.now * hyper) ≡ Ok result }
{
    let total = c.energy + u64::from(checks::idle_of(set)) * hyper;
    Planned {
        unit: c.unit,
        load: c.load,
        hyper,
        energy: total,
    }
}
