// The choice of unit and plan by document 01's rule, over arrays of loads and energies: the table, unit by unit, the
// way back through it, the plan's sums, and zeros where the table was. Whose loads and energies these are is left to
// others.
#![tactic(auto)]

ghost use Rattle.std.specs.Prelude.{◌≡◌, ◌*◌, ◌≤◌};
ghost use Rattle.engine.specs.Arrays.{Written};
ghost use Rattle.selection.specs.Plan.{last_column};
ghost use Rattle.choice.specs.Choice.{ChoiceReady, Chose};
ghost use Rattle.choice.specs.Units.{WayReady, WayTaken, cut_of, UnitReady, UnitTabled};
ghost use Rattle.choice.specs.Units.{SearchReady, UnitUsed};

use engine::{Choice, Power, Request};
use table::{Frame, Options};

// The unit used, the size of its table, and the least rounded energy of a plan that fits.
#[derive(Clone, Copy)]
struct Used {
    unit: u64,
    frame: Frame,
    least: usize,
}

// The last column that a table may need for so many tasks at this slack.
pub fn last_column(tasks: usize, slack: u32) -> usize
    requires { (tasks ≤ 32) × (1 ≤ slack) }
    ensures { result ≡ last_column tasks slack }
{
    4_000 * tasks / slack as usize
}

// Writes the way back through a table from a column of its last row: the lowest rate number that makes each entry, from
// the last task down to the first.
fn way_back(plan: &mut [u32], d: &[u32], options: Options, column: usize)
    requires { WayReady options.frame column options.cost.now options.load.now d.now plan.old }
    ensures { WayTaken options.entry.frame column options.entry.cost.now options.entry.load.now plan.old plan.new }
{
    let columns = options.frame.columns;
    let mut left = column;
    for task in (0..options.frame.tasks).rev() {
        let r = options.rate_at(d, task * columns, left, task);
        plan[task] = r as u32;
        left -= options.cost[task * 16 + r];
    }
}

// The loads of so many tasks, cut at cap.
fn cut(loads: &[u64; 512], tasks: usize, cap: u32, load: &mut [u32; 512])
    requires { tasks ≤ 32 }
    ensures { Written (cut_of loads.now cap) 0 (tasks * 16) load.old load.new }
{
    for k in 0..tasks * 16 {
        load[k] = loads[k].min(u64::from(cap)) as u32;
    }
}

// The table at a unit; gives the least column at which its last row is not 'none'.
fn least_energy(
    energies: &[u64; 512],
    f: Frame,
    unit: Power,
    load: &[u32; 512],
    cost: &mut [usize; 512],
    work: &mut [u32],
) -> Option<usize>
    requires { UnitReady f energies.now load.now work.old }
    ensures { UnitTabled f unit.exponent energies.now load.now work.old cost.new work.new result }
{
    unit.round_up(energies, f.tasks, cost);
    table::table(work, f, cost, load);
    table::least_column(work, f.tasks * f.columns, f.columns, f.cap)
}

// Finds the unit used: tries the first unit and halves it until the rule stops. Each unit's table is only as wide as is
// known to suffice: at the first unit the last column is the number of tasks, since there the plan with every task at
// the highest rate costs 1 a task at most; then it is twice the last least energy, since at half the unit no rounded
// energy is more than doubled.
fn find_unit(
    loads: &[u64; 512],
    energies: &[u64; 512],
    q: Request,
    load: &mut [u32; 512],
    cost: &mut [usize; 512],
    work: &mut [u32],
) -> Used
    requires { SearchReady q loads.now energies.now load.old work.old }
    ensures { UnitUsed q loads.now energies.now work.old load.new cost.new work.new result }
{
    let cap = q.limit + 1;
    cut(loads, q.tasks, cap, load);
    let mut unit = engine::least_power(engine::fastest_sum(energies, q.tasks, q.rates));
    let mut columns = q.tasks + 1;
    loop {
        let frame = Frame {
            tasks: q.tasks,
            rates: q.rates,
            columns,
            cap,
        };
        let least = least_energy(energies, frame, unit, load, cost, work).unwrap();
        if engine::stops(unit.exponent, q.tasks, q.slack, least) {
            return Used {
                unit: unit.value,
                frame,
                least,
            };
        }
        unit = unit.halved();
        columns = 2 * least + 1;
    }
}

// Chooses unit and plan by document 01's rule, by these loads and energies; the plan goes to the first words of plan,
// and the words of work that a table may need are 0 at the end.
pub fn choose(
    loads: &[u64; 512],
    energies: &[u64; 512],
    q: Request,
    plan: &mut [u32],
    work: &mut [u32],
) -> Choice
    requires { ChoiceReady q loads.now energies.now plan.old work.old }
    ensures { Chose q loads.now energies.now plan.old work.old plan.new work.new result }
{
    let columns = last_column(q.tasks, q.slack) + 1;
    let mut load: [u32; 512] = [0; 512];
    let mut cost: [usize; 512] = [0; 512];
    let used = find_unit(loads, energies, q, &mut load, &mut cost, work);
    let options = Options {
        frame: used.frame,
        cost: &cost,
        load: &load,
    };
    way_back(plan, work, options, used.least);
    work[..(q.tasks + 1) * columns].fill(0);
    Choice {
        unit: used.unit,
        load: engine::sum(loads, q.tasks, plan),
        energy: engine::sum(energies, q.tasks, plan),
    }
}
