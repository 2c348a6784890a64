// The dull way (document 02's note 7), for small sets, over arrays of loads and energies: an engine that goes through
// all plans, in order of rate numbers with task 1 changing fastest, and applies document 01's choice directly at each
// unit. It needs no working words, and goes through at most 1,000,000 plans. Whose loads and energies these are is left
// to others.
#![tactic(auto)]

ghost use Rattle.std.specs.Prelude.{◌≡◌, suc, ◌+◌, ◌^◌, ◌≤◌, min, replicate};
ghost use Rattle.selection.specs.Plan.{most_plans};
ghost use Rattle.engine.specs.Arrays.{arrays, ChosenBy};
ghost use Rattle.exhaustive.specs.Engine.{Looked, Seen, ArraysReady, InHand, ChangeReady, Changed};
ghost use Rattle.exhaustive.specs.Engine.{BlockReady, Advanced, AllReady, ChosenAt};
ghost use Rattle.exhaustive.specs.Engine.{UnitUsed, PutReady, PlanPut, ExhaustiveReady};

use engine::{Choice, Power, Request};

// How many plans the engine goes through at most.
pub const MOST_PLANS: usize = 1_000_000;

// A plan's cost, which is its rounded energy, and its load.
#[derive(Clone, Copy)]
struct Sums {
    cost: usize,
    load: u64,
}

// The best of the plans looked at so far that fit: its sums, and its place in the order of plans, counted from 0.
#[derive(Clone, Copy)]
struct Best {
    sums: Sums,
    rank: usize,
}

// What plans are compared by: what is asked, and each option's load, and its cost by a unit.
#[derive(Clone, Copy)]
struct Options<'a> {
    q: Request,
    loads: &'a [u64; 512],
    cost: &'a [usize; 512],
    ghost posed: { ArraysReady q loads.now cost.now },
}

// The unit used, and the plan chosen by it.
#[derive(Clone, Copy)]
struct Used {
    unit: u64,
    best: Best,
}

// How many plans there are; of more than the engine goes through, one more than that. No Option: the planner's check,
// with its edits, compares the number itself.
pub fn plan_count(rates: usize, tasks: usize) -> usize
    requires { (1 ≤ rates) × (rates ≤ 8) }
    ensures { result ≡ min (rates ^ tasks) (suc most_plans) }
{
    let mut plans = 1;
    for _ in 0..tasks {
        plans = (plans * rates).min(MOST_PLANS + 1);
    }
    plans
}

// What is kept after a look at the plan of this rank: of two that fit the one of lower cost, then of lower load; of
// equals the first stays. (Compared by hand: by a derived order sets of which every plan fits took 1.13 to 1.37 of the
// time.)
fn look(limit: u32, s: Sums, rank: usize, kept: Option<Best>) -> Option<Best>
    ensures { Looked limit s rank kept result }
{
    let here = Some(Best { sums: s, rank });
    if u64::from(limit) < s.load {
        return kept;
    }
    let Some(b) = kept else {
        return here;
    };
    if b.sums.cost < s.cost {
        return kept;
    }
    if s.cost < b.sums.cost {
        return here;
    }
    if s.load < b.sums.load {
        return here;
    }
    kept
}

impl Options<'_> {
    // The sums of the plan with every task at rate 1.
    fn first_sums(self) -> Sums
        ensures { InHand self.entry.q self.entry.loads.now self.entry.cost.now (replicate 32 1) result }
    {
        let mut sums = Sums { cost: 0, load: 0 };
        for t in 0..self.q.tasks {
            sums.cost += self.cost[t * 16 + 1];
            sums.load += self.loads[t * 16 + 1];
        }
        sums
    }

    // Sums in which the option at one place is replaced by the one at another.
    fn change(self, s: Sums, from: usize, to: usize) -> Sums
        requires { ChangeReady self.loads.now self.cost.now s from to }
        ensures { Changed self.entry.loads.now self.entry.cost.now s from to result }
    {
        Sums {
            cost: s.cost - self.cost[from] + self.cost[to],
            load: s.load - self.loads[from] + self.loads[to],
        }
    }

    // Looks at the plans that differ in task 1's rate alone, from the one in hand on, whose sums and rank are given.
    fn block(self, s: Sums, rank: usize, kept: Option<Best>) -> Option<Best>
        requires { BlockReady self.q self.loads.now self.cost.now s rank kept }
        ensures { Seen (arrays self.entry.q self.entry.loads.now self.entry.cost.now) (rank + self.entry.q.rates) result }
    {
        let mut best = kept;
        for r in 1..=self.q.rates {
            best = look(self.q.limit, self.change(s, 1, r), rank + (r - 1), best);
        }
        best
    }

    // Goes on to the next plan of tasks 2 to N: a number below M is raised by one, and that is all; one at M goes back
    // to 1, and the next task is looked at. The sums go by value: in one struct with the plan, 2^19 plans took 1.25 of
    // plain C's time, over the goal of 1.2 (bench/dull).
    fn advance(self, hand: &mut [usize; 32], s: Sums) -> Sums
        requires { InHand self.q self.loads.now self.cost.now hand.old s }
        ensures { Advanced self.entry.q self.entry.loads.now self.entry.cost.now hand.old hand.new result }
    {
        let mut sums = s;
        for t in 1..self.q.tasks {
            let r = hand[t];
            let here = t * 16 + r;
            if r < self.q.rates {
                hand[t] = r + 1;
                return self.change(sums, here, here + 1);
            }
            hand[t] = 1;
            sums = self.change(sums, here, t * 16 + 1);
        }
        sums
    }

    // The best of all plans, where one fits. (A function of its own in the archive too: inlined in what calls it, the loop
    // took 1.3 to 1.65 of the time.)
    #[inline(never)]
    fn best_plan(self, plans: usize) -> Option<Best>
        requires { plans ≡ self.q.rates ^ self.q.tasks }
        ensures { Seen (arrays self.entry.q self.entry.loads.now self.entry.cost.now) (self.entry.q.rates ^ self.entry.q.tasks) result }
    {
        let mut hand: [usize; 32] = [1; 32];
        let mut s = self.first_sums();
        let mut best = None;
        for rank in (0..plans).step_by(self.q.rates) {
            best = self.block(s, rank, best);
            s = self.advance(&mut hand, s);
        }
        best
    }
}

// The plan chosen by a unit.
fn best_at(loads: &[u64; 512], energies: &[u64; 512], q: Request, unit: Power, plans: usize) -> Best
    requires { AllReady q loads.now energies.now plans }
    ensures { ChosenAt (arrays q loads.now energies.now) (2 ^ unit.exponent) result }
{
    let mut cost: [usize; 512] = [0; 512];
    unit.round_up(energies, q.tasks, &mut cost);
    let options = Options {
        q,
        loads,
        cost: &cost,
    };
    options.best_plan(plans).unwrap()
}

// Finds the unit used: tries the first unit and halves it until the rule stops. No plan is kept from one unit to the
// next.
fn find_unit(loads: &[u64; 512], energies: &[u64; 512], q: Request, plans: usize) -> Used
    requires { AllReady q loads.now energies.now plans }
    ensures { UnitUsed q loads.now energies.now result }
{
    let mut unit = engine::least_power(engine::fastest_sum(energies, q.tasks, q.rates));
    loop {
        let best = best_at(loads, energies, q, unit, plans);
        if engine::stops(unit.exponent, q.tasks, q.slack, best.sums.cost) {
            return Used {
                unit: unit.value,
                best,
            };
        }
        unit = unit.halved();
    }
}

// Writes the plan of a rank: the rank's digits, from the lowest up, are the rate numbers less 1 from task 1 on.
fn put_plan(plan: &mut [u32], rank: usize, rates: usize, tasks: usize)
    requires { PutReady rates tasks rank plan.old }
    ensures { PlanPut rates tasks rank plan.old plan.new }
{
    let mut left = rank;
    for t in 0..tasks {
        plan[t] = (left % rates + 1) as u32;
        left /= rates;
    }
}

// Chooses unit and plan by document 01's rule, by these loads and energies; the plan goes to the first words of plan.
pub fn choose(loads: &[u64; 512], energies: &[u64; 512], q: Request, plan: &mut [u32]) -> Choice
    requires { ExhaustiveReady q loads.now energies.now plan.old }
    ensures { ChosenBy q loads.now energies.now plan.old plan.new result }
{
    let tasks = q.tasks;
    let plans = plan_count(q.rates, tasks);
    let used = find_unit(loads, energies, q, plans);
    let best = used.best;
    put_plan(plan, best.rank, q.rates, tasks);
    let energy = engine::sum(energies, tasks, plan);
    Choice {
        unit: used.unit,
        load: best.sums.load,
        energy,
    }
}
