// Loads and energies by task and rate number, in arrays of 512 words: the option of the task at place t with rate
// number r stands at t * 16 + r. The sums and costs over them, the unit rule, and what an engine that chooses a plan by
// them is asked and gives. Which plan, and how, is left to the engines.
#![tactic(auto)]

ghost use Rattle.std.specs.Prelude.{◌≡◌, ◌||◌, ◌-◌, ◌*◌, ◌/◌, ◌^◌, ◌≤◌, ◌<◌, eqb, leb, replicate};
ghost use Rattle.numbers.specs.Numbers.{total, LeastPower};
ghost use Rattle.engine.specs.Arrays.{option_at, Written, cost_of, load_bound, energy_bound, Small, RoundReady, SumReady};

// What a plan is chosen for: so many tasks and rates, the limit of the plan's load, and the slack.
#[derive(Clone, Copy)]
pub struct Request {
    pub tasks: usize,
    pub rates: usize,
    pub limit: u32,
    pub slack: u32,
}

// What was chosen: the unit, and the plan's load and energy.
#[derive(Clone, Copy)]
pub struct Choice {
    pub unit: u64,
    pub load: u64,
    pub energy: u64,
}

// Half of what a power of two's exponent and value say.
pub fn halved(exponent: u32, value: u64) -> (u32, u64)
    requires { 0 < exponent }
    ensures { result ≡ (exponent - 1, value / 2) }
{
    let half = value / 2;
    (exponent - 1, half)
}

// A unit: a power of two that a word holds.
#[derive(Clone, Copy)]
pub struct Power {
    pub exponent: u32,
    pub value: u64,
    pub ghost in_word: { exponent < 64 },
    pub ghost power: { value ≡ 2 ^ exponent },
}

impl Power {
    // Half the unit.
    pub fn halved(self) -> Power
        requires { 0 < self.exponent }
        ensures { result.exponent ≡ self.exponent - 1 }
    {
        let (exponent, value) = halved(self.exponent, self.value);
        Power { exponent, value }
    }

    // The energies of so many tasks divided by the unit, rounded up.
    pub fn round_up(self, energies: &[u64; 512], tasks: usize, cost: &mut [usize; 512])
        requires { (tasks ≤ 32) × Small energy_bound energies.now }
        ensures { Written (cost_of energies.now self.exponent) 0 (tasks * 16) cost.old cost.new }
    {
        round_up(energies, tasks, self.exponent, self.value, cost);
    }
}

// The smallest power of two not below x.
pub fn least_power(x: u64) -> Power
    requires { x ≤ 2 ^ 63 }
    ensures { LeastPower x result.exponent }
{
    let value = x.next_power_of_two();
    Power {
        exponent: value.ilog2(),
        value,
    }
}

// The energies of so many tasks divided by a unit, rounded up: by a power of two's exponent and value.
pub fn round_up(
    energies: &[u64; 512],
    tasks: usize,
    exponent: u32,
    value: u64,
    cost: &mut [usize; 512],
)
    requires { RoundReady tasks exponent value energies.now }
    ensures { Written (cost_of energies.now exponent) 0 (tasks * 16) cost.old cost.new }
{
    let less = value - 1;
    for k in 0..tasks * 16 {
        cost[k] = ((energies[k] + less) >> exponent) as usize;
    }
}

// What the first tasks of a plan come to.
pub fn sum(options: &[u64; 512], tasks: usize, plan: &[u32]) -> u64
    requires { SumReady tasks options.now plan.now }
    ensures { result ≡ total (option_at options.now) tasks plan.now }
{
    let mut s: u64 = 0;
    for (t, r) in plan[..tasks].iter().enumerate() {
        s += options[t * 16 + *r as usize];
    }
    s
}

// What so many tasks come to with every task at the highest rate.
pub fn fastest_sum(options: &[u64; 512], tasks: usize, rates: usize) -> u64
    requires { (tasks ≤ 32) × (rates ≤ 8) × Small load_bound options.now }
    ensures { result ≡ total (option_at options.now) tasks (replicate tasks rates) }
{
    let plan = [rates as u32; 32];
    sum(options, tasks, &plan)
}

// Whether the unit rule stops at the unit 2 ^ exponent, with this least rounded energy of a plan that fits: at unit 1,
// and where slack times that energy is at least 2,000 for each task.
pub fn stops(exponent: u32, tasks: usize, slack: u32, least: usize) -> bool
    requires { (tasks ≤ 32) × (slack * least < 2 ^ 64) }
    ensures { result ≡ (eqb exponent 0 || leb (2000 * tasks) (slack * least)) }
{
    exponent == 0 || 2_000 * tasks <= slack as usize * least
}
