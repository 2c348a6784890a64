// The words of a task set, read by task and rate number.

ghost use Rattle.std.specs.Prelude.{◌≡◌, ◌<◌, ◌≤◌};
ghost use Rattle.layout.specs.Words.{slack, idle, period, cycles, first, energy};
ghost use Rattle.taskset.specs.Quantities.{job_time};
ghost use Rattle.checks.specs.Steps.{OfCounts};

use layout::Layout;

// A list that passes check 2, with its counts. Tasks go by their places, which count from 0, and rates by their numbers,
// which count from 1.
#[derive(Clone, Copy)]
pub struct Set<'a> {
    pub words: &'a [u32],
    pub layout: Layout,
    pub rates: usize,
    pub tasks: usize,
    pub ghost counts: { OfCounts layout rates tasks words.now },
}

impl<'a> Set<'a> {
    // The slack.
    pub fn slack(&self) -> u32
        ensures { result ≡ slack self.now.words.now }
    {
        crate::slack_of(self.words)
    }

    // The idle energy of a tick.
    pub fn idle(&self) -> u32
        ensures { result ≡ idle self.now.words.now }
    {
        crate::idle_of(self.words)
    }

    // The period of the task at place t.
    pub fn period(&self, t: usize) -> u32
        requires { t < self.now.tasks }
        ensures { result ≡ period self.now.layout self.now.words.now t }
    {
        crate::period_of(self.words, self.layout, self.rates, t)
    }

    // The cycles of one of its jobs.
    pub fn cycles(&self, t: usize) -> u32
        requires { t < self.now.tasks }
        ensures { result ≡ cycles self.now.layout self.now.words.now t }
    {
        crate::cycles_of(self.words, self.layout, self.rates, t)
    }

    // Its first release.
    pub fn first(&self, t: usize) -> u32
        requires { t < self.now.tasks }
        ensures { result ≡ first self.now.layout self.now.words.now t }
    {
        crate::first_of(self.words, self.layout, self.rates, t)
    }

    // The time of one of its jobs at rate number r.
    pub fn job_time(&self, t: usize, r: usize) -> u32
        requires { (t < self.now.tasks) × (1 ≤ r) × (r ≤ self.now.rates) }
        ensures { result ≡ job_time self.now.layout self.now.words.now t r }
    {
        crate::job_time(self.words, self.layout, self.rates, t, r)
    }

    // The energy of one of its jobs at rate number r.
    pub fn energy(&self, t: usize, r: usize) -> u32
        requires { (t < self.now.tasks) × (1 ≤ r) × (r ≤ self.now.rates) }
        ensures { result ≡ energy self.now.layout self.now.words.now t r }
    {
        crate::energy_of(self.words, self.layout, self.rates, t, r)
    }
}
