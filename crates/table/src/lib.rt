// The table that finds the plan, over arrays of costs and loads: which costs these are, and which way is taken through
// it, are left to others. Options stand by task and rate number: the one of the task at place t with rate number r at
// t * 16 + r, so that no number is shifted by one and a place is found without a product. Loads are cut at cap, which
// stands for 'none', so that every sum of two words fits; no Option, since the table is the words that the caller lends.
#![tactic(auto)]

ghost use Rattle.std.specs.Prelude.{◌≡◌, ◌+◌, ◌≤◌, length};
ghost use Rattle.engine.specs.Arrays.{Written};
ghost use Rattle.table.specs.Rows.{Framed, Relaxable, relaxed, RowReady, RowWritten, TableReady, Tabled};
ghost use Rattle.table.specs.Rows.{Defined, FirstBelow, RateReady, rate_of};

// The size of a table: a row for no task and one more for each task, so many columns a row, and the rate numbers 1 to
// `rates` of each task; and the cap of its loads.
#[derive(Clone, Copy)]
pub struct Frame {
    pub tasks: usize,
    pub rates: usize,
    pub columns: usize,
    pub cap: u32,
}

// What a table is made by: its size, and the cost and the load of each option.
#[derive(Clone, Copy)]
pub struct Options<'a> {
    pub frame: Frame,
    pub cost: &'a [usize; 512],
    pub load: &'a [u32; 512],
    pub ghost framed: { Framed frame load.now },
}

// Lowers each word of a row from column c on to l more than the word c columns before it in the row before, where that
// is less.
fn relax(row: &mut [u32], before: &[u32], c: usize, l: u32)
    requires { Relaxable c l before.now row.old }
    ensures { Written (relaxed c l before.now row.old) c (length row.old) row.old row.new }
{
    for e in c..row.len() {
        row[e] = row[e].min(before[e - c] + l);
    }
}

// Writes a table of a size, by these costs and loads; the first row is zeros.
pub fn table(d: &mut [u32], f: Frame, cost: &[usize; 512], load: &[u32; 512])
    requires framed { Framed f load.now }
    requires ready { TableReady f d.old }
    ensures { Tabled f f.tasks cost.now load.now d.old d.new }
{
    let options = Options {
        frame: f,
        cost,
        load,
    };
    options.table(d);
}

// The least column, of the row that begins at `start`, that is not 'none'.
pub fn least_column(d: &[u32], start: usize, columns: usize, cap: u32) -> Option<usize>
    requires { start + columns ≤ length d.now }
    ensures { FirstBelow (Defined d.now start cap) columns result }
{
    d[start..start + columns]
        .iter()
        .position(|load| *load < cap)
}

impl Options<'_> {
    // Writes the row after the task at a place, by the row before that.
    fn row(self, words: &mut [u32], before: &[u32], task: usize)
        requires { RowReady self.frame task self.cost.now self.load.now before.now words.old }
        ensures { RowWritten self.entry.frame task self.entry.cost.now self.entry.load.now words.new }
    {
        words.fill(self.frame.cap);
        for r in 1..=self.frame.rates {
            let c = self.cost[task * 16 + r];
            if c < self.frame.columns {
                relax(words, before, c, self.load[task * 16 + r]);
            }
        }
    }

    // Writes a table, the first row of which is zeros.
    pub fn table(self, d: &mut [u32])
        requires { TableReady self.frame d.old }
        ensures { Tabled self.entry.frame self.entry.frame.tasks self.entry.cost.now self.entry.load.now d.old d.new }
    {
        let columns = self.frame.columns;
        d[..columns].fill(0);
        for task in 0..self.frame.tasks {
            let (front, rest) = d.split_at_mut((task + 1) * columns);
            let before = &front[task * columns..];
            self.row(&mut rest[..columns], before, task);
        }
    }

    // The lowest rate number of the task at a place that makes the entry in a column of its row, where the row before
    // that begins at `start`.
    pub fn rate_at(self, d: &[u32], start: usize, column: usize, task: usize) -> usize
        requires { RateReady self.frame start column task self.cost.now self.load.now d.now }
        ensures { (result ≡ rate_of self.entry.frame self.entry.cost.now self.entry.load.now task column) × (result ≤ self.entry.frame.rates) }
    {
        let made = d[start + self.frame.columns + column];
        for number in 1..=self.frame.rates {
            let c = self.cost[task * 16 + number];
            if c <= column && d[start + (column - c)] + self.load[task * 16 + number] == made {
                return number;
            }
        }
        unreachable!()
    }
}
