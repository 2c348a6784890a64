// Two processors by name: constant tables of their rates, powers and idle energies, and what a job costs by them. How a
// text names them is left to the crates above.
#![tactic(auto)]

ghost use Rattle.std.specs.Prelude.{◌≡◌, ◌+◌, ◌≤◌, length};
ghost use Rattle.lists.specs.Writing.{written};
ghost use Rattle.chips.specs.Chips.{milliwatts, chip_count, chip_rate, chip_power, chip_energy, chip_rates};
ghost use Rattle.chips.specs.Chips.{chip_energies, idle_entry, chip_idle};

// The chips that a text can name.
#[derive(Clone, Copy)]
pub enum Chip {
    Xscale,
    Ppc405lp,
}

// Rates in cycles per tick, which is a millisecond: MHz × 1,000. Powers in mW, at each rate.
const XSCALE_RATES: [u32; 5] = [150_000, 400_000, 600_000, 800_000, 1_000_000];

const XSCALE_POWERS: [u32; 5] = [80, 170, 400, 900, 1_600];

const PPC405LP_RATES: [u32; 4] = [33_000, 100_000, 266_000, 333_000];

const PPC405LP_POWERS: [u32; 4] = [19, 72, 600, 750];

// Idle energies in microjoules per tick, of the ppc405lp and of the xscale.
const IDLE: [u32; 2] = [12, 40];

// A chip's rates, from rate number 1 on.
#[tactic(auto, unfolding(crate::specs::Chips::megahertz, crate::specs::Chips::chip_rates))]
fn rates(chip: Chip) -> &'static [u32]
    ensures { result.now ≡ chip_rates chip }
{
    match chip {
        Chip::Xscale => &XSCALE_RATES,
        Chip::Ppc405lp => &PPC405LP_RATES,
    }
}

// A chip's powers, at each of its rates.
#[tactic(auto, unfolding(crate::specs::Chips::milliwatts))]
fn powers(chip: Chip) -> &'static [u32]
    ensures { result.now ≡ milliwatts chip }
{
    match chip {
        Chip::Xscale => &XSCALE_POWERS,
        Chip::Ppc405lp => &PPC405LP_POWERS,
    }
}

// How many rates a chip has.
pub fn rate_count(chip: Chip) -> usize
    ensures { result ≡ chip_count chip }
{
    rates(chip).len()
}

// The rate with rate number r, which counts from 1.
fn rate(chip: Chip, r: usize) -> u32
    requires { (1 ≤ r) × (r ≤ chip_count chip) }
    ensures { result ≡ chip_rate chip r }
{
    rates(chip)[r - 1]
}

// The power at rate number r.
fn power(chip: Chip, r: usize) -> u32
    requires { (1 ≤ r) × (r ≤ chip_count chip) }
    ensures { result ≡ chip_power chip r }
{
    powers(chip)[r - 1]
}

// The energy of a job of so many cycles at rate number r: it fits a word whatever the cycles.
fn energy(chip: Chip, cycles: u32, r: usize) -> u32
    requires { (1 ≤ r) × (r ≤ chip_count chip) }
    ensures { result ≡ chip_energy chip cycles r }
{
    let time = figures::job_ticks(cycles, rate(chip, r));
    power(chip, r) * time
}

// Where a chip's entry stands in the table of idle energies: a table, and no arm for each chip, for `idle_in_order`.
fn idle_entry(chip: Chip) -> usize
    ensures { result ≡ idle_entry chip }
{
    match chip {
        Chip::Xscale => 1,
        Chip::Ppc405lp => 0,
    }
}

// The energy of an idle tick on a chip.
pub fn idle(chip: Chip) -> u32
    ensures { result ≡ chip_idle chip }
{
    IDLE[idle_entry(chip)]
}

// The chip's rates, to the list from a place on.
pub fn put_rates(list: &mut [u32], at: usize, chip: Chip)
    requires { at + chip_count chip ≤ length list.old }
    ensures { list.new ≡ written at (chip_rates chip) list.old }
{
    let table = rates(chip);
    list[at..at + table.len()].copy_from_slice(table);
}

// The energies of a job of so many cycles, one per rate, to the list from a place on.
pub fn put_energies(list: &mut [u32], at: usize, chip: Chip, cycles: u32)
    requires { at + chip_count chip ≤ length list.old }
    ensures { list.new ≡ written at (chip_energies chip cycles) list.old }
{
    lists::put_each(list, at, rate_count(chip), |r| energy(chip, cycles, r));
}
