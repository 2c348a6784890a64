// The forms of a text, one after the other, and the words that they say, to a list. What becomes of the list is left to
// the reader.
#![tactic(auto)]

ghost use Rattle.std.specs.Prelude.{◌≡◌, ◌+◌, ◌≤◌, length, drop};
ghost use Rattle.numbers.specs.Numbers.{joined};
ghost use Rattle.layout.specs.Words.{most_rates, most_tasks, most_words, tasks_place, task_size, period_place};
ghost use Rattle.layout.specs.declared.Layout.TheVariants.{Ordinary};
ghost use Rattle.text.specs.Text;
ghost use Rattle.text.specs.Reading;
ghost use Rattle.text.specs.Reading.{mapped, starts};
ghost use Rattle.scanner.specs.Steps.{Reads, Stays};
ghost use Rattle.forms.specs.Forms.{Gives, plain, no_value, given, head_from, clock_of, said_of};
ghost use Rattle.forms.specs.Forms.{rates_in, energies_in, idle_in, Fits, energies_by, words_by};

use chips::Chip;
use layout::Layout;
use scanner::{Class, Cursor, Departure};

// The lines of the head; the idle line may be absent.
#[derive(Clone, Copy)]
struct Head {
    slack: u32,
    idle: Option<u32>,
}

// What stands behind the head: so many rates, or a chip by its name.
#[derive(Clone, Copy)]
pub enum Clock {
    Rates(usize),
    Named(Chip),
}

// What a text says, beside its words in the list: the clock, and how many rates, tasks and words there are.
#[derive(Clone, Copy)]
pub struct Said {
    pub clock: Clock,
    pub rates: usize,
    pub tasks: usize,
    pub words: usize,
}

// At least low numbers and up to spare more, each behind a space, to the list from k on: how many.
fn numbers(
    text: &mut Cursor,
    out: &mut [u32],
    k: usize,
    low: usize,
    spare: usize,
) -> Result<usize, Departure>
    requires { (low + spare ≤ most_rates) × (k + (low + spare) ≤ length out.old) }
    ensures { Gives length plain (Reading.numbers low spare) text.old text.new k out.old out.new result }
{
    for n in 0..low + spare {
        if low <= n {
            let Class::Space = text.step() else {
                return Ok(n);
            };
        }
        out[k + n] = text.field(b" ")?;
    }
    Ok(low + spare)
}

// The idle line from its name on, with the bracket that opens the line behind it: an i begins it, and no other line that
// may stand there.
fn idle_line(text: &mut Cursor) -> Result<Option<u32>, Departure>
    ensures { Reads (mapped given Reading.read_idle) text.old text.new result }
{
    if !text.is_letter(b'i') {
        return Ok(None);
    }
    let h = text.field(b"idle ")?;
    text.literal(b")\n(")?;
    Ok(Some(h))
}

// The head's lines, with the bracket that opens the line behind them, since the letter behind a bracket tells which line
// it opens.
fn head_lines(text: &mut Cursor) -> Result<Head, Departure>
    ensures { Reads (mapped head_from Reading.read_head) text.old text.new result }
{
    let slack = text.field(b"(slack ")?;
    text.literal(b")\n(")?;
    let idle = idle_line(text)?;
    Ok(Head { slack, idle })
}

// The name of a chip: an x begins the one.
fn chip_name(text: &mut Cursor) -> Result<Chip, Departure>
    ensures { Reads Reading.read_chip text.old text.new result }
{
    if text.is_letter(b'x') {
        text.literal(b"xscale")?;
        return Ok(Chip::Xscale);
    }
    text.literal(b"ppc405lp")?;
    Ok(Chip::Ppc405lp)
}

// A chip's line from its name on: the chip's rates, to the list from k on.
fn chip_line(text: &mut Cursor, out: &mut [u32], k: usize) -> Result<Clock, Departure>
    requires { k + most_rates ≤ length out.old }
    ensures { Gives clock_of Text.rates_of Reading.read_chip_line text.old text.new k out.old out.new result }
{
    text.literal(b"chip ")?;
    let chip = chip_name(text)?;
    chips::put_rates(out, k, chip);
    Ok(Clock::Named(chip))
}

// A line of rates from its name on: the rates, to the list from k on.
fn rates_line(text: &mut Cursor, out: &mut [u32], k: usize) -> Result<Clock, Departure>
    requires { k + most_rates ≤ length out.old }
    ensures { Gives clock_of Text.rates_of Reading.read_rates_line text.old text.new k out.old out.new result }
{
    text.literal(b"rates")?;
    let n = numbers(text, out, k, 2, 6)?;
    Ok(Clock::Rates(n))
}

// The line behind the head, from its name on: a c begins the chip's.
fn clock_line(text: &mut Cursor, out: &mut [u32], k: usize) -> Result<Clock, Departure>
    requires { k + most_rates ≤ length out.old }
    ensures { Gives clock_of Text.rates_of Reading.read_clock text.old text.new k out.old out.new result }
{
    if text.is_letter(b'c') {
        chip_line(text, out, k)
    } else {
        rates_line(text, out, k)
    }
}

// How many rates a clock has.
fn rate_count(clock: Clock) -> usize
    ensures { result ≡ rates_in clock }
{
    match clock {
        Clock::Rates(m) => m,
        Clock::Named(chip) => chips::rate_count(chip),
    }
}

// The idle energy of a set: what the line says, and without it the chip's own, or 0.
fn idle_energy(line: Option<u32>, clock: Clock) -> u32
    ensures { result ≡ idle_in line clock }
{
    match (line, clock) {
        (Some(h), _) => h,
        (None, Clock::Rates(_)) => 0,
        (None, Clock::Named(chip)) => chips::idle(chip),
    }
}

// The energy form of a task's line, with m energies, to the list from k on.
fn energy_form(text: &mut Cursor, out: &mut [u32], k: usize, m: usize) -> Result<(), Departure>
    requires { (1 ≤ m) × (m ≤ most_rates) × (k + m ≤ length out.old) }
    ensures { Gives no_value plain (Reading.read_energies m) text.old text.new k out.old out.new result }
{
    text.literal(b" (energy")?;
    numbers(text, out, k, m, 0)?;
    text.literal(b")")
}

// The energies of a job of so many cycles, to the list from k on: under a chip the line has none, and they are worked
// out.
fn energies(
    text: &mut Cursor,
    out: &mut [u32],
    k: usize,
    clock: Clock,
    cycles: u32,
) -> Result<(), Departure>
    requires { Fits clock × (k + rates_in clock ≤ length out.old) }
    ensures { Gives no_value (energies_by clock cycles) (Reading.read_energies (energies_in clock))
        text.old text.new k out.old out.new result }
{
    match clock {
        Clock::Rates(m) => energy_form(text, out, k, m),
        Clock::Named(chip) => {
            chips::put_energies(out, k, chip, cycles);
            Ok(())
        }
    }
}

// The first release that ends a task's line, 0 if it is absent: a space begins its form, and a bracket what ends the line
// without it.
fn first_release(text: &mut Cursor) -> Result<u32, Departure>
    ensures { Reads (mapped Text.first_of Reading.read_first) text.old text.new result }
{
    let Class::Space = text.step() else {
        return Ok(0);
    };
    let a = text.field(b" (from ")?;
    text.literal(b")")?;
    Ok(a)
}

// A task's line, to the list from k on: the period, the cycles and the first release are the first words of a task in
// every layout.
fn task(text: &mut Cursor, out: &mut [u32], k: usize, clock: Clock) -> Result<(), Departure>
    requires { Fits clock × (k + task_size Ordinary (rates_in clock) ≤ length out.old) }
    ensures { Gives no_value (words_by clock) (Reading.read_task (energies_in clock))
        text.old text.new k out.old out.new result }
{
    let p = text.field(b"(task (period ")?;
    let c = text.field(b") (cycles ")?;
    text.literal(b")")?;
    let place = k + places::before_energies(Layout::Ordinary);
    energies(text, out, place, clock, c)?;
    let a = first_release(text)?;
    out[k] = p;
    out[k + places::CYCLES_IN_TASK] = c;
    out[k + places::FIRST_IN_TASK] = a;
    text.literal(b")\n")
}

// Whether an opening bracket stands at the place.
fn opens(text: &Cursor) -> bool
    ensures { result ≡ starts 40 (drop text.now.at text.now.text.now) }
{
    match text.step() {
        Class::Bracket(b) => b == b'(',
        _ => false,
    }
}

// The tasks, one to 32, to the list, where they stand behind the clock's rates: how many.
fn tasks(text: &mut Cursor, out: &mut [u32], clock: Clock) -> Result<usize, Departure>
    requires { Fits clock × (period_place Ordinary (rates_in clock) most_tasks ≤ length out.old) }
    ensures { Gives length (joined (words_by clock)) (Reading.read_tasks (energies_in clock))
        text.old text.new (tasks_place Ordinary (rates_in clock)) out.old out.new result }
{
    let m = rate_count(clock);
    for n in 0..places::MOST_TASKS {
        if 0 < n && !opens(text) {
            return Ok(n);
        }
        task(
            text,
            out,
            places::period_place(Layout::Ordinary, m, n),
            clock,
        )?;
    }
    Ok(places::MOST_TASKS)
}

// A set's words, to the front of the list: what they are. A count is known only when what it counts stands in the list,
// and the idle energy only with the chip, so the words in front are stored last.
fn set_lines(text: &mut Cursor, out: &mut [u32]) -> Result<Said, Departure>
    requires { most_words ≤ length out.old }
    ensures { Gives said_of Text.words Reading.read_script text.old text.new 0 out.old out.new result }
{
    let size = places::head_size(Layout::Ordinary);
    let head = head_lines(text)?;
    let clock = clock_line(text, out, size + 1)?;
    text.literal(b")\n")?;
    let n = tasks(text, out, clock)?;
    let m = rate_count(clock);
    out[places::task_count_place(Layout::Ordinary, m)] = n as u32;
    out[size] = m as u32;
    out[places::SLACK_PLACE] = head.slack;
    let idle = head.idle;
    out[places::IDLE_PLACE] = idle_energy(idle, clock);
    Ok(Said {
        clock,
        rates: m,
        tasks: n,
        words: places::period_place(Layout::Ordinary, m, n),
    })
}

// The same, as a step: where the text departs, the cursor stands where it stood.
pub fn read_set(text: &mut Cursor, out: &mut [u32]) -> Result<Said, Departure>
    requires { most_words ≤ length out.old }
    ensures gives { Gives said_of Text.words Reading.read_script text.old text.new 0 out.old out.new result }
    ensures stays { Stays text.old text.new result }
{
    let begun = *text;
    match set_lines(text, out) {
        Ok(said) => Ok(said),
        Err(departure) => {
            *text = begun;
            Err(departure)
        }
    }
}
