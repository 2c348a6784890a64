// The writer of the bracketed text: checks 2 and 3, then the bytes needed are counted, and only where the buffer has
// them is it written to. Each form has one function, for any sink: with a counter it counts, with a buffer it writes.
// A list's text names no chip: it has a line of rates, and each task's line has its energies.
#![tactic(auto)]

ghost use Rattle.std.specs.Prelude.{◌≡◌, ◌≤◌, ◌<◌, length};
ghost use Rattle.numbers.specs.Numbers.{joined};
ghost use Rattle.text.specs.Text.{spaced, task_text, script_text, list_rates, shown, line_of, script_of};
ghost use Rattle.text.specs.Calls.{WriterGives};
ghost use Rattle.printer.specs.Puts.{Put};
ghost use Rattle.layout.specs.declared.Layout.TheVariants.{Ordinary};
ghost use Rattle.writer.specs.Lines.{optional_text, slack_text, idle_line, rates_text};

use checks::Set;
use layout::Layout;
use printer::{Buffer, Count, Sink};
use taskset::{CopyAnswer, Refusal};

// The least idle energy that has a line of its own, and the least first release that has a form.
const LEAST_SHOWN: u64 = 1;

// The ordinary list of a set.
#[derive(Clone, Copy)]
struct Listed<'a> {
    set: Set<'a>,
    ghost ordinary: { set.layout ≡ Ordinary },
}

// A space and a number. (A function of its own: a byte string in a loop would be part of the loop's invariant.)
fn spaced<S: Sink>(sink: &mut S, v: u32)
    requires { S.fits sink.old (spaced v) }
    ensures { S.takes sink.old (spaced v) sink.new }
{
    sink.put_field(b" ", u64::from(v));
}

// Numbers in a row, each behind a space.
fn numbers<S: Sink>(sink: &mut S, l: &[u32])
    requires { S.fits sink.old (joined spaced l.now) }
    ensures { S.takes sink.old (joined spaced l.now) sink.new }
{
    for v in l {
        spaced(sink, *v);
    }
}

// A form that stands only where its number is above 0: two fixed strings, and the number between them.
// (No Option: in the words that `seedspell_plan` takes 0 is none.)
fn shown<S: Sink>(sink: &mut S, front: &[u8], v: u64, end: &[u8])
    requires { S.fits sink.old (optional_text front.now end.now (shown v)) }
    ensures { S.takes sink.old (optional_text front.now end.now (shown v)) sink.new }
{
    if LEAST_SHOWN <= v {
        sink.put_bytes(front);
        sink.put_number(v);
        sink.put_bytes(end);
    }
}

// The slack's line.
fn slack_line<S: Sink>(sink: &mut S, slack: u64)
    requires { S.fits sink.old (slack_text slack) }
    ensures { S.takes sink.old (slack_text slack) sink.new }
{
    sink.put_field(b"(slack ", slack);
    sink.put_bytes(b")\n");
}

// The idle line, where there is one.
fn idle_line<S: Sink>(sink: &mut S, idle: u64)
    requires { S.fits sink.old (idle_line (shown idle)) }
    ensures { S.takes sink.old (idle_line (shown idle)) sink.new }
{
    shown(sink, b"(idle ", idle, b")\n");
}

// The rates' line.
fn rates_line<S: Sink>(sink: &mut S, rates: &[u32])
    requires { S.fits sink.old (rates_text rates.now) }
    ensures { S.takes sink.old (rates_text rates.now) sink.new }
{
    sink.put_bytes(b"(rates");
    numbers(sink, rates);
    sink.put_bytes(b")\n");
}

impl Listed<'_> {
    // Its rates, and the energies of the task at place t, as they stand in the words.
    fn rates(&self) -> &[u32]
        ensures { result.now ≡ list_rates self.now.set.words.now }
    {
        let start = places::rate_place(Layout::Ordinary, 1);
        let end = places::task_count_place(Layout::Ordinary, self.set.rates);
        &self.set.words[start..end]
    }

    fn energies(&self, t: usize) -> &[u32]
        requires { t < self.now.set.tasks }
        ensures { result.now ≡ (line_of self.now.set.words.now t).energies }
    {
        let start = places::energy_place(Layout::Ordinary, self.set.rates, t, 1);
        let end = start + self.set.rates;
        &self.set.words[start..end]
    }

    // The line of the task at place t.
    fn task_line<S: Sink>(&self, sink: &mut S, t: usize)
        requires has { t < self.now.set.tasks }
        requires fits { S.fits sink.old (task_text (line_of self.now.set.words.now t)) }
        ensures { S.takes sink.old (task_text (line_of self.now.set.words.now t)) sink.new }
    {
        let period = u64::from(self.set.period(t));
        let cycles = u64::from(self.set.cycles(t));
        let first = u64::from(self.set.first(t));
        let energies = self.energies(t);
        sink.put_field(b"(task (period ", period);
        sink.put_field(b") (cycles ", cycles);
        sink.put_bytes(b") (energy");
        numbers(sink, energies);
        sink.put_bytes(b")");
        shown(sink, b" (from ", first, b")");
        sink.put_bytes(b")\n");
    }

    // The whole text.
    fn text<S: Sink>(&self, sink: &mut S)
        requires { S.fits sink.old (script_text (script_of self.now.set.words.now)) }
        ensures { S.takes sink.old (script_text (script_of self.now.set.words.now)) sink.new }
    {
        slack_line(sink, u64::from(self.set.slack()));
        idle_line(sink, u64::from(self.set.idle()));
        rates_line(sink, self.rates());
        for t in 0..self.set.tasks {
            self.task_line(sink, t);
        }
    }
}

// How many bytes the text has.
fn count_text(listed: &Listed) -> usize
    ensures { result ≡ length (script_text (script_of listed.now.set.words.now)) }
{
    let mut counter = Count { bytes: 0 };
    listed.text(&mut counter);
    counter.bytes
}

// Each form to the front of the rest of a buffer: how many bytes.
fn put_slack(rest: &mut [u8], slack: u64) -> usize
    requires { length (slack_text slack) ≤ length rest.old }
    ensures { Put (slack_text slack) rest.old rest.new result }
{
    let mut lent = Buffer { all: rest, at: 0 };
    slack_line(&mut lent, slack);
    lent.at
}

fn put_idle(rest: &mut [u8], idle: u64) -> usize
    requires { length (idle_line (shown idle)) ≤ length rest.old }
    ensures { Put (idle_line (shown idle)) rest.old rest.new result }
{
    let mut lent = Buffer { all: rest, at: 0 };
    idle_line(&mut lent, idle);
    lent.at
}

fn put_rates(rest: &mut [u8], rates: &[u32]) -> usize
    requires { length (rates_text rates.now) ≤ length rest.old }
    ensures { Put (rates_text rates.now) rest.old rest.new result }
{
    let mut lent = Buffer { all: rest, at: 0 };
    rates_line(&mut lent, rates);
    lent.at
}

fn put_task(rest: &mut [u8], listed: &Listed, t: usize) -> usize
    requires has { t < listed.now.set.tasks }
    requires fits { length (task_text (line_of listed.now.set.words.now t)) ≤ length rest.old }
    ensures { Put (task_text (line_of listed.now.set.words.now t)) rest.old rest.new result }
{
    let mut lent = Buffer { all: rest, at: 0 };
    listed.task_line(&mut lent, t);
    lent.at
}

// The text to the front of a buffer: the rest of it that is not yet written, from mid-slice on, is lent to each form's
// writer. (Listed::text is the same for the counter, which has no rest to lend.)
fn put_text(buf: &mut [u8], listed: &Listed) -> usize
    requires { length (script_text (script_of listed.now.set.words.now)) ≤ length buf.old }
    ensures { Put (script_text (script_of listed.now.set.words.now)) buf.old buf.new result }
{
    let a = put_slack(buf, u64::from(listed.set.slack()));
    let b = a + put_idle(&mut buf[a..], u64::from(listed.set.idle()));
    let mut n = b + put_rates(&mut buf[b..], listed.rates());
    for t in 0..listed.set.tasks {
        n += put_task(&mut buf[n..], listed, t);
    }
    n
}

// The text of a set of words that passes checks 2 and 3; how many bytes, or a refusal that leaves the buffer as it was.
pub fn write(set: &[u32], text: &mut [u8]) -> CopyAnswer
    ensures { WriterGives set.now text.old text.new result }
{
    let counts = checks::check_words(set, Layout::Ordinary)?;
    let listed = Listed {
        set: Set {
            words: set,
            layout: Layout::Ordinary,
            rates: counts.rates,
            tasks: counts.tasks,
        },
    };
    let needed = count_text(&listed);
    if text.len() < needed {
        return Err(Refusal::TooShort(needed));
    }
    Ok(put_text(text, &listed))
}
