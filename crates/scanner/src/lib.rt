// The reader's steps: the class of the next byte, fixed strings, and numbers. Which of them make a text is left to the
// crates above.
#![tactic(auto)]

ghost use Rattle.std.specs.Prelude.{◌≡◌, false, ◌-◌, ◌≤◌, length, drop};
ghost use Rattle.text.specs.Reading;
ghost use Rattle.text.specs.Reading.{read_at, ext, starts};
ghost use Rattle.scanner.specs.Steps.{Stands, Reads, Stays, taken};

// What stands at a place of the text: the end, or a byte by the classes that document 01 names for the step. A line's
// end stands in fixed strings alone, so that no form asks for it by its class.
#[derive(Clone, Copy)]
pub enum Class {
    End,
    Digit(u32),
    Bracket(u8),
    Space,
    LineEnd,
    Letter(u8),
    Other,
}

// The text does not read as it must: the offset of the first byte that departs.
#[derive(Clone, Copy, Debug, PartialEq, Eq)]
pub struct Departure {
    pub at: usize,
}

// A text and the place in it at which the next step reads. A step that reads what it must goes past it; where the text
// departs from a fixed string, or from one and a number, the place stays.
#[derive(Clone, Copy)]
pub struct Cursor<'a> {
    text: &'a [u8],
    at: usize,
}

impl<'a> Cursor<'a> {
    // A place in a text.
    pub fn new(text: &'a [u8], at: usize) -> Cursor<'a>
        ensures { (result.text.now ≡ text.now) × (result.at ≡ at) }
    {
        Cursor { text, at }
    }

    // The place in the text.
    pub fn at(&self) -> usize
        ensures { result ≡ self.now.at }
    {
        self.at
    }

    // The class of the next byte. Each bracket has an arm of its own: four single bytes are tested together, in front
    // of the digits, where two would be tested one by one, and digits are most of a text.
    pub fn step(&self) -> Class
        ensures { Stands result self.now.text.now self.now.at }
    {
        if self.text.len() <= self.at {
            return Class::End;
        }
        let b = self.text[self.at];
        match b {
            b'0'..=b'9' => Class::Digit((b - b'0') as u32),
            b'(' => Class::Bracket(b),
            b')' => Class::Bracket(b),
            b' ' => Class::Space,
            b'\n' => Class::LineEnd,
            b'a'..=b'z' => Class::Letter(b),
            _ => Class::Other,
        }
    }

    // Whether a letter stands at the place: it tells two forms apart that may both follow.
    pub fn is_letter(&self, letter: u8) -> bool
        requires { (97 ≤ letter) × (letter ≤ 122) }
        ensures { result ≡ starts letter (drop self.now.at self.now.text.now) }
    {
        match self.step() {
            Class::Letter(b) => b == letter,
            _ => false,
        }
    }

    // How many bytes of the text stand from the place on.
    fn room(&self) -> usize
        ensures { result ≡ length self.now.text.now - self.now.at }
    {
        self.text.len().saturating_sub(self.at)
    }

    // Whether a fixed string stands at the place, with room for it. No byte ends the loop, so that the compiler can
    // compare several at once; with `starts_with` in its place the longest text took 1.51 of plain C's time, past the
    // bar of 1.5.
    fn agrees(&self, l: &[u8]) -> bool
        requires { length l.now ≤ length self.now.text.now - self.now.at }
        ensures { result ≡ taken (read_at (Reading.literal l.now) self.now.text.now self.now.at) }
    {
        let mut same = true;
        for (j, b) in l.iter().enumerate() {
            same &= self.text[self.at + j] == *b;
        }
        same
    }

    // Whether a fixed string stands at the place.
    fn is_there(&self, l: &[u8]) -> bool
        ensures { result ≡ taken (read_at (Reading.literal l.now) self.now.text.now self.now.at) }
    {
        if self.room() < l.len() {
            return false;
        }
        self.agrees(l)
    }

    // Where the text departs from a fixed string that does not stand at the place. It takes a copy, so that what stands
    // in the cursor need not be in memory for it.
    #[cold]
    fn departure(self, l: &[u8]) -> Departure
        requires { taken (read_at (Reading.literal l.now) self.text.now self.at) ≡ false }
        ensures { result.at ≡ ext (read_at (Reading.literal l.now) self.entry.text.now self.entry.at) }
    {
        for i in self.at..self.text.len() {
            if self.text[i] != l[i - self.at] {
                return Departure { at: i };
            }
        }
        Departure {
            at: self.at.max(self.text.len()),
        }
    }

    // A fixed string: compared as a whole, since it stands there in nearly every text, and byte by byte only where it
    // does not. Inlined, so that the string's length is known where it is compared.
    #[inline(always)]
    pub fn literal(&mut self, l: &[u8]) -> Result<(), Departure>
        ensures reads { Reads (Reading.literal l.now) self.old self.new result }
        ensures stays { Stays self.old self.new result }
    {
        if self.is_there(l) {
            self.at += l.len();
            return Ok(());
        }
        Err(self.departure(l))
    }

    // The digits after a number's first one. The number is held in 64 bits until it is whole, so that no digit waits
    // for it to be widened, and the loop has a cursor of its own, so that no digit waits for the place to be stored.
    fn more(&mut self, first: u32) -> Result<u32, Departure>
        ensures { Reads (Reading.more first) self.old self.new result }
    {
        let mut here = *self;
        let mut v = first as u64;
        while let Class::Digit(d) = here.step() {
            let w = v * 10 + d as u64;
            if w >= 4_294_967_296 {
                return Err(Departure { at: here.at });
            }
            v = w;
            here.at += 1;
        }
        *self = here;
        Ok(v as u32)
    }

    // A number: 0, or digits that start with 1 to 9.
    fn number(&mut self) -> Result<u32, Departure>
        ensures { Reads Reading.number self.old self.new result }
    {
        let Class::Digit(d) = self.step() else {
            return Err(Departure { at: self.at });
        };
        self.at += 1;
        let is_zero = d == 0;
        if is_zero {
            return Ok(0);
        }
        self.more(d)
    }

    // A fixed string and a number.
    #[inline]
    pub fn field(&mut self, l: &[u8]) -> Result<u32, Departure>
        ensures reads { Reads (Reading.field l.now) self.old self.new result }
        ensures stays { Stays self.old self.new result }
    {
        let begun = self.at;
        self.literal(l)?;
        match self.number() {
            Ok(v) => Ok(v),
            Err(departure) => {
                self.at = begun;
                Err(departure)
            }
        }
    }
}
