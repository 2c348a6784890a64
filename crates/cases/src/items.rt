// The items of a record: numbers, lists of numbers, and a text.
ghost use Rattle.std.specs.Prelude.{IfSome, ◌≤◌};

// What is left of a record. What takes an item takes the one space in front of it too, and gives `None` where no such
// item stands.
#[derive(Clone, Copy)]
pub(crate) struct Items<'a> {
    rest: &'a [u8],
}

impl<'a> Items<'a> {
    pub(crate) fn new(rest: &'a [u8]) -> Items<'a> {
        Items { rest }
    }

    // The bytes up to the next space, or to the end of the record, at least one.
    pub(crate) fn word(&mut self) -> Option<&'a [u8]> {
        let rest = self.rest.strip_prefix(b" ")?;
        let end = rest.iter().position(|b| *b == b' ').unwrap_or(rest.len());
        let (word, rest) = rest.split_at(end);
        if word.is_empty() {
            return None;
        }
        self.rest = rest;
        Some(word)
    }

    // A number. One that starts with 0 has no more digits, so that each number has one text.
    pub(crate) fn number(&mut self) -> Option<u32> {
        let digits = self.word()?;
        if let [b'0', _, ..] = digits {
            return None;
        }
        digits.iter().try_fold(0u32, |v, b| {
            let digit = char::from(*b).to_digit(10)?;
            v.checked_mul(10)?.checked_add(digit)
        })
    }

    // A number, at most `most`.
    pub(crate) fn count(&mut self, most: usize) -> Option<usize>
        ensures { IfSome result (λ n. n ≤ most) }
    {
        let n = self.number()? as usize;
        (n <= most).then_some(n)
    }

    // A count, and so many numbers, to the front of a list that has room for them.
    pub(crate) fn list<'b>(&mut self, out: &'b mut [u32]) -> Option<&'b [u32]> {
        let count = self.number()?;
        let list = out.get_mut(..count as usize)?;
        for word in list.iter_mut() {
            *word = self.number()?;
        }
        Some(list)
    }

    // A text: all that is left of the record, at most 16384 bytes.
    pub(crate) fn text(self) -> Option<&'a [u8]> {
        self.rest
            .strip_prefix(b" ")
            .filter(|text| text.len() <= 16384)
    }

    // The end of the record.
    pub(crate) fn end(self) -> Option<()> {
        self.rest.is_empty().then_some(())
    }
}
