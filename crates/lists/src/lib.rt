// Lists that are written to: from the front, and from a place on, part by part. specs/ defines what is then in the
// list, proofs/ has the laws. What is written, words or bytes, is left to the crates above.
#![tactic(auto)]

ghost use Rattle.std.specs.Prelude.{◌≡◌, ℕ, ◌+◌, ◌≤◌, length};
ghost use Rattle.numbers.specs.Numbers.{each};
ghost use Rattle.lists.specs.Writing.{written, Gives};

// The words that f gives for 1, 2 and so on, count of them, to the list from a place on.
pub fn put_each<F: Fn(usize) -> u32>(list: &mut [u32], at: usize, count: usize, f: F)
    requires room { at + count ≤ length list.old }
    requires callable { (j : ℕ) → 1 ≤ j → j ≤ count → F.pre f j }
    ensures { (word : ℕ → ℕ) → Gives (F.post f) word count → list.new ≡ written at (each word 1 count) list.old }
{
    for (i, slot) in list[at..at + count].iter_mut().enumerate() {
        *slot = f(1 + i);
    }
}
