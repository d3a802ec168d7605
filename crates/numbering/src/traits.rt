ghost use Rattle.std.specs.Prelude.{◌≡◌, ℕ, ◌≤◌, List, ◌++◌, length, drop, if◌then◌else◌, Some, None, Option};
ghost use Rattle.numbering.specs.Meaning.{Printed, Names, fits};

// Gives each number from 1 to its greatest a text, and reads a text as a number exactly when it is that number's.
// `text` and `reading` are these; the members behind them are the laws that hold of every numbering. A constant stands twice, for code
// and for clauses, and is proved to be the same.
pub trait Numbering {
    // The last number that has a text.
    const GREATEST: u32;

    ghost GREATEST: { ℕ };

    // The most bytes that a text has.
    const LONGEST: usize;

    ghost LONGEST: { ℕ };

    ghost text: { ℕ → List ℕ };

    ghost reading: { List ℕ → Option ℕ };

    ghost short: { LONGEST ≤ 32 };

    ghost printed: { (n : ℕ) → 1 ≤ n → n ≤ GREATEST → Printed LONGEST (text n) };

    ghost back: { (n : ℕ) → 1 ≤ n → n ≤ GREATEST → reading (text n) ≡ Some n };

    ghost only: { (t : List ℕ) (n : ℕ) → reading t ≡ Some n → Names GREATEST text t n };

    // The last number that has a text, as a value.
    fn last_number(&self) -> u32
        ensures { result ≡ GREATEST }
    {
        Self::GREATEST
    }

    // The most bytes that a text has, as a value.
    fn text_limit(&self) -> usize
        ensures { result ≡ LONGEST }
    {
        Self::LONGEST
    }

    // The text of n at the front of `out`, and its length; none, and nothing written, where n has no text or `out` is too short.
    fn write(&self, n: u32, out: &mut [u8]) -> Option<usize>
        ensures count { result ≡ (if fits GREATEST (length (text n)) n (length out.old) then Some (length (text n)) else None) }
        ensures out { out.new ≡ (if fits GREATEST (length (text n)) n (length out.old) then text n ++ drop (length (text n)) out.old else out.old) };

    // The number that the bytes are the text of, if there is one.
    fn read(&self, bytes: &[u8]) -> Option<u32>
        ensures { result ≡ reading bytes.now };
}
