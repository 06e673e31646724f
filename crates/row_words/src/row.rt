// A row in hand, and a row in words.
ghost use Rattle.std.specs.Prelude.{◌≡◌, ◌+◌, ◌≤◌, ◌<◌, length, get_or};
ghost use Rattle.rows.specs.Row.{row_before};
ghost use Rattle.rows.specs.Layout.{row_in, row_words, five_at, sound_row, put};
ghost use Rattle.row_words.specs.Values.{five_is, row_is, ordering_for};

use std::cmp::Ordering;

/// A row: as many of the atoms as the width says, whatever stands in the others.
#[derive(Clone, Copy, Debug, PartialEq, Eq)]
pub struct Row {
    pub width: u32,
    pub atoms: [u32; 4],
}

impl Row {
    /// The row whose five words stand at `at`.
    pub fn at(words: &[u32], at: usize) -> Row
        requires { at + 5 ≤ length words.now }
        ensures { five_is result ≡ five_at words.now at }
    {
        let atoms = [words[at + 1], words[at + 2], words[at + 3], words[at + 4]];
        Row {
            width: words[at],
            atoms,
        }
    }

    /// Where the row stands to the row whose five words stand at `at`: atom by atom, and where one ends and the other goes on, the shorter comes first.
    // All that orders rows asks this; only a run of records in the store (`run_end` in `store_records`) goes by its first two atoms alone.
    pub fn compare(&self, words: &[u32], at: usize) -> Ordering
        requires { (at + 5 ≤ length words.now) × (self.now.width ≤ 4) × (get_or words.now at 0 ≤ 4) }
        ensures { result ≡ ordering_for row_before (row_is self.now) (row_in (five_at words.now at)) }
    {
        // A loop: on rows this short the slices' own `cmp` takes half as long again.
        let mine = self.width as usize;
        let theirs = words[at] as usize;
        for j in 0..mine.min(theirs) {
            let x = self.atoms[j];
            let y = words[at + 1 + j];
            if x != y {
                return x.cmp(&y);
            }
        }
        mine.cmp(&theirs)
    }

    /// Writes the row's five words at `at`, the unused atoms as 0.
    pub fn write(&self, area: &mut [u32], at: usize)
        requires { (at + 5 ≤ length area.old) × (self.now.width ≤ 4) }
        ensures { area.new ≡ put at (row_words (row_is self.now)) area.old }
    {
        for j in 0..5 {
            area[at + j] = self.word(j);
        }
    }

    // Word `j` of the five that a row takes. Whatever stands in the unused atoms, their words are 0.
    fn word(&self, j: usize) -> u32
        requires { (j < 5) × (self.now.width ≤ 4) }
        ensures { result ≡ get_or (row_words (row_is self.now)) j 0 }
    {
        if j == 0 {
            return self.width;
        }
        if j <= self.width as usize {
            return self.atoms[j - 1];
        }
        0
    }
}

/// Are the five words at `at` a row's: a width of 1 to 4, and the unused atoms 0?
pub fn sound(words: &[u32], at: usize) -> bool
    requires { at + 5 ≤ length words.now }
    ensures { result ≡ sound_row (five_at words.now at) }
{
    let width = words[at];
    if width < 1 || 4 < width {
        return false;
    }
    for j in width as usize..4 {
        if words[at + 1 + j] != 0 {
            return false;
        }
    }
    true
}
