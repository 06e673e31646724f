// Words written into an area; rows in words, and a row's place among them.
#![tactic(auto)]

pub mod row;
pub mod search;

ghost use Rattle.std.specs.Prelude.{◌≡◌, ◌+◌, ◌≤◌, length};
ghost use Rattle.rows.specs.Layout.{put};

/// Writes words over those that stand at `at`.
// A loop: for so many words as a number at run time says, the slices' own `copy_from_slice` is a call of the C library's `memmove`, and the archive for C
// needs nothing of that kind.
pub fn write(area: &mut [u32], at: usize, words: &[u32])
    requires { at + length words.now ≤ length area.old }
    ensures { area.new ≡ put at words.now area.old }
{
    for j in 0..words.len() {
        area[at + j] = words[j];
    }
}
