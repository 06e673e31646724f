// A set in words: form, count, then five words a row.
#![tactic(auto)]

mod listing;

ghost use Rattle.std.specs.Prelude.{◌≡◌, true, ◌+◌, ◌*◌, ◌≤◌, length, get_or, drop};
ghost use Rattle.rows.specs.Sets.{has};
ghost use Rattle.rows.specs.Ordered.{ascending};
ghost use Rattle.rows.specs.Row.{row_before};
ghost use Rattle.rows.specs.Layout.{pieces, every, sound_row, rows_in, set_in, sound_set, written};
ghost use Rattle.row_words.specs.Values.{row_is};
ghost use Rattle.row_words.specs.Search.{Finds};

pub use listing::{clear, insert};
use row_words::row::Row;
use row_words::{row, search, write};
use rows::MOST_ROWS;
use std::cmp::Ordering;

// Is each of the `count` rows sound?
fn sound_rows(set: &[u32], count: usize) -> bool
    requires { 2 + 5 * count ≤ length set.now }
    ensures { result ≡ every sound_row (pieces 5 count (drop 2 set.now)) }
{
    for i in 0..count {
        if !row::sound(set, 2 + 5 * i) {
            return false;
        }
    }
    true
}

// Does each row come before the next?
fn ascends(set: &[u32], count: usize) -> bool
    requires { (2 + 5 * count ≤ length set.now) × (get_or set.now 1 0 ≡ count) × (every sound_row (pieces 5 count (drop 2 set.now)) ≡ true) }
    ensures { result ≡ ascending row_before (rows_in set.now) }
{
    for i in 1..count {
        let row = Row::at(set, 2 + 5 * (i - 1));
        let order = row.compare(set, 2 + 5 * i);
        if !order.is_lt() {
            return false;
        }
    }
    true
}

/// Are these words a set's: a form of 0 or 1, a count of at most 128 and so many rows, each sound and before the next? Words past the last row are not looked at.
pub fn sound(set: &[u32]) -> bool
    ensures { result ≡ sound_set set.now }
{
    if set.len() < 2 || 1 < set[0] {
        return false;
    }
    let count = set[1] as usize;
    if MOST_ROWS < count || set.len() < 2 + 5 * count {
        return false;
    }
    sound_rows(set, count) && ascends(set, count)
}

// The place of a row among those listed, by halving.
fn find(set: &[u32], row: &Row) -> Result<usize, usize>
    requires { (sound_set set.now ≡ true) × (row.now.width ≤ 4) }
    ensures { Finds (rows_in set.now) (row_is row.now) result }
{
    search::find(set, 2, 5, set[1] as usize, row)
}

// The place of a row, looked for at the end first: rows mostly come in order.
fn find_from_end(set: &[u32], row: &Row) -> Result<usize, usize>
    requires { (sound_set set.now ≡ true) × (row.now.width ≤ 4) }
    ensures { Finds (rows_in set.now) (row_is row.now) result }
{
    let count = set[1] as usize;
    if count == 0 {
        return Err(0);
    }
    let last = count - 1;
    match row.compare(set, 2 + 5 * last) {
        Ordering::Less => find(set, row),
        Ordering::Equal => Ok(last),
        Ordering::Greater => Err(count),
    }
}

/// Does the row belong to the set? To a finite set if it is listed, to a complement if it is not.
pub fn has(set: &[u32], row: Row) -> bool
    requires { (sound_set set.now ≡ true) × (row.width ≤ 4) }
    ensures { result ≡ has (set_in set.now) (row_is row) }
{
    let finite = set[0] == 0;
    match find(set, &row) {
        Ok(_) => finite,
        Err(_) => !finite,
    }
}

// Copies a set to the front of another area, and not a word more.
pub fn copy(from: &[u32], to: &mut [u32])
    requires { (sound_set from.now ≡ true) × (642 ≤ length to.old) }
    ensures { to.new ≡ written (set_in from.now) to.old }
{
    let end = 2 + 5 * from[1] as usize;
    write(to, 0, &from[..end]);
}
