// The place of a row among rows in order.
ghost use Rattle.std.specs.Prelude.{◌≤◌};
ghost use Rattle.row_words.specs.Values.{row_is};
ghost use Rattle.row_words.specs.Search.{rows_at, Listed, Finds};

use crate::row::Row;
use std::cmp::Ordering;

/// The place of a row among `count` ascending rows, by halving, or else the place where it would stand. Their words stand `step` apart, the first row's at `start`.
pub fn find(
    words: &[u32],
    start: usize,
    step: usize,
    count: usize,
    row: &Row,
) -> Result<usize, usize>
    requires { Listed words.now start step count × (row.now.width ≤ 4) }
    ensures { Finds (rows_at words.now start step count) (row_is row.now) result }
{
    let mut low: usize = 0;
    let mut high = count;
    while low < high {
        let middle = low + (high - low) / 2;
        match row.compare(words, start + step * middle) {
            Ordering::Less => high = middle,
            Ordering::Equal => return Ok(middle),
            Ordering::Greater => low = middle + 1,
        }
    }
    Err(low)
}
