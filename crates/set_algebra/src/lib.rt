// Union and difference of two sets in one area that holds nothing else: the left set in its first 642 words, the right one in the others. The value is left in the
// left's place. All words past its last row stay, the right set's too; where it does not fit, all stay.
#![tactic(auto)]

ghost use Rattle.std.specs.Prelude.{◌≡◌, true, false, ◌+◌, ◌*◌, ◌-◌, ◌≤◌, length, get_or, take, drop, leb};
ghost use Rattle.rows.specs.Ordered.{join};
ghost use Rattle.rows.specs.Row.{row_before};
ghost use Rattle.rows.specs.Sets.{most_rows, combined};
ghost use Rattle.rows.specs.Layout.{set_room, row_in, five_at, laid, rows_in, formed, set_in, sound_set, written, put};
ghost use Rattle.row_words.specs.Values.{row_is};
ghost use Rattle.set_algebra.specs.Combined.{TwoSets, left_by, is_difference, room_for, Combines};
ghost use Rattle.set_algebra.specs.Private.{LastRows, last_order_for, lefts, rights, Rooms, Passed, Sought, reached, picked, rest, strike_out, Struck, Taken};

use refusals::Refusal;
use row_words::row::Row;
use rows::{MOST_ROWS, SET_ROOM};
use std::cmp::Ordering;

// What is lent: the left set's room, then the right one's.
pub const TWO_ROOMS: usize = 2 * SET_ROOM;

// the right set's count stands after its form, its rows after that
const RIGHT_COUNT: usize = SET_ROOM + 1;

const RIGHT_ROWS: usize = SET_ROOM + 2;

// A row is struck out by a width that no row has, its own and this.
const STROKE: u32 = 8;

/// What is made of two sets.
#[derive(Clone, Copy, Debug, PartialEq, Eq)]
pub enum Operation {
    Union,
    Difference,
}

impl Operation {
    /// The union of the two sets, or what the left has and the right has not. Refused where the value lists more than 128 rows.
    // Where the left is a complement in a union, or finite in a difference, its list only loses rows. Otherwise a finite right set's list joins it; and a
    // complement's, without the rows of the left's, takes its place and turns the form.
    pub fn combine(self, area: &mut [u32]) -> Result<(), Refusal>
        requires { TwoSets area.old }
        ensures { Combines (combined (is_difference self) (set_in area.old) (set_in (drop set_room area.old))) area.old area.new result }
    {
        let complement = area[SET_ROOM] == 1;
        let loses = match self {
            Operation::Union => area[0] == 1,
            Operation::Difference => area[0] != 1,
        };
        if loses {
            filter(area, complement);
            return Ok(());
        }
        if complement {
            keep_right(area);
            return Ok(());
        }
        join(area)
    }
}

// Passes the rows that come before `row`, from `start` on: `Ok` of the row's place, or `Err` of the place where it would stand.
fn seek(set: &[u32], row: Row, start: usize) -> Result<usize, usize>
    requires { (sound_set set.now ≡ true) × (row.width ≤ 4) × Passed (rows_in set.now) (row_is row) start }
    ensures { Sought (rows_in set.now) (row_is row) result }
{
    let count = set[1] as usize;
    for j in start..count {
        match row.compare(set, 2 + 5 * j) {
            Ordering::Less => return Err(j),
            Ordering::Equal => return Ok(j),
            Ordering::Greater => {}
        }
    }
    Err(count)
}

// Keeps those of the left's rows that the right lists or, with `listed` false, those that it does not.
fn filter(area: &mut [u32], listed: bool)
    requires { Rooms area.old 0 642 }
    ensures { area.new ≡ written (formed (get_or area.old 0 0) (picked listed (lefts area.old) (rights area.old))) area.old }
{
    let count = area[1] as usize;
    let mut j = 0;
    let mut kept = 0;
    for i in 0..count {
        let at = 2 + 5 * i;
        let row = Row::at(area, at);
        let place = seek(&area[SET_ROOM..TWO_ROOMS], row, j);
        j = reached(place);
        if place.is_ok() == listed {
            copy_row(area, at, 2 + 5 * kept);
            kept += 1;
        }
    }
    area[1] = kept as u32;
}

// How far a search came, whether it found the row or not.
fn reached(place: Result<usize, usize>) -> usize
    ensures { result ≡ reached place }
{
    match place {
        Ok(at) => at,
        Err(at) => at,
    }
}

// Where the last of the left's first `i` rows stands to the last of the right's first `j`. Where the left has none left, the right's comes last.
fn last(area: &[u32], i: usize, j: usize) -> Ordering
    requires { LastRows area.now i j }
    ensures { result ≡ last_order_for i (row_in (five_at area.now (2 + 5 * (i - 1)))) (row_in (five_at area.now (644 + 5 * (j - 1)))) }
{
    if i == 0 {
        return Ordering::Less;
    }
    let row = Row::at(area, 2 + 5 * (i - 1));
    row.compare(area, RIGHT_ROWS + 5 * (j - 1))
}

// How many rows the two lists have together: from their ends, each row once.
// A loop: two places move down by what a comparison says.
fn joint(area: &[u32]) -> usize
    requires { Rooms area.now 0 642 }
    ensures { result ≡ length (join row_before (lefts area.now) (rights area.now)) }
{
    let mut i = area[1] as usize;
    let mut j = area[RIGHT_COUNT] as usize;
    let mut total: usize = 0;
    while 0 < j {
        let order = last(area, i, j);
        total += 1;
        match order {
            Ordering::Less => j -= 1,
            Ordering::Equal => {
                i -= 1;
                j -= 1; // counted once
            }
            Ordering::Greater => i -= 1,
        }
    }
    total + i
}

// Merges the right's rows into the left's place, from the end: what is written there has been read.
// A loop, as in `joint`.
fn merge(area: &mut [u32], total: usize)
    requires { (Rooms area.old 0 642) × (total ≡ length (join row_before (lefts area.old) (rights area.old))) × (total ≤ 128) }
    ensures { area.new ≡ put 2 (laid (join row_before (lefts area.old) (rights area.old))) area.old }
{
    let mut i = area[1] as usize;
    let mut j = area[RIGHT_COUNT] as usize;
    let mut k = total;
    while 0 < j {
        let order = last(area, i, j);
        k -= 1;
        let to = 2 + 5 * k;
        match order {
            Ordering::Less => {
                j -= 1;
                copy_row(area, RIGHT_ROWS + 5 * j, to);
            }
            Ordering::Equal => {
                i -= 1;
                j -= 1; // written once
                copy_row(area, 2 + 5 * i, to);
            }
            Ordering::Greater => {
                i -= 1;
                copy_row(area, 2 + 5 * i, to);
            }
        }
    }
}

// The left's and the right's rows listed together, in the left's form. They are counted before a word is written.
fn join(area: &mut [u32]) -> Result<(), Refusal>
    requires { Rooms area.old 0 642 }
    ensures answer { result ≡ room_for (leb (length (join row_before (lefts area.old) (rights area.old))) most_rows) }
    ensures words { area.new ≡ left_by (leb (length (join row_before (lefts area.old) (rights area.old))) most_rows) (formed (get_or area.old 0 0) (join row_before (lefts area.old) (rights area.old))) area.old }
{
    let total = joint(area);
    if MOST_ROWS < total {
        return Err(Refusal::TooManyRows);
    }
    merge(area, total);
    area[1] = total as u32;
    Ok(())
}

// Strikes out those of the right's rows that the left lists.
fn strike(area: &mut [u32])
    requires { Rooms area.old 0 642 }
    ensures { area.new ≡ strike_out area.old }
{
    let count = area[RIGHT_COUNT] as usize;
    let mut j = 0;
    for i in 0..count {
        let at = RIGHT_ROWS + 5 * i;
        let row = Row::at(area, at);
        let place = seek(&area[0..SET_ROOM], row, j);
        j = reached(place);
        if place.is_ok() {
            area[at] += STROKE;
        }
    }
}

// Copies those of the right's rows that are not struck out into the left's place, and takes the strokes back. Says how many they are.
fn take_rest(area: &mut [u32]) -> usize
    requires { Struck area.old }
    ensures { Taken area.old area.new result }
{
    let count = area[RIGHT_COUNT] as usize;
    let mut taken = 0;
    for i in 0..count {
        let at = RIGHT_ROWS + 5 * i;
        let width = area[at];
        if STROKE <= width {
            area[at] = width - STROKE;
        } else {
            copy_row(area, at, 2 + 5 * taken);
            taken += 1;
        }
    }
    taken
}

// The five words of a row copied to another place.
fn copy_row(area: &mut [u32], from: usize, to: usize)
    requires { (from + 5 ≤ length area.old) × (to + 5 ≤ length area.old) }
    ensures { area.new ≡ put to (take 5 (drop from area.old)) area.old }
{
    area.copy_within(from..from + 5, to);
}

// The right's rows that the left does not list, in the left's place and in the other form. All are looked for before one is written over the left's.
fn keep_right(area: &mut [u32])
    requires { Rooms area.old 0 642 }
    ensures { area.new ≡ written (formed (1 - get_or area.old 0 0) (rest area.old)) area.old }
{
    strike(area);
    let count = take_rest(area);
    area[1] = count as u32;
    area[0] = 1 - area[0];
}
