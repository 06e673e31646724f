// Of a name's records those that hold at a minute, and their rows. The records are in order by the row, so that those of one row stand side by side.
#![tactic(auto)]

ghost use Rattle.std.specs.Prelude.{◌+◌, ◌≤◌, ◌<◌, ◌≡◌, ◌↔◌, IsTrue, MatchOption, MatchResult, length, get_or, true, false};
ghost use Rattle.rows.specs.Layout.{set_room};
ghost use Rattle.rows.specs.Sets.{most_rows};
ghost use Rattle.row_words.specs.Values.{row_is};
ghost use Rattle.certificates.specs.Certificate.{sound_record, record_row, holds_at};
ghost use Rattle.read_held.specs.Held.{Records, rows_held, TooMany, Copied, IsRowOf, SayRecord, SayBeside, SayFound};

use certificates::{RECORD_WORDS, ROW_IN_RECORD, TERM_IN_RECORD};
use refusals::Refusal;
use row_words::row::Row;
use row_words::write;
use rows::MOST_ROWS;
use std::cmp::Ordering;

const FIRST_ATOM: usize = ROW_IN_RECORD + 1;

/// The words of one certificate, as a store holds them.
pub type Record = [u32; RECORD_WORDS];

/// Does it hold at the minute, from its first up to, but without, its end?
#[tactic(auto, unfolding(certificates::specs::Certificate::holds_at))]
pub fn holds(held: &Record, minute: u32) -> bool
    ensures { result ≡ holds_at minute held.now }
{
    held[TERM_IN_RECORD] <= minute && minute < held[TERM_IN_RECORD + 1]
}

/// The atoms of its row.
pub fn row_of(held: &Record) -> &[u32]
    ensures { result.now ≡ record_row held.now }
{
    let width = held[ROW_IN_RECORD].min(4) as usize;
    &held[ROW_IN_RECORD + 1..ROW_IN_RECORD + 1 + width]
}

/// The row of these atoms, as a row in hand: none where they are more than the four that a row has.
pub fn row_from(atoms: &[u32]) -> Option<Row>
    ensures { IsRowOf atoms.now result }
{
    if 4 < atoms.len() {
        return None;
    }
    let mut four = [0; 4];
    write(&mut four, 0, atoms);
    Some(Row {
        width: atoms.len() as u32,
        atoms: four,
    })
}

// Are the rows of two records the same? Their first atoms mostly tell.
// A loop: the slices' own `==` is a call, for which whoever asks this at each record has to put by what it holds.
fn same_row(one: &Record, other: &Record) -> bool
    requires { (sound_record one.now ≡ true) × (sound_record other.now ≡ true) }
    ensures { IsTrue result ↔ (record_row one.now ≡ record_row other.now) }
{
    if one[FIRST_ATOM] != other[FIRST_ATOM] {
        return false;
    }
    for j in 0..5 {
        if one[ROW_IN_RECORD + j] != other[ROW_IN_RECORD + j] {
            return false;
        }
    }
    true
}

// Is its row the one that was listed last?
fn is_listed(held: &Record, last: Option<&Record>) -> bool
    requires { (sound_record held.now ≡ true) × MatchOption last (Unit {0}) (λ other. sound_record other.now ≡ true) }
    ensures { MatchOption last.entry (result ≡ false) (λ other. IsTrue result ↔ (record_row other.now ≡ record_row held.now)) }
{
    match last {
        Some(last) => same_row(last, held),
        None => false,
    }
}

/// Whether more rows hold than a set lists.
// A walk of its own: with the rows copied too, a query whose absent guard meets expired records takes a tenth longer. It ends where it is clear, by one test a
// record: a record adds a row, and these are counted up, or it is spare, and those are counted down.
pub fn are_too_many(records: &[Record], minute: u32) -> bool
    requires { Records records.now }
    ensures { IsTrue result ↔ (most_rows < length (rows_held minute records.now)) }
{
    // Of the records so many may add no row, and the rows are still too many.
    let Some(mut spare) = records.len().checked_sub(MOST_ROWS + 1) else {
        return false;
    };
    let mut listed: usize = 0;
    let mut last: Option<&Record> = None;
    for held in records {
        if !holds(held, minute) || is_listed(held, last) {
            if spare == 0 {
                return false;
            }
            spare -= 1;
            continue;
        }
        if listed == MOST_ROWS {
            return true;
        }
        listed += 1;
        last = Some(held);
    }
    false
}

/// Has an empty set list the rows that hold, each once.
// Taken into its caller, the loop runs a tenth longer: the caller holds too much beside it.
#[inline(never)]
pub fn copy_rows(records: &[Record], minute: u32, area: &mut [u32]) -> Result<(), Refusal>
    requires { Records records.now × (set_room ≤ length area.old) × (get_or area.old 0 0 ≤ 1) }
    ensures { MatchResult result (λ done. Copied minute records.now area.old area.new) (λ refusal. TooMany (rows_held minute records.now) refusal) }
{
    let mut listed: usize = 0;
    let mut last: Option<&Record> = None;
    for held in records {
        if !holds(held, minute) || is_listed(held, last) {
            continue;
        }
        if listed == MOST_ROWS {
            return Err(Refusal::TooManyRows);
        }
        let at = 2 + 5 * listed;
        area[at..at + 5].copy_from_slice(&held[ROW_IN_RECORD..TERM_IN_RECORD]);
        listed += 1;
        last = Some(held);
    }
    area[1] = listed as u32;
    Ok(())
}

// The place of some record of the row, by halving.
// A loop: it ends at the first such record that it meets, whichever that is.
fn find_record(records: &[Record], row: &Row) -> Option<usize>
    requires { Records records.now × (row.now.width ≤ 4) }
    ensures { SayRecord records.now (row_is row.now) result }
{
    let mut low: usize = 0;
    let mut high = records.len();
    while low < high {
        let middle = low + (high - low) / 2;
        match row.compare(&records[middle], ROW_IN_RECORD) {
            Ordering::Less => high = middle,
            Ordering::Equal => return Some(middle),
            Ordering::Greater => low = middle + 1,
        }
    }
    None
}

// Does one of the records before record `i` hold that have its row?
fn held_before(records: &[Record], minute: u32, i: usize) -> bool
    requires { Records records.now × (i < length records.now) }
    ensures { SayBeside minute records.now i 0 i result }
{
    let mut j = i;
    while 0 < j {
        j -= 1;
        if !same_row(&records[j], &records[i]) {
            return false;
        }
        if holds(&records[j], minute) {
            return true;
        }
    }
    false
}

// Does one of the records behind record `i` hold that have its row?
fn held_behind(records: &[Record], minute: u32, i: usize) -> bool
    requires { Records records.now × (i < length records.now) }
    ensures { SayBeside minute records.now i (i + 1) (length records.now) result }
{
    for j in i + 1..records.len() {
        if !same_row(&records[j], &records[i]) {
            return false;
        }
        if holds(&records[j], minute) {
            return true;
        }
    }
    false
}

/// Is the row among those that hold? The record that is found mostly tells; where it does not hold, those of the row beside it are asked.
pub fn is_row_held(records: &[Record], minute: u32, row: &Row) -> bool
    requires { Records records.now × (row.now.width ≤ 4) }
    ensures { SayFound minute records.now (row_is row.now) result }
{
    let Some(found) = find_record(records, row) else {
        return false;
    };
    if holds(&records[found], minute) {
        return true;
    }
    if held_before(records, minute, found) {
        return true;
    }
    held_behind(records, minute, found)
}

/// Is the row of these atoms among those that hold, however many they are?
pub fn is_held(records: &[Record], minute: u32, row: &[u32]) -> bool
    requires { Records records.now }
    ensures { SayFound minute records.now row.now result }
{
    match row_from(row) {
        Some(row) => is_row_held(records, minute, &row),
        None => false,
    }
}
