// A set started, and rows listed in it.
ghost use Rattle.std.specs.Prelude.{◌≡◌, true, [], ◌∷◌, ◌++◌, ◌+◌, ◌*◌, ◌≤◌, ◌<◌, length, get_or, take, drop};
ghost use Rattle.rows.specs.Polarities.{form_number};
ghost use Rattle.rows.specs.Layout.{rows_in, formed, set_in, sound_set, written};
ghost use Rattle.row_words.specs.Values.{row_is};
ghost use Rattle.sets.specs.Values.{insert_gives, insert_leaves};

use crate::find_from_end;
use refusals::Refusal;
use row_words::row::Row;
use rows::{Form, MOST_ROWS};

/// Starts a set of a form, with no rows listed.
pub fn clear(set: &mut [u32], form: Form)
    requires { 2 ≤ length set.old }
    ensures { set.new ≡ written (formed (form_number form) []) set.old }
{
    set[1] = 0;
    set[0] = form.into();
}

// Puts a row in at place `i`: the later ones move up by five words.
fn insert_at(set: &mut [u32], i: usize, row: Row)
    requires { (sound_set set.old ≡ true) × (642 ≤ length set.old) × (i ≤ length (rows_in set.old)) × (length (rows_in set.old) < 128) × (row.width ≤ 4) }
    ensures { set.new ≡ written (formed (get_or set.old 0 0) (take i (rows_in set.old) ++ (row_is row ∷ drop i (rows_in set.old)))) set.old }
{
    let listed = set[1];
    let at = 2 + 5 * i;
    let end = 2 + 5 * listed as usize;
    set.copy_within(at..end, at + 5);
    row.write(set, at);
    set[1] = listed + 1;
}

/// Has the set list a row too, if it does not yet: says whether the row is new. Refused where 128 rows are listed and this is another.
pub fn insert(set: &mut [u32], row: Row) -> Result<bool, Refusal>
    requires { (sound_set set.old ≡ true) × (642 ≤ length set.old) × (1 ≤ row.width) × (row.width ≤ 4) }
    ensures answer { result ≡ insert_gives (set_in set.old) (row_is row) }
    ensures words { set.new ≡ insert_leaves result set.old (row_is row) }
{
    match find_from_end(set, &row) {
        Ok(_) => Ok(false),
        Err(i) => {
            if set[1] as usize == MOST_ROWS {
                return Err(Refusal::TooManyRows);
            }
            insert_at(set, i, row);
            Ok(true)
        }
    }
}
