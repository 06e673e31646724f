// What the readers do in one step: rows drawn and matched, a row tested or gathered, two sets joined.
#![tactic(auto)]

ghost use Rattle.std.specs.Prelude.{◌+◌, ◌≤◌, ◌≡◌, length, get_or, take, drop};
ghost use Rattle.rows.specs.Layout.{set_room, row_in, rows_in, five_at};
ghost use Rattle.meaning.specs.Matching.{fits};
ghost use Rattle.set_algebra.specs.Combined.{is_difference};
ghost use Rattle.read_values.specs.Values.{Bound};
ghost use Rattle.policy_places.specs.Places.{SomeRow, SomePattern};
ghost use Rattle.read_values.specs.Answers.{Filled};
ghost use Rattle.read_steps.specs.Areas.{Gathering};
ghost use Rattle.read_steps.specs.Steps.{SayCombined, SayIs, SayLast, SayHead, SayHas, SayMatch, SayDrawn};

use policy::Slot;
use policy::codes::Format;
use policy_places::slot_at;
use read_values::{Bindings, Lent, tick, value_of};
use refusals::Refusal;
use set_algebra::{Operation, TWO_ROOMS};
use sets::{has, insert};

// What drawing on came to, with the draws made: a row that matches, and the place behind it; or no row more matches.
#[derive(Clone, Copy)]
pub enum Drawn {
    Matches { next: usize, draws: u32 },
    End(u32),
}

// The union or the difference of the set at the front and the one behind it, left at the front. Both parts are read before too many rows are refused.
pub fn combine_parts(operation: Operation, draws: u32, area: &mut [u32]) -> Result<u32, Refusal>
    requires { Filled area.old × Filled (drop set_room area.old) }
    ensures { SayCombined (is_difference operation) draws area.old result area.new }
{
    operation.combine(&mut area[0..TWO_ROOMS])?;
    Ok(draws)
}

// The matching rule: may a pattern of this width match a row of so many atoms, in a policy of this format? Most rows have its own width.
fn fits(format: u32, width: u32, atoms: u32) -> bool
    ensures { result ≡ fits format width atoms }
{
    if width == atoms {
        return true;
    }
    if format == Format::WiderRows as u32 {
        return width <= atoms;
    }
    false
}

// Is the row that the terms come to the one whose words stand at `place`?
fn is_row(lent: &Lent<'_>, at: usize, bindings: &Bindings, set: &[u32], place: usize) -> bool
    requires { Bound bindings.now.values bindings.now.count × SomeRow lent.now.words.now at × (place + 5 ≤ length set.now) × (get_or set.now place 0 ≤ 4) }
    ensures { SayIs lent.now.words.now at (take bindings.now.count bindings.now.values) (row_in (five_at set.now place)) result }
{
    let width = lent.words[at];
    if set[place] != width {
        return false;
    }
    for j in 0..width as usize {
        if lent.atom_of(at, bindings, j) != set[place + 1 + j] {
            return false;
        }
    }
    true
}

// Is it the last of the rows listed? In many bodies the same row comes again and again.
fn is_last(lent: &Lent<'_>, at: usize, bindings: &Bindings, set: &[u32]) -> bool
    requires { Bound bindings.now.values bindings.now.count × SomeRow lent.now.words.now at × Filled set.now }
    ensures { SayLast lent.now.words.now at (take bindings.now.count bindings.now.values) set.now result }
{
    let listed = set[1] as usize;
    if listed == 0 {
        return false;
    }
    is_row(lent, at, bindings, set, 2 + 5 * (listed - 1))
}

// The head's row, added to those gathered.
pub fn insert_head(
    lent: &Lent<'_>,
    at: usize,
    bindings: &Bindings,
    draws: u32,
    area: &mut [u32],
) -> Result<u32, Refusal>
    requires { Bound bindings.now.values bindings.now.count × Gathering area.old × SomeRow lent.now.words.now at }
    ensures { SayHead lent.now.words.now at (take bindings.now.count bindings.now.values) draws area.old result area.new }
{
    if is_last(lent, at, bindings, area) {
        return Ok(draws);
    }
    let row = lent.row_of(at, bindings);
    insert(area, row)?;
    Ok(draws)
}

// Whether the row that the terms come to belongs to the set.
pub fn has_row(lent: &Lent<'_>, at: usize, bindings: &Bindings, set: &[u32]) -> bool
    requires { Bound bindings.now.values bindings.now.count × Filled set.now × SomeRow lent.now.words.now at }
    ensures { SayHas lent.now.words.now at (take bindings.now.count bindings.now.values) set.now result }
{
    let row = lent.row_of(at, bindings);
    has(set, row)
}

// A pattern against the row whose words stand at `row`. If it matches, its new variables are in scope.
pub fn match_row(
    lent: &Lent<'_>,
    at: usize,
    bindings: &mut Bindings,
    area: &[u32],
    row: usize,
) -> bool
    requires { Bound bindings.old.values bindings.old.count × SomePattern bindings.old.count lent.now.words.now at × (row + 5 ≤ length area.now) × (get_or area.now row 0 ≤ 4) }
    ensures { SayMatch lent.now.format lent.now.words.now at bindings.old.values bindings.old.count (row_in (five_at area.now row)) result bindings.new.values bindings.new.count }
{
    let words = lent.words;
    let width = words[at];
    if !fits(lent.format, width, area[row]) {
        return false;
    }
    let mut scope = bindings.count;
    for j in 0..width as usize {
        let atom = area[row + 1 + j];
        match slot_at(words, at + 1 + 2 * j) {
            Slot::New => {
                scope = bindings.bind(scope, atom);
            }
            Slot::Old(term) => {
                if value_of(&bindings.values, scope, term) != atom {
                    return false;
                }
            }
        }
    }
    bindings.count = scope;
    true
}

// Draws the rows of the set in turn, from row `i` on, until one matches the pattern at `at`. Each is a draw, whether it matches or not.
pub fn draw_next(
    lent: &Lent<'_>,
    at: usize,
    bindings: &mut Bindings,
    draws: u32,
    set: &[u32],
    i: usize,
) -> Result<Drawn, Refusal>
    requires { Bound bindings.old.values bindings.old.count × SomePattern bindings.old.count lent.now.words.now at × Filled set.now }
    ensures { SayDrawn lent.now.format lent.now.words.now at bindings.old.values bindings.old.count (rows_in set.now) i draws result bindings.new.values bindings.new.count }
{
    // A copy: what is lent is then read once, and not again at each row.
    let lent = *lent;
    let mut used = draws;
    for j in i..set[1] as usize {
        used = tick(used)?;
        if match_row(&lent, at, bindings, set, 2 + 5 * j) {
            return Ok(Drawn::Matches {
                next: j + 1,
                draws: used,
            });
        }
    }
    Ok(Drawn::End(used))
}
