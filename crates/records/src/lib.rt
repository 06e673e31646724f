// Records kept in words, a count and then records of one width: read, searched and put in. Over any width.
#![tactic(auto)]

ghost use Rattle.std.specs.Prelude.{◌+◌, ◌*◌, ◌≤◌, ◌<◌, ◌≡◌, length, drop};
ghost use Rattle.rows.specs.Ordered.{leading, PassFirst};
ghost use Rattle.rows.specs.Records.{count_of, records_in, record_at, put_in, begins_before};

/// The words of record `i`.
pub fn record_at<'a>(area: &'a [u32], width: usize, i: usize) -> &'a [u32]
    requires { 1 + width * (i + 1) ≤ length area.now }
    ensures { result.now ≡ record_at width area.now i }
{
    let start = 1 + width * i;
    &area[start..start + width]
}

// Do the words at `at` come before these, word by word? Where they are these, the answer is `also`.
fn begins_before(area: &[u32], at: usize, words: &[u32], also: bool) -> bool
    requires { at + length words.now ≤ length area.now }
    ensures { result ≡ begins_before also words.now (drop at area.now) }
{
    let front = &area[at..at + words.len()];
    // A loop: on so few words the slices' own `cmp` takes half as long again.
    for j in 0..words.len() {
        if front[j] != words[j] {
            return front[j] < words[j];
        }
    }
    also
}

/// How many records begin with words before these, with `also` those that begin with these too, by binary search.
// A loop: `partition_point` goes over arrays, and the width is a number at run time.
// `also` tells the two ends of a part with one beginning: as two functions they would be one loop written twice.
pub fn count_before(area: &[u32], width: usize, words: &[u32], also: bool) -> usize
    requires in_bounds { (1 + width * count_of area.now ≤ length area.now) × (length words.now ≤ width) }
    requires pass_first { PassFirst (begins_before also words.now) (records_in width area.now) }
    ensures { result ≡ leading (begins_before also words.now) (records_in width area.now) }
{
    let mut low: usize = 0;
    let mut high = area[0] as usize;
    while low < high {
        let middle = low + (high - low) / 2;
        if begins_before(area, 1 + width * middle, words, also) {
            low = middle + 1;
        } else {
            high = middle;
        }
    }
    low
}

/// Puts a record in at a place, moves the later ones up and raises the count.
pub fn insert(area: &mut [u32], width: usize, place: usize, words: &[u32])
    requires whole_record { length words.now ≡ width }
    requires place_in_range { (place ≤ count_of area.old) × (count_of area.old < 4294967295) }
    requires room_for_it { 1 + width * (count_of area.old + 1) ≤ length area.old }
    ensures { area.new ≡ put_in width area.old place words.now }
{
    let count = area[0];
    let at = 1 + width * place;
    let end = 1 + width * count as usize;
    area.copy_within(at..end, at + width);
    area[at..at + width].copy_from_slice(words);
    area[0] = count + 1;
}
