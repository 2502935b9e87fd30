// Whether bytes are a sound built-in list: the document's "A list is sound when", of any bytes whatever. The number of stations and the
// place of the first later record are counted once and handed on; `clauses` judges each record.
#![tactic(auto)]

ghost use Rattle.std.specs.Prelude.{◌≡◌, ◌+◌, ◌-◌};
ghost use Rattle.rules.specs.Words.{each};
ghost use Rattle.rules.specs.Records.{list_count};
ghost use Rattle.rules.specs.List.{stations, initial_right, sound_list};
ghost use Rattle.rules.specs.List.{init_right, later_right};
ghost use Rattle.rules.specs.List.{later_after};

use clauses::{init_right, initial_right, later_right};
use record::Record;

// The number of INIT records that the list opens with.
pub fn stations(list: &[u8]) -> usize
    ensures { result ≡ stations list.now }
{
    let count = list.len() / 16;
    (0..count)
        .find(|p| list[16 * p] != Record::INIT)
        .unwrap_or(count)
}

// The place of the first later record, in a list that opens with n INITs: past the initial part, which starts at n. Where the records
// end first, the place after the last; n where that is past the end.
pub fn later(list: &[u8], n: usize) -> usize
    ensures { result ≡ later_after list.now n }
{
    let count = list.len() / 16;
    (n..count)
        .find(|p| list[16 * p + 8] != Record::NO_STATION)
        .unwrap_or(n.max(count))
}

// Whether each of the first n records is its station's INIT.
fn each_init_right(list: &[u8], n: usize, later: usize) -> bool
    ensures { result ≡ each (init_right list.now later) n }
{
    (0..n).all(|j| init_right(list, later, j))
}

// Whether each record from place n to the first later one is an initial SET.
fn each_initial_right(list: &[u8], n: usize, later: usize) -> bool
    ensures { result ≡ each (λ i. initial_right list.now (n + i)) (later - n) }
{
    (n..later).all(|p| initial_right(list, p))
}

// Whether each record from the first later one on is right.
fn each_later_right(list: &[u8], n: usize, later: usize) -> bool
    ensures { result ≡ each (λ i. later_right list.now n later (later + i)) (list_count list.now - later) }
{
    (later..list.len() / 16).all(|p| later_right(list, n, later, p))
}

// Whether the bytes are a sound list.
pub fn sound(list: &[u8]) -> bool
    ensures { result ≡ sound_list list.now }
{
    if list.len() % 16 != 0 || Record::MAX_LIST < list.len() / 16 {
        return false;
    }
    let n = stations(list);
    if !(1..=Record::MAX_STATIONS).contains(&n) {
        return false;
    }
    let later = later(list, n);
    each_init_right(list, n, later)
        & each_initial_right(list, n, later)
        & each_later_right(list, n, later)
}
