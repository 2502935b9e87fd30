// Where the records of a built-in list may lead: whether a place has an outside or an inside record of a station, and whether the targets
// of a record are right. The place of the first later record is handed on: docs/PROMISES.md promises the calls of any list and any place,
// so the two stay apart.
#![tactic(auto)]

ghost use Rattle.std.specs.Prelude.{◌≡◌, suc, eqb};
ghost use Rattle.record.specs.View.{as_list_record};
ghost use Rattle.rules.specs.List.{is_at, outside_targets, inside_target, inside_targets};

use record::{ListRecord, Record};

// Whether place p has a later record, of this station and with this byte 9. INIT and initial records are neither outside nor inside.
#[tactic(auto, unfolding(rules::specs::List::is_at, rules::specs::Records::list_record_at))]
fn is_at(list: &[u8], later: usize, inside: u8, station: u8, p: usize) -> bool
    ensures { result ≡ is_at list.now later inside station p }
{
    if p < later || list.len() / 16 <= p {
        return false;
    }
    let at = 16 * p;
    (list[at + 9] == inside) & (list[at + 8] == station)
}

// Whether place p has an outside record of this station, in a list whose first later record is at later.
pub fn outside(list: &[u8], later: usize, station: u8, p: usize) -> bool
    ensures { result ≡ is_at list.now later 0 station p }
{
    is_at(list, later, 0, station, p)
}

// Whether place p has an inside record of this station.
fn inside(list: &[u8], later: usize, station: u8, p: usize) -> bool
    ensures { result ≡ is_at list.now later 1 station p }
{
    is_at(list, later, 1, station, p)
}

// Whether place t is the one after place p.
fn follows(t: usize, p: usize) -> bool
    ensures { result ≡ eqb t (suc p) }
{
    p < t && t - p == 1
}

// Whether the targets of e, the outside record at place p, are right by its kind.
#[tactic(auto, unfolding(rules::specs::List::outside_targets))]
pub fn outside_targets(list: &[u8], later: usize, p: usize, e: ListRecord) -> bool
    ensures { result ≡ outside_targets list.now later p (as_list_record e) }
{
    let t1 = e.t1 as usize;
    let t2 = e.t2 as usize;
    match e.own.kind {
        Record::STOP => (t1 == 0) & (t2 == 0),
        Record::AWAIT => {
            follows(t1, p)
                & inside(list, later, e.station, t1)
                & outside(list, later, e.station, t2)
        }
        Record::SKIP | Record::SET => outside(list, later, e.station, t1) & (t2 == 0),
        _ => outside(list, later, e.station, t1) & outside(list, later, e.station, t2),
    }
}

// Whether t, a target of an inside record at place p, is 0 or a higher inside record of the same station.
#[tactic(auto, unfolding(rules::specs::List::inside_target))]
fn inside_target(list: &[u8], later: usize, station: u8, p: usize, t: usize) -> bool
    ensures { result ≡ inside_target list.now later station p t }
{
    (t == 0) | (p < t) & inside(list, later, station, t)
}

// Whether the targets of e, the inside record at place p, are right: only an IF has a second.
#[tactic(auto, unfolding(rules::specs::List::inside_targets))]
pub fn inside_targets(list: &[u8], later: usize, p: usize, e: ListRecord) -> bool
    ensures { result ≡ inside_targets list.now later p (as_list_record e) }
{
    let first = inside_target(list, later, e.station, p, e.t1 as usize);
    if e.own.kind == Record::IF {
        return first & inside_target(list, later, e.station, p, e.t2 as usize);
    }
    first & (e.t2 == 0)
}
