// Whether one record of a built-in list is right: an INIT, an initial record, a later one. The number of stations and the place of the first
// later record are handed on, and the record is decoded once.
#![tactic(auto)]

ghost use Rattle.std.specs.Prelude.{◌≡◌, [], ◌∷◌};
ghost use Rattle.rules.specs.Words.{among};
ghost use Rattle.rules.specs.Names.{SKIP, SET, IF, WHILE, AWAIT, STOP};
ghost use Rattle.rules.specs.List.{initial_right, own_right};
ghost use Rattle.record.specs.View.{as_record};
ghost use Rattle.rules.specs.List.{init_right, later_right};

use record::{ListRecord, Record};
use targets::{inside_targets, outside, outside_targets};

// Whether the record at place j is station j's INIT.
#[tactic(auto, unfolding(rules::specs::List::init_right))]
pub fn init_right(list: &[u8], later: usize, j: usize) -> bool
    ensures { result ≡ init_right list.now later j }
{
    let e = ListRecord::at(list, j);
    let own = e.own;
    (own.a as usize == j)
        & (own.b == 0)
        & (own.op == 0)
        & (own.k == 0)
        & (e.station as usize == j)
        & (e.inside == 0)
        & outside(list, later, e.station, e.t1 as usize)
        & (e.t2 == 0)
        & (e.spare == 0)
}

// Whether the record at place p is an initial SET.
#[tactic(auto, unfolding(rules::specs::List::initial_right))]
pub fn initial_right(list: &[u8], p: usize) -> bool
    ensures { result ≡ initial_right list.now p }
{
    let e = ListRecord::at(list, p);
    let own = e.own;
    (own.kind == Record::SET)
        & table::fields_right(own)
        & (e.inside == 0)
        & (e.t1 == 0)
        & (e.t2 == 0)
        & (e.spare == 0)
}

// Whether the fields of a later record are right: a STOP's are zero, and any other record is in the table.
fn own_right(own: Record) -> bool
    ensures { result ≡ own_right (as_record own) }
{
    if own.kind == Record::STOP {
        return (own.a == 0) & (own.b == 0) & (own.op == 0) & (own.k == 0);
    }
    table::fields_right(own)
}

// Whether an outside record may have this kind.
fn outside_kind(kind: u8) -> bool
    ensures { result ≡ among kind (SKIP ∷ SET ∷ IF ∷ WHILE ∷ AWAIT ∷ STOP ∷ []) }
{
    matches!(
        kind,
        Record::SKIP | Record::SET | Record::IF | Record::WHILE | Record::AWAIT | Record::STOP
    )
}

// Whether an inside record may have this kind.
fn inside_kind(kind: u8) -> bool
    ensures { result ≡ among kind (SKIP ∷ SET ∷ IF ∷ []) }
{
    matches!(kind, Record::SKIP | Record::SET | Record::IF)
}

// Whether the later record at place p is right, in a list of n stations: byte 9 says by which rules.
#[tactic(auto, unfolding(rules::specs::List::later_right))]
pub fn later_right(list: &[u8], n: usize, later: usize, p: usize) -> bool
    ensures { result ≡ later_right list.now n later p }
{
    let e = ListRecord::at(list, p);
    let own = e.own;
    let fields = ((e.station as usize) < n) & own_right(own) & (e.spare == 0);
    fields
        & match e.inside {
            0 => outside_kind(own.kind) & outside_targets(list, later, p, e),
            1 => inside_kind(own.kind) & inside_targets(list, later, p, e),
            _ => false,
        }
}
