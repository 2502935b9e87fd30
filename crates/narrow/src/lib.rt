// A built-in list as a run reads it. On a sound list this is the list, and on any other a and b of a record name variables that are
// there, so that a run need not ask.
#![tactic(auto)]

ghost use Rattle.std.specs.Prelude.{◌≡◌};
ghost use Rattle.rules.specs.Records.{list_record_at};
ghost use Rattle.laws.specs.Narrow.{narrow};
ghost use Rattle.record.specs.View.{as_list_record};

use record::{ListRecord, Record};

// Record number p of a built-in list as a run reads it: of its whole records, each variable's number a and b taken modulo 32, and
// zero past them.
pub fn narrowed(list: &[u8], p: usize) -> ListRecord
    ensures { as_list_record result ≡ list_record_at (narrow list.now) p }
{
    // `ListRecord::at` reads a record that is cut off too, which takes a step of a run some 16 instructions more.
    let (records, _) = list.as_chunks();
    let Some(bytes) = records.get(p) else {
        return ListRecord::default();
    };
    let e = ListRecord::from(*bytes);
    let own = Record {
        a: e.own.a % 32,
        b: e.own.b % 32,
        ..e.own
    };
    ListRecord { own, ..e }
}
