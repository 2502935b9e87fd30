// Which variables a station's next step touches: what it reads and what it writes, itself and, at an AWAIT that is ready, in its body.
#![tactic(auto)]

ghost use Rattle.std.specs.Prelude.{◌≡◌, ◌≤◌, length};
ghost use Rattle.record.specs.View.{as_record, as_list_record};
ghost use Rattle.touches.specs.Touched.{searched, body_within, touched_by, with_record, with_places, Wants};

use record::{ListRecord, Record};
use touching::{added, reads_b, reads_k};

// What is touched: variable v is read, or written, where its place v says so.
#[derive(Clone, Copy, Debug, PartialEq, Eq)]
pub struct Touched {
    pub reads: [bool; 32],
    pub writes: [bool; 32],
}

impl Touched {
    // What e, a station's next step, touches; where the station is not ready, what that record alone touches. Of a list of more than 1,032
    // records a body has only records among the first 1,032.
    pub fn of(list: &[u8], e: ListRecord, ready: bool) -> Touched
        ensures { result ≡ touched_by list.now (as_list_record e) ready }
    {
        let nothing = Touched {
            reads: [false; 32],
            writes: [false; 32],
        };
        let itself = nothing.with_record(e.own);
        if e.own.kind == Record::AWAIT && ready {
            return itself.with_body(list, e.t1 as usize);
        }
        itself
    }

    // What was touched, and what a record touches too.
    fn with_record(self, own: Record) -> Touched
        ensures { result ≡ with_record self (as_record own) }
    {
        let with_b = added(self.reads, reads_b(own), own.b as u32);
        let reads = added(with_b, reads_k(own), own.k);
        let writes = added(self.writes, own.kind == Record::SET, own.a as u32);
        Touched { reads, writes }
    }

    // What was touched, and what the body that starts at t1 touches too: one pass upward, which ends past the last place that is wanted.
    fn with_body(self, list: &[u8], t1: usize) -> Touched
        ensures { result ≡ with_places list.now self (body_within list.now t1) }
    {
        let mut touched = self;
        let mut marks = [false; Record::MAX_LIST];
        let wanted = &mut marks[..searched(list)];
        let mut end = want(wanted, 0, t1);
        for place in t1..wanted.len() {
            if end <= place {
                break;
            }
            if wanted[place] {
                let e = ListRecord::at(list, place);
                touched = touched.with_record(e.own);
                end = want(wanted, end, e.t1 as usize);
                end = want(wanted, end, e.t2 as usize);
            }
        }
        touched
    }
}

// The number of records that are searched for a body: no more than a sound list may have.
fn searched(list: &[u8]) -> usize
    ensures { result ≡ searched list.now }
{
    Record::MAX_LIST.min(list.len() / 16)
}

// A target t is wanted too, where there is a mark for it. Answers the end of the places wanted.
fn want(wanted: &mut [bool], end: usize, t: usize) -> usize
    requires { end ≤ length wanted.old }
    ensures { Wants (length wanted.old) t end wanted.old result wanted.new }
{
    if t < wanted.len() {
        wanted[t] = true;
        return end.max(t + 1);
    }
    end
}
