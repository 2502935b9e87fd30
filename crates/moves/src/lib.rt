// What a station's step, an AWAIT's body and the initial part make of the 32 variables, which are changed where they are, and where a
// step leads. A list is read as a run reads it, narrowed.
#![tactic(auto)]

ghost use Rattle.std.specs.Prelude.{◌≡◌};
ghost use Rattle.rules.specs.Start.{initial_run};
ghost use Rattle.rules.specs.Move.{vars_after, target_after, body_run, step_vars, step_position};
ghost use Rattle.rules.specs.Records.{list_record_at, list_count};
ghost use Rattle.laws.specs.Narrow.{narrow};
ghost use Rattle.record.specs.View.{as_record, as_list_record};

use record::{ListRecord, Record};

// The target that a record leads to: of an IF or a WHILE t1 when its condition holds and t2 when not, of every other t1.
fn target_after(vars: &[u32; 32], e: ListRecord) -> u16
    ensures { result ≡ target_after vars.now (as_list_record e) }
{
    match e.own.kind {
        Record::IF | Record::WHILE => {
            let holds = values::holds(vars, e.own.op, e.own.b as usize, e.own.k);
            if holds { e.t1 } else { e.t2 }
        }
        _ => e.t1,
    }
}

// Changes the variables as a SKIP, a SET or a test does: only a SET changes them.
fn change(vars: &mut [u32; 32], r: Record)
    ensures { vars.new ≡ vars_after vars.old (as_record r) }
{
    if r.kind == Record::SET {
        values::assign(vars, r.op, r.a as usize, r.b as usize, r.k);
    }
}

// Runs a body from a place on. Target 0 leaves it; it runs no more records than the list has, which cuts short no body of a sound list.
fn run_body(list: &[u8], from: u16, vars: &mut [u32; 32])
    ensures { vars.new ≡ body_run (narrow list.now) (list_count list.now) from vars.old }
{
    let mut place = from;
    for _ in 0..list.len() / 16 {
        if place == 0 {
            return;
        }
        let e = narrow::narrowed(list, place as usize);
        place = target_after(vars, e);
        change(vars, e.own);
    }
}

// Takes the next step of a station that stands at this place, and answers its place after it. An AWAIT's body is part of its step.
#[tactic(auto, using(laws::proofs::Narrow::narrow_count), unfolding(rules::specs::Move::step_vars, rules::specs::Move::step_position))]
pub fn step(list: &[u8], vars: &mut [u32; 32], place: u16) -> u16
    ensures { (result ≡ step_position vars.old (list_record_at (narrow list.now) place)) × (vars.new ≡ step_vars (narrow list.now) vars.old (list_record_at (narrow list.now) place)) }
{
    let e = narrow::narrowed(list, place as usize);
    if e.own.kind == Record::AWAIT {
        run_body(list, e.t1, vars);
        return e.t2;
    }
    let next = target_after(vars, e);
    change(vars, e.own);
    next
}

// Runs so many records of the initial part, from a place on. Past the end of the list every record is zeros and sets variable 0 to 0, so
// that the first of them stands for all.
pub fn initial_run(list: &[u8], from: usize, count: usize, vars: &mut [u32; 32])
    ensures { vars.new ≡ initial_run list.now from count vars.old }
{
    for i in 0..count {
        let place = from + i;
        let r = ListRecord::at(list, place).own;
        values::assign(vars, r.op, r.a as usize, r.b as usize, r.k);
        if place >= list.len() {
            return;
        }
    }
}
