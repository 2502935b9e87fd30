// FAIR's charge and the counts of being passed over: what a step does to the priorities and counts, of any values, in the arrays that are lent.
// A priority that is as low as 16 bits go stays where it would lose 1, and a count that is as high as they go where it would gain 1.
#![tactic(auto)]

ghost use Rattle.std.specs.Prelude.{◌≡◌, false, eqb, get_or};
ghost use Rattle.rules.specs.Words.{changed};
ghost use Rattle.rules.specs.Names.{max_stations};
ghost use Rattle.charging.specs.Charge.{held_charge, held_count, unpicked, passed};

use record::Record;

// Charges the priorities for a pick and counts those passed over, by the readiness of the stations before the step: each of the eight that was
// ready loses 1 of its priority and gains 1 in its count, then the picked one, where it is one of them, gets the reset and the count 0.
// It takes no pick: picked may be any number here. The two rows are those of the state that C reads.
pub fn charge(
    priorities: &mut [i16; 8],
    counts: &mut [u16; 8],
    ready: &[bool; 8],
    picked: usize,
    reset: u8,
)
    ensures { (priorities.new ≡ changed (λ j. held_charge (eqb j picked) (get_or ready.now j false) reset) max_stations priorities.old) × (counts.new ≡ changed (λ j. held_count (eqb j picked) (get_or ready.now j false)) max_stations counts.old) }
{
    lower(priorities, ready);
    count(counts, ready);
    if picked < Record::MAX_STATIONS {
        priorities[picked] = reset as i16;
        counts[picked] = 0;
    }
}

// Takes 1 from the priority of each of the eight stations that was ready. The priorities and the counts have a loop each: so each is a few
// instructions for all eight.
fn lower(priorities: &mut [i16; 8], ready: &[bool; 8])
    ensures { priorities.new ≡ changed (unpicked ready.now) max_stations priorities.old }
{
    for (j, p) in priorities.iter_mut().enumerate() {
        *p = p.saturating_sub(i16::from(ready[j]));
    }
}

// Adds 1 to the count of each of them.
fn count(counts: &mut [u16; 8], ready: &[bool; 8])
    ensures { counts.new ≡ changed (passed ready.now) max_stations counts.old }
{
    for (j, c) in counts.iter_mut().enumerate() {
        *c = c.saturating_add(u16::from(ready[j]));
    }
}
