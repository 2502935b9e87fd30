// Which variables one record reads by its b and its k, and a variable more among those that are touched.
#![tactic(auto)]

ghost use Rattle.std.specs.Prelude.{◌≡◌, ◌&&◌, [], ◌∷◌, eqb};
ghost use Rattle.rules.specs.Words.{among};
ghost use Rattle.rules.specs.Names.{IF, WHILE, AWAIT};
ghost use Rattle.record.specs.View.{as_record};
ghost use Rattle.touching.specs.Touching.{reads_b, reads_k, added};

use record::Record;

// What was touched, and variable v too where the test holds. No variable is above 31.
pub fn added(before: [bool; 32], test: bool, v: u32) -> [bool; 32]
    ensures { result ≡ added before (λ i. test && eqb v i) }
{
    let mut after = before;
    let place = v as usize;
    if test && place < after.len() {
        after[place] = true;
    }
    after
}

// Whether a record reads the variable b.
pub fn reads_b(own: Record) -> bool
    ensures { result ≡ reads_b (as_record own) }
{
    match own.kind {
        Record::SET => matches!(own.op, 1..=5),
        kind => tests(kind),
    }
}

// Whether a record reads the variable k.
pub fn reads_k(own: Record) -> bool
    ensures { result ≡ reads_k (as_record own) }
{
    match own.kind {
        Record::SET => matches!(own.op, 4 | 5),
        kind => tests(kind) && 4 <= own.op,
    }
}

// Whether a record of this kind has a condition.
fn tests(kind: u8) -> bool
    ensures { result ≡ among kind (IF ∷ WHILE ∷ AWAIT ∷ []) }
{
    matches!(kind, Record::IF | Record::WHILE | Record::AWAIT)
}
