// What the fields of a record may hold, by its kind and its op: a table, and the test of a record against it.
#![tactic(auto)]

ghost use Rattle.std.specs.Prelude.{◌≡◌, ℕ, ◌<◌, ◌^◌, ltb};
ghost use Rattle.rules.specs.Fields.{obeys, rules_of, fields_right};
ghost use Rattle.record.specs.View.{as_record};
ghost use Rattle.table.specs.View.{as_rule, as_rules};

use record::Record;

// A field holds numbers below 2^32.
const NUMBERS: u64 = 4294967296;

// What a field must be: zero, a variable, anything. Nothing is right outside the document's table.
#[derive(Clone, Copy, Debug, PartialEq, Eq)]
enum Rule {
    Naught,
    Variable,
    Free,
    Outside,
}

// An entry of the table: the rule of each field.
#[derive(Clone, Copy, Debug, PartialEq, Eq)]
struct Rules {
    a: Rule,
    b: Rule,
    op: Rule,
    k: Rule,
}

// Whether a record is in the document's table of kinds. No kind above 10 is in it, and no op above 7.
pub fn fields_right(own: Record) -> bool
    ensures { result ≡ fields_right (as_record own) }
{
    if own.kind < 11 && own.op < 8 {
        let rules = rules_of(own.kind, own.op);
        return rules.a.obeyed(own.a as u32)
            & rules.b.obeyed(own.b as u32)
            & rules.op.obeyed(own.op as u32)
            & rules.k.obeyed(own.k);
    }
    false
}

// What the table says of a kind and an op.
fn rules_of(kind: u8, op: u8) -> Rules
    requires { (kind < 11) × (op < 8) }
    ensures { as_rules result ≡ rules_of kind op }
{
    FIELDS[kind as usize][op as usize]
}

impl Rule {
    // Whether a field's value obeys the rule.
    fn obeyed(self, v: u32) -> bool
        ensures { result ≡ obeys (as_rule self) v }
    {
        (v as u64) < self.past()
    }

    // The least number that breaks the rule.
    fn past(self) -> u64
        ensures { (v : ℕ) → v < 2 ^ 32 → ltb v result ≡ obeys (as_rule self) v }
    {
        match self {
            Rule::Naught => 1,
            Rule::Variable => Record::VARIABLES as u64,
            Rule::Free => NUMBERS,
            Rule::Outside => 0,
        }
    }
}

// The entries of the table, each named for the fields that are used, V being a k that must be a variable.
const ZERO: Rules = Rules {
    a: Rule::Naught,
    b: Rule::Naught,
    op: Rule::Naught,
    k: Rule::Naught,
};

const A_K: Rules = Rules {
    a: Rule::Variable,
    b: Rule::Naught,
    op: Rule::Free,
    k: Rule::Free,
};

const A_B: Rules = Rules {
    a: Rule::Variable,
    b: Rule::Variable,
    op: Rule::Free,
    k: Rule::Naught,
};

const A_BK: Rules = Rules {
    a: Rule::Variable,
    b: Rule::Variable,
    op: Rule::Free,
    k: Rule::Free,
};

const A_BV: Rules = Rules {
    a: Rule::Variable,
    b: Rule::Variable,
    op: Rule::Free,
    k: Rule::Variable,
};

const B_K: Rules = Rules {
    a: Rule::Naught,
    b: Rule::Variable,
    op: Rule::Free,
    k: Rule::Free,
};

const B_V: Rules = Rules {
    a: Rule::Naught,
    b: Rule::Variable,
    op: Rule::Free,
    k: Rule::Variable,
};

const NONE: Rules = Rules {
    a: Rule::Outside,
    b: Rule::Outside,
    op: Rule::Outside,
    k: Rule::Outside,
};

// The rules by kind, and by op from 0 to 7: a static, since a constant array is made anew wherever it is read.
static FIELDS: [[Rules; 8]; 11] = [
    [NONE, NONE, NONE, NONE, NONE, NONE, NONE, NONE], // no kind
    [ZERO, ZERO, ZERO, ZERO, ZERO, ZERO, ZERO, ZERO], // STATION
    [ZERO, ZERO, ZERO, ZERO, ZERO, ZERO, ZERO, ZERO], // SKIP
    [A_K, A_B, A_BK, A_BK, A_BV, A_BV, NONE, NONE], // SET
    [B_K, B_K, B_K, B_K, B_V, B_V, B_V, B_V], // IF
    [ZERO, ZERO, ZERO, ZERO, ZERO, ZERO, ZERO, ZERO], // ELSE
    [ZERO, ZERO, ZERO, ZERO, ZERO, ZERO, ZERO, ZERO], // FI
    [B_K, B_K, B_K, B_K, B_V, B_V, B_V, B_V], // WHILE
    [ZERO, ZERO, ZERO, ZERO, ZERO, ZERO, ZERO, ZERO], // OD
    [B_K, B_K, B_K, B_K, B_V, B_V, B_V, B_V], // AWAIT
    [ZERO, ZERO, ZERO, ZERO, ZERO, ZERO, ZERO, ZERO], // END
];
