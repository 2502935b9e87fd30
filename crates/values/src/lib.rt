// What a SET gives its variable, and whether a condition holds, of the numbers in a record: op, a, b and k, each by itself, since a and b
// may be any number here. A function that reads the variables borrows them, and one that changes them writes them where they are. A variable
// past the last reads 0, and a SET of one changes nothing.
#![tactic(auto)]

ghost use Rattle.std.specs.Prelude.{◌≡◌};
ghost use Rattle.rules.specs.Values as rules;
ghost use Rattle.rules.specs.Values.{set_value, compares};
ghost use Rattle.values.specs.Fields.{fields};

use record::entry;

// The value that a SET gives its variable, by its op. A sum and a difference wrap at 2^32.
#[tactic(auto, unfolding(rules::specs::Values::set_value))]
fn value(vars: &[u32], op: u8, b: usize, k: u32) -> u32
    ensures { result ≡ set_value vars.now (fields op 0 b k) }
{
    let x = entry(vars, b, 0);
    match op {
        0 => k,
        1 => x,
        2 => x.wrapping_add(k),
        3 => x.wrapping_sub(k),
        4 => x.wrapping_add(entry(vars, k as usize, 0)),
        _ => x.wrapping_sub(entry(vars, k as usize, 0)),
    }
}

// A SET of variable a.
#[tactic(auto, unfolding(rules::specs::Values::set_value))]
pub fn assign(vars: &mut [u32], op: u8, a: usize, b: usize, k: u32)
    ensures { vars.new ≡ rules.assigned vars.old (fields op a b k) }
{
    let x = value(vars, op, b, k);
    if a < vars.len() {
        vars[a] = x;
    }
}

// Whether a condition holds. Ops 0 to 3 compare with k, the others with variable k.
#[tactic(auto, unfolding(rules::specs::Values::holds))]
pub fn holds(vars: &[u32], op: u8, b: usize, k: u32) -> bool
    ensures { result ≡ rules.holds vars.now (fields op 0 b k) }
{
    let x = entry(vars, b, 0);
    let y = if op < 4 {
        k
    } else {
        entry(vars, k as usize, 0)
    };
    compared(op % 4, x, y)
}

// Whether x equals, differs from, is below or is at least y: comparison 0, 1, 2 or 3.
fn compared(comparison: u8, x: u32, y: u32) -> bool
    ensures { result ≡ compares comparison x y }
{
    match comparison {
        0 => x == y,
        1 => x != y,
        2 => x < y,
        _ => x >= y,
    }
}
