// DEPTH: a count of what is open, over the kinds of the records.
#![tactic(auto)]

ghost use Rattle.std.specs.Prelude.{◌≡◌, Some, None, [], ◌∷◌, ◌≤◌, ltb, if◌then◌else◌};
ghost use Rattle.rules.specs.Words.{among};
ghost use Rattle.rules.specs.Names.{FI, OD, END, max_depth};
ghost use Rattle.rules.specs.Records.{record_count};
ghost use Rattle.rules.specs.Shape.{opens, depth_after};
ghost use Rattle.rules.specs.Check.{depth_place};

use record::Record;

// The place of the first record that is one more open than may be, where there is one.
pub fn depth_place(file: &[u8]) -> Option<usize>
    ensures { result ≡ (if ltb (depth_place file.now) (record_count file.now) then Some (depth_place file.now) else None) }
{
    let mut depth: usize = 0;
    for at in 0..file.len() / 8 {
        let kind = file[8 * at];
        if opens(kind) && depth >= Record::MAX_DEPTH {
            return Some(at);
        }
        depth = depth_after(depth, kind);
    }
    None
}

// Whether a record of this kind is one more open.
fn opens(kind: u8) -> bool
    ensures { result ≡ opens kind }
{
    matches!(kind, Record::IF | Record::WHILE | Record::AWAIT)
}

// Whether a record of this kind is one fewer open.
fn closes(kind: u8) -> bool
    ensures { result ≡ among kind (FI ∷ OD ∷ END ∷ []) }
{
    matches!(kind, Record::FI | Record::OD | Record::END)
}

// How many are open after a record of this kind.
fn depth_after(depth: usize, kind: u8) -> usize
    requires { depth ≤ max_depth }
    ensures { result ≡ depth_after depth kind }
{
    if opens(kind) {
        depth + 1
    } else if closes(kind) {
        depth.saturating_sub(1)
    } else {
        depth
    }
}
