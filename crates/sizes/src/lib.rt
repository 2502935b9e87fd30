// Bytes of the files and buffers of the programs over a folder, and how many of a list's are its records.
#![tactic(auto)]

ghost use Rattle.std.specs.Prelude.{◌≡◌, [], ◌∷◌, ◌*◌, take};
ghost use Rattle.sizes.specs.Sizes.{enough, enough_starts, list_bytes, log_bytes, kept_bytes};

use record::Record;

// Bytes that are enough of a program or a picks file, and of a start file: one more than it may have, so that a longer one is noticed.
pub const ENOUGH: usize = 8 * Record::MAX_RECORDS + 1;

pub const ENOUGH_STARTS: usize = 1 + Record::MAX_STATIONS + 1;

// Bytes of the longest list, of the longest log, and of the kept states.
pub const LIST_BYTES: usize = 16 * Record::MAX_LIST;

pub const LOG_BYTES: usize = 2 * (Record::MAX_STATIONS + Record::MAX_STEPS as usize);

pub const KEPT_BYTES: usize = Record::KEPT_LENGTH * Record::MAX_KEPT;

// These numbers in order: they are those of the definitions.
pub fn all() -> [usize; 5]
    ensures { result ≡ enough ∷ enough_starts ∷ list_bytes ∷ log_bytes ∷ kept_bytes ∷ [] }
{
    [ENOUGH, ENOUGH_STARTS, LIST_BYTES, LOG_BYTES, KEPT_BYTES]
}

// The records of a list that are counted.
pub fn used(list: &[u8], count: u16) -> &[u8]
    ensures { result.now ≡ take (16 * count) list.now }
{
    list.get(..16 * count as usize).unwrap_or(list)
}
