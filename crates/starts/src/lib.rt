// What a start asks of its resets, and the start records at the front of a log, over any log whatever.
#![tactic(auto)]

ghost use Rattle.std.specs.Prelude.{◌≡◌, ◌&&◌, ◌*◌, eqb, leb, length, get_or, if◌then◌else◌};
ghost use Rattle.rules.specs.Words.{each, written};
ghost use Rattle.rules.specs.Records.{pick_at};
ghost use Rattle.rules.specs.Start.{start_records};
ghost use Rattle.starts.specs.Room.{room};

use record::{Pick, Record};

// Whether each reset is at most b.
pub fn resets_within(resets: &[u8], b: u8) -> bool
    ensures { result ≡ each (λ j. leb (get_or resets.now j 0) b) (length resets.now) }
{
    resets.iter().all(|reset| *reset <= b)
}

// Writes a start record for each reset, a station and its reset, to the front of the log, and answers whether there was room for them:
// in the log, and among eight stations. Where there was not, nothing is written.
pub fn write(log: &mut [u8], resets: &[u8]) -> bool
    ensures { (result ≡ room (length resets.now) log.old) × (log.new ≡ (if room (length resets.now) log.old then written log.old 0 (start_records 0 resets.now) else log.old)) }
{
    if Record::MAX_STATIONS < resets.len() {
        return false;
    }
    if log.len() < 2 * resets.len() {
        return false;
    }
    for (j, reset) in resets.iter().enumerate() {
        let at = 2 * j;
        log[at] = j as u8;
        log[at + 1] = *reset;
    }
    true
}

// Whether the log begins with a start record for each of n stations, in their places, with resets of at most b.
pub fn right(log: &[u8], n: u8, b: u8) -> bool
    ensures { result ≡ (leb (2 * n) (length log.now) && each (λ j. eqb (pick_at log.now j).station j && leb (pick_at log.now j).reset b) n) }
{
    2 * n as usize <= log.len()
        && (0..n).all(|j| {
            let start = Pick::at(log, j as usize);
            start.station == j && start.reset <= b
        })
}
