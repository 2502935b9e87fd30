// The record of a step in a log: its place, after n start records and the m records of the steps before it, and whether there is room.
#![tactic(auto)]

ghost use Rattle.std.specs.Prelude.{◌≡◌, [], ◌∷◌, ◌+◌, ◌*◌, if◌then◌else◌};
ghost use Rattle.rules.specs.Words.{written};
ghost use Rattle.logs.specs.Room.{has_room};

use record::Pick;

// Whether the log has room for the record of one step more.
pub fn room(log: &[u8], n: u8, m: u16) -> bool
    ensures { result ≡ has_room n m log.now }
{
    place(n, m) + 2 <= log.len()
}

// Writes the record of one step more; where there is no room for it, nothing.
pub fn put(log: &mut [u8], n: u8, m: u16, pick: Pick)
    ensures { log.new ≡ (if has_room n m log.old then written log.old (2 * (n + m)) (pick.station ∷ pick.reset ∷ []) else log.old) }
{
    if room(log, n, m) {
        let at = place(n, m);
        log[at..at + 2].copy_from_slice(&[pick.station, pick.reset]);
    }
}

// Where the record of the next step stands, of m taken by n stations.
fn place(n: u8, m: u16) -> usize
    ensures { result ≡ 2 * (n + m) }
{
    2 * (n as usize + m as usize)
}
