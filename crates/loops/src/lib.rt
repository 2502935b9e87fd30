// Where the WHILE of each OD stands in the list, so that a loop's last step can lead back to it.
#![tactic(auto)]

ghost use Rattle.std.specs.Prelude.{◌≡◌, get_or, [], ◌∷◌};
ghost use Rattle.rules.specs.Words.{among};
ghost use Rattle.rules.specs.Names.{STATION, SKIP, SET, IF, AWAIT, WHILE, OD};
ghost use Rattle.rules.specs.Records.{records};
ghost use Rattle.loops.specs.Loops.{seeking, left, sought, seek_records, nothing_sought};

use record::{Record, entry};

// Places for the loops that are open, from 1 on: at most sixteen are.
const OPEN: usize = Record::MAX_DEPTH + 1;

// Loops of a file, at most: each has a WHILE and an OD.
const MAX_LOOPS: usize = Record::MAX_RECORDS / 2;

// What is known while loops are sought. Each loop that is open has a place in the array.
// An array of the most and a length beside it, here and in Loops: the project has no heap and fixed memory.
#[derive(Clone, Copy)]
pub struct Seeking {
    // where the next record of the file stands in the list
    pub place: u16,
    // loops that are open
    pub depth: usize,
    // by loop, where its WHILE stands
    pub whiles: [u16; OPEN],
    // ODs that were read
    pub found: usize,
}

// The places of WHILE records, in the order of their ODs, and how many there are.
#[derive(Clone, Copy)]
pub struct Loops {
    pub found: usize,
    pub places: [u16; MAX_LOOPS],
}

impl Seeking {
    // Before the first record.
    fn begin(place: u16) -> Seeking
        ensures { result ≡ seeking place }
    {
        Seeking {
            place,
            depth: 0,
            whiles: [0u16; OPEN],
            found: 0,
        }
    }

    // Where the innermost open WHILE stands; 0 past the sixteenth.
    fn innermost(self) -> u16
        ensures { result ≡ get_or self.whiles self.depth 0 }
    {
        entry(&self.whiles, self.depth, 0)
    }

    // After a record of this kind, which is no OD.
    #[tactic(auto, unfolding(crate::specs::Loops::sought))]
    fn seek(mut self, kind: u8) -> Seeking
        requires { kind ≡ OD → ⊥ }
        ensures { result ≡ sought kind self }
    {
        if kind == Record::WHILE {
            return self.enter();
        }
        if lays_one(kind) {
            self.place = self.place.saturating_add(1);
        }
        self
    }

    // A WHILE: a loop opens.
    #[tactic(auto, unfolding(crate::specs::Loops::sought))]
    fn enter(mut self) -> Seeking
        ensures { result ≡ sought WHILE self }
    {
        if self.depth < Record::MAX_DEPTH {
            self.depth += 1;
            self.whiles[self.depth] = self.place;
        }
        self.place = self.place.saturating_add(1);
        self
    }

    // An OD: the innermost loop is no longer open, and so many are found.
    fn leave(mut self, found: usize) -> Seeking
        ensures { result ≡ left found self }
    {
        self.depth = self.depth.saturating_sub(1);
        self.found = found;
        self
    }
}

// Whether a record of this kind, which is no WHILE, stands for a record of the list.
fn lays_one(kind: u8) -> bool
    ensures { result ≡ among kind (STATION ∷ SKIP ∷ SET ∷ IF ∷ AWAIT ∷ []) }
{
    matches!(
        kind,
        Record::STATION | Record::SKIP | Record::SET | Record::IF | Record::AWAIT
    )
}

// The loops of a file whose first record stands at a place of the list. The row that it fills has a frame of its own.
#[inline(never)]
pub fn find(file: &[u8], place: u16) -> Loops
    ensures found { result.found ≡ (seek_records (records file.now) (nothing_sought place)).seeking.found }
    ensures places { result.places ≡ (seek_records (records file.now) (nothing_sought place)).places }
{
    let mut s = Seeking::begin(place);
    let mut places = [0u16; MAX_LOOPS];
    for record in file.chunks_exact(8) {
        let kind = record[0];
        if kind != Record::OD {
            s = s.seek(kind);
        } else if s.found < MAX_LOOPS {
            places[s.found] = s.innermost();
            s = s.leave(s.found + 1);
        } else {
            s = s.leave(s.found);
        }
    }
    Loops {
        found: s.found,
        places,
    }
}
