// Laying out a list. The records of the file are read from the last to the first, and the records of the list are laid from its end to
// its start, so that the step that comes next is always known. Only a loop's last step leads back: its WHILE's place is looked up.
#![tactic(auto)]

ghost use Rattle.std.specs.Prelude.{◌≡◌, ◌-◌, get_or};
ghost use Rattle.layout.specs.View.{as_laying};
ghost use Rattle.layout.specs.Layout.{before_last, stepped, pushed, switched, popped, turned, after_kind};

use record::{Record, entry};

// Places for what is known of open parts, from 1 on: at most sixteen are open.
const PARTS: usize = Record::MAX_DEPTH + 1;

// What is known of a part that is open.
#[derive(Clone, Copy, Debug, Default, PartialEq, Eq)]
pub struct Part {
    // what comes after the statement that it belongs to
    pub after: u16,
    // where the second branch of an IF starts
    pub second: u16,
}

// What is known while a list is laid out. The parts that are open stand in a row of the most, from 1 on, with their number beside it: the project
// has no heap and fixed memory.
#[derive(Clone, Copy)]
pub struct Laying {
    // where the record laid last stands
    pub place: u16,
    // the step that comes after the record read next
    pub next: u16,
    // the station, or 255 in the initial part
    pub station: u8,
    // 1 in a body
    pub inside: u8,
    // loops whose OD is still to be read
    pub loops: usize,
    // parts that are open
    pub depth: usize,
    // by part that is open, what is known of it
    pub parts: [Part; PARTS],
    // by station, where it starts
    pub starts: [u16; 8],
}

impl Laying {
    // Before the last record of the file is read: a list of so many records, stations and loops.
    pub fn begin(place: u16, stations: u8, loops: usize) -> Laying
        ensures { as_laying result ≡ before_last place stations loops }
    {
        Laying {
            place,
            next: 0,
            station: stations,
            inside: 0,
            loops,
            depth: 0,
            parts: [Part::default(); PARTS],
            starts: [0u16; 8],
        }
    }

    // A step is laid, and is what comes next.
    #[tactic(auto, unfolding(crate::specs::Layout::stepped))]
    fn step(mut self) -> Laying
        ensures { as_laying result ≡ stepped (as_laying self) }
    {
        self.place = self.place.saturating_sub(1);
        self.next = self.place;
        self
    }

    // A closing record: a part opens, and `next` comes after its last step.
    #[tactic(auto, unfolding(crate::specs::Layout::pushed))]
    fn push(mut self, next: u16, inside: u8, loops: usize) -> Laying
        ensures { as_laying result ≡ pushed next inside loops (as_laying self) }
    {
        if self.depth < Record::MAX_DEPTH {
            self.depth += 1;
            self.parts[self.depth].after = self.next;
        }
        self.next = next;
        self.inside = inside;
        self.loops = loops;
        self
    }

    // What comes after the innermost part's statement; 0 past the sixteenth.
    pub fn coming(self) -> u16
        ensures { result ≡ get_or (as_laying self).after self.depth 0 }
    {
        entry(&self.parts, self.depth, Part::default()).after
    }

    // Where the innermost part's second branch starts; 0 past the sixteenth.
    pub fn other(self) -> u16
        ensures { result ≡ get_or (as_laying self).second self.depth 0 }
    {
        entry(&self.parts, self.depth, Part::default()).second
    }

    // ELSE: the second branch was read, and what comes after it comes after the first branch too.
    #[tactic(auto, unfolding(crate::specs::Layout::switched))]
    fn switch(mut self) -> Laying
        ensures { as_laying result ≡ switched (as_laying self) }
    {
        let next = self.coming();
        if self.depth < PARTS {
            self.parts[self.depth].second = self.next;
        }
        self.next = next;
        self
    }

    // An opening record is laid, and is what comes next; its part is no longer open.
    #[tactic(auto, unfolding(crate::specs::Layout::popped, crate::specs::Layout::stepped))]
    fn pop(mut self, inside: u8) -> Laying
        ensures { as_laying result ≡ popped inside (as_laying self) }
    {
        self.inside = inside;
        self.depth = self.depth.saturating_sub(1);
        self.step()
    }

    // STATION, or the end of the file: the station that was read starts here, and the STOP of the one before is laid, if there is one.
    #[tactic(auto, unfolding(crate::specs::Layout::turned))]
    fn turn(mut self) -> Laying
        ensures { as_laying result ≡ turned (as_laying self) }
    {
        let place = self.place;
        let station = self.station as usize;
        if station < Record::MAX_STATIONS {
            self.starts[station] = place;
        }
        if station == 0 {
            self.next = place;
            self.station = Record::NO_STATION;
        } else {
            let below = place.saturating_sub(1);
            self.place = below;
            self.next = below;
            self.station -= 1;
        }
        self
    }

    // The layout after a record of this kind.
    #[tactic(auto, unfolding(crate::specs::Layout::after_kind))]
    pub fn take(self, kind: u8, loops: &[u16]) -> Laying
        ensures { as_laying result ≡ after_kind loops.now kind (as_laying self) }
    {
        match kind {
            Record::SKIP | Record::SET => self.step(),
            Record::IF | Record::WHILE => self.pop(self.inside),
            Record::AWAIT => self.pop(0),
            Record::FI => self.push(self.next, self.inside, self.loops),
            Record::ELSE => self.switch(),
            Record::OD => self.back(loops),
            Record::END => self.push(0, 1, self.loops),
            _ => self.turn(),
        }
    }

    // OD: the part of a loop opens, whose last step leads to its WHILE.
    fn back(self, loops: &[u16]) -> Laying
        ensures { as_laying result ≡ pushed (get_or loops.now (self.loops - 1) 0) self.inside (self.loops - 1) (as_laying self) }
    {
        let left = self.loops.saturating_sub(1);
        self.push(entry(loops, left, 0), self.inside, left)
    }
}
