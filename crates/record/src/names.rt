// The documents' names for their numbers, as constants of a record: the kinds, the refusals and the limits. They are the numbers of the rules.
ghost use Rattle.std.specs.Prelude.{◌≡◌, [], ◌∷◌};
ghost use Rattle.rules.specs.Names.{STATION, SKIP, SET, IF, ELSE, FI, WHILE, OD, AWAIT, END, INIT, STOP};
ghost use Rattle.rules.specs.Names.{LENGTH, FIELD, COUNT, SHAPE, DEPTH, ROOM, LIST, STATE, FULL, COMPONENT, NOT_READY, TURN, RESET, EMPTY, LOG, ENDED};
ghost use Rattle.rules.specs.Names.{max_records, max_stations, max_depth, variables, max_list, max_steps, kept_every, max_kept, kept_length, no_station};

use crate::Record;

impl Record {
    // Kinds of the written sequence.
    pub const STATION: u8 = 1;

    pub const SKIP: u8 = 2;

    pub const SET: u8 = 3;

    pub const IF: u8 = 4;

    pub const ELSE: u8 = 5;

    pub const FI: u8 = 6;

    pub const WHILE: u8 = 7;

    pub const OD: u8 = 8;

    pub const AWAIT: u8 = 9;

    pub const END: u8 = 10;

    // Kinds of the built-in list alone.
    pub const INIT: u8 = 16;

    pub const STOP: u8 = 17;

    // Refusals.
    pub const LENGTH: u8 = 1;

    pub const FIELD: u8 = 2;

    pub const COUNT: u8 = 3;

    pub const SHAPE: u8 = 4;

    pub const DEPTH: u8 = 5;

    pub const ROOM: u8 = 6;

    pub const LIST: u8 = 7;

    pub const STATE: u8 = 8;

    pub const FULL: u8 = 9;

    pub const COMPONENT: u8 = 10;

    pub const NOT_READY: u8 = 11;

    pub const TURN: u8 = 12;

    pub const RESET: u8 = 13;

    pub const EMPTY: u8 = 14;

    pub const LOG: u8 = 15;

    pub const ENDED: u8 = 16;

    // Records of a written sequence, at most.
    pub const MAX_RECORDS: usize = 1024;

    // Stations, at most.
    pub const MAX_STATIONS: usize = 8;

    // IF, WHILE and AWAIT open at once, at most.
    pub const MAX_DEPTH: usize = 16;

    // Variables, numbered from 0.
    pub const VARIABLES: usize = 32;

    // Records of a built-in list, at most.
    pub const MAX_LIST: usize = 1032;

    // Standing steps, at most.
    pub const MAX_STEPS: u16 = 4096;

    // Steps from one kept state to the next.
    pub const KEPT_EVERY: u16 = 64;

    // Kept states.
    pub const MAX_KEPT: usize = 64;

    // Bytes of a kept state.
    pub const KEPT_LENGTH: usize = 184;

    // Where the parts of a kept state begin, behind the variables at its front: the positions, the priorities, the counts, n with B
    // and m behind it, and the bytes for an order.
    pub const KEPT_POSITIONS: usize = 128;

    pub const KEPT_PRIORITIES: usize = 144;

    pub const KEPT_COUNTS: usize = 160;

    pub const KEPT_N: usize = 176;

    pub const KEPT_ORDER: usize = 180;

    // The station byte of a list's initial part.
    pub const NO_STATION: u8 = 255;

    // The kinds in order: the code's numbers are the document's.
    pub fn kinds() -> [u8; 12]
        ensures { result ≡ STATION ∷ SKIP ∷ SET ∷ IF ∷ ELSE ∷ FI ∷ WHILE ∷ OD ∷ AWAIT ∷ END ∷ INIT ∷ STOP ∷ [] }
    {
        [
            Record::STATION,
            Record::SKIP,
            Record::SET,
            Record::IF,
            Record::ELSE,
            Record::FI,
            Record::WHILE,
            Record::OD,
            Record::AWAIT,
            Record::END,
            Record::INIT,
            Record::STOP,
        ]
    }

    // The refusals in order: the code's numbers are the documents'.
    pub fn refusals() -> [u8; 16]
        ensures { result ≡ LENGTH ∷ FIELD ∷ COUNT ∷ SHAPE ∷ DEPTH ∷ ROOM ∷ LIST ∷ STATE ∷ FULL ∷ COMPONENT ∷ NOT_READY ∷ TURN ∷ RESET ∷ EMPTY ∷ LOG ∷ ENDED ∷ [] }
    {
        [
            Record::LENGTH,
            Record::FIELD,
            Record::COUNT,
            Record::SHAPE,
            Record::DEPTH,
            Record::ROOM,
            Record::LIST,
            Record::STATE,
            Record::FULL,
            Record::COMPONENT,
            Record::NOT_READY,
            Record::TURN,
            Record::RESET,
            Record::EMPTY,
            Record::LOG,
            Record::ENDED,
        ]
    }

    // The limits in order: the code's numbers are the document's.
    pub fn limits() -> [usize; 10]
        ensures { result ≡ max_records ∷ max_stations ∷ max_depth ∷ variables ∷ max_list ∷ max_steps ∷ kept_every ∷ max_kept ∷ kept_length ∷ no_station ∷ [] }
    {
        [
            Record::MAX_RECORDS,
            Record::MAX_STATIONS,
            Record::MAX_DEPTH,
            Record::VARIABLES,
            Record::MAX_LIST,
            Record::MAX_STEPS as usize,
            Record::KEPT_EVERY as usize,
            Record::MAX_KEPT,
            Record::KEPT_LENGTH,
            Record::NO_STATION as usize,
        ]
    }
}
