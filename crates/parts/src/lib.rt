// An open list of statements of a written sequence, and where a record takes the reading of it.
#![tactic(auto)]

ghost use Rattle.std.specs.Prelude.{◌≡◌};
ghost use Rattle.parts.specs.Strides.{opened, grown, closed, stride_of};

use record::Record;

// An open list of statements: the kind that closes it, whether it stands in an AWAIT body, and whether it has a statement yet.
#[derive(Clone, Copy, Debug, PartialEq, Eq)]
pub struct Part {
    pub close: u8,
    pub body: bool,
    pub begun: bool,
}

// Where a record takes the reading of a part.
#[derive(Clone, Copy, Debug, PartialEq, Eq)]
pub enum Stride {
    // On, in the same list or in the one that takes its place.
    On(Part),
    // Into the list that the record opens.
    Into(Part),
    // Out of the part, which the record closes.
    Out,
    // Off: nothing that follows mends it.
    Off,
}

impl Part {
    // A list with no statement yet.
    pub fn opened(close: u8, body: bool) -> Part
        ensures { result ≡ opened close body }
    {
        Part {
            close,
            body,
            begun: false,
        }
    }

    // The same list with a statement more.
    pub fn grown(self) -> Part
        ensures { result ≡ grown self }
    {
        Part {
            begun: true,
            ..self
        }
    }

    // Where the record that closes the list takes the reading: STATION begins the next station, and ELSE the other list.
    pub fn closed(self) -> Stride
        ensures { result ≡ closed self }
    {
        match self.close {
            Record::STATION => Stride::On(Part::opened(Record::STATION, false)),
            Record::ELSE => Stride::On(Part::opened(Record::FI, self.body)),
            _ => Stride::Out,
        }
    }

    // Where a record of this kind takes the reading.
    #[tactic(auto, unfolding(crate::specs::Strides::stride_of))]
    pub fn stride(self, kind: u8) -> Stride
        ensures { result ≡ stride_of self kind }
    {
        match kind {
            Record::SKIP | Record::SET => Stride::On(self.grown()),
            Record::IF => Stride::Into(Part::opened(Record::ELSE, self.body)),
            Record::WHILE if !self.body => Stride::Into(Part::opened(Record::OD, false)),
            Record::AWAIT if !self.body => Stride::Into(Part::opened(Record::END, true)),
            _ if kind == self.close && self.begun => self.closed(),
            _ => Stride::Off,
        }
    }
}
