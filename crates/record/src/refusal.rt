// What a call refuses with.
ghost use Rattle.std.specs.Prelude.{◌≡◌};
ghost use Rattle.record.specs.Refusals.{number_of, told_number};

use crate::Record;

// A refusal, by its name in the documents.
#[derive(Clone, Copy, Debug, PartialEq, Eq)]
pub enum Refusal {
    Length,
    Field,
    Count,
    Shape,
    Depth,
    Room,
    List,
    State,
    Full,
    Component,
    NotReady,
    Turn,
    Reset,
    Empty,
    Log,
    Ended,
}

impl Refusal {
    // Its number, which is a constant of the record type, as document 01 asks.
    pub fn number(self) -> u8
        ensures { result ≡ number_of self }
    {
        match self {
            Refusal::Length => Record::LENGTH,
            Refusal::Field => Record::FIELD,
            Refusal::Count => Record::COUNT,
            Refusal::Shape => Record::SHAPE,
            Refusal::Depth => Record::DEPTH,
            Refusal::Room => Record::ROOM,
            Refusal::List => Record::LIST,
            Refusal::State => Record::STATE,
            Refusal::Full => Record::FULL,
            Refusal::Component => Record::COMPONENT,
            Refusal::NotReady => Record::NOT_READY,
            Refusal::Turn => Record::TURN,
            Refusal::Reset => Record::RESET,
            Refusal::Empty => Record::EMPTY,
            Refusal::Log => Record::LOG,
            Refusal::Ended => Record::ENDED,
        }
    }

    // The number that an outcome is told by: 0 where nothing is refused.
    pub fn told(outcome: Result<(), Refusal>) -> u8
        ensures { result ≡ told_number outcome }
    {
        match outcome {
            Ok(()) => 0,
            Err(refusal) => refusal.number(),
        }
    }
}
