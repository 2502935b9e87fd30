// Reading a part that lies deeper than an accepted file has, with no call for each part that is open: what closes those around it, and whether
// they stand in a body, is kept in one row, so that no file takes more stack than this.
#![tactic(auto)]

ghost use Rattle.std.specs.Prelude.{◌≡◌, false, [], ◌*◌, ◌≤◌, length};
ghost use Rattle.rules.specs.Names.{max_records};
ghost use Rattle.rules.specs.Check.{kinds};
ghost use Rattle.deep.specs.Reading.{reading, few_reading};

use parts::{Part, Stride};
use record::Record;

// What reading a part finds.
#[derive(Clone, Copy, Debug, PartialEq, Eq)]
pub enum Read {
    // The record at this place closes the part.
    Closed(usize),
    // The record at this place is the first after which nothing is well shaped.
    Wrong(usize),
    // The records ran out: true where nothing but the part itself is open, and it has a statement.
    Short(bool),
}

// What reading the records of a slice finds, the first of which stands in this part. A slice of more than 1,024 records is not read, and
// counts as unfinished.
pub fn reading(s: &[u8], part: Part) -> Read
    ensures { result ≡ few_reading part s.now }
{
    if 8 * Record::MAX_RECORDS < s.len() {
        return Read::Short(false);
    }
    read_few(s, part)
}

// The same of no more records.
fn read_few(s: &[u8], mut part: Part) -> Read
    requires { length s.now ≤ 8 * max_records }
    ensures { result ≡ reading part [] (kinds s.now) }
{
    let mut around = [(0, false); Record::MAX_RECORDS];
    let mut open: usize = 0;
    for place in 0..s.len() / 8 {
        match part.stride(s[8 * place]) {
            Stride::On(same) => part = same,
            Stride::Into(inner) => {
                around[open] = (part.close, part.body);
                open += 1;
                part = inner;
            }
            Stride::Out => {
                if open == 0 {
                    return Read::Closed(place);
                }
                open -= 1;
                let (close, body) = around[open];
                part = Part::opened(close, body).grown();
            }
            Stride::Off => return Read::Wrong(place),
        }
    }
    Read::Short(open == 0 && part.begun)
}
