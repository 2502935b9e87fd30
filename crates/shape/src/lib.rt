// SHAPE: the parts of a file, each read from the record after the one that opens it.
#![tactic(auto)]

ghost use Rattle.std.specs.Prelude.{◌≡◌, false, [], ◌*◌, ◌≤◌, length};
ghost use Rattle.rules.specs.Names.{STATION, max_records};
ghost use Rattle.rules.specs.Check.{kinds};
ghost use Rattle.parts.specs.Strides.{opened};
ghost use Rattle.deep.specs.Reading.{reading};
ghost use Rattle.shape.specs.File.{shape_of, file_shape};

use deep::Read;
use parts::{Part, Stride};
use record::Record;

// The shape of a file: where it is not well shaped, the place of the first record after which nothing is, or the number of records where the
// file is unfinished. A file of more than 1,024 records is not read, and counts as broken at its first.
pub fn of(file: &[u8]) -> Result<(), usize>
    ensures { result ≡ file_shape file.now }
{
    if 8 * Record::MAX_RECORDS < file.len() {
        return Err(0);
    }
    read_file(file)
}

// The shape of a file of no more records: SET records, which are its initial part, and then its stations.
fn read_file(file: &[u8]) -> Result<(), usize>
    requires { length file.now ≤ 8 * max_records }
    ensures { result ≡ shape_of (kinds file.now) }
{
    let count = file.len() / 8;
    for at in 0..count {
        match file[8 * at] {
            Record::SET => {}
            Record::STATION => {
                let next = at + 1;
                return match read_stations(&file[8 * next..]) {
                    // Nothing is open around a station, so a record that closed it would be wrong.
                    Read::Closed(place) | Read::Wrong(place) => Err(next + place),
                    Read::Short(true) => Ok(()),
                    Read::Short(false) => Err(count),
                };
            }
            _ => return Err(at),
        }
    }
    Err(count)
}

// What reading the records after the first STATION finds.
fn read_stations(s: &[u8]) -> Read
    requires { length s.now ≤ 8 * max_records }
    ensures { result ≡ reading (opened STATION false) [] (kinds s.now) }
{
    read_part(
        s,
        Part::opened(Record::STATION, false),
        Record::MAX_DEPTH + 1,
    )
}

// What reading the records of a slice finds, the first of which stands in this part. A part that a record opens is read as a part of
// its own, from the record after it, by a call for each part that is open, as deep as this. The place goes on past it in one leap, so that no
// `for` counts the places.
fn read_part(s: &[u8], mut part: Part, depth: usize) -> Read
    requires { length s.now ≤ 8 * max_records }
    ensures { result ≡ reading part [] (kinds s.now) }
{
    if depth == 0 {
        return deep::reading(s, part);
    }
    let mut at: usize = 0;
    while at < s.len() / 8 {
        let next = at + 1;
        match part.stride(s[8 * at]) {
            Stride::On(same) => {
                part = same;
                at = next;
            }
            Stride::Into(inner) => match read_part(&s[8 * next..], inner, depth - 1) {
                Read::Closed(place) => {
                    part = part.grown();
                    at = next + place + 1;
                }
                Read::Wrong(place) => return Read::Wrong(next + place),
                Read::Short(_) => return Read::Short(false),
            },
            Stride::Out => return Read::Closed(at),
            Stride::Off => return Read::Wrong(at),
        }
    }
    Read::Short(part.begun)
}
