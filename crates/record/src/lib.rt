// Records of a written sequence and of a built-in list, and picks, decoded from their bytes. Past the end of the bytes everything is zero.
// `names` has the document's numbers by name, `refusal` what a call refuses with.
#![tactic(auto)]

ghost use Rattle.std.specs.Prelude.{◌≡◌, get_or};
ghost use Rattle.rules.specs.Records.{record_at, list_record_at, pick_at};
ghost use Rattle.record.specs.Bytes.{bytes_from};
ghost use Rattle.record.specs.View.{as_record, as_list_record, as_pick};

mod convert;
mod names;
mod refusal;

pub use refusal::Refusal;

// Eight bytes of a written sequence: kind, a, b, op, then k.
#[derive(Clone, Copy, Debug, Default, PartialEq, Eq)]
pub struct Record {
    pub kind: u8,
    pub a: u8,
    pub b: u8,
    pub op: u8,
    pub k: u32,
}

// Sixteen bytes of a built-in list: a record, its station, 1 inside an AWAIT body, two targets, two bytes to spare.
#[derive(Clone, Copy, Debug, Default, PartialEq, Eq)]
pub struct ListRecord {
    pub own: Record,
    pub station: u8,
    pub inside: u8,
    pub t1: u16,
    pub t2: u16,
    pub spare: u16,
}

// Two bytes of a log or of picks: a station and the reset that its priority gets.
#[derive(Clone, Copy, Debug, Default, PartialEq, Eq)]
pub struct Pick {
    pub station: u8,
    pub reset: u8,
}

impl Record {
    // Record number i of a written sequence. What lies past the end of the file is zero: the rest of a record that is cut off, and
    // every record after it, however large i is.
    pub fn at(file: &[u8], i: usize) -> Record
        ensures { as_record result ≡ record_at file.now i }
    {
        Record::from(bytes_at(file, i.saturating_mul(8)))
    }
}

impl ListRecord {
    // Record number p of a built-in list; past the end of the list zero, as in a written sequence.
    pub fn at(list: &[u8], p: usize) -> ListRecord
        ensures { as_list_record result ≡ list_record_at list.now p }
    {
        ListRecord::from(bytes_at(list, p.saturating_mul(16)))
    }
}

impl Pick {
    // Record number i of a log or of picks; past the end zero.
    pub fn at(bytes: &[u8], i: usize) -> Pick
        ensures { as_pick result ≡ pick_at bytes.now i }
    {
        let [station, reset]: [u8; 2] = bytes_at(bytes, i.saturating_mul(2));
        Pick { station, reset }
    }
}

// Entry i of a row, or what is given for those past its end.
pub fn entry<T: Copy>(row: &[T], i: usize, past: T) -> T
    ensures { result ≡ get_or row.now i past }
{
    if i < row.len() { row[i] } else { past }
}

// N bytes from an offset, zeros where the bytes end before them.
fn bytes_at<const N: usize>(bytes: &[u8], at: usize) -> [u8; N]
    ensures { result ≡ bytes_from N bytes.now at }
{
    let (_, rest) = bytes.split_at(at.min(bytes.len()));
    if let Some((whole, _)) = rest.split_first_chunk() {
        return *whole;
    }
    let mut padded = [0; N];
    padded[..rest.len()].copy_from_slice(rest);
    padded
}
