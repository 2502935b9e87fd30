// Records from their bytes and back, numbers low byte first.
ghost use Rattle.std.specs.Prelude.{◌≡◌};
ghost use Rattle.rules.specs.Records.{record_from, list_record_bytes};
ghost use Rattle.record.specs.View.{as_record, as_list_record, list_record_from};

use crate::{ListRecord, Record};

impl From<[u8; 8]> for Record {
    ghost from_gives = { λ bytes r. as_record r ≡ record_from bytes 0 };

    fn from(bytes: [u8; 8]) -> Record {
        Record {
            kind: bytes[0],
            a: bytes[1],
            b: bytes[2],
            op: bytes[3],
            k: u32::from_le_bytes([bytes[4], bytes[5], bytes[6], bytes[7]]),
        }
    }
}

impl From<[u8; 16]> for ListRecord {
    ghost from_gives = { λ bytes e. as_list_record e ≡ list_record_from bytes 0 };

    fn from(bytes: [u8; 16]) -> ListRecord {
        let [kind, a, b, op, k0, k1, k2, k3, ..] = bytes;
        ListRecord {
            own: Record::from([kind, a, b, op, k0, k1, k2, k3]),
            station: bytes[8],
            inside: bytes[9],
            t1: u16::from_le_bytes([bytes[10], bytes[11]]),
            t2: u16::from_le_bytes([bytes[12], bytes[13]]),
            spare: u16::from_le_bytes([bytes[14], bytes[15]]),
        }
    }
}

impl From<ListRecord> for [u8; 16] {
    ghost from_gives = { λ e bytes. bytes ≡ list_record_bytes (as_list_record e) };

    fn from(e: ListRecord) -> [u8; 16] {
        let [k0, k1, k2, k3] = e.own.k.to_le_bytes();
        let [t1, t1_high] = e.t1.to_le_bytes();
        let [t2, t2_high] = e.t2.to_le_bytes();
        let [spare, spare_high] = e.spare.to_le_bytes();
        [
            e.own.kind, e.own.a, e.own.b, e.own.op, k0, k1, k2, k3, e.station, e.inside, t1,
            t1_high, t2, t2_high, spare, spare_high,
        ]
    }
}
