// Writing a record of the list.
ghost use Rattle.std.specs.Prelude.{◌≡◌};
ghost use Rattle.record.specs.View.{as_list_record};
ghost use Rattle.laying.specs.Laid.{put_at};

use record::ListRecord;

// Puts a list record at a place; past the end of the list nothing is written.
#[tactic(auto, unfolding(crate::specs::Laid::put_at))]
pub fn put(list: &mut [u8], p: u16, e: ListRecord)
    ensures { list.new ≡ put_at p (as_list_record e) list.old }
{
    let at = 16 * (p as usize);
    if at + 16 <= list.len() {
        let bytes: [u8; 16] = e.into();
        list[at..at + 16].copy_from_slice(&bytes);
    }
}
