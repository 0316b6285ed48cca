// What the operator reaches of a storage: every place of one that has at least 256.
ghost use Rattle.std.specs.Prelude.{◌≡◌};
ghost use Rattle.operator.specs.Calls.{reached, is_sound_at};
ghost use Rattle.sheet.specs.Refusals.{told_storage};

use sheet::refusal::StorageFault;
use storage::Storage;

// The storage is large enough, and the address lies in it.
pub(crate) fn reach<S: Storage>(storage: &S, address: u32) -> Result<(), StorageFault>
    ensures { told_storage result ≡ reached (S.meaning storage.now) address }
{
    let size = storage.size();
    if size < 256 {
        return Err(StorageFault::TooSmall);
    }
    if address as usize >= size {
        return Err(StorageFault::Outside(address));
    }
    Ok(())
}

// The halfword at a sound place.
pub(crate) fn sound_at<S: Storage>(storage: &S, address: u32) -> Result<u16, StorageFault>
    ensures { told_storage result ≡ is_sound_at (S.meaning storage.now) address }
{
    match storage.read(address) {
        None => Err(StorageFault::Outside(address)),
        Some((_, false)) => Err(StorageFault::Unsound(address)),
        Some((value, true)) => Ok(value),
    }
}
