// Storages as the script sets them up.
ghost use Rattle.std.specs.Prelude.{◌≡◌, ◌+◌, ◌≤◌, min, length, replicate, IfOk, vec_len};
ghost use Rattle.console.specs.Store.{meaning_of, overlaid, told_cells, cells_with};
ghost use Rattle.storage.specs.Meaning.{blank};

use super::Store;
use listing::line::Kind;
use std::alloc::{AllocError, Global};
use storage::Storage;
use storage::cells::CellStorage;
use storage::packed::PackedStorage;

impl Store {
    // A storage of a kind, whose places are zero, unprotected and sound.
    pub fn zeroed(heap: Global, kind: Kind, size: u32) -> Result<Store, AllocError>
        ensures { IfOk result (λ s. meaning_of s ≡ replicate (min size 524288) blank) }
    {
        match kind {
            Kind::Cells => Ok(Store::Cells(CellStorage::zeroed(heap, size)?)),
            Kind::Packed => Ok(Store::Packed(PackedStorage::zeroed(heap, size)?)),
        }
    }

    // A cell storage with raw cells put from an address on; none where they pass its size, and none of a packed storage.
    pub fn with_cells(self, address: u32, raw: &[u32]) -> Option<Store>
        ensures { told_cells result ≡ cells_with self address raw.now }
    {
        let Store::Cells(storage) = self else {
            return None;
        };
        let from = address as usize;
        let size = storage.size();
        if from > size || raw.len() > size - from {
            return None;
        }
        let mut cells = storage.into_cells();
        overlay(&mut cells, from, raw);
        Some(Store::Cells(CellStorage::new(cells)))
    }
}

// Puts raw cells over those from a place on.
fn overlay(cells: &mut Vec<u32>, from: usize, raw: &[u32])
    requires { from + length raw.now ≤ vec_len cells.old }
    ensures { cells.new.items ≡ overlaid cells.old.items from raw.now }
{
    cells[from..from + raw.len()].copy_from_slice(raw);
}
