// The code sheet as the script writes it, until a load hands it over.
ghost use Rattle.std.specs.Prelude.{◌≡◌, [], ◌∷◌, ◌++◌, IfOk, OnErr, OnOk};
ghost use Rattle.console.specs.Draft.{handed_over};

use script::command::Entry;
use std::alloc::{AllocError, Global};
use std::iter::once;

// The halfwords of `sheet` lines, and the entries of `entry` lines.
#[derive(Drop)]
pub struct Draft {
    halfwords: Vec<u16>,
    entries: Vec<Entry>,
}

impl Draft {
    pub fn new(heap: Global) -> Draft
        ensures halfwords { result.halfwords.items ≡ [] }
        ensures entries { result.entries.items ≡ [] }
    {
        Draft {
            halfwords: Vec::new(heap),
            entries: Vec::new(heap),
        }
    }

    // Appends halfwords.
    pub fn append(&mut self, halfwords: &[u16]) -> Result<(), AllocError>
        ensures ok { OnOk result (self.new.halfwords.items ≡ self.old.halfwords.items ++ halfwords.now) }
        ensures err { OnErr result (self.new.halfwords.items ≡ self.old.halfwords.items) }
        ensures kept { self.new.entries ≡ self.old.entries }
    {
        self.halfwords.extend_from_slice(halfwords)
    }

    // Appends an entry.
    pub fn append_entry(&mut self, entry: Entry) -> Result<(), AllocError>
        ensures ok { OnOk result (self.new.entries.items ≡ self.old.entries.items ++ (entry ∷ [])) }
        ensures err { OnErr result (self.new.entries.items ≡ self.old.entries.items) }
        ensures kept { self.new.halfwords ≡ self.old.halfwords }
    {
        self.entries.push(entry)?;
        Ok(())
    }

    // The sheet: the halfwords, or with none of them the count, the keys and the numbers of the entries.
    pub fn sheet(&self, heap: Global) -> Result<Vec<u16>, AllocError>
        ensures { IfOk result (λ v. v.items ≡ handed_over self.now.halfwords.items self.now.entries.items) }
    {
        if self.halfwords.is_empty() {
            of_entries(heap, &self.entries)
        } else {
            Vec::from_slice(heap, &self.halfwords)
        }
    }
}

// The count, the keys and the numbers.
fn of_entries(heap: Global, entries: &[Entry]) -> Result<Vec<u16>, AllocError>
    ensures { IfOk result (λ v. v.items ≡ handed_over [] entries.now) }
{
    let count = u16::try_from(entries.len()).unwrap_or(u16::MAX);
    let keys = entries.iter().map(|entry| entry.key);
    let numbers = entries.iter().map(|entry| entry.number);
    once(count).chain(keys).chain(numbers).collect(heap)
}
