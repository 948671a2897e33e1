// Whether texts and documents by columns are the same. No item is put together, and no memory is taken.
ghost use Rattle.std.specs.Prelude.{◌≡◌, ◌↔◌, ◌^◌, ◌<◌, IsTrue};
ghost use Rattle.run_lists.specs.Spread.{expanded, total_len};

use crate::{ColumnDocument, ColumnTexts, Columns};
use run_lists::{Cursor, Run, Shared, value_until};

impl Columns {
    /// Whether both have the same items. It goes over the units and over each list of runs once.
    pub fn equal(&self, other: &Columns) -> bool
        ensures { IsTrue result ↔ self.now ≡ other.now }
    {
        if self.units() != other.units() {
            return false;
        }
        let len = self.len();
        if !same_values(self.chps(), other.chps(), len) {
            return false;
        }
        same_values(self.attachments(), other.attachments(), len)
    }
}

impl ColumnTexts {
    /// Whether both have the same texts.
    pub fn equal(&self, other: &ColumnTexts) -> bool
        ensures { IsTrue result ↔ self.now ≡ other.now }
    {
        if self.texts.len() != other.texts.len() {
            return false;
        }
        for i in 0..self.texts.len() {
            if !self.texts[i].equal(&other.texts[i]) {
                return false;
            }
        }
        true
    }
}

impl ColumnDocument {
    /// Whether both are the same in all parts. It is linear in the units and in the runs.
    pub fn equal(&self, other: &ColumnDocument) -> bool
        ensures { IsTrue result ↔ self.now ≡ other.now }
    {
        self.main.equal(&other.main)
            && self.notes.equal(&other.notes)
            && self.heads.equal(&other.heads)
            && self.sheet.equal(&other.sheet)
            && self.carried.equal(&other.carried)
            && self.bookmarks.equal(&other.bookmarks)
    }
}

/// Whether runs of `len` values each represent the same ones.
fn same_values<T: Shared>(one: &[Run<T>], other: &[Run<T>], len: usize) -> bool
    requires one { total_len one.now ≡ len }
    requires other { total_len other.now ≡ len }
    requires few { len < 2 ^ 32 }
    ensures { IsTrue result ↔ expanded one.now ≡ expanded other.now }
{
    let mut first = Cursor::new();
    let mut second = Cursor::new();
    let mut place = 0;
    while place < len {
        let (value, end) = value_until(one, &mut first, place);
        let (attached, attached_end) = value_until(other, &mut second, place);
        if !value.equal(attached) {
            return false;
        }
        place = end.min(attached_end);
    }
    true
}
