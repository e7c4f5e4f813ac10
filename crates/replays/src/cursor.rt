// Slices that stand in a record one after another.
ghost use Rattle.std.specs.Prelude.{◌≡◌, ◌+◌, ◌%◌, ◌^◌, length};
ghost use Rattle.lists.specs.Tab.{tab};
ghost use Rattle.replays.specs.Values.{float_at};

use crate::steps::after;

// A record, and the number of its word that is read next.
#[derive(Clone, Copy)]
pub struct Cursor<'a> {
    pub record: &'a [u8],
    pub at: usize,
}

impl<'a> Cursor<'a> {
    // Reads a slice of floats: the next words.
    pub fn floats(&mut self, out: &mut [f64])
        ensures read { out.new ≡ tab (length out.old) (λ i. float_at self.old.record.now self.old.at i) }
        ensures moved { self.new.at ≡ (self.old.at + length out.old) % 2 ^ 64 }
        ensures kept { self.new.record.now ≡ self.old.record.now }
    {
        crate::values::floats(self.record, self.at, out);
        self.at = after(self.at, out.len());
    }
}
