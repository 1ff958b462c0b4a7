// Putting a sheet back as it stood. Rust: restore_from of core/entities/layout.rs, put right: the keys do not go back with it.
ghost use Rattle.std.specs.Prelude.{◌≡◌};
ghost use Rattle.layout.specs.Restore.{refused_restore, restore_of};

use crate::layout::Layout;
use marks::Refusal;

// With the layout as it came where it is refused.
#[derive(Clone, Copy)]
pub struct Restored {
    pub outcome: Result<(), Refusal>,
    pub layout: Layout,
}

impl Layout {
    fn refused_restore(self, refusal: Refusal) -> Restored
        ensures { result ≡ refused_restore self refusal }
    {
        Restored {
            outcome: Err(refusal),
            layout: self,
        }
    }

    // The snapshot's state, with the greater of the two last serials, so that none is issued twice.
    pub fn restore(self, snapshot: Layout) -> Restored
        ensures { result ≡ restore_of self snapshot }
    {
        if !self.sound() {
            return self.refused_restore(Refusal::NotSound);
        }
        if !snapshot.sound() {
            return self.refused_restore(Refusal::NotSound);
        }
        if self.number != snapshot.number {
            return self.refused_restore(Refusal::OtherLayout);
        }
        let mut next = snapshot;
        if next.serial < self.serial {
            next.serial = self.serial;
        }
        Restored {
            outcome: Ok(()),
            layout: next,
        }
    }
}
