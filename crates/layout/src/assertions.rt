// The soundness check. Rust: util/assertions.rs, made complete by document 01, "Sound layout". Its clauses are crate `sound`'s; here they are asked of a
// layout. The table is gone through twice: by its rows, which marks what hangs, and by its places. The answers of the passes are looked at together,
// since the compiler takes what stands behind an early return for rare; `rest_ok` waits for them.
ghost use Rattle.std.specs.Prelude.{◌≡◌};
ghost use Rattle.layout.specs.Check.{sound_b};
ghost use Rattle.layout.specs.Refusing.{examined_of};

use crate::layout::Layout;
use lists::flags::flags_of;
use marks::Refusal;
use sound::census::census_ok;
use sound::frame::{frame_ok, rest_ok};
use sound::rows::rows_ok;
use table::LIMIT;

impl Layout {
    // Whether this is a sound layout, document 01's whole paragraph.
    pub fn sound(self) -> bool
        ensures { result ≡ sound_b self }
    {
        let nodes = self.nodes;
        let settings = self.settings;
        let frees = self.frees as usize;
        let removables = self.removables as usize;
        let Some(in_free) = flags_of(&self.free, frees) else {
            return false;
        };
        let Some(in_removable) = flags_of(&self.removable, removables) else {
            return false;
        };
        let mut hung = [0u8; LIMIT];
        let linked = rows_ok(nodes, settings, &mut hung);
        let mut serial = [0u32; LIMIT];
        let mut area = [0u64; LIMIT];
        let counted = census_ok(
            nodes,
            self.serial,
            self.used,
            self.held as usize,
            &in_free,
            &in_removable,
            &hung,
            &mut serial,
            &mut area,
        );
        let framed = frame_ok(settings, nodes[0], self.serial);
        linked & counted & framed
            && rest_ok(
                &area,
                &serial,
                &self.free,
                frees,
                &self.removable,
                removables,
            )
    }

    // Refusal 1, at the head of a call.
    pub fn examined(self) -> Result<(), Refusal>
        ensures { result ≡ examined_of self }
    {
        if self.sound() {
            Ok(())
        } else {
            Err(Refusal::NotSound)
        }
    }
}
