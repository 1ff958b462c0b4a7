// Tidying (document 02, No. 5): the structures but the top that have one child, a free piece, are taken out, lowest place first. The Rust has no such call;
// each is taken out as a removal would take it out.
ghost use Rattle.std.specs.Prelude.{◌≡◌, []};
ghost use Rattle.tree.specs.Tidy.{Untidy};
ghost use Rattle.layout.specs.Check.{tree};
ghost use Rattle.layout.specs.Remove.{RemoveDone, numbers_out};
ghost use Rattle.layout.specs.Inner.{Takeable};
ghost use Rattle.layout.specs.Tidy.{TidySays, refused_tidy};

use crate::layout::Layout;
use crate::remove::Removed;
use marks::{Mark, Refusal};
use removal::remove::remove;
use removal::untidy::{going_bare, lowest_untidy};
use sound::frame::MAX_SERIAL;
use table::NONE;

// How many structures were taken out; zero, with the layout as it came, where it is refused.
#[derive(Clone, Copy)]
pub struct Tidied {
    pub outcome: Result<(), Refusal>,
    pub count: u16,
    pub layout: Layout,
}

impl Layout {
    fn refused_tidy(self, refusal: Refusal) -> Tidied
        ensures { result ≡ refused_tidy self refusal }
    {
        Tidied {
            outcome: Err(refusal),
            count: 0,
            layout: self,
        }
    }

    // The structure at the place goes, with the free piece below it.
    fn emptied(self, place: u16) -> Removed
        requires { Takeable self place × (numbers_out self place ≡ []) × Untidy place (tree self) }
        ensures { RemoveDone self place result }
    {
        let g = going_bare(&self.nodes, place);
        let c = remove(self.layout_nodes(), g, place, self.serial);
        let last = self.serial + 1;
        let next = self.with_nodes(c.nodes, self.held + 1 - g.count as u16, self.used, last);
        Removed {
            outcome: Ok(()),
            free: Mark {
                layout: self.number,
                place: c.place,
                serial: last,
            },
            count: 0,
            layout: next,
        }
    }

    // Every structure that holds nothing but a free piece goes, and its board with it to its row's free piece. Each takes a serial; where these don't last
    // for all of them, none goes. (As code it stays apart: its frame is no part of the other ops'.)
    #[inline(never)]
    pub fn tidy(self) -> Tidied
        ensures { TidySays self result }
    {
        if !self.sound() {
            return self.refused_tidy(Refusal::NotSound);
        }
        let mut left = self;
        let mut count: u16 = 0;
        // no index: it goes on until no such structure is left
        loop {
            let place = lowest_untidy(&left.nodes);
            if NONE <= place {
                return Tidied {
                    outcome: Ok(()),
                    count,
                    layout: left,
                };
            }
            if MAX_SERIAL <= left.serial {
                return self.refused_tidy(Refusal::SerialsSpent);
            }
            let gone = left.emptied(place);
            let next = gone.layout;
            left = next;
            count += 1;
        }
    }
}
