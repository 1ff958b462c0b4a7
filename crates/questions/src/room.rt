// Room for a part: the room light (refusals 1 and 3), and the offers of the free piece that a mark names (refusals 1, 3, 4, 5, 6).
ghost use Rattle.std.specs.Prelude.{◌≡◌, true};
ghost use Rattle.layout.specs.Check.{sound_b};
ghost use Rattle.questions.specs.Answers.{offers_call};
ghost use Rattle.questions.specs.Light.{first_offering, has_offer, light_at, light_mark, light_of};

use crate::positions::mark_of;
use layout::asked::part_ok;
use layout::layout::Layout;
use marks::{Mark, Refusal};
use piece::insertion_option::OfferList;
use piece::node::Datum;
use piece::parttype::PartType;
use piece::settings::Settings;

// Whether a piece has an offer for the part.
fn has_offer(piece: Datum, part: PartType, settings: Settings) -> bool
    ensures { result ≡ has_offer piece part settings }
{
    0 < piece::insertion_option::offers(piece, part, settings).count
}

// The first piece of a sound layout's free list that has an offer for the part.
fn first_offering(layout: Layout, part: PartType) -> Result<Option<Mark>, Refusal>
    requires { sound_b layout ≡ true }
    ensures { result ≡ light_at layout (first_offering layout part) }
{
    for i in 0..layout.frees {
        let place = layout.free[i as usize];
        if has_offer(layout.nodes[place as usize].datum, part, layout.settings) {
            return Ok(Some(mark_of(layout, place)));
        }
    }
    Ok(None)
}

// Whether some free piece has an offer for the part, and the mark of the first one that has.
pub fn room_light(layout: Layout, part: PartType) -> Result<Option<Mark>, Refusal>
    ensures { result ≡ light_of layout part }
{
    layout.examined()?;
    if !part_ok(part) {
        return Err(Refusal::PartOutside);
    }
    first_offering(layout, part)
}

// The mark that the light names; zero where there is none.
pub fn light_mark(light: Result<Option<Mark>, Refusal>) -> Mark
    ensures { result ≡ light_mark light }
{
    match light {
        Ok(Some(mark)) => mark,
        Ok(None) => Mark::zero(),
        Err(_) => Mark::zero(),
    }
}

// What the free piece that a mark names offers for a part.
pub fn offers(layout: Layout, mark: Mark, part: PartType) -> Result<OfferList, Refusal>
    ensures { result ≡ offers_call layout mark part }
{
    let piece = layout.free_piece(mark, part)?;
    Ok(piece::insertion_option::offers(piece, part, layout.settings))
}
