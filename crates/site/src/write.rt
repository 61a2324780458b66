// The writer of a site file from its fields.
ghost use Rattle.std.specs.Prelude.{◌≡◌};
ghost use Rattle.refusal.specs.Refusal.{number_in};
ghost use Rattle.block.specs.Writer.{writer_refusal, written};
ghost use Rattle.site.specs.Written.{site_body};

use crate::dust_places::{self, DUST_PLACES, DustPlace};
use crate::edition::{Edition, PLACES_AT};
use crate::places::FIELDS;
use block::CHECK_AT;
use refusal::Refusal;

// The body of a file: edition 1 has no fields for the places.
#[tactic(auto, unfolding(crate::specs::Written::site_body))]
fn site_body(
    edition: Edition,
    fields: &[u32; FIELDS],
    places: &[DustPlace; DUST_PLACES],
) -> [u8; CHECK_AT]
    ensures { result ≡ site_body edition fields.now places.now }
{
    let mut body = block::write::body_of(edition.form(), fields);
    if let Edition::Second = edition {
        block::write::put_fields(&mut body, PLACES_AT, &dust_places::fields_of(places));
    }
    body
}

// Writes a site file into a target, with its check; if the target's length is wrong, it refuses and leaves it.
pub fn write_site(
    edition: Edition,
    fields: &[u32; FIELDS],
    places: &[DustPlace; DUST_PLACES],
    target: &mut [u8],
) -> Result<(), Refusal>
    ensures number { number_in result ≡ writer_refusal (site_body edition fields.now places.now) target.old }
    ensures target_after { target.new ≡ written (site_body edition fields.now places.now) target.old }
{
    block::write::write_block(&site_body(edition, fields, places), target)
}
