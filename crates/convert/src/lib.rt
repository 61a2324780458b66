// The converter of site files: from edition 1 to edition 2 with zero shares and figures, and back, dropping the figures.
#![tactic(auto)]

ghost use Rattle.std.specs.Prelude.{◌≡◌};
ghost use Rattle.refusal.specs.Refusal.{number_in};
ghost use Rattle.convert.specs.Convert.{to_second_refusal, to_second, to_first_refusal, to_first};

use refusal::Refusal;
use site::SITE_BYTES;
use site::dust_places::{DUST_PLACES, NO_PLACE};
use site::edition::Edition;

// Fills the target with a file of edition 1 in edition 2; if it refuses, it leaves the target.
pub fn to_second(site: &[u8], target: &mut [u8]) -> Result<(), Refusal>
    ensures number { number_in result ≡ to_second_refusal site.now target.old }
    ensures target_after { target.new ≡ to_second site.now target.old }
{
    if target.len() != SITE_BYTES {
        return Err(Refusal::WrongLength);
    }
    let scenario = site::read_site_as(site, Edition::First)?;
    let no_places = [NO_PLACE; DUST_PLACES];
    site::write::write_site(Edition::Second, &scenario.fields, &no_places, target)
}

// Fills the target with a file of edition 2 in edition 1, which has no place for a share; if it refuses, it leaves the target.
pub fn to_first(site: &[u8], target: &mut [u8]) -> Result<(), Refusal>
    ensures number { number_in result ≡ to_first_refusal site.now target.old }
    ensures target_after { target.new ≡ to_first site.now target.old }
{
    if target.len() != SITE_BYTES {
        return Err(Refusal::WrongLength);
    }
    let scenario = site::read_site_as(site, Edition::Second)?;
    if !site::dust_places::at_home(&scenario.dust_places) {
        return Err(Refusal::ShareAway);
    }
    let no_places = [NO_PLACE; DUST_PLACES];
    site::write::write_site(Edition::First, &scenario.fields, &no_places, target)
}
