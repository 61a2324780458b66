// The editions of a site file.
ghost use Rattle.std.specs.Prelude.{◌≡◌};
ghost use Rattle.site.specs.Site.{edition_due, site_form};

use crate::dust_places::PLACE_FIELDS;
use crate::places::FIELDS;
use block::{BLOCK_BYTES, EDITION_AT, FIELDS_AT, Form};

// Edition 1, and edition 2 with five places where dust is taken in.
#[derive(Clone, Copy, Debug, PartialEq, Eq)]
pub enum Edition {
    First = 1,
    Second = 2,
}

// Where the fields of the five places stand: behind the others, in reserved bytes of edition 1.
pub const PLACES_AT: usize = FIELDS_AT + 4 * FIELDS; // 380

const SITE_NUMBER: u32 = 0;

impl Edition {
    // The edition that is due: the file's own if it is 2, else 1.
    pub fn due(site: &[u8; BLOCK_BYTES]) -> Edition
        ensures { result ≡ edition_due site.now }
    {
        if block::read::word_at(site, EDITION_AT) == Edition::Second as u32 {
            Edition::Second
        } else {
            Edition::First
        }
    }

    // The block that a file of the edition is due to be.
    pub fn form(self) -> Form
        ensures { result ≡ site_form self }
    {
        let used = match self {
            Edition::First => PLACES_AT,
            Edition::Second => PLACES_AT + 4 * PLACE_FIELDS, // 420
        };
        Form {
            number: SITE_NUMBER,
            edition: self as u32,
            used,
        }
    }
}
