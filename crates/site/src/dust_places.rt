// The five places away from home where dust is taken in (site edition 2): work, school, daycare, second home and other.
ghost use Rattle.std.specs.Prelude.{◌≡◌};
ghost use Rattle.site.specs.DustPlaces.{at_home, fields_of, places_fit, places_of, shares_away};
ghost use Rattle.site.specs.Limits.{SharesWithin};

pub const DUST_PLACES: usize = 5;

// Their fields in a site file: a share and a figure of each.
pub const PLACE_FIELDS: usize = 2 * DUST_PLACES;

// The most of a share, and of a figure.
const SHARE_MOST: u32 = 100; // hundredths

const FIGURE_MOST: u32 = 50_000_000; // pg/mg

// A place: the share of the dust eaten that is eaten there, and its figure.
#[derive(Clone, Copy, Debug, PartialEq, Eq)]
pub struct DustPlace {
    pub share: u32, // hundredths
    pub dust: u32, // pg/mg
}

// A place where no dust is taken in.
pub const NO_PLACE: DustPlace = DustPlace { share: 0, dust: 0 };

// The places of their fields.
pub fn places_of(fields: &[u32; PLACE_FIELDS]) -> [DustPlace; DUST_PLACES]
    ensures { result ≡ places_of fields.now }
{
    let place = |k: usize| DustPlace {
        share: fields[2 * k],
        dust: fields[2 * k + 1],
    };
    [place(0), place(1), place(2), place(3), place(4)]
}

// The fields of the places.
pub fn fields_of(places: &[DustPlace; DUST_PLACES]) -> [u32; PLACE_FIELDS]
    ensures { result ≡ fields_of places.now }
{
    let [work, school, daycare, second_home, other] = *places;
    [
        work.share,
        work.dust,
        school.share,
        school.dust,
        daycare.share,
        daycare.dust,
        second_home.share,
        second_home.dust,
        other.share,
        other.dust,
    ]
}

// Is each share and each figure at most its limit?
pub fn places_fit(places: &[DustPlace; DUST_PLACES]) -> bool
    ensures { result ≡ places_fit places.now }
{
    places.iter().all(|place| place.share <= SHARE_MOST && place.dust <= FIGURE_MOST)
}

// The five shares together, hundredths: what of the dust is not the house's.
pub fn shares_away(places: &[DustPlace; DUST_PLACES]) -> u64
    requires { SharesWithin places.now }
    ensures { result ≡ shares_away places.now }
{
    (0..DUST_PLACES).map(|k| u64::from(places[k].share)).sum()
}

// Is no share above 0, so that all dust is the house's?
pub fn at_home(places: &[DustPlace; DUST_PLACES]) -> bool
    ensures { result ≡ at_home places.now }
{
    places.iter().all(|place| place.share == 0)
}
