// What a row makes of an exposure.
ghost use Rattle.std.specs.Prelude.{◌≡◌};
ghost use Rattle.cardsite.specs.RowExposure.{row_exposure};

use card::Card;
use exposure::Exposure;
use site::{DustSource, WaterSource};

// What a row makes of an exposure, whatever its age: its figures, a given dust and a constant water, and all else as it was.
pub fn row_exposure(card: &Card, exposure: Exposure) -> Exposure
    ensures { result ≡ row_exposure card.now exposure }
{
    let soil = card.soil_or_dust();
    let dust = card.dust_or_soil();
    let [diet, water, own_dust, own_soil, alternate] = exposure.absorbed;
    Exposure {
        air: card.air.unwrap_or(exposure.air),
        soil: soil.unwrap_or(exposure.soil),
        dust: dust.unwrap_or(exposure.dust),
        alternate: card.other.unwrap_or(exposure.alternate),
        dust_source: DustSource::Given,
        water_source: WaterSource::Constant,
        constant: card.water.unwrap_or(exposure.constant),
        absorbed: [
            diet,
            water,
            card.absdust.unwrap_or(own_dust),
            card.abssoil.unwrap_or(own_soil),
            alternate,
        ],
        ..exposure
    }
}
