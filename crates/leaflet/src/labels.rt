// The names of a site file's figures, in the fields' order.
use super::figure::FIGURES;
use super::page::LABEL_BYTES;

// A table of its own beside `site::limits::LIMITS`: that has a most for each of the 94 fields, and the site check walks it without names.
// A figure's name, its ages (0-6 for a field for each, all for one field) and its unit.
pub const LABELS: [&[u8; LABEL_BYTES]; FIGURES] = [
    b"air                 0-6   pg/m3                 ",
    b"hours_out           0-6   h/day                 ",
    b"breathing           0-6   L/day                 ",
    b"air_absorbed        0-6   %                     ",
    b"diet                0-6   pg/day                ",
    b"water_amount        0-6   mL/day                ",
    b"soil                0-6   thousandths of ug/g   ",
    b"dust                0-6   thousandths of ug/g   ",
    b"eaten               0-6   mg/day                ",
    b"alternate           0-6   pg/day                ",
    b"indoor              all   %                     ",
    b"weight_soil         all   %                     ",
    b"contribution        all   hundredths            ",
    b"air_to_dust         all   ug/g per ug/m3        ",
    b"dust_mode           all   -                     ",
    b"water_mode          all   -                     ",
    b"water               all   pg/mL                 ",
    b"flushed             all   pg/mL                 ",
    b"first_draw          all   pg/mL                 ",
    b"fountain            all   pg/mL                 ",
    b"first_draw_share    all   hundredths            ",
    b"fountain_share      all   hundredths            ",
    b"absorbed_diet       all   %                     ",
    b"absorbed_water      all   %                     ",
    b"absorbed_dust       all   %                     ",
    b"absorbed_soil       all   %                     ",
    b"absorbed_alternate  all   %                     ",
    b"passive_diet        all   %                     ",
    b"passive_water       all   %                     ",
    b"passive_dust        all   %                     ",
    b"passive_soil        all   %                     ",
    b"passive_alternate   all   %                     ",
    b"saturation          all   pg/day                ",
    b"mother              all   thousandths of ug/dL  ",
];
