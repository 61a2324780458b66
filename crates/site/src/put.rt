// Figures put over a site file's own.
ghost use Rattle.std.specs.Prelude.{◌≡◌, ◌+◌, ◌≤◌};
ghost use Rattle.site.specs.Fields.{field_count};
ghost use Rattle.site.specs.Put.{put_from};

use super::places;

// A figure at each of so many places from one on: at every age of a group, or singly.
pub fn figure_from(fields: &mut [u32; places::FIELDS], from: usize, count: usize, figure: u32)
    requires { from + count ≤ field_count }
    ensures { fields.new ≡ put_from from count figure fields.old }
{
    fields[from..from + count].fill(figure);
}
