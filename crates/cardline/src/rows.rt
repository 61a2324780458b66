// The lines of answers.
ghost use Rattle.std.specs.Prelude.{◌≡◌, ◌+◌, ◌≤◌, ◌++◌, map, length};
ghost use Rattle.group.specs.Given.{answer_read, answers_read};
ghost use Rattle.cardline.specs.Cardline.{row_line, joined};
ghost use Rattle.cardline.specs.Internal.{line_bytes, group_bytes};

use super::GROUP_BYTES;
use group::given::{GroupAnswers, RowAnswer};
use text::Line;

// The line of a row's answer: the blood, in leadline's decimals; `---`; `refused` and the number. It asks for its room: the type of the lines bounds
// only the whole.
fn put_row(lines: &mut Line<GROUP_BYTES>, answer: RowAnswer)
    requires { length lines.old + line_bytes ≤ group_bytes }
    ensures bytes { lines.new ≡ lines.old ++ row_line (answer_read answer) }
    ensures most { length lines.new ≤ length lines.old + line_bytes }
{
    match answer {
        Ok(Some(blood)) => {
            lines.put_figure(blood);
            lines.put_byte(b'\n');
        }
        Ok(None) => lines.put_text(b"---\n"),
        Err(number) => {
            lines.put_text(b"refused ");
            lines.put_decimal(u64::from(number));
            lines.put_byte(b'\n');
        }
    }
}

// The lines of a group's answers, one after the other.
pub fn put_rows(lines: &mut Line<GROUP_BYTES>, answers: &GroupAnswers)
    ensures { lines.new ≡ joined (map row_line (answers_read answers.now.count answers.now.rows)) }
{
    lines.clear();
    let given = answers.given();
    for answer in given {
        put_row(lines, *answer);
    }
}
