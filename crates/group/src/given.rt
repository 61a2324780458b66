// What the rows of a group answer.
ghost use Rattle.std.specs.Prelude.{◌≤◌};
ghost use Rattle.roll.specs.Words.{rows_a_group};

use roll::GROUP_ROWS;

// A row's blood figure at its AGE in thousandths of ug/dL, none where it is skipped, or why it is refused: a number, since words on a roll that no
// row gave may say any.
pub type RowAnswer = Result<Option<u32>, u32>;

// The answers of a group's rows, in a list of fixed length, since there is no heap. What stands past them says nothing, so there is no `PartialEq`, which
// would compare it.
#[derive(Clone, Copy, Debug)]
pub struct GroupAnswers {
    pub rows: [RowAnswer; GROUP_ROWS],
    pub count: usize,
    pub decodes: u32, // of blocks of the book
    pub ghost few: { count ≤ rows_a_group },
}
