// Room that a call's files are read into: the call lends it to their reading, which hands out the child that borrows what it then holds.
ghost use Rattle.std.specs.Prelude.{◌≡◌, IfOk};
ghost use Rattle.refusal.specs.Refusal.{number_in};
ghost use Rattle.files.specs.CallFiles.{files_in};
ghost use Rattle.files.specs.Files.{files_refusal, files_decodes};
ghost use Rattle.engine.specs.Internal.{AreThoseOf};

use book::TABLE_NUMBERS;
use child::given::Accepted;
use files::CallFiles;
use refusal::Refusal;
use site::Scenario;

// The scenario of a site file and the table of a book, where files are read.
#[derive(Default, Drop)]
pub struct Room {
    scenario: Option<Scenario>,
    table: [u32; TABLE_NUMBERS],
}

impl Room {
    // The child of these files, once they are accepted; and how many blocks of the book were decoded, since a group counts them.
    pub fn accept_counted<'a>(
        &'a mut self,
        files: &CallFiles,
        decodes: &mut u32,
    ) -> Result<Accepted<'a>, Refusal>
        ensures number { number_in result ≡ files_refusal (files_in files.now) }
        ensures child { IfOk result (λ c. AreThoseOf (files_in files.now) c.scenario.now c.table.now) }
        ensures decodes { decodes.new ≡ files_decodes (files_in files.now) }
    {
        let Room { scenario, table } = self;
        let scenario = scenario.insert(files.read(table, decodes)?);
        Ok(Accepted { scenario, table })
    }

    // The child of these files, once they are accepted.
    pub fn accept<'a>(&'a mut self, files: &CallFiles) -> Result<Accepted<'a>, Refusal>
        ensures number { number_in result ≡ files_refusal (files_in files.now) }
        ensures child { IfOk result (λ c. AreThoseOf (files_in files.now) c.scenario.now c.table.now) }
    {
        let mut decodes = 0;
        self.accept_counted(files, &mut decodes)
    }
}
