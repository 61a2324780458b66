// A call's files: the site file, a foods block or none, and the rate book, read or refused with the first of their numbers.
#![tactic(auto)]

ghost use Rattle.std.specs.Prelude.{◌≡◌, [], ◌∷◌, IfOk};
ghost use Rattle.numbers.specs.Choice.{first_of};
ghost use Rattle.refusal.specs.Refusal.{number_in};
ghost use Rattle.site.specs.Site.{site_refusal};
ghost use Rattle.files.specs.Files.{foods_refusal_in, files_of, files_with, files_if, length_refusal, scenario_in};
ghost use Rattle.files.specs.CallFiles.{files_in};
ghost use Rattle.files.specs.Internal.{read_with, FilesAreRead};

use book::{BOOK_BYTES, TABLE_NUMBERS};
use refusal::Refusal;
use site::{SITE_BYTES, Scenario};

// The files that a call is handed, as bytes of any length.
#[derive(Clone, Copy)]
pub struct CallFiles<'a> {
    pub site: &'a [u8],
    pub foods: Option<&'a [u8]>,
    pub book: &'a [u8],
}

impl<'a> CallFiles<'a> {
    // The files of a call without a foods block.
    pub fn of(site: &'a [u8], book: &'a [u8]) -> Self
        ensures { files_in result ≡ files_of site.now book.now }
    {
        let foods = None;
        CallFiles { site, foods, book }
    }

    // The files of a call with one.
    pub fn with(site: &'a [u8], foods: &'a [u8], book: &'a [u8]) -> Self
        ensures { files_in result ≡ files_with site.now foods.now book.now }
    {
        let foods = Some(foods);
        CallFiles { site, foods, book }
    }

    // The files of a call that has one if `has_foods` says so, as C says it: the calls for cards hand on its flag.
    pub fn if_handed(site: &'a [u8], has_foods: bool, foods: &'a [u8], book: &'a [u8]) -> Self
        ensures { files_in result ≡ files_if has_foods site.now foods.now book.now }
    {
        if has_foods {
            CallFiles::with(site, foods, book)
        } else {
            CallFiles::of(site, book)
        }
    }
}

impl CallFiles<'_> {
    // Are the site file and the book of the right length?
    pub fn check_lengths(&self) -> Result<(), Refusal>
        ensures { number_in result ≡ length_refusal (files_in self.now) }
    {
        let site = self.site.len();
        if site != SITE_BYTES {
            return Err(Refusal::WrongLength);
        }
        let book = self.book.len();
        if book != BOOK_BYTES {
            return Err(Refusal::WrongLength);
        }
        Ok(())
    }

    // The scenario of the site file, with the diets of the foods block if there is one.
    fn scenario(&self) -> Result<Scenario, Refusal>
        ensures number { let f = files_in self.now in number_in result ≡ first_of (site_refusal f.site ∷ foods_refusal_in f.foods ∷ []) }
        ensures value { IfOk result (λ s. s ≡ scenario_in (files_in self.now)) }
    {
        let own = site::read_site(self.site)?;
        match self.foods {
            None => Ok(own),
            Some(foods) => {
                let figures = foods::read_foods(foods)?;
                let diets = diet::diets_of(&figures);
                Ok(Scenario { diets, ..own })
            }
        }
    }

    // Reads the files: the site file and the foods block into a scenario, then the book into the table. Says how many of its blocks were decoded.
    pub fn read(
        &self,
        table: &mut [u32; TABLE_NUMBERS],
        decodes: &mut u32,
    ) -> Result<Scenario, Refusal>
        ensures { FilesAreRead (files_in self.now) table.new (read_with result decodes.new) }
    {
        *decodes = 0;
        self.check_lengths()?;
        let scenario = self.scenario()?;
        book::read_book(self.book, table, decodes)?;
        Ok(scenario)
    }
}
