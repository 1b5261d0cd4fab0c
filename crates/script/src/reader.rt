// The sections of a job, read one after another.
ghost use Rattle.std.specs.Prelude.{◌≡◌, ◌+◌, ◌*◌, [], ◌∷◌, OnOk};
ghost use Rattle.jobtext.specs.Readings.{rows, facets_of, ties_of, placements_of, body_of};
ghost use Rattle.script.specs.Runs.{Grown, Ran};

use super::rows::{FacetRow, MARK, PlacementRow, Row, TieRow, read_row};
use super::stop::Stop;
use book::{Call, Request};
use jobtext::{Entry, Section};
use std::alloc::AllocError;
use words::Words;

// A job that is being read: the words that are left, and the requests so far.
#[derive(Drop)]
pub struct Reader<'a> {
    pub input: Words<'a>,
    pub entries: Vec<Entry>,
}

impl<'a> Reader<'a> {
    // One more request, which is blamed on the word that was taken last.
    fn put(&mut self, request: Request) -> Result<(), AllocError>
        ensures input { self.new.input ≡ self.old.input }
        ensures grown { OnOk result (Grown self.old.entries.items self.new.entries.items (record { request = request; blame = record { section = self.old.input.section; word = self.old.input.taken } } ∷ [])) }
    {
        let blame = self.input.place();
        self.entries.push(Entry { request, blame })?;
        Ok(())
    }

    // So many rows are due.
    fn rows<R: Row<N>, const N: usize>(&mut self, count: u64) -> Result<(), Stop>
        ensures section { self.new.input.section ≡ self.old.input.section }
        ensures taken { OnOk result (self.new.input.taken ≡ self.old.input.taken + count * R.Row.form.width) }
        ensures ran { Ran (rows R.Row.form count self.old.input.section self.old.input.taken self.old.input.left) self.old.entries.items self.new.entries.items result self.new.input.left }
    {
        for _row in 0..count {
            let request = read_row::<R, N>(&mut self.input)?;
            self.put(request)?;
        }
        Ok(())
    }

    // A section of facets is due: an object is started, and its facets are entered.
    fn facets(&mut self, section: Section) -> Result<(), Stop>
        ensures { Ran (facets_of section self.old.input.left) self.old.entries.items self.new.entries.items result self.new.input.left }
    {
        let count = self.input.count(section)?;
        self.put(Request::Write(Call::Start))?;
        self.rows::<FacetRow, 9>(count)
    }

    // A section of ties is due: they are entered, and the object is closed.
    fn ties(&mut self, section: Section) -> Result<(), Stop>
        ensures { Ran (ties_of section self.old.input.left) self.old.entries.items self.new.entries.items result self.new.input.left }
    {
        let count = self.input.count(section)?;
        self.rows::<TieRow, 2>(count)?;
        self.put(Request::Write(Call::Close(MARK)))?;
        Ok(())
    }

    // The section of the placements is due, and nothing after it.
    fn placements(&mut self) -> Result<(), Stop>
        ensures { Ran (placements_of self.old.input.left) self.old.entries.items self.new.entries.items result [] }
    {
        let count = self.input.count(Section::Placements)?;
        self.rows::<PlacementRow, 12>(count)?;
        self.input.end()?;
        Ok(())
    }

    // The sections after the kind are due.
    pub(crate) fn body(&mut self) -> Result<(), Stop>
        ensures { Ran (body_of self.old.input.left) self.old.entries.items self.new.entries.items result [] }
    {
        self.facets(Section::Facets)?;
        self.ties(Section::Ties)?;
        self.facets(Section::Facets2)?;
        self.ties(Section::Ties2)?;
        self.placements()
    }
}
