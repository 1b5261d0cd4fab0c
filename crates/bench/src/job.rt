// What a file in a job's words holds.
ghost use Rattle.std.specs.Prelude.{◌≡◌, ◌&&◌, vec_len, ◌==◌};

use super::stop::Stop;
use super::words::Words;
use std::alloc::Global;

// The facets and ties of an object.
#[derive(Drop)]
pub struct Piece {
    pub facets: Vec<[i64; 9]>,
    pub ties: Vec<[i64; 2]>,
}

#[derive(Drop)]
pub struct Job {
    pub moved: Piece,
    pub standing: Piece,
    pub placements: Vec<[i64; 12]>,
}

// A section with its name and count: so many rows of so many numbers.
fn read_section<const N: usize>(
    heap: Global,
    words: &mut Words<'_>,
    name: &str,
) -> Result<Vec<[i64; N]>, Stop> {
    words.name(name)?;
    let count = words.number()?;
    let mut rows = Vec::new(heap);
    for _ in 0..count {
        rows.push(words.numbers()?)?;
    }
    Ok(rows)
}

impl Piece {
    // The object that is due.
    fn read(heap: Global, words: &mut Words<'_>) -> Result<Piece, Stop> {
        Ok(Piece {
            facets: read_section(heap, words, "facets")?,
            ties: read_section(heap, words, "ties")?,
        })
    }

    // Whether there are neither facets nor ties.
    pub(crate) fn is_empty(&self) -> bool
        ensures { result ≡ (vec_len self.now.facets == 0 && vec_len self.now.ties == 0) }
    {
        self.facets.is_empty() && self.ties.is_empty()
    }
}

impl Job {
    // The job that a text is. It is run with every kind of hull, so the kind that it names counts for nothing.
    pub(crate) fn read(heap: Global, text: &str) -> Result<Job, Stop> {
        let mut words = Words::new(text);
        words.name("kind")?;
        let _kind = words.word()?;
        let job = Job {
            moved: Piece::read(heap, &mut words)?,
            standing: Piece::read(heap, &mut words)?,
            placements: read_section(heap, &mut words, "placements")?,
        };
        words.end()?;
        Ok(job)
    }
}
