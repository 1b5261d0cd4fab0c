// A history of calls with the answers that are due.
use super::line::Due;
use book::{Answer, Call, Item};
use faced::BoxHull;
use hull::{Corner, Hull};
use register::{Place, replay};
use std::alloc::{AllocError, Global};

// Two lists of one length, since `replay`, which is held to them here, takes the calls as a slice of their own.
#[derive(Drop)]
pub struct History {
    mark: u16,
    places: usize,
    calls: Vec<Call>,
    dues: Vec<Due>,
}

// A place that holds anything. A library that makes one for all programs would have to promise what it holds.
fn some_place() -> Place<BoxHull> {
    let corner = Corner::new(1, 2, 3).unwrap();
    Place {
        item: Item::Tie(7, 7),
        height: 200,
        tied: true,
        hull: BoxHull::first(corner),
    }
}

impl History {
    // A history with no calls.
    pub(crate) fn new(heap: Global, mark: u16, places: usize) -> History {
        History {
            mark,
            places,
            calls: Vec::new(heap),
            dues: Vec::new(heap),
        }
    }

    // One more call.
    pub(crate) fn add(&mut self, call: Call, due: Due) -> Result<(), AllocError> {
        self.calls.push(call)?;
        self.dues.push(due)?;
        Ok(())
    }

    // How many calls get the answer that is due, over a table that holds anything.
    pub(crate) fn agreeing(&self, heap: Global) -> Result<usize, AllocError> {
        let mut table = vec![in heap; some_place(); self.places]?;
        let mut answers = vec![in heap; Answer::Started; self.calls.len()]?;
        replay(
            self.mark,
            table.as_mut_slice(),
            self.calls.as_slice(),
            answers.as_mut_slice(),
        );
        let agreeing = answers
            .iter()
            .zip(self.dues.iter())
            .filter(|(answer, due)| **due == Some(**answer));
        Ok(agreeing.count())
    }
}
