// What a job asks for, and where its text asks for it.
ghost use Rattle.std.specs.Prelude.{◌≡◌};
ghost use Rattle.book.specs.declared.call.Request.{Request};
ghost use Rattle.jobtext.specs.declared.fault.Blame.{Blame};

use super::fault::Blame;
use book::{Asked, Request};

// A request, and the word that is blamed if it is refused.
#[derive(Clone, Copy)]
pub struct Entry {
    pub request: Request,
    pub blame: Blame,
}

// A word that is blamed, or something that holds one.
pub trait Blamed {
    // the word that is blamed
    ghost blamed: { Self → Blame };

    // The word that is blamed.
    fn blame(&self) -> Blame
        ensures { result ≡ blamed self.now };
}

impl Blamed for Blame {
    ghost blamed = { λ blame. blame };

    fn blame(&self) -> Blame {
        *self
    }
}

impl Blamed for Entry {
    ghost blamed = { λ entry. entry.blame };

    fn blame(&self) -> Blame {
        self.blame
    }
}

impl Asked for Entry {
    ghost asked = { λ entry. entry.request };

    fn request(&self) -> Request {
        self.request
    }
}
