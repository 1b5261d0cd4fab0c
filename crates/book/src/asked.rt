// What can be asked of a register.
ghost use Rattle.std.specs.Prelude.{◌≡◌};
ghost use Rattle.book.specs.declared.call.Request.{Request};
ghost use Rattle.book.specs.declared.call.Request.TheVariants.{Write};

use super::call::{Call, Request};

// A request, or something that holds one.
pub trait Asked {
    // the request
    ghost asked: { Self → Request };

    // The request.
    fn request(&self) -> Request
        ensures { result ≡ asked self.now };
}

impl Asked for Request {
    ghost asked = { λ request. request };

    fn request(&self) -> Request {
        *self
    }
}

// A call that writes.
impl Asked for Call {
    ghost asked = { λ call. Write call };

    fn request(&self) -> Request {
        Request::Write(*self)
    }
}
