// A list of what waits, one text for single items and for pairs of items, over lent places: a form that was asked for
// (docs/DECISIONS.md), in memory that is fixed, since nothing is allocated in a walk.
ghost use Rattle.std.specs.Prelude.{◌≡◌, ℕ, ◌+◌, ◌<◌, ◌≤◌, List, [], ◌∷◌, ◌++◌, length, take, MatchOption};

// Over lent places: the last one in is the first one out.
#[derive(Drop)]
pub(crate) struct Stack<'s, T> {
    pub(crate) places: &'s mut [T],
    pub(crate) len: usize,
    ghost within: { len ≤ length places.now },
}

impl<'s, T: Copy> Stack<'s, T> {
    // An empty list with these places.
    pub(crate) fn over(places: &'s mut [T]) -> Stack<'s, T>
        ensures empty { result.len ≡ 0 }
        ensures room { length result.places.now ≡ length places.old }
    {
        Stack { places, len: 0 }
    }

    // One more waits.
    pub(crate) fn push(&mut self, x: T)
        requires { self.old.len < length self.old.places.now }
        ensures held { take self.new.len self.new.places.now ≡ take self.old.len self.old.places.now ++ x ∷ [] }
        ensures len { self.new.len ≡ self.old.len + 1 }
        ensures room { length self.new.places.now ≡ length self.old.places.now }
    {
        let at = self.len;
        self.places[at] = x;
        self.len = at + 1;
    }

    // The last one that was pushed waits no more.
    pub(crate) fn pop(&mut self) -> Option<T>
        ensures held { MatchOption result (self.old.len ≡ 0) (λ x. take self.old.len self.old.places.now ≡ take self.new.len self.new.places.now ++ x ∷ []) }
        ensures room { length self.new.places.now ≡ length self.old.places.now }
    {
        if self.len == 0 {
            return None;
        }
        let at = self.len - 1;
        self.len = at;
        Some(self.places[at])
    }
}
