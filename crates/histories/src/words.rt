// Numbers from the words of a line. `replays` has the same few: a library of both would have to promise what a number of these lines is.
use std::str::{FromStr, Split};

// The words that are still to be read of a line, or of a part of one.
pub type Words<'a> = Split<'a, char>;

// The number that the next word is.
pub(crate) fn number<T: FromStr>(words: &mut Words<'_>) -> Option<T>
where
    T::Err: Drop,
{
    words.next()?.parse::<T>().ok()
}

// The numbers that the next words are.
pub(crate) fn numbers<const N: usize>(words: &mut Words<'_>) -> Option<[i64; N]> {
    let mut numbers = [0; N];
    for place in &mut numbers {
        *place = number(words)?;
    }
    Some(numbers)
}

// No word is left.
pub(crate) fn end(words: &mut Words<'_>) -> Option<()> {
    words.next().is_none().then_some(())
}
