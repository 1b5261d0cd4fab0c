// One line: the opening of a history, or a call with the answer that is due.
//
// `replays` reads its lines likewise, and numbers by the same few functions: a library of both would have to promise what the grammar of
// these test lines is.
use super::words::{Words, end, number, numbers};
use book::{Answer, Call, Refusal};

// The answer that is due to a call, or none where the line gives a number that no such answer has: then no answer is right.
pub type Due = Option<Answer>;

#[derive(Clone, Copy)]
pub enum Line {
    Open(u16, usize),
    Expect(Call, Due),
}

// The opening that a line is.
fn read_opening(text: &str) -> Option<Line> {
    let mut words = text.split(' ');
    if words.next()? != "open" {
        return None;
    }
    let opening = Line::Open(number(&mut words)?, number(&mut words)?);
    end(&mut words)?;
    Some(opening)
}

// The call that a text is.
fn read_call(text: &str) -> Option<Call> {
    let mut words = text.split(' ');
    let call = match words.next()? {
        "start" => Call::Start,
        "facet" => Call::Facet(number(&mut words)?, numbers(&mut words)?),
        "tie" => Call::Tie(
            number(&mut words)?,
            number(&mut words)?,
            number(&mut words)?,
        ),
        "close" => Call::Close(number(&mut words)?),
        "drop" => Call::Drop(number(&mut words)?),
        _ => return None,
    };
    end(&mut words)?;
    Some(call)
}

// The number that the next word is, or none within where it does not fit an answer.
fn fitting<T: TryFrom<u64>>(words: &mut Words<'_>) -> Option<Option<T>>
where
    T::Error: Drop,
{
    Some(T::try_from(number(words)?).ok())
}

// The answer that a text is. A list answers only a comparison, and a history has none.
fn read_due(text: &str) -> Option<Due> {
    let mut words = text.split(' ');
    let due = match words.next()? {
        "started" => Some(Answer::Started),
        "entered" => fitting(&mut words)?.map(Answer::Entered),
        "filed" => fitting(&mut words)?.map(Answer::Filed),
        "removed" => fitting(&mut words)?.map(Answer::Removed),
        "refused" => fitting::<u8>(&mut words)?
            .and_then(|number| Refusal::try_from(number).ok())
            .map(Answer::Refused),
        _ => return None,
    };
    end(&mut words)?;
    Some(due)
}

// What a line says, where it is well formed.
pub(crate) fn read_line(text: &str) -> Option<Line> {
    match text.split_once(" = ") {
        Some((call, answer)) => Some(Line::Expect(read_call(call)?, read_due(answer)?)),
        None => read_opening(text),
    }
}
