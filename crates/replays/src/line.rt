// One line: the opening of a history, or a call with all that is due to it.
//
// `histories` reads its lines likewise, and numbers by the same few functions: a library of both would have to promise what the grammar of
// these test lines is.
use super::words::{Words, end, number, numbers};
use book::{Answer, Call, Comparison, Refusal, Request};
use jobtext::Kind;
use std::alloc::{AllocError, Global};

// What a register is opened with: its kind and its mark, the places of its table, those of the list that is lent for all comparisons,
// and how many of these each comparison has.
#[derive(Clone, Copy)]
pub struct Opening {
    pub kind: Kind,
    pub mark: u16,
    pub places: usize,
    pub stretch: usize,
    pub lent: usize,
}

// What is due to a call: an answer, or none where the line gives a number that no refusal has (then no answer is right), and the pairs
// of the list of a comparison.
#[derive(Drop)]
pub struct Due {
    pub answer: Option<Answer>,
    pub pairs: Option<Vec<(u32, u32)>>,
}

#[derive(Drop)]
pub enum Line {
    Open(Opening),
    Expect(Request, Due),
}

// The opening that a text is.
fn read_opening(text: &str) -> Option<Opening> {
    let mut words = text.split(' ');
    if words.next()? != "open" {
        return None;
    }
    let opening = Opening {
        kind: Kind::from_word(words.next()?.as_bytes())?,
        mark: number(&mut words)?,
        places: number(&mut words)?,
        stretch: number(&mut words)?,
        lent: number(&mut words)?,
    };
    end(&mut words)?;
    Some(opening)
}

// The call that a text is.
fn read_call(text: &str) -> Option<Call> {
    let mut words = text.split(' ');
    let call = match words.next()? {
        "start" => Call::Start,
        "facet" => Call::Facet(number(&mut words)?, numbers(&mut words)?),
        "tie" => Call::Tie(
            number(&mut words)?,
            number(&mut words)?,
            number(&mut words)?,
        ),
        "close" => Call::Close(number(&mut words)?),
        "drop" => Call::Drop(number(&mut words)?),
        _ => return None,
    };
    end(&mut words)?;
    Some(call)
}

// The comparison that a text is.
fn read_comparison(text: &str) -> Option<Comparison> {
    let mut words = text.split(' ');
    let comparison = Comparison {
        moved: number(&mut words)?,
        standing: number(&mut words)?,
        placement: numbers(&mut words)?,
    };
    end(&mut words)?;
    Some(comparison)
}

// The answer that the next words are, or none within where they are the number of no refusal.
fn read_answer(words: &mut Words<'_>) -> Option<Option<Answer>> {
    Some(match words.next()? {
        "started" => Some(Answer::Started),
        "entered" => Some(Answer::Entered(number(words)?)),
        "filed" => Some(Answer::Filed(number(words)?)),
        "removed" => Some(Answer::Removed(number(words)?)),
        "listed" => Some(Answer::Listed(number(words)?, number(words)?)),
        "refused" => Refusal::try_from(number::<u8>(words)?)
            .ok()
            .map(Answer::Refused),
        _ => return None,
    })
}

// The pairs that all words are.
fn read_pairs(heap: Global, words: Words<'_>) -> Result<Option<Vec<(u32, u32)>>, AllocError> {
    let mut pairs = Vec::new(heap);
    let mut first = None;
    for word in words {
        let Ok(number) = word.parse::<u32>() else {
            return Ok(None);
        };
        match first.take() {
            None => first = Some(number),
            Some(moved) => pairs.push((moved, number))?,
        }
    }
    Ok(first.is_none().then_some(pairs))
}

// A call that writes, with its answer.
fn read_write(call: &str, answer: &str) -> Option<Line> {
    let call = read_call(call)?;
    let mut words = answer.split(' ');
    let answer = read_answer(&mut words)?;
    end(&mut words)?;
    let due = Due {
        answer,
        pairs: None,
    };
    Some(Line::Expect(Request::Write(call), due))
}

// A comparison, with its answer and its pairs.
fn read_compare(heap: Global, call: &str, answer: &str) -> Result<Option<Line>, AllocError> {
    let mut words = answer.split(' ');
    let (Some(comparison), Some(answer)) = (read_comparison(call), read_answer(&mut words)) else {
        return Ok(None);
    };
    let pairs = read_pairs(heap, words)?;
    if pairs.is_none() {
        return Ok(None);
    }
    Ok(Some(Line::Expect(Request::Compare(comparison), Due { answer, pairs })))
}

// What a line says, where it is well formed.
pub(crate) fn read_line(heap: Global, text: &str) -> Result<Option<Line>, AllocError> {
    match text.split_once(" = ") {
        Some((call, answer)) => match call.strip_prefix("compare ") {
            Some(comparison) => read_compare(heap, comparison, answer),
            None => Ok(read_write(call, answer)),
        },
        None => Ok(read_opening(text).map(Line::Open)),
    }
}
