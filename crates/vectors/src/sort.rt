// What a test vector is about.
use super::fault::Fault;
use std::str::FromStr;

#[derive(Clone, Copy)]
pub enum Sort {
    Reach,
    Gap,
    Parting,
}

impl FromStr for Sort {
    type Err = Fault;

    fn from_str(word: &str) -> Result<Sort, Fault> {
        match word {
            "reach" => Ok(Sort::Reach),
            "gap" => Ok(Sort::Gap),
            "parted" => Ok(Sort::Parting),
            _ => Err(Fault::Malformed),
        }
    }
}
