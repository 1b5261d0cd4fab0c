// Counts and numbers as words of a job.
ghost use Rattle.std.specs.Prelude.{◌≡◌, ◌^◌, ◌<◌, IfSome, MatchOption};
ghost use Rattle.std.specs.Str.Parse.{digits_value};
ghost use Rattle.jobtext.specs.Numbers.{Count, count_of, Number, amount, number_of};

const MOST_DIGITS: usize = 10;

// The value of a word of 1 to 10 digits.
pub(crate) fn read_count(word: &[u8]) -> Option<u64>
    ensures value { result ≡ count_of word.now }
    ensures cases { MatchOption result (Count word.now → ⊥) (λ n. Count word.now × (n ≡ digits_value 10 word.now)) }
    ensures bound { IfSome result (λ n. n < 10 ^ 10) }
{
    if word.is_empty() || word.len() > MOST_DIGITS {
        return None;
    }
    // By hand, as parse takes a plus and more digits.
    let mut total: u64 = 0;
    for byte in word {
        if !byte.is_ascii_digit() {
            return None;
        }
        total = total * 10 + (*byte - b'0') as u64;
    }
    Some(total)
}

// The value of a word of 1 to 10 digits, with or without a minus in front.
pub(crate) fn read_number(word: &[u8]) -> Option<i64>
    ensures value { result ≡ number_of word.now }
    ensures cases { MatchOption result (Number word.now → ⊥) (λ n. Number word.now × (n ≡ amount word.now)) }
{
    match word.strip_prefix(b"-") {
        Some(digits) => Some(-(read_count(digits)? as i64)),
        None => Some(read_count(word)? as i64),
    }
}
