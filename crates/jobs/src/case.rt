// A job with the report that is due, as the test data has them: a line `job NAME B R`, the B bytes of the job, the R bytes of its report
// and a line end.
ghost use Rattle.std.specs.Prelude.{◌<◌, length, IfSome};
ghost use Rattle.std.specs.Iterator.{at_most};

// A job and its report.
#[derive(Clone, Copy)]
pub struct Case<'a> {
    pub name: &'a str,
    pub job: &'a [u8],
    pub report: &'a [u8],
}

// The name of a case, and how many bytes its job and its report have.
#[derive(Clone, Copy)]
struct Header<'a> {
    name: &'a str,
    job: usize,
    report: usize,
}

// The test data hold something else where a case is due.
#[derive(Clone, Copy)]
pub struct Malformed;

// The cases of the test data that are left. A malformed one is the last.
#[derive(Drop)]
pub struct Cases<'a> {
    rest: &'a [u8],
}

// The header as its line has it.
fn read_header(line: &[u8]) -> Option<Header<'_>> {
    let text = std::str::from_utf8(line).ok()?;
    let mut words = text.split(' ');
    if words.next()? != "job" {
        return None;
    }
    let name = words.next()?;
    let job = words.next()?.parse().ok()?;
    let report = words.next()?.parse().ok()?;
    Some(Header { name, job, report })
}

// The first line without its end, and the bytes behind that.
fn split_line(bytes: &[u8]) -> Option<(&[u8], &[u8])>
    ensures { IfSome result (λ parts. length parts.1.now < length bytes.now) }
{
    let end = bytes.iter().position(|byte| *byte == b'\n')?;
    Some((&bytes[..end], &bytes[end + 1..]))
}

// The first case, where it is well formed, and the bytes behind it.
fn split_case(bytes: &[u8]) -> Option<(Case<'_>, &[u8])>
    ensures { IfSome result (λ parts. length parts.1.now < length bytes.now) }
{
    let (line, rest) = split_line(bytes)?;
    let header = read_header(line)?;
    let (job, rest) = rest.split_at_checked(header.job)?;
    let (report, rest) = rest.split_at_checked(header.report)?;
    let (_, rest) = rest.split_first()?;
    let case = Case {
        name: header.name,
        job,
        report,
    };
    Some((case, rest))
}

impl<'a> Cases<'a> {
    // The cases of the test data.
    pub(crate) fn new(rest: &'a [u8]) -> Cases<'a> {
        Cases { rest }
    }
}

impl<'a> Iterator for Cases<'a> {
    type Item = Result<Case<'a>, Malformed>;

    ghost remaining = { λ cases. at_most (length cases.rest.now) };

    fn next(&mut self) -> Option<Result<Case<'a>, Malformed>> {
        if self.rest.is_empty() {
            return None;
        }
        match split_case(self.rest) {
            Some((case, rest)) => {
                self.rest = rest;
                Some(Ok(case))
            }
            None => {
                self.rest = &[];
                Some(Err(Malformed))
            }
        }
    }
}
