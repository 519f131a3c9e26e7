// What operators of a rank join, element by element.
#![tactic(auto)]

ghost use Rattle.std.specs.Prelude.{◌≤◌, ◌<◌, length};
ghost use Rattle.text_joins.specs.Join.{RankedAt, rank_of, ReadyFor, JoinedBy, EndInside, GroupedBy};

use program::rule::Operator;
use text_codes::summary::Summary;
use text_codes::{code, summary};
use text_places::mark::Mark;
use text_places::place;

// What has been gathered, the place behind and the number of codes then.
#[derive(Clone, Copy)]
pub struct Gathered {
    pub seen: Summary,
    pub end: usize,
    pub used: usize,
}

// Nothing was gathered: no form stands there, or one that is deeper than what remains.
#[derive(Clone, Copy, Debug, PartialEq, Eq)]
pub enum Unread {
    NoForm,
    Deep,
}

// `+` or `-`, or else `<?`, at `at`.
fn ranked(line: &[u8], at: usize, sums: bool) -> Option<(Operator, usize)>
    requires { at ≤ length line.now }
    ensures { RankedAt (rank_of sums) line.now at result }
{
    let (sign, end) = place::operator(line, at)?;
    if summary::is_sum(sign) != sums {
        return None;
    }
    Some((sign, end))
}

// What stands before the element that is due: what has been gathered so far, and the operator's code that is to stand behind
// those of the element.
#[derive(Clone, Copy)]
pub struct Pending {
    pub gathered: Gathered,
    pub sign: Option<u64>,
}

// Another element is due, or that is all.
#[derive(Clone, Copy)]
pub enum Joining {
    Next(Pending),
    Done(Gathered),
}

// With the element that was read, and the operator's code behind those of the element.
pub fn joined(
    line: &[u8],
    codes: &mut [u64],
    element: Result<Gathered, Unread>,
    sign: Option<u64>,
    sums: bool,
) -> Result<Joining, Unread>
    requires { ReadyFor line.now codes.old element }
    ensures { JoinedBy (rank_of sums) line.now codes.old codes.new sign element result }
{
    let read = element?;
    let used = code::put_sign(codes, read.used, sign);
    let Some((next, end)) = ranked(line, read.end, sums) else {
        return Ok(Joining::Done(Gathered { used, ..read }));
    };
    let seen = read.seen.with_operator(next);
    Ok(Joining::Next(Pending {
        gathered: Gathered { seen, end, used },
        sign: Some(program::code::of_operator(next)),
    }))
}

// A group whose expression is read: `)` must stand behind it.
pub fn close_group(line: &[u8], inner: Result<Gathered, Unread>) -> Result<Gathered, Unread>
    requires { EndInside line.now inner }
    ensures { GroupedBy line.now inner result }
{
    let read = inner?;
    let Some(end) = place::mark(line, read.end, false, Mark::CloseRound) else {
        return Err(Unread::NoForm);
    };
    Ok(Gathered { end, ..read })
}
