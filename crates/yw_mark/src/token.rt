// How many tokens are on places.
ghost use Rattle.std.specs.Prelude.{◌≡◌, ◌<◌, ◌≤◌, ◌↔◌, length, IsErr, OnOk, OnErr};
ghost use Rattle.yw_mark.specs.Tokens.{is_marked};
ghost use Rattle.yw_state.specs.After.{count_on, one_less, one_more};
ghost use Rattle.yw_state.specs.Allowed.{most_tokens};
ghost use Rattle.yw_state.specs.Nets.{is_among};

use thiserror::Error;
use yw_state::Marks;

/// How many tokens a place may have. The limit is our own.
pub const MOST_TOKENS: u64 = 1_000_000;

/// Why no token was put: the place has as many as it may have, 1,000,000.
#[derive(Clone, Copy, Debug, Error, PartialEq, Eq)]
#[error("the place has 1000000 tokens")]
pub struct TokenLimit;

/// The place, by its number, is one of these. It takes no memory.
pub fn is_among(places: &[usize], c: usize) -> bool
    ensures { result ≡ is_among places.now c }
{
    places.iter().any(|place| c == *place)
}

/// How many tokens are on a place; none where there is no such place. It takes no memory.
pub fn count_on(marks: &Marks, c: usize) -> u64
    ensures { result ≡ count_on marks.now c }
{
    marks.get(c).copied().unwrap_or(0)
}

/// The place is marked: a token is on it. It takes no memory.
pub fn is_marked(marks: &Marks, c: usize) -> bool
    ensures { result ≡ is_marked marks.now c }
{
    count_on(marks, c) > 0
}

/// Takes a token from a place, if one is there.
pub(crate) fn lose(marks: &mut Marks, c: usize)
    ensures { marks.new ≡ one_less marks.old c }
{
    let count = count_on(marks, c);
    if c < marks.len() {
        marks.set(c, count.saturating_sub(1));
    }
}

/// Puts a token on a place, which has at most 1,000,000. `TokenLimit` says that it has 1,000,000, and changes nothing. It takes no memory.
pub fn put(marks: &mut Marks, c: usize) -> Result<(), TokenLimit>
    requires place { c < length marks.old }
    requires within { count_on marks.old c ≤ most_tokens }
    ensures ok { OnOk result (marks.new ≡ one_more marks.old c) }
    ensures err { OnErr result (marks.new ≡ marks.old) }
    ensures limit { IsErr result ↔ (count_on marks.old c ≡ most_tokens) }
{
    let count = count_on(marks, c);
    if count >= MOST_TOKENS {
        return Err(TokenLimit);
    }
    marks.set(c, count + 1);
    Ok(())
}
