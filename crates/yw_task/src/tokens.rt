// Tokens that go and come.
ghost use Rattle.std.specs.Prelude.{◌≡◌, ◌-◌, ◌^◌, ◌<◌, fold};
ghost use Rattle.yw_state.specs.After.{count_on, no_more, one_more};
ghost use Rattle.yw_task.specs.Making.{AreFew};

use yw_state::Marks;

/// How many tokens are on a place; none where there is no such place.
fn count_on(marks: &Marks, c: usize) -> u64
    ensures { result ≡ count_on marks.now c }
{
    marks.get(c).copied().unwrap_or(0)
}

/// Takes all tokens from a place.
fn wipe(marks: &mut Marks, c: usize)
    ensures { marks.new ≡ no_more marks.old c }
{
    if c < marks.len() {
        marks.set(c, 0);
    }
}

/// Takes all tokens from each of these places.
pub fn wipe_each(marks: &mut Marks, places: &[usize])
    ensures { marks.new ≡ fold no_more marks.old places.now }
{
    for c in places {
        wipe(marks, *c);
    }
}

/// Puts a token on a place.
fn gain(marks: &mut Marks, c: usize)
    ensures { count_on marks.old c < 2 ^ 64 - 1 → marks.new ≡ one_more marks.old c }
{
    let count = count_on(marks, c);
    if c < marks.len() {
        marks.set(c, count.saturating_add(1));
    }
}

/// Puts a token on each of these places in turn, of which none has more than a place may have.
pub fn put_each(marks: &mut Marks, places: &[usize])
    ensures { AreFew marks.old places.now → marks.new ≡ fold one_more marks.old places.now }
{
    for c in places {
        gain(marks, *c);
    }
}
