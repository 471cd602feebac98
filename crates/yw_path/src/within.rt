// Whether flows go to and from places of the net.
ghost use Rattle.std.specs.Prelude.{◌≡◌, IsTrue};
ghost use Rattle.std.specs.List.{list_all};
ghost use Rattle.yw_path.specs.Direct.{HasItsPlaces, are_below, fits, has_its_places};

use yw_spec::{Net, Task};

/// All of these numbers are below `count`.
fn are_below(count: usize, numbers: &[usize]) -> bool
    ensures { result ≡ are_below count numbers.now }
{
    numbers.iter().all(|c| *c < count)
}

/// The task's flows go to and from numbers below `count`.
fn fits(count: usize, task: &Task) -> bool
    ensures { result ≡ fits count task.now }
{
    are_below(count, task.before.as_slice()) && are_below(count, task.after.as_slice())
}

fn all_fit(count: usize, tasks: &[Task]) -> bool
    ensures { result ≡ list_all (fits count) tasks.now }
{
    tasks.iter().all(|task| fits(count, task))
}

/// Flows go to and from places of the net, which is the condition of `Upstream::build`. It takes no memory.
pub fn has_its_places(net: &Net) -> bool
    ensures value { result ≡ has_its_places net.now }
    ensures holds { IsTrue result → HasItsPlaces net.now }
{
    all_fit(net.places.as_slice().len(), net.tasks.as_slice())
}
