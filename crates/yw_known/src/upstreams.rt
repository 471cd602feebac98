// The upstreams of the nets of specifications.
ghost use Rattle.std.specs.Prelude.{◌≡◌, ◌++◌, ◌∷◌, [], List, None, Some, IfOk, OnOk, OnErr, length, slice_get};
ghost use Rattle.yw_known.specs.Upstreams.{AreKnown, AreUpstreams, HaveRows, by_name};
ghost use Rattle.yw_library.specs.Holdings as kept;
ghost use Rattle.yw_state.specs.Map.{get};
ghost use Rattle.yw_state.specs.declared.loaded.Loaded.{Loaded};
ghost use Rattle.yw_within.specs.Within.{IsWithin};

use std::alloc::{AllocError, Global};
use yw_base::Items;
use yw_library::Library;
use yw_path::Upstream;
use yw_spec::Spec;

/// The upstreams of a specification's nets, in their order.
pub type UpstreamList = Items<Upstream>;

/// The upstreams of each specification's nets, in the order of the specifications.
pub type UpstreamRows = Items<UpstreamList>;

/// The upstreams of a specification's nets. An `Err` says that no memory was left.
fn upstreams_of(alloc: Global, spec: &Spec) -> Result<UpstreamList, AllocError>
    requires { IsWithin spec.now }
    ensures { IfOk result (AreUpstreams spec.now.nets) }
{
    let mut ups = Items::new(alloc);
    for net in spec.nets.as_slice() {
        ups.push(Upstream::build(alloc, net)?)?;
    }
    Ok(ups)
}

/// The upstreams of the nets of the specification with this number, and none where there is none. An `Err` says that no memory was left.
fn row_of(alloc: Global, library: &Library, number: usize) -> Result<UpstreamList, AllocError>
    ensures { IfOk result (λ ups. (l : Loaded) → slice_get library.now.specs number ≡ Some l
        → IsWithin l.spec × AreUpstreams l.spec.nets ups) }
{
    match library.specs().get(number) {
        Some(loaded) => upstreams_of(alloc, &loaded.spec),
        None => Ok(Items::new(alloc)),
    }
}

/// The upstreams of the nets of each specification of a library. An `Err` says that no memory was left.
pub fn rows_of(alloc: Global, library: &Library) -> Result<UpstreamRows, AllocError>
    ensures { IfOk result (λ rows. HaveRows library.now.specs rows (length library.now.specs)) }
{
    let mut rows = Items::new(alloc);
    for number in 0..library.specs().len() {
        rows.push(row_of(alloc, library, number)?)?;
    }
    Ok(rows)
}

/// Puts behind the rows that of the specification whose number comes next. An `Err` says that no memory was left.
fn push_row(alloc: Global, library: &Library, rows: &mut UpstreamRows) -> Result<(), AllocError>
    ensures { OnOk result ((specs : List Loaded) (l : Loaded) → library.now.specs ≡ specs ++ l ∷ []
        → AreKnown specs rows.old → get (by_name specs) l.spec.name ≡ None → AreKnown library.now.specs rows.new) }
{
    let row = row_of(alloc, library, rows.len())?;
    rows.push(row)
}

/// Keeps the upstreams of the nets of the specification that was loaded last. An `Err` says that no memory was left: then the library and
/// the rows are empty, since a library gives no specification back.
pub fn keep_upstreams(
    alloc: Global,
    library: &mut Library,
    rows: &mut UpstreamRows,
) -> Result<(), AllocError>
    ensures same { OnOk result (library.new ≡ library.old) }
    ensures ok { OnOk result ((specs : List Loaded) (l : Loaded) → library.old.specs ≡ specs ++ l ∷ []
        → AreKnown specs rows.old → get (by_name specs) l.spec.name ≡ None → AreKnown library.old.specs rows.new) }
    ensures err { OnErr result ((library.new ≡ kept.nothing) × (rows.new ≡ [])) }
{
    let pushed = push_row(alloc, library, rows);
    if pushed.is_err() {
        *library = Library::new(alloc);
        *rows = Items::new(alloc);
    }
    pushed
}
