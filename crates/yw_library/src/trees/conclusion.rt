// What a rule may conclude.
ghost use Rattle.std.specs.List.{list_all, list_any};
ghost use Rattle.std.specs.Prelude.{◌≡◌, ◌&&◌, not};
ghost use Rattle.yw_library.specs.Holdings.{state_of};
ghost use Rattle.yw_state.specs.Judged.{is_select};
ghost use Rattle.yw_state.specs.Map.{has_key};
ghost use Rattle.yw_state.specs.NewRule.{are_fit, is_known, is_of_item, is_removal, may_conclude, removes_last};
ghost use Rattle.yw_library.specs.Concluded.{is_fit, may_be_exlet};

use crate::Library;
use yw_base::Name;
use yw_state::{Conclusion, Primitive, TreeKind, TreePlace};

/// The most primitives of an exlet.
const MOST_PRIMITIVES: usize = 16;

/// It does something to an item.
fn is_of_item(primitive: &Primitive) -> bool
    ensures { result ≡ is_of_item primitive.now }
{
    matches!(
        primitive,
        Primitive::SuspendItem
            | Primitive::ContinueItem
            | Primitive::RestartItem
            | Primitive::CompleteItem
            | Primitive::RemoveItem
    )
}

/// It removes an item or a case.
fn is_removal(primitive: &Primitive) -> bool
    ensures { result ≡ is_removal primitive.now }
{
    matches!(primitive, Primitive::RemoveItem | Primitive::RemoveCase)
}

/// A specification of this name is loaded.
fn is_loaded(library: &Library, name: &Name) -> bool
    ensures { result ≡ has_key (state_of library.now).specs name.now }
{
    library.spec(name).is_some()
}

/// It is a word that there is, and the specification that it names is loaded.
fn is_known(library: &Library, primitive: &Primitive) -> bool
    ensures { result ≡ is_known (state_of library.now) primitive.now }
{
    match primitive {
        Primitive::Compensate(name) => is_loaded(library, name),
        Primitive::Unknown(_) => false,
        _ => true,
    }
}

/// It is known, and isn't of an item where the tree is a case's.
fn is_fit(library: &Library, of_case: bool, primitive: &Primitive) -> bool
    ensures { result ≡ is_fit (state_of library.now) of_case primitive.now }
{
    is_known(library, primitive) && !(of_case && is_of_item(primitive))
}

/// Each is.
fn is_each_fit(library: &Library, of_case: bool, primitives: &[Primitive]) -> bool
    ensures { result ≡ list_all (is_fit (state_of library.now) of_case) primitives.now }
{
    primitives
        .iter()
        .all(|primitive| is_fit(library, of_case, primitive))
}

/// One is a removal.
fn has_removal(primitives: &[Primitive]) -> bool
    ensures { result ≡ list_any is_removal primitives.now }
{
    primitives.iter().any(|primitive| is_removal(primitive))
}

/// None but the last is a removal.
fn removes_last(primitives: &[Primitive]) -> bool
    ensures { result ≡ removes_last primitives.now }
{
    match primitives.split_last() {
        Some((_, before)) => !has_removal(before),
        None => true,
    }
}

/// Each is fit, and a removal is the last.
fn are_fit(library: &Library, of_case: bool, primitives: &[Primitive]) -> bool
    ensures { result ≡ are_fit (state_of library.now) of_case primitives.now }
{
    is_each_fit(library, of_case, primitives) && removes_last(primitives)
}

/// They are 1 to 16, and fit.
fn may_be_exlet(library: &Library, of_case: bool, primitives: &[Primitive]) -> bool
    ensures { result ≡ may_be_exlet (state_of library.now) of_case primitives.now }
{
    !primitives.is_empty()
        && primitives.len() <= MOST_PRIMITIVES
        && are_fit(library, of_case, primitives)
}

/// The tree chooses worklets.
fn is_select(kind: TreeKind) -> bool
    ensures { result ≡ is_select kind }
{
    matches!(kind, TreeKind::Select)
}

/// A rule of the tree at this place may conclude this: a worklet that is loaded, where the tree chooses worklets; else 1 to 16 primitives, each
/// known, none of an item where the tree is a case's, and a removal the last. It takes no memory.
pub(crate) fn may_conclude(library: &Library, place: &TreePlace, conclusion: &Conclusion) -> bool
    ensures { result ≡ may_conclude (state_of library.now) place.now conclusion.now }
{
    match conclusion {
        Conclusion::Worklet(name) => is_select(place.kind) && is_loaded(library, name),
        Conclusion::Exlet(list) => {
            !is_select(place.kind) && may_be_exlet(library, place.net.is_none(), list.as_slice())
        }
    }
}
