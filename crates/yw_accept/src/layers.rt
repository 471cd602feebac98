// What expressions speak of: the variables of a net, and what a task's items make together.
ghost use Rattle.std.specs.Prelude.{◌≡◌, [], ◌∷◌, ◌++◌, None, IfOk, OnOk, map, is_some};
ghost use Rattle.yw_accept.specs.Facts.{AreDistinct};
ghost use Rattle.yw_accept.specs.Scopes.{gathered, outs_scope, vars_scope};
ghost use Rattle.yw_expr.specs.Scope.{binding, place_in};

use std::alloc::{AllocError, Global};
use yw_base::Sort;
use yw_expr::Bindings;
use yw_read::{RawNet, RawTask};

/// Adds a name that doesn't stand in the layer.
fn add_new(layer: &mut Bindings, name: &str, sort: Sort) -> Result<(), AllocError>
    requires { place_in layer.old name.now ≡ None }
    ensures { OnOk result (layer.new ≡ layer.old ++ binding name.now sort ∷ []) }
{
    match layer.add(name, sort)? {
        true => Ok(()),
        false => unreachable!(),
    }
}

/// The variables of a net.
pub fn vars_layer(alloc: Global, net: &RawNet) -> Result<Bindings, AllocError>
    requires { AreDistinct (map (λ v. v.name) net.now.vars) }
    ensures { IfOk result (λ layer. layer ≡ vars_scope net.now) }
{
    let mut layer = Bindings::new(alloc);
    for variable in net.vars.as_slice() {
        add_new(&mut layer, variable.name.as_str(), variable.sort)?;
    }
    Ok(layer)
}

/// The sort of what the items of a task make together: with `each` a list.
fn gathered(many: bool, sort: Sort) -> Sort
    ensures { result ≡ gathered many sort }
{
    if !many {
        return sort;
    }
    match sort {
        Sort::Int => Sort::Ints,
        Sort::Text => Sort::Texts,
        other => other,
    }
}

/// What the items of a task make together.
pub fn outs_layer(alloc: Global, task: &RawTask) -> Result<Bindings, AllocError>
    requires { AreDistinct (map (λ p. p.name) task.now.outs) }
    ensures { IfOk result (λ layer. layer ≡ outs_scope task.now) }
{
    let many = task.each.is_some();
    let mut layer = Bindings::new(alloc);
    for parameter in task.outs.as_slice() {
        add_new(
            &mut layer,
            parameter.name.as_str(),
            gathered(many, parameter.sort),
        )?;
    }
    Ok(layer)
}
