// Of what the conditions of a tree speak.
ghost use Rattle.std.specs.Option.{option_copied};
ghost use Rattle.std.specs.Prelude.{◌≡◌, ◌∷◌, ◌++◌, [], None, IfOk, OnOk, map, ℕ};
ghost use Rattle.yw_accept.specs.Facts.{AreDistinct};
ghost use Rattle.yw_expr.specs.Scope.{binding, place_in};
ghost use Rattle.yw_library.specs.Scopes.{HasNames, IsApart, params_of, scope_of, task_in, vars_of};
ghost use Rattle.yw_trees.specs.declared.owner.Owner.TheVariants.{Cases};

use std::alloc::{AllocError, Global};
use yw_base::Sort;
use yw_expr::Bindings;
use yw_spec::{ParamList, Spec, Task, VarList};
use yw_trees::Owner;

/// Names of which a condition speaks: those of `inner`, and behind them those of `outer`.
#[derive(Drop)]
pub(crate) struct Layers {
    pub(crate) inner: Bindings,
    pub(crate) outer: Bindings,
}

/// Adds a name that doesn't stand in the layer.
fn add_new(layer: &mut Bindings, name: &str, sort: Sort) -> Result<(), AllocError>
    requires { place_in layer.old name.now ≡ None }
    ensures { OnOk result (layer.new ≡ layer.old ++ binding name.now sort ∷ []) }
{
    match layer.add(name, sort)? {
        true => Ok(()),
        false => unreachable!(),
    }
}

/// The variables of a net.
fn vars_layer(alloc: Global, vars: &VarList) -> Result<Bindings, AllocError>
    requires { AreDistinct (map (λ v. v.name) vars.now) }
    ensures { IfOk result (λ layer. layer ≡ vars_of vars.now) }
{
    let mut layer = Bindings::new(alloc);
    for var in vars.as_slice() {
        add_new(&mut layer, var.name.as_str(), var.sort)?;
    }
    Ok(layer)
}

/// Parameters of a task.
fn params_layer(alloc: Global, params: &ParamList) -> Result<Bindings, AllocError>
    requires { AreDistinct (map (λ p. p.name) params.now) }
    ensures { IfOk result (λ layer. layer ≡ params_of params.now) }
{
    let mut layer = Bindings::new(alloc);
    for param in params.as_slice() {
        add_new(&mut layer, param.name.as_str(), param.sort)?;
    }
    Ok(layer)
}

/// No names.
fn no_layers(alloc: Global) -> Layers
    ensures { result.inner ++ result.outer ≡ [] }
{
    Layers {
        inner: Bindings::new(alloc),
        outer: Bindings::new(alloc),
    }
}

/// What the items of a task are given, and what they make.
fn task_layers(alloc: Global, task: &Task) -> Result<Layers, AllocError>
    requires { IsApart task.now }
    ensures { IfOk result
        (λ layers. layers.inner ++ layers.outer ≡ params_of (task.now.ins ++ task.now.outs)) }
{
    let inner = params_layer(alloc, &task.ins)?;
    let outer = params_layer(alloc, &task.outs)?;
    Ok(Layers { inner, outer })
}

/// The task with this number in the net with that.
fn task_in(spec: &Spec, net: usize, task: usize) -> Option<&Task>
    ensures { option_copied result ≡ task_in spec.now net task }
{
    spec.nets.get(net)?.tasks.get(task)
}

/// The variables of the top net.
fn top_layers(alloc: Global, spec: &Spec) -> Result<Layers, AllocError>
    requires { HasNames spec.now }
    ensures { IfOk result
        (λ layers. (k : ℕ) → layers.inner ++ layers.outer ≡ scope_of spec.now (Cases k)) }
{
    match spec.nets.get(spec.top) {
        Some(net) => Ok(Layers {
            inner: Bindings::new(alloc),
            outer: vars_layer(alloc, &net.vars)?,
        }),
        None => Ok(no_layers(alloc)),
    }
}

/// Of what the conditions of the trees speak that this has. An `Err` says that no memory was left.
pub(crate) fn layers_of(alloc: Global, spec: &Spec, owner: Owner) -> Result<Layers, AllocError>
    requires { HasNames spec.now }
    ensures { IfOk result (λ layers. layers.inner ++ layers.outer ≡ scope_of spec.now owner) }
{
    match owner {
        Owner::Cases(_) => top_layers(alloc, spec),
        Owner::Task { net, task, .. } => match task_in(spec, net, task) {
            Some(task) => task_layers(alloc, task),
            None => Ok(no_layers(alloc)),
        },
    }
}
