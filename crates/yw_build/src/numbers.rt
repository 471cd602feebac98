// A net whose places, tasks and variables are found by their names.
use std::alloc::{AllocError, Global};
use yw_accept::{Index, has, number_of};
use yw_expr::Bindings;
use yw_read::RawNet;
use yw_spec::arrow_text;

/// A net as its document says it, with its places by their texts, and its tasks and variables by their names.
#[derive(Drop)]
pub struct NetNumbers<'a> {
    pub said: &'a RawNet,
    pub places: Index,
    pub tasks: Index,
    pub vars: Bindings,
}

impl NetNumbers<'_> {
    ghost use Rattle.std.specs.Prelude.{◌≡◌, map, true, IfOk};
    ghost use Rattle.std.specs.List.{list_any};
    ghost use Rattle.std.specs.Str.{bytes_eq};
    ghost use Rattle.yw_spec.specs.Net.{place_text};
    ghost use Rattle.yw_accept.specs.Built.{places_of, IsPlaceOf, IsPlaceCalled, IsTaskCalled, IsVarCalled};
    ghost use Rattle.yw_accept.specs.Facts.{NetIsNamed, NetLeads};
    ghost use Rattle.yw_accept.specs.Nodes.{is_name_among, is_task, HasFlow};
    ghost use Rattle.yw_build.specs.Numbers.{AreNumbers};

    /// The number of the place with this text.
    pub fn place_called(&self, text: &str) -> usize
        requires numbers { AreNumbers self.now }
        requires is { is_name_among (map place_text (places_of self.now.said.now)) text.now ≡ true }
        ensures { IsPlaceCalled self.now.said.now text.now result }
    {
        match number_of(&self.places, text) {
            Some(number) => number,
            None => unreachable!(),
        }
    }

    /// The number of the task with this name.
    pub fn task_called(&self, name: &str) -> usize
        requires numbers { AreNumbers self.now }
        requires is { is_task self.now.said.now name.now ≡ true }
        ensures { IsTaskCalled self.now.said.now name.now result }
    {
        match number_of(&self.tasks, name) {
            Some(number) => number,
            None => unreachable!(),
        }
    }

    /// The number of the variable with this name.
    pub fn var_called(&self, name: &str) -> usize
        requires numbers { AreNumbers self.now }
        requires is { list_any (λ v. bytes_eq name.now v.name) self.now.said.now.vars ≡ true }
        ensures { IsVarCalled self.now.said.now name.now result }
    {
        match self.vars.place_of(name) {
            Some(number) => number,
            None => unreachable!(),
        }
    }

    /// The number of the place of a flow.
    pub fn place_of(&self, alloc: Global, from: &str, to: &str) -> Result<usize, AllocError>
        requires numbers { AreNumbers self.now }
        requires named { NetIsNamed self.now.said.now }
        requires leads { NetLeads self.now.said.now }
        requires flow { HasFlow self.now.said.now from.now to.now }
        ensures { IfOk result (IsPlaceOf self.now.said.now (record { from = from.now; to = to.now })) }
    {
        if !has(&self.tasks, from) {
            return Ok(self.place_called(from));
        }
        if !has(&self.tasks, to) {
            return Ok(self.place_called(to));
        }
        let text = arrow_text(alloc, from, to)?;
        Ok(self.place_called(text.as_str()))
    }
}
