// A case begins.
ghost use Rattle.std.specs.Prelude.{◌≡◌, OnErr, OnOk};
ghost use Rattle.yw_nest.specs.Cases.{CaseMayBegin, Launches};
ghost use Rattle.yw_tree.specs.Forest.{IsForest};

use crate::nets::{net_numbered, new_net};
use std::alloc::{AllocError, Global};
use yw_base::{Ident, Row};
use yw_spec::Spec;
use yw_state::Checks;
use yw_tree::{Case, Forest};

/// A case begins under number `n`, which no case has: the top net of the specification, whose number is `number`, with these values, one for
/// each of its variables, and one token on its input. `due` says what the case is to be judged by before it begins. An `Err` says that no
/// memory was left, and then all is as it was. A case that begins with a token on the input is the paper's; the number and the values are our
/// own.
pub fn launch(
    alloc: Global,
    forest: &mut Forest,
    spec: &Spec,
    number: usize,
    n: u64,
    vals: Row,
    due: Checks,
) -> Result<(), AllocError>
    requires boxed { IsForest forest.old }
    requires may { CaseMayBegin forest.old spec.now n }
    ensures ok { OnOk result (Launches spec.now number n vals due forest.old forest.new) }
    ensures err { OnErr result (forest.new ≡ forest.old) }
{
    let top = net_numbered(spec, spec.top);
    let case = Case {
        id: Ident::of_number(alloc, n)?,
        net: new_net(alloc, number, spec.top, top, vals)?,
        suspended: false,
        due,
        run: None,
    };
    forest.add_case(case)
}
