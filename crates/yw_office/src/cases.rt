// The numbers of the cases that stand.
ghost use Rattle.std.specs.Prelude.{IfOk, OnOk};
ghost use Rattle.yw_office.specs.Cases.{AddsCase, HasCases};

use std::alloc::{AllocError, Global};
use yw_tree::Forest;

/// This number too, where a case of it stands.
fn add_case(cases: &mut Vec<u64>, forest: &Forest, n: u64) -> Result<(), AllocError>
    ensures { OnOk result (AddsCase forest.now n cases.old.items cases.new.items) }
{
    match forest.case(n) {
        Some(_case) => {
            cases.push(n)?;
            Ok(())
        }
        None => Ok(()),
    }
}

/// The numbers below `next` of the cases that stand, in order. Each number is looked up: a forest is asked for one case at a time. An `Err` says
/// that no memory was left.
pub fn cases_below(alloc: Global, forest: &Forest, next: u64) -> Result<Vec<u64>, AllocError>
    ensures { IfOk result (λ cases. HasCases forest.now next cases.items) }
{
    let mut cases = Vec::new(alloc);
    for n in 0..next {
        add_case(&mut cases, forest, n)?;
    }
    Ok(cases)
}
