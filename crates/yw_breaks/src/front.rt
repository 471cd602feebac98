// What is tried before the case of an item must be quiet.
ghost use Rattle.yw_breaks.specs.Finds.{FindsItem};
ghost use Rattle.yw_breaks.specs.Tables.{item_front};

use crate::asked::ItemAsked;
use crate::persons::roles_of;
use yw_base::{Ident, Name};
use yw_known::{Known, item_here};
use yw_state::Rule;
use yw_tree::Forest;

/// The item that a command of a person names, with the person's roles. An `Err` has the first rule that a start or a completion breaks, of those
/// that are tried before the case must be quiet: `UnknownPerson` where nobody has this name, and else `UnknownItem` where no item has this
/// identity. It takes no memory.
pub fn item_front<'a>(
    known: &'a Known,
    forest: &'a Forest,
    who: &Name,
    item: &Ident,
) -> Result<ItemAsked<'a>, Rule>
    ensures { FindsItem known.now forest.now (λ s. item_front s who.now item.now) who.now item.now result }
{
    let Some(roles) = roles_of(known, who) else {
        return Err(Rule::UnknownPerson);
    };
    match item_here(known, forest, item) {
        Some(here) => Ok(ItemAsked { roles, here }),
        None => Err(Rule::UnknownItem),
    }
}
