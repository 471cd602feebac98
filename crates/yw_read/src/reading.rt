// A specification from its text.
ghost use Rattle.std.specs.Prelude.{IfOk};
ghost use Rattle.yw_read.specs.Inits.{HasInits};
ghost use Rattle.yw_read.specs.Reading.{Answers, spec_in};

use crate::keys::FromTable;
use crate::raw::{RawSpec, ReadFault};
use std::alloc::Global;

/// The specification that a TOML text says. Which texts are documents is what the crate `toml` reads; the
/// tables, their keys and the order of faults are our own. Beside what `toml` takes, the time is in
/// proportion to the text's length.
///
/// `NotToml` comes exactly where `toml` refuses the text for another cause than memory, and `Shape` exactly
/// where the document hasn't this shape, with the path of its first fault. `Memory` comes only where no memory
/// was left.
///
/// The keys of a table are tried in this order, where `?` marks one that may be missing. Under a key that
/// holds tables they are tried one after another, each whole. Any further key is a fault behind those, the
/// least in byte order first.
///
/// | table | keys |
/// |---|---|
/// | document | `name` text, `top` text, `net` list of tables |
/// | net | `name` text, `input` text, `output` text, `conditions`? list of texts, `vars`? list of tables, `flows` list of lists of two texts, `task`? list of tables |
/// | vars | `name` text, `sort` one of `bool`, `int`, `text`, `ints` and `texts`, `use`? one of `in`, `out`, `inout` and `local`, `init`? a value of the sort, whose texts have at most 4,096 bytes and whose lists at most 1,000 values |
/// | task | `name` text, `kind`? one of `atomic`, `empty` and `sub`, `net`? text, `role`? text, `join`? and `split`? one of `and`, `xor` and `or`, `branch`? list of tables, `remove`? list of texts, `ins`? list of tables, `outs`? list of tables, `set`? list of tables, `each`? text, `item`? text, `min`?, `max`? and `threshold`? integers, `dynamic`? boolean |
/// | branch | `to` text, `when`? text |
/// | ins | `name` text, `sort` as above, `value`? text |
/// | outs | `name` text, `sort` as above |
/// | set | `var` text, `value` text |
///
/// A path is like `net[0].task[2].split`, counted from 0. It ends with the key whose value is missing or of
/// another kind, however deep in the value that is, or with the number of an element that should be a table
/// and isn't. An unknown key stands in it as it is.
#[tactic(auto, unfolding(crate::specs::Reading::spec_in))]
pub fn read_spec(alloc: Global, text: &str) -> Result<RawSpec, ReadFault>
    // The answer is what the text says, and no other, unless memory runs out.
    ensures says { Answers result (spec_in text.now) }

    // What a variable begins with is of its sort and within the limits.
    ensures inits { IfOk result HasInits }
{
    match toml::table_from_str(alloc, text) {
        Ok(table) => RawSpec::from_table(alloc, &table),
        Err(fault) => {
            if fault.is_memory() {
                Err(ReadFault::Memory)
            } else {
                Err(ReadFault::NotToml)
            }
        }
    }
}
