// The two lines that are said beside replies.
ghost use Rattle.std.specs.Prelude.{◌≡◌, IfOk};
ghost use Rattle.serde_json.specs.View.{view};
ghost use Rattle.yw_serve.specs.Notices.{damage_data, full_data, damage_line, full_line, file_text};

use serde_json::{Value, json};
use std::alloc::{AllocError, Global};
use yw_base::Bytes;
use yw_outside::File;
use yw_wire::value_line;

fn name_of(file: File) -> &'static str
    ensures { result.now ≡ file_text file }
{
    match file {
        File::A => "a",
        File::B => "b",
    }
}

fn damage_value(alloc: Global, file: File, place: u64) -> Result<Value, AllocError>
    ensures { IfOk result (λ value. view value ≡ damage_data file place) }
{
    let name = name_of(file);
    json!(in alloc; {"at": place, "damaged": name})
}

/// The line that names a damage of the files. An `Err` says that no memory was left.
#[tactic(auto, unfolding(crate::specs::Notices::damage_line))]
pub fn write_damage(alloc: Global, file: File, place: u64) -> Result<Bytes, AllocError>
    ensures { IfOk result (λ line. line ≡ damage_line file place) }
{
    let value = damage_value(alloc, file, place)?;
    value_line(alloc, &value)
}

fn full_value(alloc: Global, length: u64) -> Result<Value, AllocError>
    ensures { IfOk result (λ value. view value ≡ full_data length) }
{
    json!(in alloc; {"full": length})
}

/// The line that says where the next entry would end, past the limit. An `Err` says that no memory was left.
#[tactic(auto, unfolding(crate::specs::Notices::full_line))]
pub fn write_full(alloc: Global, length: u64) -> Result<Bytes, AllocError>
    ensures { IfOk result (λ line. line ≡ full_line length) }
{
    let value = full_value(alloc, length)?;
    value_line(alloc, &value)
}
