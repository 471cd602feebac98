// A write that is on the disk.
ghost use Rattle.std.specs.Prelude.{◌≤◌, ◌<◌, ◌+◌, ◌^◌, IsTrue, OnOk, length};
ghost use Rattle.yw_outside.specs.Image.{file_in, Written};
ghost use Rattle.yw_outside.specs.Moments.{IsDurable};
ghost use Rattle.yw_outside.specs.Since.{LeavesOnly, OfFiles};
ghost use Rattle.yw_outside.specs.declared.image.Image.{Image};
ghost use Rattle.yw_journal.specs.Calls.{LeftByWrite, NonePending};

use yw_outside::{Desk, Failed, File};

/// Writes bytes and syncs the file.
pub fn write_synced<D: Desk>(desk: &mut D, f: File, at: u64, bytes: &[u8]) -> Result<(), Failed>
    requires within { IsTrue (D.tells desk.old) → at ≤ length (file_in f (D.state desk.old)) }
    requires fits { at + length bytes.now < 2 ^ 63 }
    ensures written { IsTrue (D.tells desk.old)
        → Written f at bytes.now (D.state desk.old) result (D.state desk.new) }
    ensures durable { OnOk result (IsDurable f (D.state desk.new) (D.may_leave desk.new)) }
    ensures crash { (c : Image) → D.may_leave desk.new c
        → LeftByWrite D.Desk f at bytes.now desk.old c }
    ensures any_moment { LeavesOnly D.Desk desk.old desk.new
        (LeftByWrite D.Desk f at bytes.now desk.old) }
    ensures settled { NonePending D.Desk desk.old → OnOk result (NonePending D.Desk desk.new) }
    ensures counts { OfFiles D.Desk desk.old desk.new result }
{
    desk.write(f, at, bytes)?;
    desk.sync(f)
}
