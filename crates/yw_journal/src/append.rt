// A record more.
ghost use Rattle.std.specs.Prelude.{◌≡◌, List, ℕ, OnOk, OnErr, Err};
ghost use Rattle.yw_outside.specs.Since.{LeavesOnly};
ghost use Rattle.yw_journal.specs.Calls.{Counts, ForRecord, HasNoRoom, HasRecord, IsAppendedTo, Rewrites, NonePending, StandsFor, with_end};
ghost use Rattle.yw_journal.specs.Journal.{IsReady, IsBeforeOrAfter};
ghost use Rattle.yw_journal.specs.Records.{IsFramed};

use crate::synced::write_synced;
use crate::{AppendFault, Journal};
use yw_outside::Desk;

impl Journal {
    /// Adds a record after the others: its length as a u32, so many bytes, and a closed gate. A crash at any
    /// moment leaves the records from before, or these and the new one whole, and after `Ok` it leaves the new
    /// one. `Full` comes exactly where the records would end past the limit, before any call of the desk;
    /// `Disk` only where a call of the files failed. It takes no memory.
    pub fn append<D: Desk>(&mut self, desk: &mut D, framed: &[u8]) -> Result<(), AppendFault>
        requires ready { IsReady self.old }
        requires framed { (bytes : List ℕ) × IsFramed framed.now bytes }
        requires current { StandsFor D.Desk self.old desk.old }
        requires settled { NonePending D.Desk desk.old }

        // At Ok the record is there, and no other byte has changed.
        ensures ok { OnOk result (ForRecord D.Desk self.old framed.now desk.old
            (HasRecord D.Desk self.old self.new desk.new)) }
        ensures rewrites { OnOk result (Rewrites D.Desk self.old.file
            (IsAppendedTo self.old.end framed.now) desk.old desk.new) }
        ensures journal { OnOk result (self.new ≡ with_end self.old framed.now) }
        ensures ready { IsReady self.new }
        ensures err { OnErr result (self.new ≡ self.old) }

        // A crash at any moment leaves the records from before, or these and the new one.
        ensures any_moment { ForRecord D.Desk self.old framed.now desk.old (λ c bytes.
            LeavesOnly D.Desk desk.old desk.new
            (IsBeforeOrAfter self.old.file c bytes (D.state desk.old))) }

        // Each other answer has its cause, and no failed call is passed over.
        ensures counts { Counts D.Desk desk.old desk.new result }
        ensures full { (n : ℕ) → result ≡ Err (AppendFault.Full n)
            → HasNoRoom self.old.limit self.old.end framed.now n × (desk.new ≡ desk.old) }
        ensures fits { (n : ℕ) → HasNoRoom self.old.limit self.old.end framed.now n
            → result ≡ Err (AppendFault.Full n) }
    {
        let end = self.end + framed.len() as u64;
        if end > self.limit {
            return Err(AppendFault::Full(end));
        }
        let Ok(()) = write_synced(desk, self.file, self.end, framed) else {
            return Err(AppendFault::Disk);
        };
        let Ok(()) = write_synced(desk, self.file, self.end - 1, &[1]) else {
            return Err(AppendFault::Disk);
        };
        self.end = end;
        self.number += 1;
        Ok(())
    }
}
