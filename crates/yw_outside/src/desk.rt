// The trait of a desk: two files and an output.
/// One of the two files.
#[derive(Clone, Copy, Debug, PartialEq, Eq)]
pub enum File {
    A,
    B,
}

use crate::Failed;

/// Two files of at most 2^63 - 1 bytes and an output, with what a crash may leave of them. It tells what
/// they hold, or it tells nothing. `Failed` comes of a call of a file only where the count of their faults rose, or
/// stands at the last u64, and of a `say` where that of says did. A buffer that a failed `read` got may have any bytes.
pub trait Desk {
    ghost use Rattle.std.specs.Prelude.{◌≡◌, ◌≤◌, ◌<◌, ◌+◌, ◌^◌, List, ℕ, Bool, IsTrue, IfOk, OnOk, length, take, drop};
    ghost use Rattle.yw_outside.specs.declared.image.Image.{Image};
    ghost use Rattle.yw_outside.specs.Causes.{HasCause};
    ghost use Rattle.yw_outside.specs.Image.{file_in, Stays, Writes, Written, Speaks, Says};
    ghost use Rattle.yw_outside.specs.Moments.{Goes, IsDurable};

    /// Whether it tells what it holds.
    ghost tells: { Self → Bool };

    /// What a read of each file gives, and the output.
    ghost state: { Self → Image };

    /// What a crash at this moment may leave.
    ghost may_leave: { Self → Image → Type 0 };

    /// The moment, as a number that doesn't fall.
    ghost moment: { Self → ℕ };

    /// What a crash at some moment from that one on might have left, during a call or between two.
    ghost left_since: { Self → ℕ → Image → Type 0 };

    /// How often a call of a file has failed.
    ghost disk_faults: { Self → ℕ };

    /// How often a `say` has failed.
    ghost say_faults: { Self → ℕ };

    /// How many bytes the file has.
    fn len(&mut self, f: File) -> Result<u64, Failed>
        ensures value { IsTrue (tells self.old) → IfOk result (λ n. n ≡ length (file_in f (state self.old))) }
        ensures bound { IfOk result (λ n. n < 2 ^ 63) }
        ensures tells { tells self.new ≡ tells self.old }
        ensures state { state self.new ≡ state self.old }
        ensures time { Goes moment left_since may_leave Stays self.old self.new }
        ensures cause { HasCause (disk_faults self.old) (disk_faults self.new) result }
        ensures other_cause { say_faults self.new ≡ say_faults self.old };

    /// Fills the buffer with the file's bytes from this offset on.
    fn read(&mut self, f: File, at: u64, buf: &mut [u8]) -> Result<(), Failed>
        requires { IsTrue (tells self.old) → at + length buf.old ≤ length (file_in f (state self.old)) }
        ensures bytes { IsTrue (tells self.old) → OnOk result (buf.new ≡ take (length buf.old) (drop at (file_in f (state self.old)))) }
        ensures tells { tells self.new ≡ tells self.old }
        ensures state { state self.new ≡ state self.old }
        ensures time { Goes moment left_since may_leave Stays self.old self.new }
        ensures cause { HasCause (disk_faults self.old) (disk_faults self.new) result }
        ensures other_cause { say_faults self.new ≡ say_faults self.old };

    /// Writes over what is there, and past the end. Until a sync of the file, a crash may leave any bytes in
    /// the range, also after a write that failed.
    fn write(&mut self, f: File, at: u64, bytes: &[u8]) -> Result<(), Failed>
        requires within { IsTrue (tells self.old) → at ≤ length (file_in f (state self.old)) }
        requires fits { at + length bytes.now < 2 ^ 63 }
        ensures written { IsTrue (tells self.old) → Written f at bytes.now (state self.old) result (state self.new) }
        ensures tells { tells self.new ≡ tells self.old }
        ensures time { Goes moment left_since may_leave (Writes f at (length bytes.now)) self.old self.new }
        ensures cause { HasCause (disk_faults self.old) (disk_faults self.new) result }
        ensures other_cause { say_faults self.new ≡ say_faults self.old };

    /// After it, a crash leaves of the file what a read gives.
    fn sync(&mut self, f: File) -> Result<(), Failed>
        ensures durable { OnOk result (IsDurable f (state self.old) (may_leave self.new)) }
        ensures tells { tells self.new ≡ tells self.old }
        ensures state { state self.new ≡ state self.old }
        ensures time { Goes moment left_since may_leave Stays self.old self.new }
        ensures cause { HasCause (disk_faults self.old) (disk_faults self.new) result }
        ensures other_cause { say_faults self.new ≡ say_faults self.old };

    /// Adds bytes to the output, all of them at `Ok`, and else a prefix of them.
    fn say(&mut self, bytes: &[u8]) -> Result<(), Failed>
        ensures said { IsTrue (tells self.old) → Says (state self.old).said bytes.now result (state self.new).said }
        ensures files_a { (state self.new).a ≡ (state self.old).a }
        ensures files_b { (state self.new).b ≡ (state self.old).b }
        ensures tells { tells self.new ≡ tells self.old }
        ensures time { Goes moment left_since may_leave (Speaks bytes.now) self.old self.new }
        ensures cause { HasCause (say_faults self.old) (say_faults self.new) result }
        ensures other_cause { disk_faults self.new ≡ disk_faults self.old };

    /// This moment is one of those since an earlier one.
    ghost counts_now: { (desk : Self) (t : ℕ) (c : Image) → t ≤ moment desk → may_leave desk c → left_since desk t c };

    /// Since this moment there is no other.
    ghost only_now: { (desk : Self) (c : Image) → left_since desk (moment desk) c → may_leave desk c };

    /// A desk as it reads is one of its images.
    ghost as_it_reads: { (desk : Self) → IsTrue (tells desk) → may_leave desk (state desk) };

    /// An image has what was said.
    ghost said_by_now: { (desk : Self) (c : Image) → may_leave desk c → c.said ≡ (state desk).said };
}
