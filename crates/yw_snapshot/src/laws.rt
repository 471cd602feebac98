//! What both files hold is one thing, whatever snapshots and entries mean. A law is the contract of a function that does nothing.
ghost use Rattle.std.specs.Prelude.{◌≡◌, ◌+◌, ℕ, List};
ghost use Rattle.yw_outside.specs.declared.desk.File.{File};
ghost use Rattle.yw_outside.specs.declared.image.Image.{Image};
ghost use Rattle.yw_journal.specs.Files.{Content, HoldState, number_of};
ghost use Rattle.yw_journal.specs.Journal.{IsBeforeOrMade};
ghost use Rattle.yw_snapshot.specs.Alone.{SaysAlone};
ghost use Rattle.yw_snapshot.specs.Compacting.{compacted};
ghost use Rattle.yw_snapshot.specs.Found.{ClosedHolds, CompactedHolds, CutDamages, NowhereDamages, OpenedHolds, OpeningKeeps, ReachesOn, ShownDamages, SnapshotDamages};
ghost use Rattle.yw_snapshot.specs.Pair.{DamagedOnce, HeldOnce, HeldOrDamaged, HoldCounted, IsOneMeaning};

/// A law of a function with this bound holds whatever snapshots and entries mean.
pub trait Means {
    ghost use Rattle.yw_journal.specs.Files.{Meaning};

    /// What a state is.
    type State;

    /// The state of a snapshot, and the state after an entry.
    ghost meaning: { Meaning Self.State };
}

/// The state that is held is one.
pub fn held_once<M: Means>()
    ensures { IsOneMeaning M.meaning → HeldOnce M.meaning }
{}

/// Files that hold a state have no damage.
pub fn held_or_damaged<M: Means>()
    ensures { IsOneMeaning M.meaning → HeldOrDamaged M.meaning }
{}

/// The first damage is one.
pub fn damaged_once<M: Means>()
    ensures { IsOneMeaning M.meaning → DamagedOnce M.meaning }
{}

/// Where file B isn't live and file A has no snapshot, the first damage is that of file A alone.
pub fn damaged_alone<M: Means>()
    ensures { SaysAlone M.meaning }
{}

/// An entry more leads on in its turn.
pub fn reaches_on<M: Means>()
    ensures { ReachesOn M.meaning }
{}

/// Where the records of the chosen file end at a closed gate, the state to which they lead is held.
pub fn closed_gate_holds<M: Means>()
    ensures { ClosedHolds M.meaning }
{}

/// Where a gate behind them is missing, or its record passes the end, it is the first damage.
pub fn cut_gate_damages<M: Means>()
    ensures { CutDamages M.meaning }
{}

/// Where the next record leads nowhere, its gate is the first damage.
pub fn nowhere_damages<M: Means>()
    ensures { NowhereDamages M.meaning }
{}

/// What `open_pair` finds is the first damage.
pub fn shown_damages<M: Means>()
    ensures { ShownDamages M.meaning }
{}

/// Where the snapshot of the chosen file is no state's, its offset is the first damage.
pub fn snapshot_damages<M: Means>()
    ensures { SnapshotDamages M.meaning }
{}

/// A crash within an opening leaves the state and the number that were held.
pub fn opening_keeps<M: Means>()
    ensures { OpeningKeeps M.meaning }
{}

/// After an opening the state and the number that were held are held.
pub fn opened_holds<M: Means>()
    ensures { OpenedHolds M.meaning }
{}

/// While one file is made of the other, whose state its snapshot opens, the same state is held, and the same number.
pub fn held_by_either<M: Means>()
    ensures { (f : File) (c : Content) (snapshot : List ℕ) (s : M.State) (old i : Image)
        → HoldState M.meaning c s old → M.meaning.Opens snapshot s
        → IsBeforeOrMade f c (compacted c snapshot) old i → HoldCounted M.meaning s (number_of c) i }
{}

/// When it is made, it holds this state and this number.
pub fn compacted_holds<M: Means>()
    ensures { CompactedHolds M.meaning }
{}
