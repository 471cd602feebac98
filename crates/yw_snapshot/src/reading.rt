// Records that are read one after another.
ghost use Rattle.std.specs.Prelude.{◌≡◌, ◌<◌, ◌≤◌, ◌+◌, ◌↔◌, ◌^◌, [], List, ℕ, IsTrue, IfOk, OnErr, Ok, None, Some, MatchOption, true, false, length};
ghost use Rattle.yw_outside.specs.Image.{file_in};
ghost use Rattle.yw_outside.specs.declared.image.Image.{Image};
ghost use Rattle.yw_journal.specs.Journal.{IsCurrent, IsReady};
ghost use Rattle.yw_snapshot.specs.Found.{content_of};
ghost use Rattle.yw_snapshot.specs.Heads.{HasOpenCause, OnlyLooked};
ghost use Rattle.yw_snapshot.specs.Opening.{IsAtFirst};
ghost use Rattle.yw_snapshot.specs.Reading.{FindsClosed, FindsCut, FindsOpen, ForRead, GivesNext, HasAtHand, IsAtSameGate, IsInRange, IsOfSameFile, ReadsOn, StandsIn, StandsOn, StaysAt, journal_of, passed, record_of};

use crate::choosing::OpenFault;
use crate::gate::{GateByte, gate_at};
use crate::opening::Opening;
use yw_base::Bytes;
use yw_journal::Journal;
use yw_outside::Desk;

impl Opening {
    /// Looks at the next gate, and sees that the record behind it is at hand. It answers how many bytes that record has, or
    /// `None` where the gate is closed.
    fn look<D: Desk>(&mut self, desk: &mut D) -> Result<Option<u32>, OpenFault>
        requires range { IsInRange self.old }
        requires stands { StandsOn D.Desk self.old desk.old }
        ensures opened { (size : ℕ) → result ≡ Ok (Some size)
            → FindsOpen D.Desk self.old self.new desk.old size }
        ensures closed { result ≡ Ok None → FindsClosed D.Desk self.old desk.old }
        ensures stays { StaysAt self.old self.new }
        ensures stands { ForRead D.Desk self.old desk.old (StandsIn self.new) }
        ensures range { IsInRange self.new }
        ensures looked { OnlyLooked D.Desk desk.old desk.new }
        ensures cause { HasOpenCause D.Desk result (FindsCut D.Desk self.old desk.old)
            desk.old desk.new }
    {
        self.size = 0;
        self.done = false;
        match gate_at(&mut self.window, desk, self.file, self.len, self.at)? {
            GateByte::Closed => Ok(None),
            GateByte::Cut => Err(OpenFault::Damaged(self.file, self.at)),
            GateByte::Open(size) => {
                self.window.make_room(self.alloc, size as usize)?;
                self.window
                    .reach(desk, self.file, self.len, self.at + 5, size as usize)?;
                Ok(Some(size))
            }
        }
    }

    /// Passes the record that is at hand.
    fn pass(&mut self, size: u32)
        requires range { IsInRange self.old }
        requires at_hand { HasAtHand self.old size }
        ensures passed { self.new ≡ passed self.old size }
        ensures range { IsInRange self.new }
    {
        self.gate = self.at;
        self.at += 5 + u64::from(size);
        self.number += 1;
        self.size = size as usize;
    }

    /// Reads the next record, which `record` lends then, and answers true; or it answers false, exactly at a closed gate. An
    /// `Err` changes nothing but that no record is lent. `Damaged` names the next gate, and comes only where it is missing or
    /// its record passes the end. Memory is taken only for a record that is longer than each before it.
    pub fn advance<D: Desk>(&mut self, desk: &mut D) -> Result<bool, OpenFault>
        requires range { IsInRange self.old }
        requires stands { StandsOn D.Desk self.old desk.old }

        // One record more is read, or the gate is closed.
        ensures read { IfOk result (λ more. ForRead D.Desk self.old desk.old
            (ReadsOn self.old self.new more)) }
        ensures done { (result ≡ Ok false) ↔ (self.new.done ≡ true) }
        ensures gate { result ≡ Ok true
            → (self.new.gate ≡ self.old.at) × (self.old.at < self.new.at) }
        ensures range { IsInRange self.new }
        ensures same_file { IsOfSameFile self.old self.new }

        // Nothing has changed at an Err.
        ensures err { OnErr result (IsAtSameGate self.old self.new) }
        ensures stands { OnErr result (ForRead D.Desk self.old desk.old (StandsIn self.new)) }
        ensures looked { OnlyLooked D.Desk desk.old desk.new }
        ensures cause { HasOpenCause D.Desk result (FindsCut D.Desk self.old desk.old)
            desk.old desk.new }
    {
        match self.look(desk)? {
            Some(size) => {
                self.pass(size);
                Ok(true)
            }
            None => {
                self.done = true;
                Ok(false)
            }
        }
    }

    /// The record that `advance` or `next` read last. It is empty before the first, behind the last and after an `Err`.
    pub fn record(&self) -> &[u8]
        requires { IsInRange self.now }
        ensures { result.now ≡ record_of self.now }
    {
        if self.size == 0 {
            return &[];
        }
        self.window.part(self.at - self.size as u64, self.size)
    }

    /// The next record, or `None` exactly at a closed gate. It does what `advance` does, and takes the memory of the record.
    pub fn next<D: Desk>(&mut self, desk: &mut D) -> Result<Option<Bytes>, OpenFault>
        requires range { IsInRange self.old }
        requires stands { StandsOn D.Desk self.old desk.old }

        ensures read { IfOk result (λ found. ForRead D.Desk self.old desk.old
            (GivesNext self.old self.new found)) }
        ensures done { (result ≡ Ok None) ↔ (self.new.done ≡ true) }
        ensures range { IsInRange self.new }
        ensures same_file { IsOfSameFile self.old self.new }

        ensures err { OnErr result (IsAtSameGate self.old self.new) }
        ensures stands { OnErr result (ForRead D.Desk self.old desk.old (StandsIn self.new)) }
        ensures looked { OnlyLooked D.Desk desk.old desk.new }
        ensures cause { HasOpenCause D.Desk result (FindsCut D.Desk self.old desk.old)
            desk.old desk.new }
    {
        let Some(size) = self.look(desk)? else {
            self.done = true;
            return Ok(None);
        };
        let record = Vec::from_slice(self.alloc, self.window.part(self.at + 5, size as usize))?;
        self.pass(size);
        Ok(Some(Bytes::from_vec(record)))
    }

    /// Stands before the first record again. It takes no memory.
    pub fn rewind(&mut self)
        requires { IsInRange self.old }
        ensures stands { (i : Image) (records : List (List ℕ))
            → StandsIn self.old i records → StandsIn self.new i [] }
        ensures first { IsAtFirst self.new }
        ensures range { IsInRange self.new }
        ensures same_file { IsOfSameFile self.old self.new }
        ensures snapshot { self.new.snapshot ≡ self.old.snapshot }
    {
        self.at = self.first;
        self.gate = self.first;
        self.number = self.count;
        self.size = 0;
        self.done = false;
    }

    /// The journal that goes on behind the last record, where `done` is true. No record that it takes ends past the limit.
    pub fn into_journal(self, limit: u64) -> Journal
        requires range { IsInRange self }
        requires done { self.done ≡ true }
        requires small { limit ≤ 2 ^ 62 }
        ensures journal { result ≡ journal_of self limit }
        ensures ready { IsReady result }
        ensures current { (i : Image) (records : List (List ℕ)) → StandsIn self i records
            → IsCurrent result (content_of (file_in self.file i) records) i }
    {
        Journal {
            file: self.file,
            generation: self.generation,
            end: self.at + 1,
            limit,
            number: self.number,
        }
    }
}
