//! A disk of which some calls fail.
ghost use Rattle.std.specs.Prelude.{◌≡◌, ◌<◌, ◌+◌, ◌↔◌, OnOk, IsErr};
ghost use Rattle.sector_disk.specs.Asked.{MayWrite, OnlyReads};
ghost use Rattle.sector_disk.specs.Disk.{seen, Writes, Syncs, CountsFault};
ghost use Rattle.sector_disk.specs.Faulty.{IsMade, Fails, NextFails, BecomesOf, CountsCall, Reports, SomeOutcome};

use crate::faults::Faults;
use crate::{DiskFault, SECTOR_BYTES, Sectors};
use std::marker::Model;

/// Which calls of a disk fail: reads, writes and syncs are counted together, and the first is number 1.
#[derive(Clone, Copy, Debug, PartialEq, Eq)]
pub enum FailingCalls {
    /// Each from this number on; none of them is made.
    AllFrom(u64),
    /// The one of this number, which isn't made. 0 is none.
    OneNotMade(u64),
    /// The one of this number, which is made, and then reported as failed. 0 is none.
    OneMade(u64),
}

/// What becomes of a call.
#[derive(Clone, Copy)]
pub(crate) enum Turn {
    /// It is passed on.
    Passed,
    /// It is made, and then reported as failed.
    Made,
    /// It isn't made.
    NotMade,
}

impl FailingCalls {
    /// What becomes of the call that comes after `calls` others.
    fn turn(self, calls: u64) -> Turn
        ensures { BecomesOf self result (calls + 1) }
    {
        let (fails, turn) = match self {
            FailingCalls::AllFrom(first) => (first.saturating_sub(1) <= calls, Turn::NotMade),
            FailingCalls::OneNotMade(call) => (call > calls && call - calls == 1, Turn::NotMade),
            FailingCalls::OneMade(call) => (call > calls && call - calls == 1, Turn::Made),
        };
        if fails { turn } else { Turn::Passed }
    }
}

/// Passes each call on to its disk, save those that fail.
#[derive(Drop)]
pub struct FaultyDisk<D: Sectors> {
    disk: D,
    failing_calls: FailingCalls,
    calls: u64,
    faults: Faults,
}

impl<D: Sectors> Model for FaultyDisk<D> {
    ghost use Rattle.sector_disk.specs.Faulty.{Faulty};

    ghost Value = { Faulty D };

    ghost view = { λ faulty. record {
      disk = faulty.disk;
      failing_calls = faulty.failing_calls;
      calls = faulty.calls;
      faults = faulty.faults.count;
    } };
}

impl<D: Sectors> FaultyDisk<D> {
    /// Lets these calls of a disk fail.
    pub fn new(disk: D, failing_calls: FailingCalls) -> FaultyDisk<D>
        ensures disk { result.disk ≡ disk }
        ensures failing_calls { result.failing_calls ≡ failing_calls }
        ensures calls { result.calls ≡ 0 }
        ensures faults { ⟦<FaultyDisk<D> as Sectors>⟧.faults result ≡ 0 }
        ensures sectors { ⟦<FaultyDisk<D> as Sectors>⟧.sectors result ≡ D.sectors disk }
        ensures honest { ⟦<FaultyDisk<D> as Sectors>⟧.honest result ↔ D.honest disk }
        ensures history { ⟦<FaultyDisk<D> as Sectors>⟧.history result ≡ D.history disk }
    {
        FaultyDisk {
            disk,
            failing_calls,
            calls: 0,
            faults: Faults::none(),
        }
    }

    /// How many reads, writes and syncs it was asked for, up to the greatest `u64`.
    pub fn calls(&self) -> u64
        ensures { result ≡ self.now.calls }
    {
        self.calls
    }

    /// The disk that it passes calls to.
    pub fn into_disk(self) -> D
        ensures { result ≡ self.disk }
    {
        let FaultyDisk {
            disk,
            failing_calls: _,
            calls: _,
            faults: _,
        } = self;
        disk
    }

    /// Counts a call, and says what becomes of it.
    fn count_call(&mut self) -> Turn
        ensures turn { BecomesOf self.old.failing_calls result (self.old.calls + 1) }
        ensures disk { self.new.disk ≡ self.old.disk }
        ensures failing_calls { self.new.failing_calls ≡ self.old.failing_calls }
        ensures calls { CountsCall self.old.calls self.new.calls }
        ensures faults { self.new.faults ≡ self.old.faults }
    {
        let turn = self.failing_calls.turn(self.calls);
        self.calls = self.calls.saturating_add(1);
        turn
    }

    /// Says what is reported of a call with this outcome, and counts its fault.
    fn report(&mut self, turn: Turn, outcome: Result<(), DiskFault>) -> Result<(), DiskFault>
        ensures reports { Reports turn outcome result }
        ensures disk { self.new.disk ≡ self.old.disk }
        ensures failing_calls { self.new.failing_calls ≡ self.old.failing_calls }
        ensures calls { self.new.calls ≡ self.old.calls }
        ensures faults { CountsFault result self.old.faults self.new.faults }
    {
        let reported = match turn {
            Turn::Passed => outcome,
            Turn::Made | Turn::NotMade => Err(DiskFault),
        };
        self.faults.record(reported)
    }
}

impl<D: Sectors> Sectors for FaultyDisk<D> {
    ghost honest = { λ faulty. D.honest faulty.disk };

    ghost history = { λ faulty. D.history faulty.disk };

    ghost sectors = { λ faulty. D.sectors faulty.disk };

    ghost faults = { λ faulty. faulty.faults };

    fn count(&self) -> u64 {
        self.disk.count()
    }

    fn read(&mut self, at: u64, into: &mut [u8; SECTOR_BYTES]) -> Result<(), DiskFault>
        requires { at < D.sectors self.old.disk }
        ensures disk { OnlyReads D.sectors D.honest D.history self.old.disk self.new.disk }
        ensures faults { CountsFault result self.old.faults self.new.faults }
        ensures gives { D.honest self.new.disk → OnOk result (into.new ≡ seen (D.history self.old.disk) at) }
        ensures calls { CountsCall self.old.calls self.new.calls }
        ensures failing_calls { self.new.failing_calls ≡ self.old.failing_calls }
        ensures passed { ¬ NextFails self.old → CountsFault result (D.faults self.old.disk) (D.faults self.new.disk) }
        ensures failed { NextFails self.old → IsErr result }
        ensures not_made { NextFails self.old → ¬ IsMade self.old.failing_calls → self.new.disk ≡ self.old.disk }
        ensures made { NextFails self.old → IsMade self.old.failing_calls
            → SomeOutcome (λ outcome. CountsFault outcome (D.faults self.old.disk) (D.faults self.new.disk)
            × (D.honest self.new.disk → OnOk outcome (into.new ≡ seen (D.history self.old.disk) at))) }
    {
        let turn = self.count_call();
        let outcome = match turn {
            Turn::Passed | Turn::Made => self.disk.read(at, into),
            Turn::NotMade => Err(DiskFault),
        };
        self.report(turn, outcome)
    }

    fn write(&mut self, at: u64, from: &[u8; SECTOR_BYTES]) -> Result<(), DiskFault>
        requires { at < D.sectors self.old.disk }
        ensures disk { MayWrite D.sectors D.honest self.old.disk self.new.disk }
        ensures faults { CountsFault result self.old.faults self.new.faults }
        ensures writes { D.honest self.new.disk → Writes result at from.now (D.history self.old.disk) (D.history self.new.disk) }
        ensures calls { CountsCall self.old.calls self.new.calls }
        ensures failing_calls { self.new.failing_calls ≡ self.old.failing_calls }
        ensures passed { ¬ NextFails self.old → CountsFault result (D.faults self.old.disk) (D.faults self.new.disk) }
        ensures failed { NextFails self.old → IsErr result }
        ensures not_made { NextFails self.old → ¬ IsMade self.old.failing_calls → self.new.disk ≡ self.old.disk }
        ensures made { NextFails self.old → IsMade self.old.failing_calls
            → SomeOutcome (λ outcome. CountsFault outcome (D.faults self.old.disk) (D.faults self.new.disk)
            × (D.honest self.new.disk → Writes outcome at from.now (D.history self.old.disk) (D.history self.new.disk))) }
    {
        let turn = self.count_call();
        let outcome = match turn {
            Turn::Passed | Turn::Made => self.disk.write(at, from),
            Turn::NotMade => Err(DiskFault),
        };
        self.report(turn, outcome)
    }

    fn sync(&mut self) -> Result<(), DiskFault>
        ensures disk { MayWrite D.sectors D.honest self.old.disk self.new.disk }
        ensures faults { CountsFault result self.old.faults self.new.faults }
        ensures syncs { D.honest self.new.disk → Syncs result (D.history self.old.disk) (D.history self.new.disk) }
        ensures calls { CountsCall self.old.calls self.new.calls }
        ensures failing_calls { self.new.failing_calls ≡ self.old.failing_calls }
        ensures passed { ¬ NextFails self.old → CountsFault result (D.faults self.old.disk) (D.faults self.new.disk) }
        ensures failed { NextFails self.old → IsErr result }
        ensures not_made { NextFails self.old → ¬ IsMade self.old.failing_calls → self.new.disk ≡ self.old.disk }
        ensures made { NextFails self.old → IsMade self.old.failing_calls
            → SomeOutcome (λ outcome. CountsFault outcome (D.faults self.old.disk) (D.faults self.new.disk)
            × (D.honest self.new.disk → Syncs outcome (D.history self.old.disk) (D.history self.new.disk))) }
    {
        let turn = self.count_call();
        let outcome = match turn {
            Turn::Passed | Turn::Made => self.disk.sync(),
            Turn::NotMade => Err(DiskFault),
        };
        self.report(turn, outcome)
    }
}
