//! A register that is two.
ghost use Rattle.std.specs.Prelude.{◌≡◌, ◌≢◌, OnOk};
ghost use Rattle.desk_register.specs.Changes.{CanAppend, appended};
ghost use Rattle.desk_register.specs.View.{IfTrusted, IsChange};
ghost use Rattle.desk_register.specs.declared.register.Stage.TheVariants.{Begun, Failed, Idle};
ghost use Rattle.desk_file.specs.Both.{HasSame, shown};
ghost use Rattle.desk_file.specs.Mirrored.{HasSameMark};

use crate::mirror::course::Phase;
use desk_register::{Fault, MemoryRegister, Register, ToldRegister};
use desk_rules::{Entry, Reply};
use std::alloc::Global;
use std::marker::Model;

/// A register that is two: memory answers what is asked, and what is changed is changed in the tables, then in memory.
/// Contracts see it as `shown` of specs/Both.antt.
#[derive(Drop)]
pub struct MirroredRegister<M: MemoryRegister, S: ToldRegister + Drop> {
    pub(crate) memory: M,
    pub(crate) tables: S,
    pub(crate) phase: Phase,
}

impl<M: MemoryRegister, S: ToldRegister + Drop> Model for MirroredRegister<M, S> {
    ghost use Rattle.desk_file.specs.Both.{Both, both_code};
    ghost use Rattle.desk_file.specs.Mirrored.{AreMirrored, stage_of};

    ghost Value = { Both M S };

    ghost coded = { both_code M.code S.code };

    ghost view = { λ r. record { memory = r.memory; tables = r.tables; stage = stage_of r.phase } };

    ghost invariant = { λ r. AreMirrored r.phase (M.view r.memory) (S.view r.tables) };
}

impl<M: MemoryRegister, S: ToldRegister + Drop> MirroredRegister<M, S> {
    /// Two registers with no `begin` open that hold the same.
    pub fn new(memory: M, tables: S) -> MirroredRegister<M, S>
        requires memory { (M.view memory).stage ≡ Idle }
        requires tables { (S.view tables).stage ≡ Idle }
        requires room { (M.view memory).room ≡ (S.view tables).room }
        requires same { HasSame (M.view memory) (S.view tables) }
        ensures memory { result.memory ≡ memory }
        ensures tables { result.tables ≡ tables }
        ensures stage { result.stage ≡ Idle }
    {
        MirroredRegister {
            memory,
            tables,
            phase: Phase::Idle,
        }
    }

    /// The tables. Where they are to be trusted, and no call has failed since `begin`, they hold what the register shows;
    /// with no `begin` open they have none open either, so that this is what they have committed.
    pub fn tables(&self) -> &S
        ensures tables { result.now ≡ self.now.tables }
        ensures same { self.now.stage ≢ Failed → HasSame (M.view self.now.memory) (S.view result.now) }
        ensures idle { self.now.stage ≡ Idle → (S.view result.now).stage ≡ Idle }
        ensures begun { self.now.stage ≡ Begun → HasSameMark (M.view self.now.memory) (S.view result.now) }
    {
        &self.tables
    }

    /// Both are handed back, memory first, as `tables` says of them.
    pub fn into_parts(self) -> (M, S)
        ensures memory { result.0 ≡ self.memory }
        ensures tables { result.1 ≡ self.tables }
        ensures same { self.stage ≢ Failed → HasSame (M.view result.0) (S.view result.1) }
        ensures idle { self.stage ≡ Idle → (S.view result.1).stage ≡ Idle }
        ensures idle_memory { self.stage ≡ Idle → (M.view result.0).stage ≡ Idle }
        ensures begun { self.stage ≡ Begun → HasSameMark (M.view result.0) (S.view result.1) }
    {
        (self.memory, self.tables)
    }

    /// Adds an entry with its reply, of which there are two copies, to the tables and to memory.
    pub(crate) fn append_both(
        &mut self,
        alloc: Global,
        entry: Entry,
        copy: Reply,
        reply: Reply,
    ) -> Result<(), Fault>
        requires same { copy ≡ reply }
        requires stage { self.old.stage ≡ Begun }
        requires fits { IfTrusted (M.view self.old.memory) (M.view self.old.memory) (CanAppend (M.view self.old.memory).room entry reply (M.view self.old.memory).content) }
        ensures added { IfTrusted (M.view self.old.memory) (M.view self.new.memory) (OnOk result ((M.view self.new.memory).content ≡ appended entry reply (M.view self.old.memory).content)) }
        ensures change { IsChange result (shown (M.view self.old.memory) self.old.stage (S.view self.old.tables)) (shown (M.view self.new.memory) self.new.stage (S.view self.new.tables)) }
    {
        let again = entry;
        self.phase.after(self.tables.append(alloc, entry, copy))?;
        self.phase.after(self.memory.append(alloc, again, reply))
    }
}
