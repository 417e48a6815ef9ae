//! `JudgedArea`: the state of an area, from which the ready tasks are known.
ghost use Rattle.std.specs.Prelude.{◌≡◌};
ghost use Rattle.hc_owed.specs.Areas.{set_if};

use crate::task_set::TaskSet;

/// The status of an area's FMMU register: its slave is in the line or not, on the wire or not, and the content is unknown or
/// not.
#[derive(Clone, Copy, Debug)]
pub enum RegisterStatus {
    /// The slave is outside the line or has no such area. The register concerns the tasks that its contents name, whether or not
    /// it may hold anything else.
    Outside,
    /// The slave is outside the line and off the wire, and the contents of the register name a task.
    Unplugged,
    /// The slave is in the line, and the register may hold anything.
    Unknown,
    /// The slave is in the line, and the register holds zeros or one of its contents.
    Sure,
}

/// An event that concerns all areas of a slave.
#[derive(Clone, Copy, Debug)]
pub enum Turn {
    /// The slave leaves the line.
    Left,
    /// Nothing is known of its registers any more.
    Forgotten,
    /// Its FMMU registers are zeros.
    Cleared,
    /// It is outside the line, and is taken off the wire.
    Unplugs,
}

/// The owed ones among an area's two blocks.
#[derive(Clone, Copy, Debug)]
pub enum OwedPair {
    /// No block.
    Neither,
    /// The block of the sync manager.
    SyncManager,
    /// The block of the FMMU.
    Fmmu,
    /// The blocks of the sync manager and of the FMMU.
    Both,
}

/// The state of an area of a declared slave.
#[derive(Clone, Copy, Debug)]
pub struct JudgedArea {
    /// The task that the line's block of its FMMU names, if it names one.
    pub own: TaskSet,
    /// The tasks that the contents of its FMMU's register name.
    pub held: TaskSet,
    /// Its owed blocks.
    pub owed: OwedPair,
    /// The status of its FMMU's register.
    pub standing: RegisterStatus,
}

impl OwedPair {
    ghost use Rattle.std.specs.Prelude.{◌≡◌};
    ghost use Rattle.hc_owed.specs.Areas.{owes_fmmu, owes_sync_manager, pair_of};

    /// Returns the pair of these owed blocks: the sync manager's if the first is true, the FMMU's if the second is true.
    pub fn of(sync_manager: bool, fmmu: bool) -> OwedPair
        ensures { result ≡ pair_of sync_manager fmmu }
    {
        match (sync_manager, fmmu) {
            (false, false) => OwedPair::Neither,
            (true, false) => OwedPair::SyncManager,
            (false, true) => OwedPair::Fmmu,
            (true, true) => OwedPair::Both,
        }
    }

    /// True if the block of the sync manager is owed.
    pub fn sync_manager(self) -> bool
        ensures { result ≡ owes_sync_manager self }
    {
        match self {
            OwedPair::Neither | OwedPair::Fmmu => false,
            OwedPair::SyncManager | OwedPair::Both => true,
        }
    }

    /// True if the block of the FMMU is owed.
    pub fn fmmu(self) -> bool
        ensures { result ≡ owes_fmmu self }
    {
        match self {
            OwedPair::Neither | OwedPair::SyncManager => false,
            OwedPair::Fmmu | OwedPair::Both => true,
        }
    }
}

impl RegisterStatus {
    ghost use Rattle.std.specs.Prelude.{◌≡◌};
    ghost use Rattle.hc_owed.specs.Areas.{is_apart, is_inside, is_register_unknown, standing_cleared, standing_come, standing_left, standing_unplugged};

    /// The status once its slave has left the line.
    fn left(self) -> RegisterStatus
        ensures { result ≡ standing_left self }
    {
        match self {
            RegisterStatus::Unplugged => RegisterStatus::Unplugged,
            RegisterStatus::Outside | RegisterStatus::Unknown | RegisterStatus::Sure =>
                RegisterStatus::Outside,
        }
    }

    /// The status once its slave is in the line: unknown if the slave came.
    fn come(self) -> RegisterStatus
        ensures { result ≡ standing_come self }
    {
        match self {
            RegisterStatus::Outside | RegisterStatus::Unplugged | RegisterStatus::Unknown =>
                RegisterStatus::Unknown,
            RegisterStatus::Sure => RegisterStatus::Sure,
        }
    }

    /// The status once the register is cleared.
    fn cleared(self) -> RegisterStatus
        ensures { result ≡ standing_cleared self }
    {
        match self {
            RegisterStatus::Outside | RegisterStatus::Unplugged => RegisterStatus::Outside,
            RegisterStatus::Unknown | RegisterStatus::Sure => RegisterStatus::Sure,
        }
    }

    /// The status once its slave, if outside the line, is off the wire. `names` is true if the register's contents name a task.
    fn unplugged(self, names: bool) -> RegisterStatus
        ensures { result ≡ standing_unplugged names self }
    {
        match self {
            RegisterStatus::Outside if names => RegisterStatus::Unplugged,
            other => other,
        }
    }

    /// True if the slave is in the line and the register may hold anything.
    pub fn is_unknown(self) -> bool
        ensures { result ≡ is_register_unknown self }
    {
        match self {
            RegisterStatus::Unknown => true,
            RegisterStatus::Outside | RegisterStatus::Unplugged | RegisterStatus::Sure => false,
        }
    }

    /// True if the status is `Outside`: the slave is outside the line, and it may be on the wire or its register names no task.
    pub fn is_apart(self) -> bool
        ensures { result ≡ is_apart self }
    {
        match self {
            RegisterStatus::Outside => true,
            RegisterStatus::Unplugged | RegisterStatus::Unknown | RegisterStatus::Sure => false,
        }
    }

    /// True if the slave is in the line.
    pub fn is_inside(self) -> bool
        ensures { result ≡ is_inside self }
    {
        match self {
            RegisterStatus::Unknown | RegisterStatus::Sure => true,
            RegisterStatus::Outside | RegisterStatus::Unplugged => false,
        }
    }
}

/// Returns a set of tasks if it counts, otherwise no task.
fn set_if(counts: bool, set: TaskSet) -> TaskSet
    ensures { result ≡ set_if counts set }
{
    if counts { set } else { TaskSet::none() }
}

impl JudgedArea {
    ghost use Rattle.std.specs.Prelude.{◌≡◌};
    ghost use Rattle.hc_owed.specs.Readiness.{no_area};
    ghost use Rattle.hc_owed.specs.Areas.{area_after, area_entered, area_written, fmmu_concerns, fmmu_confirmed, fmmu_moved, named_set, pair_forgotten, register_concerns, sync_manager_concerns, sync_manager_confirmed, sync_manager_moved};

    /// Returns the state of an area whose register names no task and whose slave is outside the line. It also stands for a
    /// missing area.
    pub fn outside() -> JudgedArea
        ensures { result ≡ no_area }
    {
        JudgedArea {
            own: TaskSet::none(),
            held: TaskSet::none(),
            owed: OwedPair::Neither,
            standing: RegisterStatus::Outside,
        }
    }

    /// The tasks that its register may name.
    fn named(self) -> TaskSet
        ensures { result ≡ named_set self.standing self.held }
    {
        if self.standing.is_unknown() {
            TaskSet::all()
        } else {
            self.held
        }
    }

    /// The tasks that the owed block of its sync manager concerns.
    pub fn sync_manager_concerns(self) -> TaskSet
        ensures { result ≡ sync_manager_concerns self }
    {
        set_if(self.owed.sync_manager(), self.own)
    }

    /// The tasks that the owed block of its FMMU concerns.
    pub fn fmmu_concerns(self) -> TaskSet
        ensures { result ≡ fmmu_concerns self }
    {
        set_if(self.owed.fmmu(), self.own.with(self.named()))
    }

    /// The tasks that its register concerns while its slave is outside the line.
    pub fn register_concerns(self) -> TaskSet
        ensures { result ≡ register_concerns self }
    {
        set_if(self.standing.is_apart(), self.held)
    }

    /// Its owed blocks once nothing is known of them.
    fn forgotten(self) -> OwedPair
        ensures { result ≡ pair_forgotten self.standing self.owed }
    {
        if self.standing.is_inside() {
            OwedPair::Both
        } else {
            self.owed
        }
    }

    /// The area after this event of its slave.
    pub fn after(self, turn: Turn) -> JudgedArea
        ensures { result ≡ area_after turn self }
    {
        match turn {
            Turn::Left => JudgedArea {
                own: TaskSet::none(),
                held: self.held,
                owed: OwedPair::Neither,
                standing: self.standing.left(),
            },
            Turn::Forgotten => JudgedArea {
                owed: self.forgotten(),
                ..self
            },
            Turn::Cleared => JudgedArea {
                held: TaskSet::none(),
                standing: self.standing.cleared(),
                ..self
            },
            Turn::Unplugs => JudgedArea {
                standing: self.standing.unplugged(!self.held.is_empty()),
                ..self
            },
        }
    }

    /// The area once its slave is in the line, and its registers are cleared if the slave came.
    pub fn entered(self) -> JudgedArea
        ensures { result ≡ area_entered self }
    {
        if !self.standing.is_inside() {
            return JudgedArea {
                held: TaskSet::none(),
                standing: RegisterStatus::Sure,
                ..self
            };
        }
        self
    }

    /// The area once a write of its FMMU's block was sent. An area with status `Outside` stays, since nothing is sent to its
    /// slave.
    pub fn written(self) -> JudgedArea
        ensures { result ≡ area_written self }
    {
        if self.standing.is_apart() {
            return self;
        }
        JudgedArea {
            held: self.own.with(self.held),
            ..self
        }
    }

    /// The area once a write of its FMMU's block was answered well.
    pub fn fmmu_confirmed(self) -> JudgedArea
        ensures { result ≡ fmmu_confirmed self }
    {
        JudgedArea {
            own: self.own,
            held: self.own,
            owed: OwedPair::of(self.owed.sync_manager(), false),
            standing: RegisterStatus::Sure,
        }
    }

    /// The area once a write of its sync manager's block was answered well.
    pub fn sync_manager_confirmed(self) -> JudgedArea
        ensures { result ≡ sync_manager_confirmed self }
    {
        JudgedArea {
            owed: OwedPair::of(false, self.owed.fmmu()),
            ..self
        }
    }

    /// The area once an edit moved its sync manager's block, which is now owed or not.
    pub fn sync_manager_moved(self, owed: bool) -> JudgedArea
        ensures { result ≡ sync_manager_moved owed self }
    {
        JudgedArea {
            owed: OwedPair::of(owed, self.owed.fmmu()),
            standing: self.standing.come(),
            ..self
        }
    }

    /// The area once an edit moved its FMMU's block, which now names these tasks and is owed or not.
    pub fn fmmu_moved(self, own: TaskSet, owed: bool) -> JudgedArea
        ensures { result ≡ fmmu_moved own owed self }
    {
        JudgedArea {
            own,
            held: self.held,
            owed: OwedPair::of(self.owed.sync_manager(), owed),
            standing: self.standing.come(),
        }
    }
}
