//! The place of a start-up in its script. No step of the script is stored.

ghost use Rattle.std.specs.Prelude.{◌≡◌, ◌≤◌, ◌<◌, true, false, length, All, Option, Some, None, is_some, IfSome, get_or, slice_get};
ghost use Rattle.ec_device.specs.Types.{IsMailbox};
ghost use Rattle.ec_start.specs.Planned.{HasFewAssigned};
ghost use Rattle.ec_start.specs.Scripts.{identified, is_hardware, mailbox_set, mapped, named, opened, raised, register_of, reply_awaited, set_manager, settled, talked};
ghost use Rattle.ec_start.specs.Doable.{IsDoable};
ghost use Rattle.ec_start.specs.Held.{first_step};
ghost use Rattle.ec_start.specs.Ahead.{share, opening, share_at, for_all, is_for_all, following, behind, manager_chosen, fmmu_chosen, choices, Settles};

use crate::action::{Action, ManagerRegister, SdoRequest, SiiAccess};
use crate::requests::request_at;
use ec_al::State;
use ec_device::{Mailbox, SlaveType};
use ec_link::SlavePlan;
use ec_regs::SyncManagerSettings;

/// A stretch of the script: a share of actions for each slave, slave after slave; the opening and the closing are for all slaves at
/// once. Without `hardware` nothing is settled or closed.
#[derive(Clone, Copy)]
pub enum Stretch {
    /// The slaves are counted, asked for INIT and cleared.
    Opening,
    /// Each slave gets its station address.
    Naming,
    /// Each slave with firmware is awaited without an error.
    Settling,
    /// The identity of each slave is read.
    Identifying,
    /// The SII is given back.
    Closing,
    /// Mailboxes are set.
    Mailboxes,
    /// Each slave is brought to PREOP.
    ToPreOp,
    /// Parameters are written, mappings read back, and assignments written or read back.
    Talking,
    /// Process data managers and FMMUs are set.
    Mapping,
    /// Each slave is brought to SAFEOP.
    ToSafeOp,
    /// Each slave is brought to OP.
    ToOp,
}

/// A place in the script.
#[derive(Clone, Copy)]
pub struct Cursor {
    /// The stretch.
    pub stretch: Stretch,
    /// The slave, counted from 0; 0 in the opening and in the closing.
    pub slave: usize,
    /// The place in the slave's share of the stretch, or in the opening or the closing.
    pub place: usize,
}

/// A step of the script: its place, and its action.
#[derive(Clone, Copy)]
pub struct Step {
    pub cursor: Cursor,
    pub action: Action,
}

impl Stretch {
    /// Whether the stretch is for all slaves at once.
    fn is_for_all(self) -> bool
        ensures { result ≡ is_for_all self }
    {
        match self {
            Stretch::Opening | Stretch::Closing => true,
            _ => false,
        }
    }

    /// The next stretch, if there is one.
    fn following(self) -> Option<Stretch>
        ensures { result ≡ following self }
    {
        Some(match self {
            Stretch::Opening => Stretch::Naming,
            Stretch::Naming => Stretch::Settling,
            Stretch::Settling => Stretch::Identifying,
            Stretch::Identifying => Stretch::Closing,
            Stretch::Closing => Stretch::Mailboxes,
            Stretch::Mailboxes => Stretch::ToPreOp,
            Stretch::ToPreOp => Stretch::Talking,
            Stretch::Talking => Stretch::Mapping,
            Stretch::Mapping => Stretch::ToSafeOp,
            Stretch::ToSafeOp => Stretch::ToOp,
            Stretch::ToOp => return None,
        })
    }

    /// The action at a place of a slave's share; none past the share's end.
    fn action_in(self, slave: usize, settings: &SlavePlan, place: usize) -> Option<Action>
        requires low { slave < 64 }
        requires few { HasFewAssigned settings.now }
        ensures value { result ≡ slice_get (share self slave settings.now) place }
        ensures doable { IfSome result IsDoable }
    {
        match self {
            Stretch::Opening | Stretch::Closing => None,
            Stretch::Naming => naming(slave, settings, place),
            Stretch::Settling => settling(slave, settings, place),
            Stretch::Identifying => identifying(slave, settings, place),
            Stretch::Mailboxes => setting_mailboxes(slave, settings, place),
            Stretch::ToPreOp => raising(State::PreOp, slave, settings, place),
            Stretch::Talking => talking(slave, settings, place),
            Stretch::Mapping => mapping(slave, settings, place),
            Stretch::ToSafeOp => raising(State::SafeOp, slave, settings, place),
            Stretch::ToOp => raising(State::Op, slave, settings, place),
        }
    }
}

impl Stretch {
    /// The action at a place of a stretch that is for all slaves at once; none past its end, and none of any other stretch.
    fn action_for_all(self, slaves: &[SlavePlan], place: usize) -> Option<Action>
        ensures value { result ≡ slice_get (for_all self slaves.now) place }
        ensures doable { IfSome result IsDoable }
    {
        match self {
            Stretch::Opening => { opening_action(!slaves.is_empty(), has_hardware(slaves), place) }
            Stretch::Closing if place == 0 && has_hardware(slaves) => {
                Some(Action::AssignSii(SiiAccess::Device))
            }
            _ => None,
        }
    }
}

impl Cursor {
    /// The first step at this place or behind it; none at the script's end. Shares without actions are passed over.
    pub fn settle(self, slaves: &[SlavePlan]) -> Option<Step>
        requires few { length slaves.now ≤ 64 }
        requires assigned { All HasFewAssigned slaves.now }
        requires low { self.slave ≤ 64 }
        ensures { Settles slaves.now self result }
    {
        let mut cursor = self;
        loop {
            let found = cursor.action(slaves);
            if let Some(action) = found {
                return Some(Step { cursor, action });
            }
            cursor = cursor.behind(slaves.len())?;
        }
    }

    /// The beginning of the next share; none behind the last.
    fn behind(self, count: usize) -> Option<Cursor>
        requires { self.slave ≤ 64 }
        ensures { result ≡ behind count self }
    {
        if !self.stretch.is_for_all() && self.slave + 1 < count {
            return Some(Cursor {
                stretch: self.stretch,
                slave: self.slave + 1,
                place: 0,
            });
        }
        Some(Cursor {
            stretch: self.stretch.following()?,
            slave: 0,
            place: 0,
        })
    }

    /// The action at this place; none past the end of the slave's share.
    fn action(self, slaves: &[SlavePlan]) -> Option<Action>
        requires few { length slaves.now ≤ 64 }
        requires assigned { All HasFewAssigned slaves.now }
        ensures value { result ≡ slice_get (share_at self.stretch slaves.now self.slave) self.place }
        ensures doable { IfSome result IsDoable }
    {
        if self.stretch.is_for_all() {
            return self.stretch.action_for_all(slaves, self.place);
        }
        if self.slave >= slaves.len() {
            return None;
        }
        self.stretch
            .action_in(self.slave, &slaves[self.slave], self.place)
    }
}

/// The first step of each script.
pub fn first_step() -> Step
    ensures { result ≡ first_step }
{
    Step {
        cursor: Cursor {
            stretch: Stretch::Opening,
            slave: 0,
            place: 0,
        },
        action: Action::CountSlaves,
    }
}

#[tactic(auto, using(crate::proofs::CursorActions::choice_steps))]
fn mapping(slave: usize, settings: &SlavePlan, place: usize) -> Option<Action>
    requires { slave < 64 }
    ensures value { result ≡ slice_get (mapped slave settings.now) place }
    ensures doable { IfSome result IsDoable }
{
    let mut left = place;
    for number in 0..4 {
        if let Some(action) = mapping_chosen(slave, settings, number) {
            if left == 0 {
                return Some(action);
            }
            left -= 1;
        }
    }
    None
}

/// The setting with a number, if the plan has it: managers 2 and 3, then FMMUs 0 and 1.
fn mapping_chosen(slave: usize, settings: &SlavePlan, number: usize) -> Option<Action>
    requires low { slave < 64 }
    requires there { number < 4 }
    ensures value { result ≡ get_or (choices slave settings.now) number None }
    ensures doable { IfSome result IsDoable }
{
    match number {
        0 => manager_chosen(slave, settings, 2),
        1 => manager_chosen(slave, settings, 3),
        2 => fmmu_chosen(slave, settings, 0),
        _ => fmmu_chosen(slave, settings, 1),
    }
}

fn fmmu_chosen(slave: usize, settings: &SlavePlan, number: usize) -> Option<Action>
    requires low { slave < 64 }
    requires there { number < 4 }
    ensures value { result ≡ fmmu_chosen slave settings.now number }
    ensures doable { IfSome result IsDoable }
{
    let fmmu = settings.fmmus[number];
    if fmmu.active {
        Some(Action::SetFmmu {
            slave,
            number,
            settings: fmmu,
            start: settings.kind.other_name(fmmu.physical_start),
        })
    } else {
        None
    }
}

fn manager_chosen(slave: usize, settings: &SlavePlan, number: usize) -> Option<Action>
    requires low { slave < 64 }
    requires there { number < 4 }
    ensures value { result ≡ manager_chosen slave settings.now number }
    ensures doable { IfSome result IsDoable }
{
    if settings.managers[number].activate == 0 {
        None
    } else {
        Some(set_manager(slave, settings, number))
    }
}

/// The action at a place: each request to a slave, with the wait for its reply behind it.
fn talking(slave: usize, settings: &SlavePlan, place: usize) -> Option<Action>
    requires low { slave < 64 }
    requires few { HasFewAssigned settings.now }
    ensures value { result ≡ slice_get (talked slave settings.now settings.now.kind.mailbox) place }
    ensures doable { IfSome result IsDoable }
{
    let mailbox = settings.kind.mailbox()?;
    let before = place / 2;
    let request = request_at(settings, before)?;
    Some(if place % 2 == 0 {
        Action::SendRequest {
            slave,
            before,
            mailbox,
            request,
        }
    } else {
        reply_awaited(&settings.kind, slave, mailbox, request)
    })
}

/// The wait for the reply to a request. Real devices also send other messages, and uploads of any size.
fn reply_awaited(kind: &SlaveType, slave: usize, mailbox: Mailbox, request: SdoRequest) -> Action
    requires low { slave < 64 }
    requires limits { IsMailbox mailbox }
    ensures value { result ≡ reply_awaited (is_some kind.now.hardware) slave mailbox request }
    ensures doable { IsDoable result }
{
    match kind.hardware() {
        None => Action::AwaitReply {
            slave,
            mailbox,
            request,
        },
        Some(_) => Action::AwaitFreeReply {
            slave,
            mailbox,
            request,
        },
    }
}

fn setting_mailboxes(slave: usize, settings: &SlavePlan, place: usize) -> Option<Action>
    requires { slave < 64 }
    ensures value { result ≡ slice_get (mailbox_set slave settings.now settings.now.kind.mailbox) place }
    ensures doable { IfSome result IsDoable }
{
    if settings.kind.mailbox().is_none() {
        return None;
    }
    match place {
        0 => Some(set_manager(slave, settings, 0)),
        1 => Some(set_manager(slave, settings, 1)),
        _ => None,
    }
}

/// The action that sets a slave's sync manager as the plan has it.
fn set_manager(slave: usize, settings: &SlavePlan, place: usize) -> Action
    requires low { slave < 64 }
    requires there { place < 4 }
    ensures value { result ≡ set_manager slave settings.now place }
    ensures doable { IsDoable result }
{
    let manager = settings.managers[place];
    Action::SetManager {
        slave,
        place,
        settings: manager,
        register: register_of(&settings.kind, place, &manager),
    }
}

/// The register of the sync manager of a role, as a device of the type has it.
fn register_of(kind: &SlaveType, place: usize, settings: &SyncManagerSettings) -> ManagerRegister
    requires { place < 4 }
    ensures value { result ≡ register_of kind.now place settings.now }
    ensures few { result.number < 4 }
{
    ManagerRegister {
        number: kind.manager_number(place),
        start: kind.other_name(settings.start),
    }
}

fn raising(state: State, slave: usize, settings: &SlavePlan, place: usize) -> Option<Action>
    requires { slave < 64 }
    ensures value { result ≡ slice_get (raised state slave settings.now) place }
    ensures doable { IfSome result IsDoable }
{
    match place {
        0 => Some(Action::AskState { slave, state }),
        1 => Some(Action::AwaitState { slave, state }),
        _ => None,
    }
}

fn identifying(slave: usize, settings: &SlavePlan, place: usize) -> Option<Action>
    requires { slave < 64 }
    ensures value { result ≡ slice_get (identified slave settings.now) place }
    ensures doable { IfSome result IsDoable }
{
    match place {
        0 => Some(Action::AskWord { slave, which: 0 }),
        1 => Some(Action::AwaitWord { slave, which: 0 }),
        2 => Some(Action::AskWord { slave, which: 1 }),
        3 => Some(Action::AwaitWord { slave, which: 1 }),
        4 => Some(Action::AskWord { slave, which: 2 }),
        5 => Some(Action::AwaitWord { slave, which: 2 }),
        _ => None,
    }
}

fn settling(slave: usize, settings: &SlavePlan, place: usize) -> Option<Action>
    requires { slave < 64 }
    ensures value { result ≡ slice_get (settled slave settings.now) place }
    ensures doable { IfSome result IsDoable }
{
    let hardware = settings.kind.hardware()?;
    if place == 0 && hardware.has_firmware {
        Some(Action::AwaitCleanInit { slave })
    } else {
        None
    }
}

fn naming(slave: usize, settings: &SlavePlan, place: usize) -> Option<Action>
    requires { slave < 64 }
    ensures value { result ≡ slice_get (named slave settings.now) place }
    ensures doable { IfSome result IsDoable }
{
    match place {
        0 => Some(Action::NameSlave { slave }),
        _ => None,
    }
}

/// Whether the slaves are those of a table with `hardware`: then each of their types says what its devices are like.
pub fn has_hardware(slaves: &[SlavePlan]) -> bool
    ensures { result ≡ is_hardware slaves.now }
{
    !slaves.is_empty() && slaves[0].kind.hardware().is_some()
}

/// The action at a place of the opening.
fn opening_action(has_slaves: bool, has_hardware: bool, place: usize) -> Option<Action>
    ensures value { result ≡ slice_get (opening has_slaves has_hardware) place }
    ensures doable { IfSome result IsDoable }
{
    if place == 0 {
        return Some(Action::CountSlaves);
    }
    if !has_slaves {
        return None;
    }
    if has_hardware {
        clearing_all(place - 1)
    } else {
        clearing(place - 1)
    }
}

/// The action at a place of the clearing.
fn clearing(place: usize) -> Option<Action>
    ensures value { result ≡ slice_get (opened false) place }
    ensures doable { IfSome result IsDoable }
{
    match place {
        0 => Some(Action::AskInit),
        1 => Some(Action::AwaitInit),
        2 => Some(Action::ClearFmmus),
        3 => Some(Action::ClearManagers),
        4 => Some(Action::ClearStations),
        _ => None,
    }
}

/// The action at a place of the clearing with `hardware`.
fn clearing_all(place: usize) -> Option<Action>
    ensures value { result ≡ slice_get (opened true) place }
    ensures doable { IfSome result IsDoable }
{
    match place {
        0 => Some(Action::AskInit),
        1 => Some(Action::AwaitInitState),
        2 => Some(Action::ClearAllFmmus),
        3 => Some(Action::ClearAllManagers),
        4 => Some(Action::ClearStations),
        5 => Some(Action::AssignSii(SiiAccess::Forced)),
        6 => Some(Action::AssignSii(SiiAccess::Master)),
        7 => Some(Action::ClearSiiError),
        _ => None,
    }
}
