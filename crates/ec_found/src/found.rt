//! Which type a slave is, by what it shows.
ghost use Rattle.std.specs.Prelude.{◌≡◌, ◌≤◌, IfOk, OnOk, is_some};
ghost use Rattle.std.specs.Option.{option_map};
ghost use Rattle.ec_device.specs.Types.{ArePdos, first_input_index, first_output_index, pdos_bits};
ghost use Rattle.ec_table.specs.declared.rows.Direction.TheVariants.{In, Out};
ghost use Rattle.ec_found.specs.Founds.{IsFound, all_pdos, assigned_of, category_of, first_of, gaps_noted, gaps_of, has_lrw, has_other_size, has_unusable, is_assignable, is_silent, is_spread, is_whole, kind_of, listed_of, noted, repeated, said_by, unsaid_of, usage_of};

use crate::areas::{Areas, INPUTS, OUTPUTS, is_fixed, manager_of};
use crate::assigned::{assigned_of, left_out, listed};
use crate::mapped::{kept, merged};
use crate::reading::{
    GENERAL, INPUT_PDOS, MANAGERS, OUTPUT_PDOS, byte_in, has_second, has_stray, pdos_in, words_in,
};
use ec_device::{FIRST_INPUT_INDEX, FIRST_OUTPUT_INDEX, Pdo, SlaveType};
use ec_listed::Listed;
use ec_scan::Shown;
use ec_table::Direction;
use std::alloc::{AllocError, Global};

/// What a table can't say of a slave.
#[derive(Clone, Copy, Debug, PartialEq, Eq)]
pub enum Unsaid {
    /// Its mailboxes: they take no CoE, have other sizes than 16 to 1024 bytes, or don't lie in the RAM.
    Mailbox,
    /// Its sync managers: they aren't two of the first four in the usual modes, or stand beside a mailbox as a table can't have it.
    Managers,
    /// Process data of a direction behind a second sync manager.
    Spread(Direction),
    /// How a start-up learns which PDOs of a direction it exchanges: it has no assignment object.
    Silent(Direction),
    /// A PDO of a direction: it is another's double, is past the 16th, or isn't within the limits of a table.
    Pdos(Direction),
    /// Where the PDOs of a direction lie: they have other bytes than their sync manager.
    Size(Direction),
    /// The PDO with this index, which the slave exchanges: it has an entry that a PDO before it has, or one twice.
    Repeats(u16),
}

/// A slave as it was found, in the words of a table.
#[derive(Debug, Drop)]
pub struct Found {
    /// Its type.
    pub kind: SlaveType,
    /// Its serial number.
    pub serial: u32,
    /// The indices of the output PDOs that a table assigns to it, in order: those that it exchanges, without a PDO that repeats an entry.
    pub outputs: Listed<u16>,
    /// The indices of the input PDOs.
    pub inputs: Listed<u16>,
    /// What a table can't say of it; none if it says all.
    pub unsaid: Listed<Unsaid>,
}

/// The bit of the flags of a slave that takes no part in LRW: bit 1 of byte 11.
const NO_LRW: u8 = 1 << 1;

/// What a table can't say of the PDOs of a direction.
#[derive(Clone, Copy)]
struct Gaps {
    /// Whether a second sync manager moves some.
    is_spread: bool,
    /// Whether it exchanges some and has no assignment object, though it takes CoE.
    is_silent: bool,
    /// Whether a table doesn't take some.
    lacks: bool,
    /// The index of the first that it can't assign beside others.
    left_out: Option<u16>,
}

/// What a table says of the PDOs of a direction.
#[derive(Drop)]
struct Side {
    /// Those that the type lists.
    listed: Listed<Pdo>,
    /// The indices of those that the slave assigns.
    assigned: Listed<u16>,
    /// What it can't say.
    gaps: Gaps,
}

/// What a slave is, by what it shows. The error says that memory ran out.
pub fn found_of(alloc: Global, shown: &Shown) -> Result<Found, AllocError>
    ensures { IfOk result (IsFound shown.now) }
{
    let outputs = side_of(alloc, shown, Direction::Out)?;
    let inputs = side_of(alloc, shown, Direction::In)?;
    let gaps = (outputs.gaps, inputs.gaps);
    let kind = kind_of(alloc, shown, outputs.listed, inputs.listed);
    let unsaid = unsaid_of(alloc, shown, &kind, gaps)?;
    Ok(Found {
        kind,
        serial: shown.identity.serial,
        outputs: outputs.assigned,
        inputs: inputs.assigned,
        unsaid,
    })
}

/// What a table says of the PDOs of a direction.
fn side_of(alloc: Global, shown: &Shown, direction: Direction) -> Result<Side, AllocError>
    ensures listed { IfOk result (λ side. side.listed ≡ listed_of direction shown.now) }
    ensures limits { IfOk result (λ side. ArePdos (first_of direction) side.listed) }
    ensures assigned { IfOk result (λ side. side.assigned ≡ assigned_of (first_of direction) side.listed (said_by direction shown.now)) }
    ensures gaps { IfOk result (λ side. side.gaps ≡ gaps_of direction shown.now) }
{
    let first = first_of(direction);
    let all = all_pdos(alloc, shown, direction)?;
    let gaps = gaps_of(alloc, shown, direction, all.as_slice())?;
    let listed = listed(alloc, first, is_assignable(shown), all.as_slice())?;
    let said = said_by(direction, shown);
    let assigned = assigned_of(alloc, first, listed.as_slice(), said)?;
    Ok(Side {
        listed,
        assigned,
        gaps,
    })
}

/// The first index of the PDOs of a direction.
fn first_of(direction: Direction) -> u16
    ensures value { result ≡ first_of direction }
    ensures limit { result ≤ first_input_index }
{
    match direction {
        Direction::Out => FIRST_OUTPUT_INDEX,
        Direction::In => FIRST_INPUT_INDEX,
    }
}

/// The category of the PDOs of a direction.
fn category_of(direction: Direction) -> u16
    ensures { result ≡ category_of direction }
{
    match direction {
        Direction::Out => OUTPUT_PDOS,
        Direction::In => INPUT_PDOS,
    }
}

/// What the sync managers of a direction are used for.
fn usage_of(direction: Direction) -> u8
    ensures { result ≡ usage_of direction }
{
    match direction {
        Direction::Out => OUTPUTS,
        Direction::In => INPUTS,
    }
}

/// The PDOs of a direction that are exchanged by CoE, if it says so.
fn said_by(direction: Direction, shown: &Shown) -> Option<&[Pdo]>
    ensures { option_map (λ ps. ps.now) result ≡ said_by direction shown.now }
{
    match direction {
        Direction::Out => lent(&shown.outputs),
        Direction::In => lent(&shown.inputs),
    }
}

/// Whether CoE says which PDOs of a direction are exchanged.
fn is_said(direction: Direction, shown: &Shown) -> bool
    ensures { result ≡ is_some (said_by direction shown.now) }
{
    match direction {
        Direction::Out => shown.outputs.is_some(),
        Direction::In => shown.inputs.is_some(),
    }
}

/// Whether a table says which PDOs a slave exchanges.
fn is_assignable(shown: &Shown) -> bool
    ensures { result ≡ is_assignable shown.now }
{
    shown.mailbox.usable().is_some() && !is_fixed(shown)
}

/// All PDOs of a direction: those of its category, and those that are exchanged by CoE.
fn all_pdos(alloc: Global, shown: &Shown, direction: Direction) -> Result<Listed<Pdo>, AllocError>
    ensures { IfOk result (λ ps. ps ≡ all_pdos direction shown.now) }
{
    let words = words_in(shown.categories.as_slice(), category_of(direction));
    let manager = manager_of(direction, shown).number;
    let read = pdos_in(alloc, is_said(direction, shown), manager, words)?;
    merged(
        alloc,
        is_fixed(shown),
        read.as_slice(),
        said_by(direction, shown),
    )
}

/// The PDOs that are exchanged by CoE, if it says so.
fn lent(exchanged: &Option<Listed<Pdo>>) -> Option<&[Pdo]>
    ensures { option_map (λ ps. ps.now) result ≡ exchanged.now }
{
    match exchanged {
        Some(pdos) => Some(pdos.as_slice()),
        None => None,
    }
}

/// The type of a slave with these PDOs.
fn kind_of(alloc: Global, shown: &Shown, outputs: Listed<Pdo>, inputs: Listed<Pdo>) -> SlaveType
    requires outputs { outputs ≡ listed_of Out shown.now }
    requires inputs { inputs ≡ listed_of In shown.now }
    requires few_outputs { ArePdos first_output_index outputs }
    requires few_inputs { ArePdos first_input_index inputs }
    ensures { result ≡ kind_of shown.now }
{
    let areas = Areas::of(shown);
    let mut kind = SlaveType::new(
        alloc,
        shown.identity.device(),
        shown.mailbox.usable(),
        areas.hardware.other_name(areas.out_start),
        areas.in_start,
        outputs,
        inputs,
        has_lrw(shown),
    );
    kind.describe(areas.hardware);
    kind
}

/// What a table can't say of a direction with these PDOs.
fn gaps_of(
    alloc: Global,
    shown: &Shown,
    direction: Direction,
    all: &[Pdo],
) -> Result<Gaps, AllocError>
    requires { all.now ≡ all_pdos direction shown.now }
    ensures { IfOk result (λ gaps. gaps ≡ gaps_of direction shown.now) }
{
    let first = first_of(direction);
    let pdos = kept(alloc, first, all)?;
    let said = said_by(direction, shown);
    let left_out = left_out(alloc, first, pdos.as_slice(), said)?;
    Ok(Gaps {
        is_spread: is_spread(direction, shown),
        is_silent: is_silent(direction, shown, all),
        lacks: pdos.len() < all.len(),
        left_out,
    })
}

/// Whether a second sync manager moves a part of a direction.
fn is_spread(direction: Direction, shown: &Shown) -> bool
    ensures { result ≡ is_spread direction shown.now }
{
    let managers = words_in(shown.categories.as_slice(), MANAGERS);
    let pdos = words_in(shown.categories.as_slice(), category_of(direction));
    let number = manager_of(direction, shown).number;
    has_second(managers, usage_of(direction))
        || (!is_said(direction, shown) && has_stray(pdos, number))
}

/// Whether a slave that takes CoE doesn't say by it which of these PDOs it exchanges.
fn is_silent(direction: Direction, shown: &Shown, all: &[Pdo]) -> bool
    requires { all.now ≡ all_pdos direction shown.now }
    ensures { result ≡ is_silent direction shown.now }
{
    shown.mailbox.usable().is_some() && !is_said(direction, shown) && !all.is_empty()
}

/// Whether PDOs with so many bits have other bytes than the sync manager of their direction, which CoE doesn't say.
fn has_other_size(direction: Direction, shown: &Shown, gaps: Gaps, bits: usize) -> bool
    requires gaps { gaps ≡ gaps_of direction shown.now }
    requires bits { bits ≡ pdos_bits (listed_of direction shown.now) }
    requires few { bits ≤ 65536 }
    ensures { result ≡ has_other_size direction shown.now }
{
    let long = usize::from(manager_of(direction, shown).long);
    !is_said(direction, shown) && is_whole(gaps) && long != 0 && long != (bits + 7) / 8
}

/// Whether a table takes all PDOs of a direction.
fn is_whole(gaps: Gaps) -> bool
    ensures { result ≡ is_whole gaps }
{
    !gaps.lacks && gaps.left_out.is_none()
}

/// What a table can't say of a slave of this type.
fn unsaid_of(
    alloc: Global,
    shown: &Shown,
    kind: &SlaveType,
    gaps: (Gaps, Gaps),
) -> Result<Listed<Unsaid>, AllocError>
    requires kind { kind.now ≡ kind_of shown.now }
    requires outputs { gaps.0 ≡ gaps_of Out shown.now }
    requires inputs { gaps.1 ≡ gaps_of In shown.now }
    ensures { IfOk result (λ us. us ≡ unsaid_of shown.now) }
{
    let (outs, ins) = gaps;
    let out_size = has_other_size(Direction::Out, shown, outs, kind.output_bits());
    let in_size = has_other_size(Direction::In, shown, ins, kind.input_bits());
    let mut found = Listed::new(alloc);
    note(&mut found, has_unusable(shown), Unsaid::Mailbox)?;
    note(&mut found, !Areas::are_said(shown), Unsaid::Managers)?;
    note_gaps(&mut found, Direction::Out, outs, out_size)?;
    note_gaps(&mut found, Direction::In, ins, in_size)?;
    Ok(found)
}

/// Whether a slave has mailboxes that a table can't say.
fn has_unusable(shown: &Shown) -> bool
    ensures { result ≡ has_unusable shown.now }
{
    shown.mailbox.place.receive_size > 0 && shown.mailbox.usable().is_none()
}

/// Notes what a table can't say of a direction.
fn note_gaps(
    found: &mut Listed<Unsaid>,
    direction: Direction,
    gaps: Gaps,
    has_other_size: bool,
) -> Result<(), AllocError>
    ensures { OnOk result (found.new ≡ gaps_noted found.old direction gaps has_other_size) }
{
    note(found, gaps.is_spread, Unsaid::Spread(direction))?;
    note(found, gaps.is_silent, Unsaid::Silent(direction))?;
    note(found, gaps.lacks, Unsaid::Pdos(direction))?;
    note(found, has_other_size, Unsaid::Size(direction))?;
    note_repeated(found, gaps.left_out)
}

/// Notes a thing that a table can't say, if it is so.
fn note(found: &mut Listed<Unsaid>, is_so: bool, unsaid: Unsaid) -> Result<(), AllocError>
    ensures { OnOk result (found.new ≡ noted found.old is_so unsaid) }
{
    if is_so {
        found.push(unsaid)?;
    }
    Ok(())
}

/// Notes that a PDO is left out which has an entry that is exchanged already, if one is.
fn note_repeated(found: &mut Listed<Unsaid>, index: Option<u16>) -> Result<(), AllocError>
    ensures { OnOk result (found.new ≡ repeated found.old index) }
{
    if let Some(index) = index {
        found.push(Unsaid::Repeats(index))?;
    }
    Ok(())
}

/// Whether a slave takes part in LRW.
#[tactic(auto, using(crate::proofs::Flags::lrw_bit))]
fn has_lrw(shown: &Shown) -> bool
    ensures { result ≡ has_lrw shown.now }
{
    let words = words_in(shown.categories.as_slice(), GENERAL);
    byte_in(words, 11) & NO_LRW == 0
}
