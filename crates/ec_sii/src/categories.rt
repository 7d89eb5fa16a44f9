//! The categories of a full slave, word by word.
ghost use Rattle.std.specs.Prelude.{◌≡◌, ◌≤◌, ◌<◌, ◌^◌, ◌++◌, length, IfOk, OnOk, All};
ghost use Rattle.std.specs.List.{flat_map};
ghost use Rattle.ec_sii.specs.Categories.{pair, words_of, category, strings_words, coe_details, general_flags, general_words, for_outputs, for_inputs, fmmus_words, data_settings, manager_words, managers_words, mailbox_managers, data_managers, entry_words, pdo_words, pdos_category, categories_of};

use ec_device::{Entry, Mailbox, Pdo, SlaveType};
use ec_listed::Listed;
use ec_regs::{
    CONTROL_INPUTS, CONTROL_MAILBOX_IN, CONTROL_MAILBOX_OUT, CONTROL_OUTPUTS, SyncManagerSettings,
};
use std::alloc::{AllocError, Global};

/// The type of the category of strings.
const STRINGS: u16 = 10;
/// The type of the general category.
const GENERAL: u16 = 30;
/// The type of the category of FMMUs.
const FMMUS: u16 = 40;
/// The type of the category of sync managers.
const MANAGERS: u16 = 41;
/// The type of the category of PDOs that the slave sends (TxPDO).
const INPUT_PDOS: u16 = 50;
/// The type of the category of PDOs that the slave receives (RxPDO).
const OUTPUT_PDOS: u16 = 51;

/// The categories of a slave of a type, with this name. The error says that memory was refused.
#[tactic(auto, using(crate::proofs::Lengths::managers_few, crate::proofs::Lengths::short_entries), unfolding(crate::specs::Categories::categories_of))]
pub(crate) fn categories_of(
    alloc: Global,
    kind: &SlaveType,
    name: &[u8],
) -> Result<Listed<u16>, AllocError>
    requires { length name.now ≤ 32 }
    ensures { IfOk result (λ words. words ≡ categories_of kind.now name.now) }
{
    let mut words = Listed::new(alloc);
    push_category(&mut words, STRINGS, strings(alloc, name)?.as_slice())?;
    push_category(&mut words, GENERAL, &general(kind))?;
    push_category(&mut words, FMMUS, &fmmus(kind))?;
    push_category(&mut words, MANAGERS, managers(alloc, kind)?.as_slice())?;
    push_pdos(alloc, &mut words, INPUT_PDOS, 3, kind.inputs())?;
    push_pdos(alloc, &mut words, OUTPUT_PDOS, 2, kind.outputs())?;
    Ok(words)
}

/// A sync manager as the SII shows it.
#[derive(Clone, Copy, Debug, PartialEq, Eq)]
pub(crate) struct SiiManager {
    /// The settings that a master gives it.
    settings: SyncManagerSettings,
    /// What it is used for, or 0 for nothing.
    usage: u8,
}

/// Puts words behind the others.
fn push_all(words: &mut Listed<u16>, more: &[u16]) -> Result<(), AllocError>
    ensures { OnOk result (words.new ≡ words.old ++ more.now) }
{
    for word in more {
        words.push(*word)?;
    }
    Ok(())
}

/// Puts a category behind the others: its type, its length, its words.
fn push_category(words: &mut Listed<u16>, number: u16, body: &[u16]) -> Result<(), AllocError>
    requires { length body.now < 2 ^ 16 }
    ensures { OnOk result (words.new ≡ words.old ++ category number body.now) }
{
    words.push(number)?;
    words.push(body.len() as u16)?;
    push_all(words, body)
}

/// Two bytes in a word.
fn pair(low: u8, high: u8) -> u16
    ensures { result ≡ pair low high }
{
    u16::from(low) + 256 * u16::from(high)
}

/// Puts bytes behind words, two in a word.
fn push_bytes(words: &mut Listed<u16>, bytes: &[u8]) -> Result<(), AllocError>
    ensures { OnOk result (words.new ≡ words.old ++ words_of bytes.now) }
{
    for k in 0..bytes.len().div_ceil(2) {
        let high = bytes.get(2 * k + 1).copied().unwrap_or(0);
        words.push(pair(bytes[2 * k], high))?;
    }
    Ok(())
}

/// The strings: one, the name.
fn strings(alloc: Global, name: &[u8]) -> Result<Listed<u16>, AllocError>
    requires { length name.now ≤ 32 }
    ensures { IfOk result (λ words. words ≡ strings_words name.now) }
{
    let mut words = Listed::new(alloc);
    words.push(pair(1, name.len() as u8))?;
    push_bytes(&mut words, name)?;
    Ok(words)
}

/// The CoE details of a slave with a mailbox: bit 0, SDO, and bit 2, PDO assignment.
const COE_DETAILS: u8 = 1 << 0 | 1 << 2;
/// The flag of a slave that takes no part in LRW datagrams: bit 1.
const NO_LRW: u8 = 1 << 1;
/// The physical ports, four bits each: ports 0 and 1 are MII.
const MII_PORTS: u16 = 0x0011;

fn coe_details(mailbox: Option<Mailbox>) -> u8
    ensures { result ≡ coe_details mailbox }
{
    match mailbox {
        Some(_) => COE_DETAILS,
        None => 0,
    }
}

fn general_flags(lrw: bool) -> u8
    ensures { result ≡ general_flags lrw }
{
    if lrw { 0 } else { NO_LRW }
}

/// The general category. String 1 names the order and the slave.
fn general(kind: &SlaveType) -> [u16; 16]
    ensures { result ≡ general_words kind.now }
{
    let mut words = [0; 16];
    words[1] = pair(1, 1);
    words[2] = pair(0, coe_details(kind.mailbox()));
    words[5] = pair(0, general_flags(kind.lrw()));
    words[8] = MII_PORTS;
    words
}

/// The uses of the FMMUs: the first is for outputs (1) and the second for inputs (2), if there are any.
fn fmmus(kind: &SlaveType) -> [u16; 2]
    ensures { result ≡ fmmus_words kind.now }
{
    [
        pair(for_outputs(kind.outputs()), for_inputs(kind.inputs())),
        0,
    ]
}

fn for_outputs(outputs: &[Pdo]) -> u8
    ensures { result ≡ for_outputs outputs.now }
{
    if outputs.is_empty() { 0 } else { 1 }
}

fn for_inputs(inputs: &[Pdo]) -> u8
    ensures { result ≡ for_inputs inputs.now }
{
    if inputs.is_empty() { 0 } else { 2 }
}

/// Managers 0 and 1: the mailboxes that a master writes and reads.
fn mailbox_managers(mailbox: Option<Mailbox>) -> [SiiManager; 2]
    ensures { result ≡ mailbox_managers mailbox }
{
    let Some(m) = mailbox else {
        let unused = SiiManager {
            settings: SyncManagerSettings::none(),
            usage: 0,
        };
        return [unused, unused];
    };
    [
        SiiManager {
            settings: SyncManagerSettings::of_area(
                m.receive_start,
                m.receive_size,
                CONTROL_MAILBOX_OUT,
            ),
            usage: 1,
        },
        SiiManager {
            settings: SyncManagerSettings::of_area(m.send_start, m.send_size, CONTROL_MAILBOX_IN),
            usage: 2,
        },
    ]
}

/// The settings of the process data of a direction; without bits the manager isn't activated.
fn data_settings(start: u16, bits: usize, control: u8) -> SyncManagerSettings
    requires { bits ≤ 65536 }
    ensures { result ≡ data_settings start bits control }
{
    SyncManagerSettings {
        start,
        length: bits.div_ceil(8) as u16,
        control,
        activate: (bits > 0) as u8,
    }
}

/// Managers 2 and 3: the process data, outputs and inputs.
fn data_managers(kind: &SlaveType) -> [SiiManager; 2]
    ensures { result ≡ data_managers kind.now }
{
    [
        SiiManager {
            settings: data_settings(kind.out_start(), kind.output_bits(), CONTROL_OUTPUTS),
            usage: 3,
        },
        SiiManager {
            settings: data_settings(kind.in_start(), kind.input_bits(), CONTROL_INPUTS),
            usage: 4,
        },
    ]
}

/// The four words of a sync manager: start and length, control and status, activate and usage.
fn manager_words(manager: &SiiManager) -> [u16; 4]
    ensures { result ≡ manager_words manager.now }
{
    let SiiManager { settings, usage } = *manager;
    [
        settings.start,
        settings.length,
        pair(settings.control, 0),
        pair(settings.activate, usage),
    ]
}

/// The words of sync managers.
fn push_managers(words: &mut Listed<u16>, managers: &[SiiManager]) -> Result<(), AllocError>
    ensures { OnOk result (words.new ≡ words.old ++ flat_map manager_words managers.now) }
{
    for manager in managers {
        push_all(words, &manager_words(manager))?;
    }
    Ok(())
}

/// The sync managers.
fn managers(alloc: Global, kind: &SlaveType) -> Result<Listed<u16>, AllocError>
    ensures { IfOk result (λ words. words ≡ managers_words kind.now) }
{
    let mut words = Listed::new(alloc);
    push_managers(&mut words, &mailbox_managers(kind.mailbox()))?;
    push_managers(&mut words, &data_managers(kind))?;
    Ok(words)
}

/// The four words of an entry: index and subindex, no name and no data type, bits, no flags.
fn entry_words(entry: &Entry) -> [u16; 4]
    ensures { result ≡ entry_words entry.now }
{
    [entry.index, pair(entry.subindex, 0), pair(0, entry.bits), 0]
}

/// Puts the entries of a PDO behind words.
fn push_entries(words: &mut Listed<u16>, entries: &[Entry]) -> Result<(), AllocError>
    ensures { OnOk result (words.new ≡ words.old ++ flat_map entry_words entries.now) }
{
    for entry in entries {
        push_all(words, &entry_words(entry))?;
    }
    Ok(())
}

/// Puts a PDO of a sync manager behind words: four words, and those of its entries.
fn push_pdo(words: &mut Listed<u16>, manager: u8, pdo: &Pdo) -> Result<(), AllocError>
    requires { length pdo.now.entries ≤ 64 }
    ensures { OnOk result (words.new ≡ words.old ++ pdo_words manager pdo.now) }
{
    let entries = pdo.entries.as_slice();
    let head = [pdo.index, pair(entries.len() as u8, manager), 0, 0];
    push_all(words, &head)?;
    push_entries(words, entries)
}

/// The PDOs of a direction.
fn pdos_words(alloc: Global, manager: u8, pdos: &[Pdo]) -> Result<Listed<u16>, AllocError>
    requires { All (λ p. length p.entries ≤ 64) pdos.now }
    ensures { IfOk result (λ words. words ≡ flat_map (pdo_words manager) pdos.now) }
{
    let mut words = Listed::new(alloc);
    for pdo in pdos {
        push_pdo(&mut words, manager, pdo)?;
    }
    Ok(words)
}

/// Puts the category of a direction's PDOs behind the others, if it has any.
fn push_pdos(
    alloc: Global,
    words: &mut Listed<u16>,
    number: u16,
    manager: u8,
    pdos: &[Pdo],
) -> Result<(), AllocError>
    requires few { length pdos.now ≤ 16 }
    requires short { All (λ p. length p.entries ≤ 64) pdos.now }
    ensures { OnOk result (words.new ≡ words.old ++ pdos_category number manager pdos.now) }
{
    if pdos.is_empty() {
        return Ok(());
    }
    push_category(words, number, pdos_words(alloc, manager, pdos)?.as_slice())
}
