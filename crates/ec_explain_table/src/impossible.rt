//! Why no device can be what a type for hardware says of it.
use crate::reading::{Element, items_of};
use ec_device::ProcessManager;
use ec_diagnostic::{Diagnosis, MarkedPart};

/// The keys of the managers of the process data, and the mode that their control bytes have in bits 0 to 3.
static MANAGERS: [(&str, u8); 2] = [("out_manager", 4), ("in_manager", 0)];

/// Adds remarks on managers or firmware that don't go together.
pub fn explain_impossible(diagnosis: &mut Diagnosis<'_>, element: Element<'_>) {
    if explain_one_manager(diagnosis, element) {
        return;
    }
    for (key, mode) in MANAGERS {
        if explain_mode(diagnosis, element, key, mode) {
            return;
        }
    }
    for (key, _) in MANAGERS {
        if explain_taken(diagnosis, element, key) {
            return;
        }
    }
    if !explain_without_mailbox(diagnosis, element) {
        explain_no_firmware(diagnosis, element);
    }
}

/// Adds remarks on a key of a type without a mailbox that wants one; returns whether there is one.
fn explain_without_mailbox(diagnosis: &mut Diagnosis<'_>, element: Element<'_>) -> bool {
    let members = element.members;
    if members.get("mailbox").is_some() {
        return false;
    }
    let is_fixed = match members.get("fixed") {
        Some(truth) => truth.as_bool() == Some(true),
        None => false,
    };
    if is_fixed {
        element.under("fixed", MarkedPart::Key).say(
            diagnosis,
            "a fixed assignment is read by a mailbox; a type without one assigns all its PDOs anyway",
        );
        diagnosis.advise("leave `fixed` out, or give the type a `mailbox`");
    }
    let has_init = !items_of(members.get("init")).is_empty();
    if has_init {
        explain_no_downloads(diagnosis, element);
    }
    is_fixed || has_init
}

/// Adds remarks on downloads without a mailbox.
pub fn explain_no_downloads(diagnosis: &mut Diagnosis<'_>, element: Element<'_>) {
    element.under("init", MarkedPart::Key).say(
        diagnosis,
        "downloads come by a mailbox, and the type has none",
    );
    diagnosis.advise("leave `init` out, or give the type a `mailbox`");
}

/// Adds remarks on one manager for both directions; returns whether there is one.
fn explain_one_manager(diagnosis: &mut Diagnosis<'_>, element: Element<'_>) -> bool {
    let (outputs, inputs) = (
        number_of(element, "out_manager"),
        number_of(element, "in_manager"),
    );
    if outputs != inputs {
        return false;
    }
    for (key, _) in MANAGERS {
        if element.members.get(key).is_some() {
            element.under(key, MarkedPart::Value).say(
                diagnosis,
                format_args!("sync manager {outputs} can hold outputs or inputs, not both"),
            );
        }
    }
    diagnosis.advise(
        "give each direction a manager of its own; left out, outputs have manager 2 and inputs 3",
    );
    true
}

/// Adds remarks on a control byte of another mode; returns whether it is of another.
fn explain_mode(
    diagnosis: &mut Diagnosis<'_>,
    element: Element<'_>,
    key: &'static str,
    mode: u8,
) -> bool {
    let Some(control) = item_of(element, key, 1) else {
        return false;
    };
    let has = control % 16;
    if has == i64::from(mode) {
        return false;
    }
    element.under(key, MarkedPart::Value).item(1).say(
        diagnosis,
        format_args!("bits 0 to 3 of this control byte are {has}; here they are {mode}"),
    );
    diagnosis.advise(format_args!(
        "take the control byte from the ESI file; 0x{mode:02X} is its low half"
    ));
    true
}

/// Adds remarks on a manager of process data that a mailbox has; returns whether one is.
fn explain_taken(diagnosis: &mut Diagnosis<'_>, element: Element<'_>, key: &'static str) -> bool {
    let number = number_of(element, key);
    if element.members.get("mailbox").is_none() || number >= 2 {
        return false;
    }
    element.under(key, MarkedPart::Value).item(0).say(
        diagnosis,
        format_args!("sync manager {number} is a mailbox of this type"),
    );
    diagnosis.advise("give the process data managers 2 and 3, or leave `mailbox` out");
    true
}

/// Adds remarks on a mailbox without firmware.
fn explain_no_firmware(diagnosis: &mut Diagnosis<'_>, element: Element<'_>) {
    element.under("firmware", MarkedPart::Value).say(
        diagnosis,
        "a type with a mailbox has firmware, which serves it",
    );
    diagnosis.advise("leave `firmware` out, or leave `mailbox` out");
}

/// The number of the manager under a key, or the usual one of its direction.
fn number_of(element: Element<'_>, key: &str) -> i64 {
    let usual = if key == "out_manager" {
        ProcessManager::usual_outputs()
    } else {
        ProcessManager::usual_inputs()
    };
    item_of(element, key, 0).unwrap_or(i64::from(usual.number))
}

/// A number of the list under a key.
fn item_of(element: Element<'_>, key: &str, place: usize) -> Option<i64> {
    items_of(element.members.get(key)).get(place)?.as_integer()
}
