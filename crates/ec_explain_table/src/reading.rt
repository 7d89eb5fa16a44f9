//! Why a text is no link table: refusals 11 to 15.
use crate::impossible::{explain_impossible, explain_no_downloads};
use crate::misfit::{Mark, Misfit, Wrong};
use crate::numbers::Numbers;
use crate::rule::{Lacking, Named, Taken, is_key, shape_of, word_of};
use ec_diagnostic::{Diagnosis, MarkedPart, Meant, Nearest, PathStep, Printable, Span};
use ec_table::{Fault, Format, Key, Position, Rule, Section, Shape, Version};
use toml::{Table, Value};

/// The keys by which elements name others, and the sections of those.
static REFERENCES: [(&str, &str); 3] = [("type", "type"), ("var", "variable"), ("slave", "slave")];

/// The keys by which a slave assigns PDOs, and the lists of its type that they are of.
static ASSIGNMENTS: [(&str, &str); 2] = [("out", "rxpdo"), ("in", "txpdo")];

/// An element of a document, or the document as a whole.
#[derive(Clone, Copy)]
pub struct Element<'d> {
    document: &'d Table,
    place: Position,
    /// What stands in it.
    pub members: &'d Table,
}

impl<'d> Element<'d> {
    /// What stands at a place, if it is a table.
    fn at(document: &'d Table, place: Position) -> Option<Element<'d>> {
        let members = match place.section {
            Section::Top => document,
            section => {
                let elements = elements_of(document, word_of(section));
                elements.get(place.element)?.as_table()?
            }
        };
        Some(Element {
            document,
            place,
            members,
        })
    }

    /// The kind of table that it is.
    fn shape(self) -> Shape {
        shape_of(self.place.section)
    }

    /// The keys that it may have: those of the newest version of the format, for hardware if the document is.
    fn keys(self) -> &'static [Key] {
        let hardware = format_of(self.document).hardware;
        self.shape().keys(Format {
            version: Version::Two,
            hardware,
        })
    }

    /// The text under a key.
    fn text(self, key: &str) -> Option<&'d str> {
        self.members.get(key)?.as_str()
    }

    /// A part of what stands under a key of it.
    pub fn under(self, key: &'d str, part: MarkedPart) -> Mark<'d> {
        Mark::under(self.place, key, part)
    }
}

/// Adds remarks on why a text, with this first fault, is no link table.
pub fn explain_fault(diagnosis: &mut Diagnosis<'_>, text: &str, fault: Fault) {
    match toml::table_from_str(diagnosis.alloc, text) {
        Ok(document) => explain_document(diagnosis, &document, fault),
        Err(error) if error.is_memory() => diagnosis.fall_short(),
        Err(error) => explain_syntax(diagnosis, &error),
    }
}

/// Adds remarks on what the reader of TOML reports.
fn explain_syntax(diagnosis: &mut Diagnosis<'_>, error: &toml::de::Error) {
    let message = error.message();
    let words = format_args!("this is no TOML: {message}");
    match error.span() {
        Some(range) => {
            let (start, end) = (range.start, range.end);
            diagnosis.at_span(Span { start, end }, words);
        }
        None => diagnosis.note(words),
    }
    diagnosis.advise("put the syntax right there, or in the line before");
}

/// Adds remarks on a fault of a document.
fn explain_document(diagnosis: &mut Diagnosis<'_>, document: &Table, fault: Fault) {
    let Some(place) = fault.place() else {
        return;
    };
    let Some(element) = Element::at(document, place) else {
        return;
    };
    match fault {
        Fault::Toml => (),
        Fault::BadKey(_) => explain_bad_key(diagnosis, element),
        Fault::BadValue(_) => explain_bad_value(diagnosis, element),
        Fault::TwiceNamed(_) => explain_twice(diagnosis, element),
        Fault::UnknownName(_) => explain_unknown(diagnosis, element),
    }
}

/// Adds remarks on a key that is unknown or missing.
fn explain_bad_key(diagnosis: &mut Diagnosis<'_>, element: Element<'_>) {
    let (shape, format) = (element.shape(), format_of(element.document));
    for key in element.members.keys() {
        let key = key.as_str();
        if !is_key(key, shape.keys(Format::full())) {
            return explain_unknown_key(diagnosis, element, key);
        }
        if !is_key(key, element.keys()) {
            return explain_hardware_key(diagnosis, element, key);
        }
        if !is_key(key, shape.keys(format)) {
            return explain_early_unit(diagnosis, element);
        }
    }
    explain_missing(diagnosis, element);
}

/// Adds remarks on a key that no element of its section has.
fn explain_unknown_key(diagnosis: &mut Diagnosis<'_>, element: Element<'_>, key: &str) {
    let (section, keys) = (element.place.section, element.keys());
    let (word, shown, all) = (word_of(section), Printable(key), Named(keys));
    let near = Meant(meant_key(diagnosis, key, keys));
    let mark = Mark::under(element.place, key, MarkedPart::Key);
    match section {
        Section::Top => mark.say(diagnosis, format_args!("`{shown}` is no section{near}")),
        _ => mark.say(
            diagnosis,
            format_args!("`{shown}` is no key of a {word}{near}"),
        ),
    }
    diagnosis.advise(format_args!("leave it out or correct it; a {word} has the keys {all}"));
}

/// The name of the one of these keys that may have been meant.
fn meant_key(
    diagnosis: &mut Diagnosis<'_>,
    key: &str,
    keys: &'static [Key],
) -> Option<&'static str> {
    let mut near = Nearest::to(key);
    for (place, (name, _, _)) in keys.iter().enumerate() {
        near = diagnosis.nearer(near, key, place, name);
    }
    Some(keys.get(near.place?)?.0)
}

/// Adds remarks on a sync unit in a table that isn't of version 2.
fn explain_early_unit(diagnosis: &mut Diagnosis<'_>, element: Element<'_>) {
    let words = "`unit` is a key only where the text begins with `version = 2`";
    let mark = element.under("unit", MarkedPart::Key);
    mark.say(diagnosis, words);
    diagnosis.advise("write `version = 2` above all tables, or leave `unit` out");
}

/// Adds remarks on a key for hardware in a table that isn't.
fn explain_hardware_key(diagnosis: &mut Diagnosis<'_>, element: Element<'_>, key: &str) {
    let shown = Printable(key);
    let mark = Mark::under(element.place, key, MarkedPart::Key);
    mark.say(
        diagnosis,
        format_args!("`{shown}` is a key only of a table with `hardware = true`"),
    );
    diagnosis.advise(format_args!(
        "write `hardware = true` above all tables, or leave `{shown}` out"
    ));
}

/// The format of the document.
fn format_of(document: &Table) -> Format {
    let version = match document.get("version") {
        Some(version) if version.as_integer() == Some(2) => Version::Two,
        _ => Version::One,
    };
    let hardware = match document.get("hardware") {
        Some(truth) => truth.as_bool() == Some(true),
        None => false,
    };
    Format { version, hardware }
}

/// Adds remarks on the keys that an element lacks.
fn explain_missing(diagnosis: &mut Diagnosis<'_>, element: Element<'_>) {
    let place = element.place;
    let lacks = Lacking {
        members: element.members,
        keys: element.keys(),
    };
    let (mark, word, number) = (Mark::of(place), word_of(place.section), place.element);
    match place.section {
        Section::Top => mark.say(diagnosis, format_args!("the document lacks {lacks}")),
        _ => mark.say(diagnosis, format_args!("{word} {number} lacks {lacks}")),
    }
    diagnosis.advise(format_args!("add {lacks}"));
}

/// Adds remarks on a value that isn't what its key takes.
fn explain_bad_value(diagnosis: &mut Diagnosis<'_>, element: Element<'_>) {
    match element.place.section {
        Section::Top => explain_bad_top(diagnosis, element),
        _ if explain_misfit(diagnosis, element) => (),
        Section::Type => explain_impossible(diagnosis, element),
        _ => explain_fixed(diagnosis, element),
    }
}

/// Adds remarks on a value of the document that isn't what its key takes.
fn explain_bad_top(diagnosis: &mut Diagnosis<'_>, element: Element<'_>) {
    for (key, rule, _) in element.keys() {
        let is_bad = match *rule {
            Rule::Tables => explain_bad_section(diagnosis, element.document, *key),
            Rule::Truth => explain_bad_truth(diagnosis, element, *key),
            rule => explain_bad_version(diagnosis, element, *key, rule),
        };
        if is_bad {
            return;
        }
    }
}

/// Adds remarks on a version that there isn't; returns whether it is none.
fn explain_bad_version(
    diagnosis: &mut Diagnosis<'_>,
    element: Element<'_>,
    key: &'static str,
    rule: Rule,
) -> bool {
    let is_bad = explain_misfit_under(diagnosis, element, key, rule);
    if is_bad {
        diagnosis.advise("give version 1 or 2; 2 has sync units, the key `unit` of a slave");
    }
    is_bad
}

/// Adds remarks on a value that is no truth value, under a key of the document that takes one; returns whether it is none.
fn explain_bad_truth(
    diagnosis: &mut Diagnosis<'_>,
    element: Element<'_>,
    key: &'static str,
) -> bool {
    let is_bad = explain_misfit_under(diagnosis, element, key, Rule::Truth);
    if is_bad {
        diagnosis.advise(format_args!("give `{key}` true or false, or leave it out"));
    }
    is_bad
}

/// Adds remarks on a section that is no list of tables; returns whether it is none.
fn explain_bad_section(
    diagnosis: &mut Diagnosis<'_>,
    document: &Table,
    section: &'static str,
) -> bool {
    match document.get(section) {
        Some(value) if !value.is_array() => {
            explain_no_list(diagnosis, section, value.is_table());
            true
        }
        _ => explain_no_table(diagnosis, section, elements_of(document, section)),
    }
}

/// Adds remarks on a section that is no list, but may be a table.
fn explain_no_list(diagnosis: &mut Diagnosis<'_>, section: &'static str, is_table: bool) {
    let alone = if is_table {
        ", and this is one table alone"
    } else {
        ""
    };
    diagnosis.at(
        &[PathStep::Key(section)],
        MarkedPart::Key,
        format_args!("a section is a list of tables{alone}"),
    );
    diagnosis.advise(format_args!("write `[[{section}]]` above each table of the section"));
}

/// Adds remarks on the first element of a section that is no table; returns whether there is one.
fn explain_no_table(
    diagnosis: &mut Diagnosis<'_>,
    section: &'static str,
    elements: &[Value],
) -> bool {
    for (place, element) in elements.iter().enumerate() {
        if !element.is_table() {
            diagnosis.at(
                &[PathStep::Key(section), PathStep::Item(place)],
                MarkedPart::Value,
                format_args!("{section} {place} is no table"),
            );
            diagnosis.advise("write a table in its place, as `{ name = .. }`");
            return true;
        }
    }
    false
}

/// Adds remarks on a value of an element that isn't what its key takes; returns whether there is one.
fn explain_misfit(diagnosis: &mut Diagnosis<'_>, element: Element<'_>) -> bool {
    for (key, rule, _) in element.keys() {
        if explain_misfit_under(diagnosis, element, *key, *rule) {
            let taken = Taken(*rule);
            diagnosis.advise(format_args!("give `{key}` what it takes: {taken}"));
            return true;
        }
    }
    false
}

/// Adds remarks on a value under a key that doesn't fit a rule; returns whether it doesn't.
fn explain_misfit_under<'d>(
    diagnosis: &mut Diagnosis<'_>,
    element: Element<'d>,
    key: &'d str,
    rule: Rule,
) -> bool {
    let Some(value) = element.members.get(key) else {
        return false;
    };
    let Err(wrong) = element.under(key, MarkedPart::Value).hold(value, rule) else {
        return false;
    };
    let Wrong { mark, misfit } = wrong;
    let near = Meant(meant_in_pdo(diagnosis, misfit));
    mark.say(diagnosis, format_args!("{misfit}{near}"));
    true
}

/// The key of a PDO that may have been meant by one that it doesn't have.
fn meant_in_pdo(diagnosis: &mut Diagnosis<'_>, misfit: Misfit<'_>) -> Option<&'static str> {
    let Misfit::NoKey(key) = misfit else {
        return None;
    };
    meant_key(diagnosis, key, Shape::Pdo.keys(Format::full()))
}

/// Adds remarks on a slave that assigns PDOs of its own choice, though its type has no mailbox or a fixed assignment, or that
/// gets downloads without a mailbox.
fn explain_fixed(diagnosis: &mut Diagnosis<'_>, element: Element<'_>) {
    let Some(kind) = element.text("type") else {
        return;
    };
    let has_mailbox = value_under(element.document, kind, "mailbox").is_some();
    let why = if has_mailbox {
        "a fixed assignment"
    } else {
        "no mailbox"
    };
    let mut has_other = false;
    for (key, list) in ASSIGNMENTS {
        let known = indices_under(element.document, kind, list);
        let written = element.members.get(key);
        if written.is_some() && !Numbers::under(written).is_same(known) {
            has_other = true;
            let mark = element.under(key, MarkedPart::Key);
            mark.say(
                diagnosis,
                format_args!(
                    "type {kind} has {why}, so its slaves assign all its PDOs, in the order of its `{list}`: {known}"
                ),
            );
        }
    }
    if !has_other {
        explain_no_downloads(diagnosis, element);
    } else if has_mailbox {
        diagnosis.advise("leave `out` and `in` out, or leave the type's `fixed` out");
    } else {
        diagnosis.advise("leave `out` and `in` out, or give the type a `mailbox`");
    }
}

/// Adds remarks on a name or an index that stands twice.
fn explain_twice(diagnosis: &mut Diagnosis<'_>, element: Element<'_>) {
    if explain_taken_name(diagnosis, element) {
        return;
    }
    for key in ["rxpdo", "txpdo", "out", "in"] {
        if explain_twice_under(diagnosis, element, key) {
            return;
        }
    }
}

/// Adds remarks on a name that an earlier element has; returns whether one has it.
fn explain_taken_name(diagnosis: &mut Diagnosis<'_>, element: Element<'_>) -> bool {
    let (word, second) = (word_of(element.place.section), element.place.element);
    let Some(name) = element.text("name") else {
        return false;
    };
    let Some(first) = place_before(elements_of(element.document, word), second, name) else {
        return false;
    };
    let shown = Printable(name);
    diagnosis.at_key(
        word,
        first,
        "name",
        format_args!("{word} {first} has the name `{shown}`"),
    );
    diagnosis.at_key(
        word,
        second,
        "name",
        format_args!("{word} {second} has the name `{shown}` too"),
    );
    diagnosis.advise("change one of the names, and the references to it");
    true
}

/// The place of the first element with this name before a place.
fn place_before(elements: &[Value], place: usize, name: &str) -> Option<usize> {
    for (earlier, element) in elements.iter().take(place).enumerate() {
        if text_under(element, "name") == Some(name) {
            return Some(earlier);
        }
    }
    None
}

/// Adds remarks on an index that stands twice under a key; returns whether one does.
fn explain_twice_under(
    diagnosis: &mut Diagnosis<'_>,
    element: Element<'_>,
    key: &'static str,
) -> bool {
    let numbers = Numbers::under(element.members.get(key));
    let Some((first, second, index)) = numbers.twice() else {
        return false;
    };
    let list = element.under(key, MarkedPart::Key);
    list.item(first).say(
        diagnosis,
        format_args!("PDO 0x{index:04X} stands here first"),
    );
    list.item(second).say(
        diagnosis,
        format_args!("PDO 0x{index:04X} stands in `{key}` once more"),
    );
    diagnosis.advise("leave one of them out, or correct its index");
    true
}

/// Adds remarks on a name or an index that is unknown.
fn explain_unknown(diagnosis: &mut Diagnosis<'_>, element: Element<'_>) {
    for (key, section) in REFERENCES {
        if explain_unknown_name(diagnosis, element, key, section) {
            return;
        }
    }
    for (key, list) in ASSIGNMENTS {
        if explain_unknown_pdo(diagnosis, element, key, list) {
            return;
        }
    }
}

/// Adds remarks on a reference to an element that its section doesn't have; returns whether there is one.
fn explain_unknown_name(
    diagnosis: &mut Diagnosis<'_>,
    element: Element<'_>,
    key: &'static str,
    section: &str,
) -> bool {
    let Some(name) = element.text(key) else {
        return false;
    };
    let elements = elements_of(element.document, section);
    if place_before(elements, elements.len(), name).is_some() {
        return false;
    }
    let (shown, near) = (
        Printable(name),
        Meant(meant_name(diagnosis, name, elements)),
    );
    let mark = element.under(key, MarkedPart::Value);
    mark.say(
        diagnosis,
        format_args!("no {section} has the name `{shown}`{near}"),
    );
    diagnosis.advise(format_args!("correct the name, or add a {section} of that name"));
    true
}

/// The name of an element that may have been meant.
fn meant_name<'v>(
    diagnosis: &mut Diagnosis<'_>,
    word: &str,
    elements: &'v [Value],
) -> Option<&'v str> {
    let mut near = Nearest::to(word);
    for (place, element) in elements.iter().enumerate() {
        if let Some(name) = text_under(element, "name") {
            near = diagnosis.nearer(near, word, place, name);
        }
    }
    text_under(elements.get(near.place?)?, "name")
}

/// Adds remarks on a PDO that a slave assigns and its type doesn't have; returns whether there is one.
fn explain_unknown_pdo(
    diagnosis: &mut Diagnosis<'_>,
    element: Element<'_>,
    key: &'static str,
    list: &str,
) -> bool {
    let Some(kind) = element.text("type") else {
        return false;
    };
    let known = indices_under(element.document, kind, list);
    let numbers = Numbers::under(element.members.get(key));
    let Some((item, index)) = numbers.first_not_in(known) else {
        return false;
    };
    let mark = element.under(key, MarkedPart::Value).item(item);
    mark.say(
        diagnosis,
        format_args!("type {kind} has no PDO 0x{index:04X} in `{list}`; it has {known}"),
    );
    diagnosis.advise("correct the index, or add the PDO to the type");
    true
}

/// The indices of the PDOs in a list of the type with this name; none if there is no such type.
fn indices_under<'d>(document: &'d Table, kind: &str, list: &str) -> Numbers<'d> {
    Numbers::under(value_under(document, kind, list))
}

/// The value under a key of the type with a name.
fn value_under<'d>(document: &'d Table, kind: &str, key: &str) -> Option<&'d Value> {
    for row in elements_of(document, "type") {
        if text_under(row, "name") == Some(kind) {
            return row.get(key);
        }
    }
    None
}

/// The text under a key of an element.
fn text_under<'v>(element: &'v Value, key: &str) -> Option<&'v str> {
    element.as_table()?.get(key)?.as_str()
}

/// The elements of a section.
fn elements_of<'v>(document: &'v Table, section: &str) -> &'v [Value] {
    items_of(document.get(section))
}

/// The items of a list; none if there is no list.
pub fn items_of(list: Option<&Value>) -> &[Value] {
    match list {
        Some(Value::Array(items)) => items.as_slice(),
        _ => &[],
    }
}
