//! The form that a line begins as.
use crate::word::Line;
use ec_diagnostic::{Diagnosis, Nearest};
use ec_script::{ECHO, FORMS, Form, REPEAT, WITHIN, WordKind, bounds_of};

/// How lines are written that aren't single actions, but begin with a word of their own.
static OTHERS: [&str; 3] = [REPEAT, WITHIN, ECHO];

/// The forms that lines may have.
#[derive(Clone, Copy, PartialEq, Eq)]
pub enum Forms {
    /// Those of a script of simulated slaves.
    Script,
    /// All.
    All,
}

impl Forms {
    /// Whether lines may have this form.
    fn has(self, form: Form) -> bool {
        self == Forms::All || is_scripted(form)
    }
}

/// The form that a line begins as. `is_variable` says whether it is an `expect` of three words whose second is the
/// name of a variable: then it has a form of three words.
pub fn form_of(forms: Forms, line: Line<'_>, is_variable: bool) -> Option<&'static str> {
    for (form, text) in &FORMS {
        let has_room = !is_variable || text.split(' ').count() == 3;
        if forms.has(*form) && has_room && begins(line, text) {
            return Some(*text);
        }
    }
    None
}

/// Whether a script of simulated slaves has lines of this form.
fn is_scripted(form: Form) -> bool {
    !matches!(form, Form::Report | Form::LosePart | Form::Served)
}

/// Whether a line begins as a form does: all words of the form that stand for themselves are in their places, and a range is a word
/// with `..` in it.
fn begins(line: Line<'_>, form: &str) -> bool {
    for (place, part) in form.split(' ').enumerate() {
        let fits = match WordKind::of(part) {
            None => line.has(place, part),
            Some(WordKind::Range) => has_range(line, place),
            Some(_) => true,
        };
        if !fits {
            return false;
        }
    }
    true
}

/// Whether the word at a place has `..` in it.
fn has_range(line: Line<'_>, place: usize) -> bool {
    match line.word(place) {
        Some(word) => bounds_of(word.text).is_some(),
        None => false,
    }
}

/// The first word of a line that may have been meant.
pub fn verb_near(diagnosis: &mut Diagnosis<'_>, forms: Forms, word: &str) -> Option<&'static str> {
    let mut near = Nearest::to(word);
    for (place, (form, text)) in FORMS.iter().enumerate() {
        if forms.has(*form) {
            near = diagnosis.nearer(near, word, place, first_word(text));
        }
    }
    for (place, text) in OTHERS.iter().enumerate() {
        let behind = FORMS.len().saturating_add(place);
        near = diagnosis.nearer(near, word, behind, first_word(text));
    }
    let place = near.place?;
    match FORMS.get(place) {
        Some((_, text)) => Some(first_word(text)),
        None => Some(first_word(OTHERS.get(place.saturating_sub(FORMS.len()))?)),
    }
}

/// The first word of a form.
fn first_word(form: &'static str) -> &'static str {
    match form.split_once(' ') {
        Some((first, _)) => first,
        None => form,
    }
}
