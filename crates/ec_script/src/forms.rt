//! The forms of lines: how they are written, and the actions that their words stand for.
ghost use Rattle.std.specs.Prelude.{◌≡◌, map};
ghost use Rattle.std.specs.Char.{is_ascii_uppercase};
ghost use Rattle.std.specs.List.{list_all};
ghost use Rattle.ec_script.specs.Actions.{action_of_form, action_of_words, expectation_of_form, input_action, set_action, test_expected, value_expected};
ghost use Rattle.ec_script.specs.Forms.{agree, fits, form_of, stands_for};
ghost use Rattle.ec_script.specs.Words.{words_of};

use crate::expectation::Expectation;
use crate::line::LineAction;
use crate::operands::Operands;
use crate::value::{WrittenValue, is_range};
use crate::value_test::{Comparison, ValueTest, between_test, compared_test, masked_test};
use ec_table::Table;

/// The form of a line, named for the action that it asks for.
#[derive(Clone, Copy, Debug, PartialEq, Eq, Drop)]
pub enum Form {
    Start,
    Set,
    Begin,
    Pass,
    LosePart,
    Lose,
    Return,
    Close,
    Serve,
    Put,
    Get,
    Fail,
    Reset,
    Input,
    Output,
    Ready,
    Cycle,
    ShowVariable,
    Show,
    Report,
    States,
    Stop,
    Served,
    Expect(ExpectForm),
}

/// The form of a line that expects something, named for what it expects.
#[derive(Clone, Copy, Debug, PartialEq, Eq, Drop)]
pub enum ExpectForm {
    /// Sync unit by its number: taken, or with false not.
    Unit(bool),
    /// All sync units: taken, or with false none.
    Units(bool),
    Ready,
    /// A failed start-up, by the number of its refusal.
    Refusal,
    Failed,
    /// An AL state with an AL status code.
    Code,
    State,
    /// A variable's value, compared so.
    Compared(Comparison),
    /// A variable's masked value: it is, or with false, it isn't.
    Masked(bool),
    /// A variable's value, between two others.
    Range,
    Value,
}

/// How single actions of lines are written: a word in capitals stands for what it names, and any other for itself.
/// Words that fit several forms have the first of them. A form stands before those that are its beginning.
pub static FORMS: [(Form, &str); 42] = [
    (Form::Start, "start"),
    (Form::Set, "set NAME VALUE"),
    (Form::Begin, "begin"),
    (Form::Pass, "pass K"),
    (Form::LosePart, "lose NUMBER part P"),
    (Form::Lose, "lose K"),
    (Form::Return, "return K"),
    (Form::Close, "close"),
    (Form::Serve, "serve S"),
    (Form::Put, "put S I BYTE"),
    (Form::Get, "get S I"),
    (Form::Fail, "fault S"),
    (Form::Reset, "reset S"),
    (Form::Input, "in NAME VALUE"),
    (Form::Output, "out NAME"),
    (Form::Ready, "ready"),
    (Form::Cycle, "cycle"),
    (Form::ShowVariable, "show NAME"),
    (Form::Show, "show"),
    (Form::Report, "report"),
    (Form::States, "states"),
    (Form::Stop, "stop"),
    (Form::Served, "served"),
    (
        Form::Expect(ExpectForm::Compared(Comparison::Equal)),
        "expect NAME == VALUE",
    ),
    (
        Form::Expect(ExpectForm::Compared(Comparison::Unequal)),
        "expect NAME != VALUE",
    ),
    (
        Form::Expect(ExpectForm::Compared(Comparison::Less)),
        "expect NAME < VALUE",
    ),
    (
        Form::Expect(ExpectForm::Compared(Comparison::LessEqual)),
        "expect NAME <= VALUE",
    ),
    (
        Form::Expect(ExpectForm::Compared(Comparison::Greater)),
        "expect NAME > VALUE",
    ),
    (
        Form::Expect(ExpectForm::Compared(Comparison::GreaterEqual)),
        "expect NAME >= VALUE",
    ),
    (
        Form::Expect(ExpectForm::Masked(true)),
        "expect NAME & MASK == VALUE",
    ),
    (
        Form::Expect(ExpectForm::Masked(false)),
        "expect NAME & MASK != VALUE",
    ),
    (Form::Expect(ExpectForm::Unit(true)), "expect taken UNIT"),
    (Form::Expect(ExpectForm::Units(true)), "expect taken"),
    (Form::Expect(ExpectForm::Unit(false)), "expect untaken UNIT"),
    (Form::Expect(ExpectForm::Units(false)), "expect untaken"),
    (Form::Expect(ExpectForm::Ready), "expect ready"),
    (Form::Expect(ExpectForm::Refusal), "expect failed NUMBER"),
    (Form::Expect(ExpectForm::Failed), "expect failed"),
    (Form::Expect(ExpectForm::Code), "expect state S STATE CODE"),
    (Form::Expect(ExpectForm::State), "expect state S STATE"),
    (Form::Expect(ExpectForm::Range), "expect NAME LOW..HIGH"),
    (Form::Expect(ExpectForm::Value), "expect NAME VALUE"),
];

/// How a line is written that does another one several times.
pub const REPEAT: &str = "repeat N LINE";

/// How a line is written that expects that another one can't be done.
pub const EXPECT_NO: &str = "expect no LINE";

/// How a line is written that runs cycles until an expectation holds.
pub const WITHIN: &str = "within N expect ..";

/// How a line is written that prints a text.
pub const ECHO: &str = "echo TEXT";

/// What the words of a single action stand for; `None` if for nothing.
pub fn action_of_words(table: &Table, words: &[&str]) -> Option<LineAction>
    ensures { result ≡ action_of_words table.now (map (λ x. x.now) words.now) }
{
    action_of_form(form_of(words)?, Operands { table, words })
}

/// The form that the words of a line fit; `None` if there is none.
fn form_of(words: &[&str]) -> Option<Form>
    ensures { result ≡ form_of (map (λ x. x.now) words.now) }
{
    let (form, _) = FORMS.iter().find(|row| fits(words, row.1))?;
    Some(*form)
}

/// Whether words fit a form: they are as many, and each of them fits.
fn fits(words: &[&str], form: &str) -> bool
    ensures { result ≡ fits (map (λ x. x.now) words.now) form.now }
{
    agree(words, form) && form.split(' ').count() == words.len()
}

/// Whether each of some words fits the word of a form in its place, as far as both have words.
fn agree(words: &[&str], form: &str) -> bool
    ensures { result ≡ agree (map (λ x. x.now) words.now) (words_of form.now) }
{
    form.split(' ')
        .zip(words)
        .all(|(part, word)| stands_for(part, word))
}

/// Whether a word of a form stands for a word of a line.
fn stands_for(part: &str, word: &str) -> bool
    ensures { result ≡ stands_for part.now word.now }
{
    if is_range(part) {
        is_range(word)
    } else {
        is_placeholder(part) || word == part
    }
}

/// Whether a word of a form stands for what it names.
fn is_placeholder(part: &str) -> bool
    ensures { result ≡ list_all is_ascii_uppercase part.now }
{
    part.as_bytes().iter().all(|byte| byte.is_ascii_uppercase())
}

/// What words of this form stand for; `None` if one of them isn't what the form needs there.
fn action_of_form(form: Form, words: Operands<'_>) -> Option<LineAction>
    ensures { result ≡ action_of_form words.entry.table.now (map (λ x. x.now) words.entry.words.now) form }
{
    match form {
        Form::Start => Some(LineAction::Start),
        Form::Set => words.assignment(1, 2).map(set_action),
        Form::Begin => Some(LineAction::Begin),
        Form::Pass => words.index(1).map(LineAction::Pass),
        Form::LosePart => Some(LineAction::LosePart(words.index(1)?, words.index(3)?)),
        Form::Lose => words.index(1).map(LineAction::Lose),
        Form::Return => words.index(1).map(LineAction::Return),
        Form::Close => Some(LineAction::Close),
        Form::Serve => words.slave(1).map(LineAction::Serve),
        Form::Put => Some(LineAction::Put(words.slave(1)?, words.index(2)?, words.byte(3)?)),
        Form::Get => Some(LineAction::Get(words.slave(1)?, words.index(2)?)),
        Form::Fail => words.slave(1).map(LineAction::Fail),
        Form::Reset => words.slave(1).map(LineAction::Reset),
        Form::Input => words.assignment(1, 2).map(input_action),
        Form::Output => words.variable(1).map(LineAction::Output),
        Form::Ready => Some(LineAction::Ready),
        Form::Cycle => Some(LineAction::Cycle),
        Form::ShowVariable => words.variable(1).map(LineAction::ShowVariable),
        Form::Show => Some(LineAction::Show),
        Form::Report => Some(LineAction::Report),
        Form::States => Some(LineAction::States),
        Form::Stop => Some(LineAction::Stop),
        Form::Served => Some(LineAction::Served),
        Form::Expect(form) => expectation_of_form(form, words).map(LineAction::Expect),
    }
}

/// What words of this form expect; `None` if one of them isn't what the form needs there.
fn expectation_of_form(form: ExpectForm, words: Operands<'_>) -> Option<Expectation>
    ensures { result ≡ expectation_of_form words.entry.table.now (map (λ x. x.now) words.entry.words.now) form }
{
    Some(match form {
        ExpectForm::Unit(taken) => Expectation::Unit(words.number(2)?, taken),
        ExpectForm::Units(taken) => Expectation::Units(taken),
        ExpectForm::Ready => Expectation::Ready,
        ExpectForm::Refusal => Expectation::Failed(Some(words.number(2)?)),
        ExpectForm::Failed => Expectation::Failed(None),
        ExpectForm::Code => {
            Expectation::State(words.slave(2)?, words.state(3)?, Some(words.code(4)?))
        }
        ExpectForm::State => Expectation::State(words.slave(2)?, words.state(3)?, None),
        ExpectForm::Compared(comparison) => {
            let (variable, number) = words.held(1, 3)?;
            test_expected(variable, compared_test(comparison, number))
        }
        ExpectForm::Masked(is) => {
            let ((variable, mask), (_, number)) = (words.mask(1, 3)?, words.mask(1, 5)?);
            test_expected(variable, masked_test(is, mask, number))
        }
        ExpectForm::Range => {
            let (variable, (low, high)) = words.bounds(1, 2)?;
            test_expected(variable, between_test(low, high))
        }
        ExpectForm::Value => value_expected(words.assignment(1, 2)?),
    })
}

/// The action that gives an input variable a value.
fn input_action(assignment: (usize, WrittenValue)) -> LineAction
    ensures { result ≡ input_action assignment }
{
    match assignment {
        (variable, WrittenValue::Number(value)) => LineAction::Input(variable, value),
        (variable, WrittenValue::Outside) => LineAction::Never(variable),
    }
}

/// The action that sets an output variable to a value.
fn set_action(assignment: (usize, WrittenValue)) -> LineAction
    ensures { result ≡ set_action assignment }
{
    match assignment {
        (variable, WrittenValue::Number(value)) => LineAction::Set(variable, value),
        (variable, WrittenValue::Outside) => LineAction::Never(variable),
    }
}

/// The expectation that a variable has a value.
fn value_expected(assignment: (usize, WrittenValue)) -> Expectation
    ensures { result ≡ value_expected assignment }
{
    match assignment {
        (variable, WrittenValue::Number(value)) => Expectation::Is(variable, value),
        (variable, WrittenValue::Outside) => Expectation::Never(variable),
    }
}

/// The expectation that a variable's value meets a test. One with a number that its bits can't hold is no test, and never holds.
fn test_expected(variable: usize, test: Option<ValueTest>) -> Expectation
    ensures { result ≡ test_expected variable test }
{
    match test {
        Some(test) => Expectation::Holds(variable, test),
        None => Expectation::Never(variable),
    }
}
