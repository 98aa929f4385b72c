//! The words of a command line, after the program's name.
ghost use Rattle.std.specs.Prelude.{◌≡◌, ◌≢◌, ◌<◌, ◌^◌, ℕ, MatchOption, decimal};
ghost use Rattle.view_command.specs.inside.Windows.{FitsIfAny};
ghost use Rattle.view_command.specs.Words.{IsDecimal};
ghost use Rattle.view_command.specs.Words as commands;

use crate::views::View;
use chart_texts::{Axis, Window};
use load_set::number_of;
use rt_base::TICK_END;
use view_charts::Form;
use view_tables::Table;

/// The number that a word is in decimal, as it is found.
fn decimal_in(word: &str) -> Option<u64>
    ensures { MatchOption result ((n : ℕ) → n < 2 ^ 64 → word.now ≢ decimal n)
        (λ n. IsDecimal word.now n) }
{
    number_of(word)
}

fn number_in(word: &str) -> Option<u64>
    ensures { result ≡ commands.number_said word.now }
{
    decimal_in(word)
}

fn entry_of(group: Option<u64>, entry: Option<u64>) -> Option<View>
    ensures { result ≡ commands.entry_of group entry }
{
    match (group, entry) {
        (Some(group), Some(entry)) => Some(View::Entry(group, entry)),
        _ => None,
    }
}

/// How a chart is drawn.
fn form_of(word: &str) -> Option<Form>
    ensures { result ≡ commands.form_said word.now }
{
    if word == "text" {
        Some(Form::Text)
    } else if word == "svg" {
        Some(Form::Svg)
    } else {
        None
    }
}

/// The window from a column up to another, where it can be drawn.
fn window_of(from: Option<u64>, to: Option<u64>) -> Option<Window>
    ensures { result ≡ commands.window_of from to }
{
    match (from, to) {
        (Some(from), Some(to)) if from < to && to <= TICK_END && to - from <= 400 => {
            Some(Window { from, to })
        }
        _ => None,
    }
}

/// A chart of all columns.
fn whole_chart(form: Option<Form>, axis: Axis) -> Option<View>
    ensures { result ≡ commands.whole_chart form axis }
{
    match form {
        Some(form) => Some(View::Chart(form, axis, None)),
        None => None,
    }
}

/// A chart of the columns of a window.
fn chart_of(form: Option<Form>, axis: Axis, window: Option<Window>) -> Option<View>
    ensures { result ≡ commands.chart_of form axis window }
{
    match (form, window) {
        (Some(form), Some(window)) => Some(View::Chart(form, axis, Some(window))),
        _ => None,
    }
}

fn of_one(word: &str) -> Option<View>
    ensures { result ≡ commands.one_said word.now }
{
    if word == "jobs" {
        Some(View::Table(Table::Jobs))
    } else if word == "tasks" {
        Some(View::Table(Table::Tasks))
    } else if word == "events" {
        Some(View::Events)
    } else {
        whole_chart(form_of(word), Axis::Ticks)
    }
}

fn of_two(word: &str, next: &str) -> Option<View>
    ensures { result ≡ commands.two_said word.now next.now }
{
    if word == "why" {
        entry_of(Some(0), number_in(next))
    } else if next == "entries" {
        whole_chart(form_of(word), Axis::Entries)
    } else {
        None
    }
}

fn of_three(word: &str, next: &str, last: &str) -> Option<View>
    ensures { result ≡ commands.three_said word.now next.now last.now }
{
    if word == "why" {
        entry_of(number_in(next), number_in(last))
    } else {
        chart_of(
            form_of(word),
            Axis::Ticks,
            window_of(number_in(next), number_in(last)),
        )
    }
}

fn of_four(word: &str, next: &str, from: &str, to: &str) -> Option<View>
    ensures { result ≡ commands.four_said word.now next.now from.now to.now }
{
    if next == "entries" {
        chart_of(
            form_of(word),
            Axis::Entries,
            window_of(number_in(from), number_in(to)),
        )
    } else {
        None
    }
}

/// The view that the words ask for.
pub(crate) fn view_of(words: &[String]) -> Option<View>
    ensures said { result ≡ commands.view_said words.now }
    ensures fits { FitsIfAny result }
{
    match words {
        [word] => of_one(word.as_str()),
        [word, next] => of_two(word.as_str(), next.as_str()),
        [word, next, last] => of_three(word.as_str(), next.as_str(), last.as_str()),
        [word, next, from, to] => {
            of_four(word.as_str(), next.as_str(), from.as_str(), to.as_str())
        }
        _ => None,
    }
}
