//! Reads the fields of a line of tables, and adds them to a draft.

ghost use Rattle.std.specs.Prelude.{◌≡◌, ◌+◌, ◌≤◌, ◌<◌, ◌==◌, ◌++◌, [], ◌∷◌, true, false, map, length, codes, position, All, IfOk, IfSome, MatchResult, MatchOption};
ghost use Rattle.std.specs.Char.{is_ascii_digit};
ghost use Rattle.std.specs.List.{slice_split, list_all, range_with_len};
ghost use Rattle.std.specs.Str.{bytes_eq};
ghost use Rattle.net_script.specs.declared.cause.ScriptCause.TheVariants.{BadNumber};
ghost use Rattle.net_script.specs.Rules.{number_cause};
ghost use Rattle.common_lines.specs.Words.{is_number, number_value};
ghost use Rattle.common_lines.specs.Faults.{unless};
ghost use Rattle.common_lines.specs.Lines.{parts_of};
ghost use Rattle.row_text.specs.TableForms.{NumberLine, RowLine, EndLine};
ghost use Rattle.table_script.specs.TableRules.{are_ports, port_words, is_colon, is_pair, are_pairs, row_of, entry_cause, is_numbered, IsKept};
ghost use Rattle.table_script.specs.TableTexts.{AddsTableForm, IsFaultyTableForm};
ghost use Rattle.table_script.specs.TableSteps.{IsNoRow, ReadsTable, IsWrongTable};
ghost use Rattle.common_lines.specs.Faults.{IsField};
ghost use Rattle.common_lines.specs.Stops.{IsStep};

use crate::component::Network;
use crate::table_draft::{EntryAt, NumberAt, TableDraft};
use crate::table_words::next_word;
use an_base::place::Place;
use an_base::port::Port;
use an_base::row::{Exits, Row};
use common_lines::line::first_of;
use common_lines::stop::Stop;
use common_lines::word::{is, is_number, number_of};
use net_script::cause::ScriptCause;
use net_script::field::{known_switch, number_in};
use net_script::form::ScriptStop;
use net_script::script::Script;

/// Reads a line of tables that has these `words`, and adds it to `draft`.
///
/// The first of the words must not be `row`, and `draft` must come from lines after this script.
///
/// # Errors
/// The first reason for which the line is faulty, or `OutOfMemory`.
pub fn read_table_form(
    draft: &mut TableDraft,
    network: &Network,
    words: &[&[u8]],
) -> Result<(), ScriptStop>
    requires kept { IsKept network.now.script.now draft.old }
    requires words { IsNoRow (map (λ w. w.now) words.now) }
    ensures { IsStep result (AddsTableForm network.now.script.now draft.old (map (λ w. w.now) words.now) draft.new)
        (IsFaultyTableForm network.now.script.now draft.old (map (λ w. w.now) words.now)) }
{
    match words {
        [first, rest @ ..] => read_first_word(draft, network, first, rest),
        _ => Err(Stop::Fault(ScriptCause::UnknownWord)),
    }
}

fn read_first_word(
    draft: &mut TableDraft,
    network: &Network,
    first: &[u8],
    rest: &[&[u8]],
) -> Result<(), ScriptStop>
    requires kept { IsKept network.now.script.now draft.old }
    requires word { bytes_eq first.now (codes "row") ≡ false }
    ensures { IsStep result (AddsTableForm network.now.script.now draft.old (first.now
        ∷ map (λ w. w.now) rest.now) draft.new)
        (IsFaultyTableForm network.now.script.now draft.old (first.now ∷ map (λ w. w.now) rest.now)) }
{
    if is(first, "component") {
        return Ok(());
    }
    if is(first, "member") {
        return Ok(());
    }
    if is(first, "number") {
        return read_number_words(draft, network, rest);
    }
    if is(first, "end") && rest.is_empty() {
        return read_table_end(draft, network.script);
    }
    Err(Stop::Fault(ScriptCause::UnknownWord))
}

fn read_number_words(
    draft: &mut TableDraft,
    network: &Network,
    words: &[&[u8]],
) -> Result<(), ScriptStop>
    requires kept { IsKept network.now.script.now draft.old }
    ensures { IsStep result (AddsTableForm network.now.script.now draft.old (codes "number"
        ∷ map (λ w. w.now) words.now) draft.new)
        (IsFaultyTableForm network.now.script.now draft.old (codes "number" ∷ map (λ w. w.now) words.now)) }
{
    match words {
        [name, n] => read_number_line(draft, network, name, n),
        _ => Err(Stop::Fault(ScriptCause::UnknownWord)),
    }
}

#[tactic(auto, unfolding(crate::specs::TableRules::number_line_cause))]
fn read_number_line(
    draft: &mut TableDraft,
    network: &Network,
    name: &[u8],
    n: &[u8],
) -> Result<(), ScriptStop>
    requires kept { IsKept network.now.script.now draft.old }
    ensures { IsStep result (ReadsTable network.now.script.now draft.old (NumberLine name.now n.now) draft.new)
        (IsWrongTable network.now.script.now draft.old (NumberLine name.now n.now)) }
{
    let s = known_switch(network.script, name)?;
    if draft.is_numbered(s) {
        return Err(Stop::Fault(ScriptCause::NameTwice));
    }
    let number = number_in(n, 1, 126)? as u8;
    if draft.is_number_taken(network.labels, s, number) {
        return Err(Stop::Fault(ScriptCause::NameTwice));
    }
    draft.push_number(NumberAt { s, number })?;
    Ok(())
}

/// Reads a line of tables that has the word `row` and then the words of `text`, and adds it to `draft`.
///
/// # Errors
/// The first reason for which the line is faulty, or `OutOfMemory`.
pub fn read_row_words(
    draft: &mut TableDraft,
    script: &Script,
    text: &[u8],
) -> Result<(), ScriptStop>
    ensures { IsStep result (AddsTableForm script.now draft.old (codes "row" ∷ parts_of text.now) draft.new)
        (IsFaultyTableForm script.now draft.old (codes "row" ∷ parts_of text.now)) }
{
    let Some((name, rest)) = next_word(text) else {
        return Err(Stop::Fault(ScriptCause::UnknownWord));
    };
    let Some((entry, pairs)) = next_word(rest) else {
        return Err(Stop::Fault(ScriptCause::UnknownWord));
    };
    read_row_line(draft, script, name, entry, pairs)
}

#[tactic(auto, unfolding(crate::specs::TableRules::row_line_cause))]
fn read_row_line(
    draft: &mut TableDraft,
    script: &Script,
    name: &[u8],
    entry: &[u8],
    pairs: &[u8],
) -> Result<(), ScriptStop>
    ensures { IsStep result
        (ReadsTable script.now draft.old (RowLine name.now entry.now (parts_of pairs.now)) draft.new)
        (IsWrongTable script.now draft.old (RowLine name.now entry.now (parts_of pairs.now))) }
{
    let s = known_switch(script, name)?;
    let entry = entry_in(entry)?;
    if draft.is_entered(s, entry) {
        return Err(Stop::Fault(ScriptCause::NameTwice));
    }
    draft.push_entry(EntryAt { s, entry })?;
    push_rows(draft, s, entry, pairs)
}

// The entry that a word gives.
fn entry_in(word: &[u8]) -> Result<Port, ScriptCause>
    ensures entry { IsField result (entry_cause word.now) (number_value word.now) }
    ensures range { IfOk result (λ e. e ≤ 12) }
{
    if !is_number(word) {
        return Err(ScriptCause::BadNumber);
    }
    match number_of(word) {
        Some(entry) if entry <= 12 => Ok(Port(entry as u8)),
        _ => Err(ScriptCause::PortRange),
    }
}

// Adds the rows of the pairs in `pairs`, whose numbers must ascend.
fn push_rows(draft: &mut TableDraft, s: Place, entry: Port, pairs: &[u8]) -> Result<(), ScriptStop>
    ensures { IsStep result
        ((are_pairs 0 (parts_of pairs.now) ≡ true)
        × (draft.new ≡ record draft.old { rows = draft.old.rows ++ map (row_of s entry) (parts_of pairs.now) }))
        (λ c. (are_pairs 0 (parts_of pairs.now) ≡ false) × (c ≡ BadNumber)) }
{
    let mut left = pairs;
    let mut above = 0u8;
    'pairs: while let Some((pair, rest)) = next_word(left) {
        let row = row_in(s, entry, pair)?;
        let to = row.to;
        if to <= above {
            return Err(Stop::Fault(ScriptCause::BadNumber));
        }
        draft.push_row(row)?;
        above = to;
        left = rest;
    }
    Ok(())
}

// The row that a pair gives.
#[tactic(auto, unfolding(crate::specs::TableRules::is_pair))]
fn row_in(s: Place, entry: Port, pair: &[u8]) -> Result<Row, ScriptCause>
    ensures { IsField result (unless (is_pair pair.now) BadNumber) (row_of s entry pair.now) }
{
    let Some(colon) = colon_of(pair) else {
        return Err(ScriptCause::BadNumber);
    };
    let to = short_number(&pair[..colon], 126)?;
    let exits = exits_in(&pair[colon + 1..])?;
    Ok(Row {
        at: s.as_u8(),
        entry: entry.as_u8(),
        to,
        exits,
    })
}

// The position of the first colon. In most pairs it is after one to three digits.
fn colon_of(pair: &[u8]) -> Option<usize>
    ensures { result ≡ position is_colon pair.now }
{
    match pair {
        [a, b':', ..] if *a != b':' => Some(1),
        [a, b, b':', ..] if *a != b':' && *b != b':' => Some(2),
        [a, b, c, b':', ..] if *a != b':' && *b != b':' && *c != b':' => Some(3),
        _ => first_of(pair, b':'),
    }
}

// The number from 1 to `most` that a word gives.
#[inline]
fn short_number(word: &[u8], most: u8) -> Result<u8, ScriptCause>
    ensures number { IsField result (number_cause 1 most word.now) (number_value word.now) }
    ensures range { IfOk result (λ n. (1 ≤ n) × (n ≤ most)) }
{
    match short_value(word) {
        Some(number) if 1 <= number && number <= u16::from(most) => Ok(number as u8),
        Some(_) => Err(ScriptCause::BadNumber),
        None => long_number(word, most),
    }
}

// The number from 1 to `most` that a word of any length gives.
#[cold]
#[inline(never)]
fn long_number(word: &[u8], most: u8) -> Result<u8, ScriptCause>
    ensures number { IsField result (number_cause 1 most word.now) (number_value word.now) }
    ensures range { IfOk result (λ n. (1 ≤ n) × (n ≤ most)) }
{
    let number = number_in(word, 1, u64::from(most))?;
    Ok(number as u8)
}

// The value of a number of up to three digits, reading each once; `None` for other words.
fn short_value(word: &[u8]) -> Option<u16>
    ensures { IfSome result (λ n. (is_number word.now ≡ true) × (n ≡ number_value word.now)) }
{
    match word {
        [ones] => Some(digit(*ones)?),
        [tens, ones] => Some(first_digit(*tens)? * 10 + digit(*ones)?),
        [hundreds, tens, ones] => {
            Some(first_digit(*hundreds)? * 100 + digit(*tens)? * 10 + digit(*ones)?)
        }
        _ => None,
    }
}

// The value of a digit.
fn digit(byte: u8) -> Option<u16>
    ensures { IfSome result (λ d. (is_ascii_digit byte ≡ true) × (d + 48 ≡ byte) × (d < 10)) }
{
    if byte.is_ascii_digit() {
        Some(u16::from(byte - b'0'))
    } else {
        None
    }
}

// The value of a digit other than 0.
fn first_digit(byte: u8) -> Option<u16>
    ensures { IfSome result (λ d. (is_ascii_digit byte ≡ true) × (d + 48 ≡ byte) × (d < 10) × (0 < d)) }
{
    match digit(byte) {
        Some(digit) if digit > 0 => Some(digit),
        _ => None,
    }
}

// Reports whether a text is a dash.
fn is_dash(text: &[u8]) -> bool
    ensures { result ≡ bytes_eq text.now (codes "-") }
{
    match text {
        [c] => *c == b'-',
        _ => false,
    }
}

// The exits that a text gives: none for `-`, otherwise ascending ports between slashes.
fn exits_in(text: &[u8]) -> Result<Exits, ScriptCause>
    ensures { IsField result (unless (are_ports 0 (port_words text.now)) BadNumber)
        (map number_value (port_words text.now)) }
{
    let mut exits = Exits::new();
    if is_dash(text) {
        return Ok(exits);
    }
    if let Some(exits) = short_exits(text) {
        return Ok(exits);
    }
    push_ports(&mut exits, 0, text)?;
    Ok(exits)
}

// The exits that a text of one digit gives; `None` for other texts.
fn short_exits(text: &[u8]) -> Option<Exits>
    ensures { IfSome result (λ exits. (are_ports 0 (port_words text.now) ≡ true)
        × (exits ≡ map number_value (port_words text.now))) }
{
    match text {
        [c] => one_exit(*c),
        _ => None,
    }
}

// The exit that a digit other than 0 gives.
fn one_exit(c: u8) -> Option<Exits>
    ensures { IfSome result (λ exits. (are_ports 0 (port_words (c ∷ [])) ≡ true)
        × (exits ≡ map number_value (port_words (c ∷ [])))) }
{
    let port = first_digit(c)?;
    let mut exits = Exits::new();
    exits.push(port as u8);
    Some(exits)
}

// Adds ports that ascend, the first above `above`.
fn push_ports(exits: &mut Exits, above: u8, text: &[u8]) -> Result<(), ScriptCause>
    requires before { All (λ p. p ≤ above) exits.old }
    requires room { length exits.old ≤ above }
    requires most { above ≤ 12 }
    ensures { MatchResult result
        (λ _. (are_ports above (slice_split (λ c. c == 47) text.now) ≡ true)
        × (exits.new ≡ exits.old ++ map number_value (slice_split (λ c. c == 47) text.now)))
        (λ c. (are_ports above (slice_split (λ c. c == 47) text.now) ≡ false) × (c ≡ BadNumber)) }
{
    let (word, rest) = first_part(text);
    let port = short_number(word, 12)?;
    if port <= above {
        return Err(ScriptCause::BadNumber);
    }
    exits.push(port);
    match rest {
        Some(rest) => push_ports(exits, port, rest),
        None => Ok(()),
    }
}

// The text before the first slash, and the text after it, if there is one.
fn first_part(text: &[u8]) -> (&[u8], Option<&[u8]>)
    ensures parts { MatchOption result.1 (slice_split (λ c. c == 47) text.now ≡ result.0.now ∷ [])
        (λ rest. slice_split (λ c. c == 47) text.now ≡ result.0.now ∷ slice_split (λ c. c == 47) rest.now) }
    ensures less { IfSome result.1 (λ rest. length rest.now < length text.now) }
{
    match first_of(text, b'/') {
        Some(end) => (&text[..end], Some(&text[end + 1..])),
        None => (text, None),
    }
}

#[tactic(auto, unfolding(crate::specs::TableRules::are_numbered))]
fn read_table_end(draft: &mut TableDraft, script: &Script) -> Result<(), ScriptStop>
    ensures { IsStep result (ReadsTable script.now draft.old EndLine draft.new)
        (IsWrongTable script.now draft.old EndLine) }
{
    if !are_numbered(draft, script.wiring().count()) {
        return Err(Stop::Fault(ScriptCause::TablesShort));
    }
    draft.end();
    Ok(())
}

// Reports whether each of `count` switches had its number.
fn are_numbered(draft: &TableDraft, count: u8) -> bool
    ensures { result ≡ list_all (is_numbered draft.now) (range_with_len 0 count) }
{
    (0..count).all(|s| draft.is_numbered(Place(s)))
}
