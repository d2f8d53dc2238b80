// Goal lines.
ghost use Rattle.std.specs.Prelude.{◌≡◌, true, false, IfOk, MatchOption, chars};
ghost use Rattle.std.specs.List.{list_all};
ghost use Rattle.unicode_ident.specs.Ident.{is_xid_continue};
ghost use Rattle.sq_token.specs.Kinds as kinds;
ghost use Rattle.sq_cert_words.specs.Lines.{words};
ghost use Rattle.sq_cert.specs.Certificates as spec;
ghost use Rattle.sq_cert.specs.Refusals.{HasNoGoal};

use sq_base::{NoMemory, Text};
use sq_cert_words::{Words, number};
use sq_token::reserved_of;
use std::alloc::Global;
use std::str;

fn is_start(c: char) -> bool
    ensures { result ≡ kinds.is_start c }
{
    unicode_ident::is_xid_start(c) || c == '_'
}

fn begins(text: &str) -> bool
    ensures { result ≡ spec.begins (chars text.now) }
{
    match text.chars().next() {
        Some(c) => is_start(c),
        None => false,
    }
}

fn continues(text: &str) -> bool
    ensures { result ≡ list_all is_xid_continue (chars text.now) }
{
    text.chars().all(|c| unicode_ident::is_xid_continue(c))
}

#[tactic(auto, using(crate::proofs::Identifiers::name_rules))]
fn is_identifier(name: &str) -> bool
    ensures { result ≡ spec.is_name_alone (chars name.now) name.now }
{
    begins(name) && continues(name) && reserved_of(name).is_none()
}

/// The text as an identifier that is no reserved word, where it is one.
#[tactic(auto, using(crate::proofs::Identifiers::identifier_rules))]
fn identifier(text: &[u8]) -> Option<&str>
    ensures { MatchOption result
        (kinds.is_identifier text.now ≡ false)
        (λ name. (name.now ≡ text.now) × (kinds.is_identifier text.now ≡ true)) }
{
    match str::from_utf8(text) {
        Ok(name) => {
            if is_identifier(name) {
                Some(name)
            } else {
                None
            }
        }
        Err(_) => None,
    }
}

fn count_in(text: &[u8]) -> Option<u64>
    ensures { result ≡ spec.count_in text.now }
{
    let (count, rest) = number(u64::MAX, text)?;
    if rest.is_empty() { Some(count) } else { None }
}

/// The name and the count of a goal line.
#[tactic(auto, using(crate::proofs::Identifiers::goal_rules))]
fn name_and_count(line: &[u8]) -> Option<(&str, u64)>
    ensures { MatchOption result
        (spec.goal_in (words line.now) ≡ None)
        (λ g. spec.goal_in (words line.now) ≡ Some (g.0.now, g.1)) }
{
    let mut words = Words::new(line);
    let word = words.next()?;
    let name = words.next()?;
    let count = words.next()?;
    if word != "goal".as_bytes() {
        return None;
    }
    if !words.is_empty() {
        return None;
    }
    let name = identifier(name)?;
    let count = count_in(count)?;
    Some((name, count))
}

/// The name and the count of a goal line.
#[tactic(auto, using(crate::proofs::GoalLines::goal_line_rules))]
pub fn goal_in(alloc: Global, line: &[u8]) -> Result<Option<(Text, u64)>, NoMemory>
    ensures { IfOk result (λ goal. MatchOption goal
        (HasNoGoal line.now)
        (λ g. spec.IsGoalLine line.now g.0 g.1)) }
{
    match name_and_count(line) {
        Some((name, count)) => Ok(Some((Text::from_str(alloc, name)?, count))),
        None => Ok(None),
    }
}
