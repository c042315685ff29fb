//! The report of an audit.
ghost use Rattle.std.specs.Prelude.{◌≡◌, List, IfOk, string_bytes};
ghost use Rattle.bar_rules.specs.Member.{Session};
ghost use Rattle.bar_audit.specs.Audits.{Audits};
ghost use Rattle.bar_audit.specs.Recordings.{Recording};
ghost use Rattle.bar_cli.specs.Audit.Text.{balance_line, exchange_line, exchange_words, lines_for, text_for};

use bar_audit::{Audit, Line};
use bar_window::Exchange;
use std::alloc::{AllocError, Global};

/// An exchange's round, its kind as 0 or 1, its initiator and its responder.
fn exchange_words(alloc: Global, x: Exchange) -> Result<String, AllocError>
    ensures { IfOk result (λ words. string_bytes words ≡ exchange_words x) }
{
    let Exchange {
        round,
        initiator,
        responder,
        ..
    } = x;
    let kind = x.kind.code();
    format!(in alloc; "{round} {kind} {initiator} {responder}")
}

/// The line of an exchange: how many items the CASE of each side promises, and whether the KEY of each was received.
fn exchange_line(alloc: Global, line: Line) -> Result<String, AllocError>
    ensures { IfOk result (λ text. string_bytes text ≡ exchange_line line) }
{
    let x = exchange_words(alloc, line.x)?;
    let [first_case, second_case] = line.cases;
    let [first_key, second_key] = line.keys;
    let first_bit = u8::from(first_key);
    let second_bit = u8::from(second_key);
    format!(in alloc;
        "exchange {x} cases {first_case} {second_case} keys {first_bit} {second_bit}\n"
    )
}

/// A line for each recorded exchange, in order.
fn exchange_lines(alloc: Global, audit: &Audit) -> Result<String, AllocError>
    ensures { IfOk result (λ text. (s : Session) (recordings : List Recording) → Audits s recordings audit.now →
        string_bytes text ≡ lines_for s recordings audit.now.recorded.items) }
{
    let mut text = String::new(alloc);
    for k in 0..audit.len() {
        if let Some(line) = audit.line(k) {
            text.push_str(exchange_line(alloc, line)?.as_str())?;
        }
    }
    Ok(text)
}

/// The line that names the first unbalanced exchange, or says that all are balanced.
fn balance_line(alloc: Global, unbalanced: Option<Exchange>) -> Result<String, AllocError>
    ensures { IfOk result (λ text. string_bytes text ≡ balance_line unbalanced) }
{
    match unbalanced {
        Some(x) => {
            let words = exchange_words(alloc, x)?;
            format!(in alloc; "unbalanced {words}\n")
        }
        None => String::from_str(alloc, "balanced\n"),
    }
}

/// A line for each recorded exchange, in order, and then the balance.
#[tactic(auto, unfolding(crate::specs::Audit::Text::text_for))]
pub fn audit_text(alloc: Global, audit: &Audit) -> Result<String, AllocError>
    ensures { IfOk result (λ text. (s : Session) (recordings : List Recording) → Audits s recordings audit.now →
        string_bytes text ≡ text_for s recordings audit.now.recorded.items) }
{
    let mut text = exchange_lines(alloc, audit)?;
    let balance = balance_line(alloc, audit.unbalanced())?;
    text.push_str(balance.as_str())?;
    Ok(text)
}
