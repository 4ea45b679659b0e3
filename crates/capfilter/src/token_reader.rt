// A text is read token by token, up to its first fault.
ghost use Rattle.std.specs.Prelude.{◌≡◌, ◌≤◌, ◌<◌, ◌+◌, ◌∷◌, [], length, drop, IfOk, IfErr, OnOk, MatchResult, ℕ, List};
ghost use Rattle.capfilter.specs.declared.node.Node.{Node};
ghost use Rattle.capfilter.specs.Expr.{Expr};
ghost use Rattle.capfilter.specs.Nodes.{AreBelow, root};
ghost use Rattle.capfilter.specs.Tokens.{Token, tokens};
ghost use Rattle.capfilter.specs.Reader.{is_known, fault_kind, read, at_end, outcome, start, Parsed, Refused, IsRefusal};
ghost use Rattle.capfilter.specs.Parser.{state_of, next_of, IsParser};

use crate::end_test::can_be_end_test;
use crate::filter_error::{FilterError, FilterFault, FilterKind};
use crate::limits::{MOST_LEVELS, MOST_TOKENS};
use crate::node::Node;
use crate::parser::{Next, Parser};
use crate::token::next_token;
use crate::word::Word;
use std::alloc::Global;

fn can_be_known(token: &[u8]) -> bool
    ensures { result ≡ is_known token.now }
{
    Word::of(token).is_some() || can_be_end_test(token)
}

/// Of which kind the fault of a token is that may not stand there.
fn kind_at(next: Next, token: &[u8]) -> FilterKind
    ensures { (ns : List Node) → result ≡ fault_kind (next_of ns next) token.now }
{
    if let Next::TextOfEnd(_, _) = next {
        return FilterKind::Value;
    }
    if can_be_known(token) {
        FilterKind::Unexpected
    } else {
        FilterKind::Token
    }
}

fn fault(at: usize, kind: FilterKind) -> FilterError
    ensures { result ≡ FilterError.Fault (record { at = at; kind = kind }) }
{
    FilterError::Fault(FilterFault {
        at: at as u64,
        kind,
    })
}

/// Takes the next token, which begins at that offset.
fn take(parser: &mut Parser, at: usize, token: &[u8]) -> Result<(), FilterError>
    requires { IsParser parser.old }
    ensures is { OnOk result (IsParser parser.new) }
    ensures few { OnOk result (parser.new.count ≤ MOST_TOKENS) }
    ensures read { (end : ℕ) (ts : List Token) → MatchResult result
        (λ _. read end parser.old.count (state_of parser.old) (record { at = at; bytes = token.now } ∷ ts) ≡ read end parser.new.count (state_of parser.new) ts)
        (λ e. IsRefusal (read end parser.old.count (state_of parser.old) (record { at = at; bytes = token.now } ∷ ts)) e) }
{
    if parser.count >= MOST_TOKENS {
        return Err(fault(at, FilterKind::Long));
    }
    let next = parser.next;
    parser.count += 1;
    if !parser.step(token)? {
        return Err(fault(at, kind_at(next, token)));
    }
    if parser.levels > MOST_LEVELS {
        return Err(fault(at, FilterKind::Deep));
    }
    Ok(())
}

/// The nodes of what was read, where the text may end here.
fn finish(parser: Parser, end: usize) -> Result<Vec<Node>, FilterError>
    requires { IsParser parser }
    ensures nodes { IfOk result (λ ns. (ns.items ≡ parser.nodes.items) × (0 < length ns.items)) }
    ensures read { MatchResult result
        (λ ns. at_end end (state_of parser).frames (state_of parser).next ≡ Parsed (root ns.items))
        (λ e. IsRefusal (at_end end (state_of parser).frames (state_of parser).next) e) }
{
    match parser.next {
        Next::Operator if parser.frames.is_empty() => Ok(parser.nodes),
        _ => Err(fault(end, FilterKind::End)),
    }
}

/// The nodes of the expression that a text is.
pub(crate) fn read_text(alloc: Global, text: &[u8]) -> Result<Vec<Node>, FilterError>
    ensures some { IfOk result (λ ns. 0 < length ns.items) }
    ensures few { IfOk result (λ ns. length ns.items ≤ MOST_TOKENS) }
    ensures below { IfOk result (λ ns. AreBelow ns.items) }
    ensures read { MatchResult result (λ ns. outcome text.now ≡ Parsed (root ns.items)) (λ e. IsRefusal (outcome text.now) e) }
{
    let mut parser = Parser::new(alloc);
    let mut from = 0;
    while let Some((start, end)) = next_token(text, from) {
        take(&mut parser, start, &text[start..end])?;
        from = end;
    }
    finish(parser, text.len())
}
