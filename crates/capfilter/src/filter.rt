ghost use Rattle.std.specs.Prelude.{◌≡◌, ◌≤◌, ◌<◌, length, IfOk, IfErr, IsErrAnd, MatchResult, Some, string_bytes};
ghost use Rattle.std.specs.Str.{IsUtf8};
ghost use Rattle.capfilter.specs.declared.filter_error.FilterFault.{FilterFault};
ghost use Rattle.capfilter.specs.Expr.{Expr};
ghost use Rattle.capfilter.specs.Truth.{truth};
ghost use Rattle.capfilter.specs.Faults.{Reads, IsFault, IsMemoryOr};
ghost use Rattle.capfilter.specs.Canonical.{canonical};
ghost use Rattle.capfilter.specs.Fit.{IsFit};
ghost use Rattle.capfilter.specs.Nodes.{AreBelow, root};
ghost use Rattle.capfilter.specs.Reader.{outcome, Parsed, IsRefusal};

use crate::Memory;
use crate::filter_error::FilterError;
use crate::limits::MOST_TOKENS;
use crate::node::{Node, last_holds};
use crate::printer::shown_of;
use crate::token_reader::read_text;
use std::alloc::Global;
use std::fmt;
use std::marker::Model;
use streamkey::{Key, Toward};

/// A filter of packets, seen as its expression. It prints the canonical text of that.
#[derive(Debug, Drop)]
pub struct Filter {
    nodes: Vec<Node>,
    text: String,
}

impl Model for Filter {
    ghost use Rattle.std.specs.Prelude.{string_bytes};
    ghost use Rattle.capfilter.specs.Expr.{Expr};
    ghost use Rattle.capfilter.specs.Nodes.{root, IsFilter};
    ghost use Rattle.capfilter.specs.ExprCode.{expr_code};
    ghost use Rattle.capfilter.specs.contracts.prim.Primitive as prims;

    ghost Value = { Expr };

    ghost coded = { expr_code prims.the_row.coded };

    ghost view = { λ f. root f.nodes.items };

    ghost invariant = { λ f. IsFilter f.nodes.items (string_bytes f.text) };
}

fn text_of(bytes: Vec<u8>) -> String
    requires { IsUtf8 bytes.items }
    ensures { string_bytes result ≡ bytes.items }
{
    match String::from_utf8(bytes) {
        Ok(text) => text,
        Err(_) => unreachable!(),
    }
}

impl Filter {
    /// The filter that a text is (docs/FORMATS.md, "Filters"), or its first fault.
    pub fn parse(alloc: Global, text: &str) -> Result<Filter, FilterError>
        ensures parsed { IfOk result (λ filter. Reads text.now filter) }
        // What is a filter is refused only for want of memory.
        ensures only { (e : Expr) → Reads text.now e → MatchResult result (λ filter. filter ≡ e) (λ error. error ≡ FilterError.Memory) }
        ensures refused { IfErr result (λ error. IsMemoryOr (IsFault text.now) error) }
        // What has a fault is no filter, and no other fault is told.
        ensures least { (fault : FilterFault) → IsFault text.now fault → IsErrAnd result (λ error. IsMemoryOr (λ other. other ≡ fault) error) }
    {
        Filter::read(alloc, text)
    }

    fn read(alloc: Global, text: &str) -> Result<Filter, FilterError>
        ensures { MatchResult result (λ filter. outcome text.now ≡ Parsed filter) (λ error. IsRefusal (outcome text.now) error) }
    {
        let nodes = read_text(alloc, text.as_bytes())?;
        Ok(Filter::of_nodes(alloc, nodes)?)
    }

    /// The filter of the last node.
    pub(crate) fn of_nodes(alloc: Global, nodes: Vec<Node>) -> Result<Filter, Memory>
        requires some { 0 < length nodes.items }
        requires few { length nodes.items ≤ MOST_TOKENS }
        requires below { AreBelow nodes.items }
        requires fit { IsFit (root nodes.items) }
        ensures { IfOk result (λ filter. filter ≡ root nodes.items) }
    {
        let text = text_of(shown_of(alloc, nodes.as_slice())?);
        Ok(Filter { nodes, text })
    }

    /// The numbers of a filter are in the ranges of their types.
    pub(crate) fn known(&self)
        ensures { IsFit self.now }
    {
        let _ = &self.nodes;
    }

    /// Whether the filter holds of a packet with that key and way.
    pub fn matches(&self, key: &Key, toward: Toward) -> bool
        ensures { result ≡ truth self.now key.now toward }
    {
        last_holds(self.nodes.as_slice(), key, toward)
    }

    /// An equal filter.
    pub fn copy(&self) -> Result<Filter, Memory>
        ensures { IfOk result (λ filter. filter ≡ self.now) }
    {
        Ok(Filter {
            nodes: self.nodes.clone()?,
            text: self.text.clone()?,
        })
    }
}

impl fmt::Display for Filter {
    ghost output = { λ f. Some (canonical f) };

    fn fmt<W: fmt::Write>(&self, f: &mut fmt::Formatter<W>) -> fmt::Result {
        f.write_str(self.text.as_str())
    }
}
