ghost use Rattle.std.specs.Prelude.{◌≡◌, find};
ghost use Rattle.std.specs.Option.{option_copied, option_map_or};
ghost use Rattle.evring.specs.Advice.{no_advice};
ghost use Rattle.streamdefs.specs.Convo.Seen.{Created};
ghost use Rattle.handler.specs.Seen.{seen_in_view};
ghost use Rattle.handler.specs.Truth.{fits};

use crate::{ChunkView, Handler, Rule, RuleList};
use evring::{Advice, Reason};
use std::marker::Model;
use streamkey::{Key, Toward};

/// The handler that advises what rules say: the first that fits, else nothing. It is seen as its rules.
#[derive(Debug, Drop)]
pub struct RuleHandler {
    rules: RuleList,
}

impl Model for RuleHandler {
    ghost use Rattle.std.specs.Prelude.{List};
    ghost use Rattle.handler.specs.declared.rule.Rule.{Rule};

    ghost Value = { List Rule };

    ghost view = { λ h. h.rules };
}

impl RuleHandler {
    pub fn new(rules: RuleList) -> RuleHandler
        ensures { result ≡ rules }
    {
        RuleHandler { rules }
    }
}

/// The first rule that fits a conversation that opened.
fn first_for_created<'a>(rules: &'a [Rule], key: &Key, toward: Toward) -> Option<&'a Rule>
    ensures { option_copied result ≡ find (λ rule. fits rule.condition (Created key.now toward)) rules.now }
{
    rules
        .iter()
        .find(|rule| rule.condition.fits_created(key, toward))
}

/// The first rule that fits a chunk.
fn first_for_chunk<'a>(rules: &'a [Rule], view: &ChunkView) -> Option<&'a Rule>
    ensures { option_copied result ≡ find (λ rule. fits rule.condition (seen_in_view view.now)) rules.now }
{
    rules.iter().find(|rule| rule.condition.fits_chunk(view))
}

fn advice_of(rule: Option<&Rule>) -> Advice
    ensures { result ≡ option_map_or (λ r. r.advice) (option_copied rule.entry) no_advice }
{
    match rule {
        Some(rule) => rule.advice,
        None => Advice::none(),
    }
}

impl Handler for RuleHandler {
    ghost use Rattle.handler.specs.Truth.{advice_by};

    ghost advice = { λ rules conv seen. advice_by rules seen };

    fn created(&self, _conv: u32, key: &Key, toward: Toward) -> Advice {
        advice_of(first_for_created(self.rules.as_slice(), key, toward))
    }

    fn chunk(&self, view: &ChunkView) -> Advice {
        advice_of(first_for_chunk(self.rules.as_slice(), view))
    }

    fn ended(&self, _conv: u32, _reason: Reason) -> Advice {
        Advice::none()
    }
}
