//! Rules whose names stand elsewhere.

ghost use Rattle.std.specs.Prelude.{◌≡◌, IfOk, length, slice_get};
ghost use Rattle.std.specs.Option.{option_map};
ghost use Rattle.dl_lit.specs.Borrowed.{literal_of};

use dl_base::Memory;
use dl_lit::{LiteralRef, Name};
use dl_names::PairedNames;
use dl_rules::Index;
use dl_theory::{Body, Kind, Rule};
use std::alloc::Global;
use std::marker::Model;

/// A rule by the numbers of its literals, with the names that these stand for.
pub struct RuleRef<'a> {
    pub(crate) label: &'a Name,
    pub(crate) names: &'a PairedNames,
    pub(crate) index: &'a Index,
    pub(crate) number: usize,
}

impl Drop for RuleRef<'_> {
    fn drop(self) {
        let RuleRef {
            label: _,
            names: _,
            index: _,
            number: _,
        } = self;
    }
}

impl<'a> Model for RuleRef<'a> {
    ghost use Rattle.dl_theory.specs.declared.rule.Rule.{Rule};

    ghost Value = { Rule };

    ghost use Rattle.dl_graph.specs.KeptGraph.{rule_of, IsKeptRule};

    ghost view = { rule_of };

    ghost invariant = { IsKeptRule };
}

impl<'a> RuleRef<'a> {
    pub fn label(&self) -> &'a Name
        ensures { result.now ≡ self.now.label }
    {
        self.label
    }

    pub fn kind(&self) -> Kind
        ensures { result ≡ self.now.kind }
    {
        self.index.kind(self.number)
    }

    pub fn head(&self) -> LiteralRef<'a>
        ensures { literal_of result ≡ self.now.head }
    {
        match self.names.literal(self.index.head(self.number)) {
            None => unreachable!(),
            Some(head) => head,
        }
    }

    /// The literal at a place of the body; `None` exactly past the end.
    pub fn body(&self, at: usize) -> Option<LiteralRef<'a>>
        ensures { option_map literal_of result ≡ slice_get self.now.body at }
    {
        match self.index.body(self.number, at) {
            None => None,
            Some(number) => self.names.literal(number),
        }
    }

    /// How many literals the body has, each as often as it stands there.
    pub fn body_len(&self) -> usize
        ensures { result ≡ length self.now.body }
    {
        self.index.body_len(self.number)
    }

    /// An equal rule with names of its own. `Memory` where there is none for it.
    pub fn copy(&self, alloc: Global) -> Result<Rule, Memory>
        ensures { IfOk result (λ copy. copy ≡ self.now) }
    {
        let label = self.label.copy()?;
        let body = self.copied_body(alloc)?;
        let head = self.head().copy()?;
        Ok(Rule {
            label,
            kind: self.kind(),
            body,
            head,
        })
    }

    fn copied_body(&self, alloc: Global) -> Result<Body, Memory>
        ensures { IfOk result (λ body. body ≡ self.now.body) }
    {
        let mut body = Body::make(alloc);
        while let Some(literal) = self.body(body.len()) {
            body.push(literal.copy()?)?;
        }
        Ok(body)
    }
}
