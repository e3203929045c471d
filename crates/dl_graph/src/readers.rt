//! Rules of a graph by number, and how many there are.

ghost use Rattle.std.specs.Prelude.{◌≡◌, ◌<◌, ◌≤◌, ◌^◌, ◌↔◌, IsTrue, IsSome, Some, true, length, map, slice_get, option_to_list};
ghost use Rattle.dl_theory.specs.Lists.{can_support};
ghost use Rattle.dl_theory.specs.Listings.{Mentions, Occurs};
ghost use Rattle.dl_graph.specs.declared.link.Link.TheVariants.{Uses};
ghost use Rattle.dl_graph.specs.Numbers.{back, number, HasRule, rule_at, of_rule, literal_at, head_row, body_row, backs_row, proves_row, opposes_row, lowers_row, uppers_row, defends_row};
ghost use Rattle.dl_rows.specs.Rows.{row, places};
ghost use Rattle.dl_graph.specs.Named.{concluded_row};

use crate::graph::Graph;

impl<'a> Graph<'a> {
    /// The at-th rule, in ascending order, with this head; `None` exactly where there are not so many.
    pub fn heads(&self, number: usize, at: usize) -> Option<usize>
        ensures { result ≡ slice_get (places (of_rule (head_row self.now)) self.now.rules number) at }
    {
        self.index.heads_at(number, at)
    }

    /// The at-th rule, in ascending order, with this literal in its body; `None` exactly where there are not so many.
    // always inlined where a fill walks rows: see the links
    #[inline(always)]
    pub fn uses(&self, number: usize, at: usize) -> Option<usize>
        ensures { result ≡ slice_get (places (of_rule (body_row self.now)) self.now.rules number) at }
    {
        self.index.uses_at(number, at)
    }

    /// The number of a rule's head.
    pub fn head(&self, rule: usize) -> usize
        requires { HasRule self.now rule }
        ensures value { result ≡ number self.now (rule_at self.now rule).head }
        ensures within { result < length self.now.names }
    {
        self.index.head(rule)
    }

    /// The number of the literal at a place of a rule's body; `None` exactly past the end.
    pub fn body(&self, rule: usize, at: usize) -> Option<usize>
        requires { HasRule self.now rule }
        ensures { result ≡ slice_get (map (number self.now) (rule_at self.now rule).body) at }
    {
        self.index.body(rule, at)
    }

    /// The number at a place of a rule's body, each where it first stands; `None` exactly past the end, and where a number has no rule.
    pub fn body_once(&self, rule: usize, at: usize) -> Option<usize>
        ensures { result ≡ slice_get (back self.now Uses rule) at }
    {
        self.index.once(rule, at)
    }

    /// Whether the literal with this number is one of the theory: it or its complement is a fact, a head or in a body.
    pub fn lives(&self, number: usize) -> bool
        requires { number < length self.now.names }
        ensures { IsTrue result ↔ Mentions self.now.theory (literal_at self.now number) }
    {
        let _count = self.names();
        if self.occurs(number) {
            return true;
        }
        self.occurs(self.other(number))
    }

    /// Whether the literal with this number is a fact, a head or in a body.
    fn occurs(&self, number: usize) -> bool
        requires { number < length self.now.names }
        ensures { IsTrue result ↔ Occurs self.now.theory (literal_at self.now number) }
    {
        let _count = self.names();
        if self.is_fact(number) {
            return true;
        }
        if self.heads_len(number) > 0 {
            return true;
        }
        if self.uses_len(number) > 0 {
            return true;
        }
        false
    }

    #[inline(always)]
    pub(crate) fn uses_len(&self, number: usize) -> usize
        ensures { result ≡ length (places (of_rule (body_row self.now)) self.now.rules number) }
    {
        self.index.uses_len(number)
    }

    #[inline(always)]
    pub(crate) fn heads_len(&self, number: usize) -> usize
        ensures value { result ≡ length (places (of_rule (head_row self.now)) self.now.rules number) }
        ensures few { result < 2 ^ 26 }
    {
        self.index.heads_len(number)
    }

    /// The number of the head of a rule that is strict, or else can support it.
    #[inline(always)]
    pub(crate) fn concluded(&self, rule: usize, strict: bool) -> Option<usize>
        ensures { option_to_list result ≡ row (of_rule (concluded_row self.now strict)) self.now.rules rule }
    {
        self.index.concluded(rule, strict)
    }

    /// The number of what a rule's head attacks.
    #[inline(always)]
    pub(crate) fn opposed(&self, rule: usize) -> Option<usize>
        ensures { option_to_list result ≡ row (of_rule (opposes_row self.now)) self.now.rules rule }
    {
        let _count = self.names();
        match self.index.headed(rule) {
            None => None,
            Some(head) => Some(self.other(head)),
        }
    }

    /// Whether a rule is there and can support its head.
    #[inline(always)]
    pub(crate) fn supports(&self, rule: usize) -> bool
        ensures { result ≡ can_support (rule_at self.now rule).kind }
    {
        self.index.supports(rule)
    }

    #[inline(always)]
    pub(crate) fn lower_at(&self, rule: usize, at: usize) -> Option<usize>
        ensures { result ≡ slice_get (row (of_rule (lowers_row self.now)) self.now.rules rule) at }
    {
        self.index.lower_at(rule, at)
    }

    #[inline(always)]
    pub(crate) fn lower_len(&self, rule: usize) -> usize
        ensures { result ≡ length (row (of_rule (lowers_row self.now)) self.now.rules rule) }
    {
        self.index.lower_len(rule)
    }

    /// How many rules a rule defends its head against.
    #[inline(always)]
    pub(crate) fn defended_len(&self, rule: usize) -> usize
        ensures { result ≡ length (row (of_rule (defends_row self.now)) self.now.rules rule) }
    {
        if self.supports(rule) {
            self.lower_len(rule)
        } else {
            0
        }
    }

    #[inline(always)]
    pub(crate) fn body_width(&self, rule: usize) -> usize
        ensures width { result ≡ length (row (of_rule (body_row self.now)) self.now.rules rule) }
        ensures few { result < 2 ^ 26 }
    {
        self.index.width(rule)
    }

    /// How many rules with this head are strict, or else can support it.
    pub(crate) fn concluders_len(&self, number: usize, strict: bool) -> usize
        ensures value { result ≡ length (places (of_rule (concluded_row self.now strict)) self.now.rules number) }
        ensures few { result < 2 ^ 26 }
    {
        self.index.heads_count(number, strict)
    }

    /// How many rules have a head that attacks the literal.
    #[inline(always)]
    pub(crate) fn opposers_len(&self, number: usize) -> usize
        ensures value { result ≡ length (places (of_rule (opposes_row self.now)) self.now.rules number) }
        ensures few { result < 2 ^ 26 }
    {
        if number >= self.names() {
            return 0;
        }
        self.heads_len(self.other(number))
    }

    pub(crate) fn upper_len(&self, rule: usize) -> usize
        ensures value { result ≡ length (row (of_rule (uppers_row self.now (λ _. true))) self.now.rules rule) }
        ensures few { result < 2 ^ 26 }
    {
        self.index.upper_len(rule)
    }

    /// How many rules defend their heads against this one.
    pub(crate) fn defenders_len(&self, rule: usize) -> usize
        ensures value { result ≡ length (row (of_rule (uppers_row self.now (λ t. can_support t.kind))) self.now.rules rule) }
        ensures few { result < 2 ^ 26 }
    {
        self.index.upper_count(rule)
    }
}
