//! Where links lead from numbers, and from where they come.

ghost use Rattle.std.specs.Prelude.{◌≡◌, ◌<◌, ◌^◌, IsSome, Some, length, slice_index, option_to_list};
ghost use Rattle.dl_graph.specs.Numbers.{next, back};

use crate::graph::Graph;
use crate::link::Link;

impl<'a> Graph<'a> {
    /// To how many numbers a link leads.
    // always inlined, as what it reads: a fill knows the link of each wire, and walks a row without a call
    #[inline(always)]
    pub fn next_len(&self, link: Link, from: usize) -> usize
        ensures { result ≡ length (next self.now link from) }
    {
        match link {
            Link::Same => 1,
            Link::Uses => self.uses_len(from),
            Link::Backs => count(self.concluded(from, false)),
            Link::Proves => count(self.concluded(from, true)),
            Link::Opposes => count(self.opposed(from)),
            Link::Defends => self.defended_len(from),
            Link::Counters => self.lower_len(from),
        }
    }

    /// The number at a place of those to which a link leads.
    #[inline(always)]
    pub fn next(&self, link: Link, from: usize, at: usize) -> usize
        requires { at < length (next self.now link from) }
        ensures { result ≡ slice_index (next self.now link from) at }
    {
        match link {
            Link::Same => from,
            Link::Uses => given(self.uses(from, at)),
            Link::Backs => given(self.concluded(from, false)),
            Link::Proves => given(self.concluded(from, true)),
            Link::Opposes => given(self.opposed(from)),
            Link::Defends => given(self.lower_at(from, at)),
            Link::Counters => given(self.lower_at(from, at)),
        }
    }

    /// From how many numbers a link leads there.
    #[inline(always)]
    pub fn back_len(&self, link: Link, to: usize) -> usize
        ensures len { result ≡ length (back self.now link to) }
        ensures few { result < 2 ^ 26 }
    {
        match link {
            Link::Same => 1,
            Link::Uses => self.body_width(to),
            Link::Backs => self.concluders_len(to, false),
            Link::Proves => self.concluders_len(to, true),
            Link::Opposes => self.opposers_len(to),
            Link::Defends => self.defenders_len(to),
            Link::Counters => self.upper_len(to),
        }
    }
}

#[inline(always)]
fn count(number: Option<usize>) -> usize
    ensures { result ≡ length (option_to_list number) }
{
    match number {
        None => 0,
        Some(_) => 1,
    }
}

#[inline(always)]
fn given(number: Option<usize>) -> usize
    requires { IsSome number }
    ensures { number ≡ Some result }
{
    match number {
        None => unreachable!(),
        Some(number) => number,
    }
}
