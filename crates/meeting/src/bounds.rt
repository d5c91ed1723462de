// An item's overall score, a bound on it, and what an item that is not met can reach at most.
ghost use Rattle.std.specs.Prelude.{◌≡◌, ◌<◌};
ghost use Rattle.poses.specs.Rules.{rule_number};
ghost use Rattle.meeting.specs.Clauses.{read_at, unread, view_of, bound_of, limit_at, Located, Limited, Small};

use crate::Reading;
use poses::rules::Rule;

impl Reading<'_> {
    /// Item d's local score in list i: read where its position is one of the first `depth`. Where it is not, a
    /// high takes the list's score at that depth, and a low 0.
    #[tactic(auto, unfolding(crate::specs::Clauses::read_at, crate::specs::Clauses::unread))]
    fn local_score(self, high: bool, d: usize, depth: usize, i: usize) -> u32
        requires { Located self.set.lists self.set.poses d depth self.set.scores.now self.places.now
            × (i < self.set.lists) }
        ensures { result ≡ read_at self.entry.set.poses self.entry.set.scores.now self.entry.places.now d depth
            (unread high self.entry.set.poses self.entry.set.scores.now depth) i }
    {
        let base = i * self.set.poses;
        let place = usize::from(self.places[base + d]);
        if place <= depth {
            u32::from(self.set.scores[base + place - 1])
        } else if high {
            u32::from(self.set.scores[base + depth - 1])
        } else {
            0
        }
    }

    /// `bound` by the reading's rule, which comes by itself: a caller that names it leaves no test of it in the
    /// loop.
    #[tactic(auto, using(crate::proofs::Products::read_product_most, laws::specs::Overall::join_most), unfolding(model::specs::Given::joined, crate::specs::Clauses::bound_of))]
    fn bound_by(self, rule: Rule, high: bool, d: usize, depth: usize) -> u32
        requires { Located self.set.lists self.set.poses d depth self.set.scores.now self.places.now
            × Small self.weights.now self.set.scores.now × (rule ≡ self.rule) }
        ensures { result ≡ bound_of (view_of self.entry) high depth d }
    {
        let mut acc = 0;
        for i in 0..self.set.lists {
            let x = self.local_score(high, d, depth, i);
            acc = rule.join(i, acc, x * self.weights[i]);
        }
        acc
    }

    /// Item d's overall score with what the first `depth` positions of each list tell: its low, or its high. At
    /// depth n every local score is read, and both are its overall score.
    // Where it is called and not put in place, all of the reading is copied for each call.
    #[inline(always)]
    pub fn bound(self, high: bool, d: usize, depth: usize) -> u32
        requires { Located self.set.lists self.set.poses d depth self.set.scores.now self.places.now
            × Small self.weights.now self.set.scores.now }
        ensures { result ≡ bound_of (view_of self.entry) high depth d }
    {
        match self.rule {
            Rule::Sum => self.bound_by(Rule::Sum, high, d, depth),
            _ => self.bound_by(self.rule, high, d, depth),
        }
    }

    /// The overall score of the local scores at a position of each list, from 1: what an item that is not met
    /// can reach at most.
    #[tactic(auto, using(laws::specs::Overall::product_most, laws::specs::Overall::join_most), unfolding(model::specs::Given::joined, crate::specs::Clauses::limit_at))]
    pub fn threshold(self, at: [usize; 8]) -> u32
        requires { Limited self.set.lists self.set.poses at self.weights.now self.set.scores.now }
        ensures { result ≡ limit_at (rule_number self.entry.rule) self.entry.weights.now self.entry.set.lists
            self.entry.set.poses at self.entry.set.scores.now }
    {
        let mut acc = 0;
        for i in 0..self.set.lists {
            let x = u32::from(self.set.scores[i * self.set.poses + at[i] - 1]);
            acc = self.rule.join(i, acc, x * self.weights[i]);
        }
        acc
    }
}
