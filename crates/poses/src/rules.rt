ghost use Rattle.std.specs.Prelude.{◌≡◌, ◌≤◌};
ghost use Rattle.model.specs.Given.{join as join_of};
ghost use Rattle.poses.specs.Rules.{rule_of, rule_number};

/// How an item's products, local score times weight, become its overall score.
#[derive(Clone, Copy, Debug, PartialEq, Eq)]
pub enum Rule {
    /// Their sum.
    Sum,
    /// The smallest of them.
    Smallest,
    /// The largest of them.
    Largest,
}

/// The rule of a number: 0 the sum, 1 the smallest, and any other the largest. A search refuses numbers above
/// 2 before it joins anything.
impl From<u8> for Rule {
    ghost from_gives = { λ number rule. rule ≡ rule_of number };

    fn from(number: u8) -> Rule {
        match number {
            0 => Rule::Sum,
            1 => Rule::Smallest,
            _ => Rule::Largest,
        }
    }
}

impl Rule {
    /// What the products of the lists before list i, joined, come to with list i's product. The first stands
    /// for itself, so no start value is needed.
    #[tactic(auto, using(crate::specs::Rules::join_later), unfolding(model::specs::Given::join, model::specs::Given::join_two))]
    pub fn join(self, i: usize, before: u32, product: u32) -> u32
        requires { (before ≤ 1000000000) × (product ≤ 1000000000) }
        ensures { result ≡ join_of (rule_number self) i before product }
    {
        if i == 0 {
            return product;
        }
        match self {
            Rule::Sum => before + product,
            Rule::Smallest => before.min(product),
            Rule::Largest => before.max(product),
        }
    }
}
