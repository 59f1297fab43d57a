// What settling does with one group: its rule, and whether it is consistent.
#![tactic(auto)]

ghost use Rattle.std.specs.Prelude.{◌≡◌, cond, eqb};
ghost use Rattle.std.specs.Int.Bits.{bit_and, bit_or};
ghost use Rattle.model.specs.Words.{size};
ghost use Rattle.model.specs.Propagate.{group_rule, group_consistent};

use model::Group;

// Where the number fixed is high, those not fixed cease to be possible.
#[tactic(auto, using(crate::proofs::Sizes::sizes))]
fn cut(fixed: u64, possible: u64, high: u32) -> u64
    ensures { result ≡ cond (eqb (size fixed) high) (bit_and possible fixed) possible }
{
    if fixed.count_ones() == high {
        return possible & fixed;
    }
    possible
}

// Where the number possible is low, all possible are fixed.
#[tactic(auto, using(crate::proofs::Sizes::sizes))]
fn filled(fixed: u64, possible: u64, low: u32) -> u64
    ensures { result ≡ cond (eqb (size possible) low) (bit_or fixed possible) fixed }
{
    if possible.count_ones() == low {
        return fixed | possible;
    }
    fixed
}

// The rule of a group, in its three steps.
#[tactic(auto, using(crate::proofs::Sizes::sizes), unfolding(model::specs::Propagate::group_rule, model::specs::Propagate::limited, model::specs::Propagate::cut, model::specs::Propagate::filled))]
pub fn applied(g: Group) -> Group
    ensures { result ≡ group_rule g }
{
    let low = g.low.max(g.fixed.count_ones());
    let high = g.high.min(g.possible.count_ones());
    let possible = cut(g.fixed, g.possible, high);
    let fixed = filled(g.fixed, possible, low);
    Group {
        fixed,
        possible,
        low,
        high,
    }
}

// False is refusal 21.
#[tactic(auto, unfolding(model::specs::Propagate::group_consistent, model::specs::Words::inside))]
pub fn is_consistent(g: Group) -> bool
    ensures { result ≡ group_consistent g }
{
    g.fixed & g.possible == g.fixed && g.low <= g.high
}
