// Closing a constraint of code 7, groups that must not be the same: whether the values of its X satisfy its clauses.
ghost use Rattle.std.specs.Prelude.{◌≡◌, ◌≤◌, ◌<◌};
ghost use Rattle.model.specs.Limits.{limits};
ghost use Rattle.model.specs.Close.{assignment_of};
ghost use Rattle.solution.specs.Holds.{difference_holds_of};

use crate::group_clauses::word_of;
use model::{Constraint, Group, Model};

// Where nobody differs already (`apart`), the entrants whose X is true, of those in `free`, are the entrants in just one of the two groups, and there is one.
// The X start at x.
pub(crate) fn difference_holds(
    values: &[u8],
    apart: bool,
    free: u64,
    l: &Constraint,
    words: &[u64; Model::GROUPS],
    n: u32,
    x: usize,
) -> bool
    requires { (n ≤ limits.entrants) × (x < 10000000000) }
    ensures { result ≡ difference_holds_of (assignment_of values.now) apart free words.now n x l.now }
{
    if apart {
        return true;
    }
    let group = Group {
        fixed: 0,
        possible: free,
        low: 0,
        high: 0,
    };
    let w = word_of(values, &group, x, n);
    let f = constraint_clauses::set_of(words, l.groups[0]);
    let g = constraint_clauses::set_of(words, l.groups[1]);
    if w == 0 {
        return false;
    }
    w == f ^ g
}
