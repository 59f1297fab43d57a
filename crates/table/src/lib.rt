// The table of groups while it is settled: a look at groups 1 to s, and the answer with them.
#![tactic(auto)]

ghost use Rattle.std.specs.Prelude.{◌≡◌, take};
ghost use Rattle.model.specs.Model.{group_at};
ghost use Rattle.model.specs.Propagate.{consistent, same_table, fixpoint, propagated_as};

use model::{Group, Model, Propagated};

// Group g stands at place g - 1.
pub type Table = [Group; Model::GROUPS];

// Group g; one without entrants where there is no such group.
#[tactic(auto, unfolding(model::specs::Model::group_at, model::specs::Model::zero_group))]
pub fn group_at(t: &Table, g: u32) -> Group
    ensures { result ≡ group_at t.now g }
{
    let i = g.saturating_sub(1) as usize;
    if i < Model::GROUPS {
        return t[i];
    }
    Group {
        fixed: 0,
        possible: 0,
        low: 0,
        high: 0,
    }
}

// False is refusal 21: a look at groups 1 to s.
#[tactic(auto, unfolding(model::specs::Propagate::consistent))]
pub fn is_consistent(t: &Table, s: usize) -> bool
    ensures { result ≡ consistent (take s t.now) }
{
    t.iter().take(s).all(|g| group_rule::is_consistent(*g))
}

// Sets and limits of groups 1 to s are alike.
pub fn is_same(a: &Table, b: &Table, s: usize) -> bool
    ensures { result ≡ same_table (take s a.now) (take s b.now) }
{
    let end = s.min(Model::GROUPS);
    a[..end] == b[..end]
}

// The answer after so many passes: groups 1 to s as the table has them; entries past s stay.
#[tactic(auto, unfolding(model::specs::Model::with_table))]
pub fn done(passes: u32, m: Model, t: &Table) -> Propagated
    ensures { result ≡ propagated_as m (fixpoint passes (take m.s t.now)) }
{
    let end = (m.s as usize).min(Model::GROUPS);
    let mut groups = m.groups;
    groups[..end].copy_from_slice(&t[..end]);
    let mut model = m;
    model.groups = groups;
    Propagated {
        refusal: 0,
        passes,
        model,
    }
}
