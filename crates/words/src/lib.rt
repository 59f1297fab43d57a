// A model, and a set for each group, from words, as a caller outside hands them over: in range or not, so that they can be refused.
#![tactic(auto)]

ghost use Rattle.std.specs.Prelude.{◌≡◌, map, ◌≤◌, ◌<◌};
ghost use Rattle.model.specs.Lists.{range};
ghost use Rattle.model.specs.Limits.{limits};
ghost use Rattle.words.specs.Words.{word_at, number_at, group_from, members_from, constraint_from, sets_from, model_of, model_from, HandedOver};

use model::{Constraint, Group, Model};
use std::array;

// Word i, or 0 where it is missing.
fn word_at(words: &[u64], i: usize) -> u64
    ensures { result ≡ word_at words.now i }
{
    words.get(i).copied().unwrap_or(0)
}

// A number of 32 bits; a word that they do not hold is the largest of them, out of every range.
#[tactic(auto, unfolding(crate::specs::Words::number))]
fn number_at(words: &[u64], i: usize) -> u32
    ensures { result ≡ number_at words.now i }
{
    u32::try_from(word_at(words, i)).unwrap_or(u32::MAX)
}

fn group_from(words: &[u64], i: usize) -> Group
    requires { i < limits.groups }
    ensures { result ≡ group_from words.now i }
{
    let at = 3 + 4 * i;
    Group {
        fixed: word_at(words, at),
        possible: word_at(words, at + 1),
        low: number_at(words, at + 2),
        high: number_at(words, at + 3),
    }
}

// The groups of a constraint whose words stand from `at` on.
fn members_from(words: &[u64], at: usize) -> [u32; Model::MEMBERS]
    requires { at ≤ 65536 }
    ensures { result ≡ members_from words.now at }
{
    array::from_fn(|i| number_at(words, at + i))
}

fn constraint_from(words: &[u64], i: usize) -> Constraint
    requires { i < limits.constraints }
    ensures { result ≡ constraint_from words.now i }
{
    let at = 3 + 4 * Model::GROUPS + (2 + Model::MEMBERS) * i;
    Constraint {
        code: number_at(words, at),
        count: number_at(words, at + 1),
        groups: members_from(words, at + 2),
    }
}

// A word for each group; those past the last are not looked at.
pub fn sets_from(words: &[u64]) -> [u64; Model::GROUPS]
    ensures { result ≡ sets_from words.now }
{
    array::from_fn(|i| word_at(words, i))
}

fn model_of(words: &[u64]) -> Model
    ensures { result ≡ model_of words.now }
{
    Model {
        n: number_at(words, 0),
        s: number_at(words, 1),
        c: number_at(words, 2),
        groups: array::from_fn(|i| group_from(words, i)),
        constraints: array::from_fn(|i| constraint_from(words, i)),
    }
}

// A model out of range, too, so that a caller can have it refused; fewer words than a model has are none.
#[tactic(auto, unfolding(crate::specs::Words::model_from))]
pub fn model_from(words: &[u64]) -> Model
    ensures value { result ≡ model_from words.now }
    ensures handed_over { HandedOver words.now result }
{
    if words.len() < packing::MODEL_WORDS {
        return model_of(&[]);
    }
    model_of(words)
}
