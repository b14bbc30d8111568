ghost use Rattle.std.specs.Prelude.{◌≡◌, ◌≢◌, ◌-◌, ◌↔◌, IsTrue, MatchOption};
ghost use Rattle.sqlite_value.specs.declared.value.Value.TheVariants.{Null};
ghost use Rattle.sqlite_sql.specs.Term.{lit};
ghost use Rattle.sqlite_schema.specs.Code.{op_term, term_to, term_in, terms_in};

use crate::parts::Same;
use sqlite_schema::code::{Op, Terms, lend_value};
use sqlite_value::order;
use sqlite_value::value::ValueRef;

/// The node at a place, read to a depth; if there is none, its expression is NULL.
fn node(ops: &[Op], depth: usize, at: usize) -> Option<&Op>
    ensures { MatchOption result (term_to ops.now depth at ≡ lit Null)
        (λ op. (depth ≢ 0) × (term_to ops.now depth at ≡ op_term (term_to ops.now (depth - 1)) op.now)) }
{
    if depth == 0 { None } else { ops.get(at) }
}

fn is_null(op: &Op) -> bool
    ensures { (below : _) → (IsTrue result ↔ (op_term below op.now ≡ lit Null)) }
{
    match op {
        Op::Literal(value) => order::is_same(lend_value(value), ValueRef::Null),
        Op::Column(..) | Op::Unary(..) | Op::Binary(..) | Op::Case(..) => false,
    }
}

/// Whether the expressions at two places, each read to a depth, are equal.
fn same_term(left: &[Op], depth: usize, at: usize, right: &[Op], reach: usize, place: usize) -> bool
    ensures { IsTrue result ↔ (term_to left.now depth at ≡ term_to right.now reach place) }
{
    let Some(op) = node(left, depth, at) else {
        return match node(right, reach, place) {
            None => true,
            Some(other) => is_null(other),
        };
    };
    let Some(other) = node(right, reach, place) else {
        return is_null(op);
    };
    match (op, other) {
        (Op::Literal(v), Op::Literal(w)) => order::is_same(lend_value(v), lend_value(w)),
        (Op::Column(slot, column), Op::Column(row, cell)) => slot == row && column == cell,
        (Op::Unary(op, a), Op::Unary(by, b)) => {
            op == by && same_term(left, depth - 1, *a, right, reach - 1, *b)
        }
        (Op::Binary(op, a, b), Op::Binary(by, c, d)) => {
            op == by
                && same_term(left, depth - 1, *a, right, reach - 1, *c)
                && same_term(left, depth - 1, *b, right, reach - 1, *d)
        }
        (Op::Case(test, a, b), Op::Case(when, c, d)) => {
            same_term(left, depth - 1, *test, right, reach - 1, *when)
                && same_term(left, depth - 1, *a, right, reach - 1, *c)
                && same_term(left, depth - 1, *b, right, reach - 1, *d)
        }
        _ => false,
    }
}

/// Whether the expressions at two places, each read to the maximum depth, are equal.
fn same_root(left: &[Op], at: usize, right: &[Op], place: usize) -> bool
    ensures { IsTrue result ↔ (term_in left.now at ≡ term_in right.now place) }
{
    same_term(left, left.len(), at, right, right.len(), place)
}

/// Whether the expressions at the places of two lists are equal.
#[tactic(auto, using(crate::proofs::Roots::same_at))]
fn same_terms(left: &[Op], roots: &[usize], right: &[Op], places: &[usize]) -> bool
    ensures { IsTrue result ↔ (terms_in left.now roots.now ≡ terms_in right.now places.now) }
{
    if roots.len() != places.len() {
        return false;
    }
    for at in 0..roots.len() {
        if !same_root(left, roots[at], right, places[at]) {
            return false;
        }
    }
    true
}

impl Same for Terms {
    fn is_same(&self, other: &Terms) -> bool {
        same_terms(
            self.nodes.as_slice(),
            self.roots.as_slice(),
            other.nodes.as_slice(),
            other.roots.as_slice(),
        )
    }
}
