//! Laws of what expressions say.

ghost use Rattle.std.specs.Prelude.{◌≡◌, not, option_map};
ghost use Rattle.bpf_insn.specs.Machine.{Packet};
ghost use Rattle.expr_tree.specs.Expr as expr;
ghost use Rattle.expr_tree.specs.Expr.{Expr};
ghost use Rattle.expr_tree.specs.declared.test.Test as the_test;
ghost use Rattle.expr_meaning.specs.declared.place.Place as the_place;
ghost use Rattle.expr_meaning.specs.Questions.{and_then, or_else};
ghost use Rattle.expr_meaning.specs.Holds.{after, holds};
ghost use Rattle.expr_meaning.specs.Laws.{IsNoTest, answer_of};

/// What an expression says is made of what its parts say: of `and` the second part at the place that the first one moves to, and of
/// `or` in this way where the second part is no test. (A test may be one more of the list before it.) Two `not` say nothing, and
/// De Morgan's laws hold, that of `and` where the first part has no tag.
pub fn laws()
    ensures test { (t : the_test.Test) (packet : Packet) (place : the_place.Place) → holds (expr.Is t) packet place ≡ answer_of place t packet }
    ensures not { (e : Expr) (packet : Packet) (place : the_place.Place) → holds (expr.Not e) packet place ≡ option_map not (holds e packet place) }
    ensures not_not { (e : Expr) (packet : Packet) (place : the_place.Place) → holds (expr.Not (expr.Not e)) packet place ≡ holds e packet place }
    ensures and { (a b : Expr) (packet : Packet) (place : the_place.Place) → holds (expr.And a b) packet place ≡ and_then (holds a packet place) (holds b packet (after a place)) }
    ensures or { (a b : Expr) (packet : Packet) (place : the_place.Place) → IsNoTest b → holds (expr.Or a b) packet place ≡ or_else (holds a packet place) (holds b packet place) }
    ensures neither { (a b : Expr) (packet : Packet) (place : the_place.Place) → IsNoTest b → holds (expr.Not (expr.Or a b)) packet place ≡ holds (expr.And (expr.Not a) (expr.Not b)) packet place }
    ensures not_both { (a b : Expr) (packet : Packet) (place : the_place.Place) → after a place ≡ place → holds (expr.Not (expr.And a b)) packet place ≡ holds (expr.Or (expr.Not a) (expr.Not b)) packet place }
{}
