// The text of the sample's domain.
ghost use Rattle.std.specs.Prelude.{◌≡◌, ◌≤◌, length, IfOk};
ghost use Rattle.tl_gen.specs.Samples.{domain_text};

use std::alloc::Global;
use tl_syntax::{Bytes, NoMemory};

/// The lines of the domain.
const LINES: &str = "\
(domain gripper
 (predicate room 1)
 (predicate at-robby 1)
 (predicate at 2)
 (predicate free 1)
 (predicate carry 2)
 (operator (pick ?b ?r ?g)
  (bounds (at ?b ?r) (at-robby ?r) (free ?g))
  (effects (del (at ?b ?r)) (del (free ?g)) (add (carry ?b ?g))))
 (operator (drop ?b ?r ?g)
  (bounds (carry ?b ?g) (at-robby ?r))
  (effects (del (carry ?b ?g)) (add (free ?g)) (add (at ?b ?r))))
 (operator (move ?from ?to)
  (bounds (at-robby ?from) (room ?to))
  (pre (not (= ?from ?to)))
  (effects (del (at-robby ?from)) (add (at-robby ?to))))
 (control (always (and
  (forall (?b ?r) (goal (at ?b ?r))
   (implies (at ?b ?r) (next (at ?b ?r))))
  (forall (?b ?g) (carry ?b ?g)
   (exists (?r) (at-robby ?r)
    (or (goal (at ?b ?r)) (next (carry ?b ?g)))))
  (forall (?r) (at-robby ?r)
   (implies
    (and (exists (?g) (free ?g) true)
     (exists (?b) (at ?b ?r) (not (goal (at ?b ?r)))))
    (next (at-robby ?r))))))))
";

/// The text of the domain.
pub(crate) fn domain_text(alloc: Global) -> Result<Bytes, NoMemory>
    ensures text { IfOk result (λ text. text ≡ domain_text) }
    ensures short { IfOk result (λ text. length text ≤ 4194304) }
{
    let mut text = Bytes::new(alloc);
    text.extend(LINES.as_bytes())?;
    Ok(text)
}
