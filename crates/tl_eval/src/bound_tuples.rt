// The tuples of a bound in a world, one after another.
ghost use Rattle.std.specs.Prelude.{◌≡◌, ◌≤◌, length, false, None, Some, IsSome, IsTrue};
ghost use Rattle.tl_eval.specs.BoundTuples.{ReadsWhatStands, ComesToNext, ReadsSameBound, HasOneForEach};
ghost use Rattle.tl_eval.specs.Frames.{assignment_in};
ghost use Rattle.tl_eval.specs.PatternOf.{IsPatternOf};
ghost use Rattle.tl_eval.specs.Reading.{situation_in};
ghost use Rattle.tl_syntax.specs.BoundVariables.{DifferInSlot, OccurIn};
ghost use Rattle.tl_syntax.specs.Fits.{BoundFits};
ghost use Rattle.tl_syntax.specs.Signature.{signature_of};

use crate::Env;
use crate::pattern_of::{no_pattern, put_pattern_of};
use crate::tuples::world_of_bound;
use std::marker::Model;
use tl_match::Pattern;
use tl_syntax::{Bound, Value, Var, Vars};
use tl_world::{MatchReader, Task, World};

/// The pattern of a bound under a frame, made once for all its tuples.
/// Contracts see the pattern, where each other variable of the bound has a value in the frame.
#[derive(Drop)]
pub struct BoundPattern {
    pattern: Pattern,
    has_pattern: bool,
    gathers: bool,
}

impl Model for BoundPattern {
    ghost use Rattle.std.specs.Prelude.{Option, IfSome};
    ghost use Rattle.tl_match.specs.declared.pattern.Pattern.{Pattern as PlainPattern};
    ghost use Rattle.tl_world.specs.MatchReading.{pattern_if};
    ghost use Rattle.tl_match.specs.Patterns.{IsLawful};

    ghost Value = { Option PlainPattern };

    ghost view = { λ p. pattern_if p.has_pattern p.pattern };

    ghost invariant = { λ p. IfSome (pattern_if p.has_pattern p.pattern) IsLawful };
}

impl BoundPattern {
    /// The pattern of no bound, for `open_in_place`. It takes no memory; `gathers`: whether the
    /// readers of its tuples may take some, to gather them.
    #[inline(always)]
    pub fn unopened(gathers: bool) -> BoundPattern {
        BoundPattern {
            pattern: no_pattern(),
            has_pattern: false,
            gathers,
        }
    }

    /// Makes it the pattern of the bound for the variables. All other variables have the values
    /// that they have now in the caller's frame, which is not looked at again;
    /// a bound with one that has no value there is true of no tuple. It takes no memory.
    #[inline(always)]
    pub fn open_in_place(&mut self, task: &Task, env: &Env, vars: &Vars, b: &Bound)
        requires differ { DifferInSlot vars.now }
        requires occur { OccurIn vars.now b.now }
        requires fits { BoundFits (signature_of task.now.problem.domain) b.now }
        ensures stands { IsPatternOf vars.now (assignment_in env.now) b.now self.new }
        ensures few { length vars.now ≤ 9 }
    {
        self.open_at(task, env.frame(), vars.as_slice(), b);
    }

    /// `open_in_place` for variables and a frame that are given as slices. It takes no memory.
    #[inline(never)]
    pub(crate) fn open_at(&mut self, task: &Task, frame: &[Option<Value>], vars: &[Var], b: &Bound)
        requires differ { DifferInSlot vars.now }
        requires occur { OccurIn vars.now b.now }
        requires fits { BoundFits (signature_of task.now.problem.domain) b.now }
        ensures stands { IsPatternOf vars.now (assignment_in frame.now) b.now self.new }
        ensures few { length vars.now ≤ 9 }
    {
        let _ = &task.problem;
        self.has_pattern = put_pattern_of(frame, vars, b, &mut self.pattern);
    }

    /// The tuples of the bound, which is the one that the pattern was made for, in the world,
    /// before the first one. It takes no memory.
    #[tactic(auto, using(crate::proofs::BoundReading::begins_reading))]
    #[inline(always)]
    pub fn tuples<'a>(&'a self, task: &'a Task, w: &'a World, b: &Bound) -> BoundTuples<'a>
        ensures reads { ReadsWhatStands (situation_in task.now w.now) b.now self.now result }
        ensures before { result.tuple ≡ None }
    {
        let world = world_of_bound(task, w, b);
        BoundTuples {
            matches: MatchReader::of(world, &self.pattern, self.has_pattern, self.gathers),
        }
    }
}

/// The tuples that make a bound true in a world, in lexicographic value order, one after another.
/// Contracts see the world, the pattern of the bound, and the tuple that was come to last, where
/// there is one.
#[derive(Drop)]
pub struct BoundTuples<'a> {
    matches: MatchReader<'a>,
}

impl<'a> Model for BoundTuples<'a> {
    ghost use Rattle.tl_world.specs.MatchReading.{Reading};
    ghost use Rattle.std.specs.Coded.{codes};
    ghost use Rattle.tl_world.specs.View.{coded_world};

    ghost Value = { Reading };

    ghost coded = { Prim.hlevel (codes, coded_world) };

    ghost view = { λ r. r.matches };
}

impl<'a> BoundTuples<'a> {
    /// Goes on to the next tuple, and says whether there is one. After the last tuple the first one
    /// is next again. It takes no memory, but where tuples are gathered.
    #[tactic(auto, using(crate::proofs::BoundReading::comes_on, crate::proofs::BoundReading::stays_with))]
    #[inline(always)]
    pub fn next(&mut self) -> bool
        ensures next { ComesToNext self.old self.new }
        ensures reads { ReadsSameBound self.old self.new }
        ensures found { IsTrue result → IsSome self.new.tuple }
        ensures end { result ≡ false → self.new.tuple ≡ None }
    {
        self.matches.next()
    }

    /// The values of the tuple that was come to last, in the order of the variables. It takes no
    /// memory.
    #[tactic(auto, using(crate::proofs::BoundReading::has_one))]
    #[inline(always)]
    pub fn values(&self) -> &[Value]
        requires { IsSome self.now.tuple }
        ensures values { self.now.tuple ≡ Some result.now }
        ensures count { HasOneForEach self.now result.now }
    {
        self.matches.values()
    }
}
