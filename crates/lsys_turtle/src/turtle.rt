//! The turtle itself.
ghost use Rattle.std.specs.Prelude.{◌≡◌, ◌<◌, ◌≤◌, ◌∷◌, length, OnErr, IfOk};
ghost use Rattle.lsys_spec.specs.Pictures.{acted, at_start, draws, pose_restored};
ghost use Rattle.lsys_module.specs.Views.{symbol_of};
ghost use Rattle.lsys_turtle.specs.Ways.{CanStep, IsReached, OnSegment, act_of, stepped_of, IsStepOf, SavesAsMany};

use crate::act::Act;
use crate::pose::Stance;
use crate::segment::{Far, Segment};
use lsys_lattice::Lattice;
use lsys_module::Symbol;
use std::alloc::{AllocError, Global};
use std::marker::Model;

/// A turtle on a lattice, with the poses that it saved at the open branches.
#[derive(Drop)]
pub struct Turtle<T: Lattice> {
    pose: Stance<T>,
    saved: Vec<Stance<T>>,
    nest: usize,
}

impl<T: Lattice> Model for Turtle<T> {
    ghost use Rattle.std.specs.Prelude.{◌≤◌, reverse, vec_capacity};
    ghost use Rattle.lsys_turtle.specs.Ways.{RoomyTurtle};

    ghost Value = { RoomyTurtle };

    ghost view = { λ t. record {
      turtle = record { pose = t.pose; saved = reverse t.saved.items };
      room = t.nest;
    } };

    ghost invariant = { λ t. t.nest ≤ vec_capacity t.saved };
}

impl<T: Lattice> Turtle<T> {
    /// A turtle at the start, at 0 0 0 in the lattice's first frame with width 1, with room for `nest` saved poses.
    pub fn new(alloc: Global, nest: usize) -> Result<Turtle<T>, AllocError>
        ensures start { IfOk result (λ made. made.turtle ≡ at_start T.shape) }
        ensures room { IfOk result (λ made. made.room ≡ nest) }
    {
        Ok(Turtle {
            pose: Stance::start(),
            saved: Vec::with_capacity(alloc, nest)?,
            nest,
        })
    }

    /// At the start again, with no saved pose and the room that it had.
    pub fn reset(&mut self)
        ensures start { self.new.turtle ≡ at_start T.shape }
        ensures room { self.new.room ≡ self.old.room }
    {
        self.pose = Stance::start();
        self.saved.clear();
    }

    /// Takes one symbol, and answers the segment that it drew, if any.
    ///
    /// At `[` there is room for one more pose, and at `]` there is one to restore. `Far` is answered exactly where the
    /// move would lead to a coordinate past 1,000,000,000 in magnitude; the turtle stays then.
    pub fn step(&mut self, symbol: &Symbol) -> Result<Option<Segment>, Far>
        requires ready { CanStep (symbol_of symbol.now) self.old }
        ensures stepped { IsStepOf T.shape (symbol_of symbol.now) self.old self.new result }
        ensures saved { SavesAsMany (symbol_of symbol.now) self.old self.new }
        ensures room { self.new.room ≡ self.old.room }
        ensures stays { OnErr result (self.new ≡ self.old) }
        ensures reached { OnSegment result IsReached }
    {
        match symbol {
            Symbol::Push => self.save(),
            Symbol::Pop => self.restore(),
            Symbol::Cut => {}
            Symbol::Module(module) => return self.act(Act::of(module)),
        }
        Ok(None)
    }

    /// Saves the pose, for which there is room.
    pub fn save(&mut self)
        requires { length self.old.turtle.saved < self.old.room }
        ensures pose { self.new.turtle.pose ≡ self.old.turtle.pose }
        ensures saved { self.new.turtle.saved ≡ self.old.turtle.pose ∷ self.old.turtle.saved }
        ensures room { self.new.room ≡ self.old.room }
    {
        let pose = self.pose.again();
        match self.saved.push(pose) {
            Ok(()) => {}
            Err(_) => unreachable!(),
        }
    }

    /// Restores the pose that was saved last.
    pub fn restore(&mut self)
        ensures turtle { self.new.turtle ≡ pose_restored self.old.turtle self.old.turtle.saved }
        ensures room { self.new.room ≡ self.old.room }
    {
        if let Some(pose) = self.saved.pop() {
            self.pose = pose;
        }
    }

    /// Does what a module has it do. `Far` is answered as by [`Turtle::step`].
    pub fn act(&mut self, act: Act) -> Result<Option<Segment>, Far>
        ensures acted { acted T.shape (act_of act) self.old.turtle ≡ stepped_of result self.new.turtle }
        ensures saved { self.new.turtle.saved ≡ self.old.turtle.saved }
        ensures room { self.new.room ≡ self.old.room }
        ensures stays { OnErr result (self.new ≡ self.old) }
        ensures reached { OnSegment result IsReached }
    {
        match act {
            Act::Draws(steps) => return self.draw(steps),
            Act::Moves(steps) => self.pose.go(steps)?,
            Act::Turns(kind, count) => self.pose.turn(kind, count),
            Act::Widens(width) => self.pose.widen(width),
            Act::Rests => {}
        }
        Ok(None)
    }

    /// Moves ahead and draws.
    fn draw(&mut self, steps: i64) -> Result<Option<Segment>, Far>
        ensures drawn { acted T.shape (draws steps) self.old.turtle ≡ stepped_of result self.new.turtle }
        ensures saved { self.new.turtle.saved ≡ self.old.turtle.saved }
        ensures room { self.new.room ≡ self.old.room }
        ensures stays { OnErr result (self.new ≡ self.old) }
        ensures reached { OnSegment result IsReached }
    {
        let from = self.pose.place();
        self.pose.go(steps)?;
        Ok(Some(Segment {
            from,
            to: self.pose.place(),
            width: self.pose.width(),
        }))
    }
}
