//! A curve that keeps only the places where its list rises.

ghost use Rattle.std.specs.Prelude.{◌≡◌, ◌≤◌, length, IfOk};
ghost use Rattle.prta_mass.specs.Chances.{point};
ghost use Rattle.prta_stair.specs.Steps.{steps_of, AreSteps};

use crate::adding::add_steps;
use crate::comparing::first_break_of;
use crate::moving::{resample_steps, shift_steps};
use crate::reading::{value_of, write_front};
use crate::setting::{copy_steps, lower_steps, raise_steps};
use prta_dist::{Break, Curve, Effect};
use prta_mass::{Dir, NoMemory, Support, TimeTable, UNIT};
use std::alloc::Global;
use std::marker::Model;
use std::mem::swap;

/// A curve that keeps only the places where its list rises, with room for as many as it has cells.
///
/// What a call costs grows with the number of these places. An addition makes one mark for each of them and each point
/// of the table, and goes over the places from the first mark to the last; `front` writes as many cells as it is asked
/// for. No contract tells that.
#[derive(Drop)]
pub struct Stair {
    steps: Vec<(u32, u64)>,
    spare: Vec<(u32, u64)>,
    marks: Vec<u128>,
    count: usize,
}

impl Model for Stair {
    ghost use Rattle.std.specs.Prelude.{List, ℕ, length, take};
    ghost use Rattle.prta_stair.specs.Steps.{cells_by_steps};
    ghost use Rattle.prta_stair.specs.Stair.{IsStair};

    ghost Value = { List ℕ };

    ghost view = { λ s. cells_by_steps (length s.steps.items) (take s.count s.steps.items) };

    ghost invariant = { λ s. IsStair s.steps.items s.spare.items s.marks.items s.count };
}

impl Stair {
    /// The point at 0, of `cap` cells. Takes the memory of both buffers of steps and of the work space.
    pub fn new(alloc: Global, cap: usize) -> Result<Stair, NoMemory>
        requires least { 3 ≤ cap }
        requires most { cap ≤ 16384 }
        ensures { IfOk result (λ stair. stair ≡ point cap 0) }
    {
        let steps = vec![in alloc; (0, UNIT); cap]?;
        let spare = vec![in alloc; (0, UNIT); cap]?;
        let marks = vec![in alloc; 0; cap]?;
        Ok(Stair {
            steps,
            spare,
            marks,
            count: 1,
        })
    }

    /// The places where the list rises, in order, each with the list's value there, in units of 2^-60.
    pub fn steps(&self) -> &[(u32, u64)]
        ensures steps { result.now ≡ steps_of self.now }
        ensures rising { AreSteps (length self.now) result.now }
    {
        &self.steps[..self.count]
    }
}

impl Curve for Stair {
    ghost cells = { λ list. list };

    fn cap(&self) -> usize {
        self.steps.len()
    }

    fn at(&self, k: usize) -> u64 {
        value_of(&self.steps[..self.count], k)
    }

    fn point(&mut self, b: usize) {
        self.count = 1;
        self.steps[0] = (b as u32, UNIT);
    }

    fn add(&mut self, table: &TimeTable, dir: Dir) -> Effect {
        let (count, effect) = add_steps(
            &self.steps[..self.count],
            &mut self.spare,
            &mut self.marks,
            table,
            dir,
        );
        swap(&mut self.steps, &mut self.spare);
        self.count = count;
        effect
    }

    fn shift(&mut self, t: u64) {
        let count = shift_steps(&self.steps[..self.count], &mut self.spare, t);
        swap(&mut self.steps, &mut self.spare);
        self.count = count;
    }

    fn resample(&mut self, support: Support, dir: Dir) -> u64 {
        let (count, moved) = resample_steps(
            &self.steps[..self.count],
            &mut self.spare,
            support,
            dir,
        );
        swap(&mut self.steps, &mut self.spare);
        self.count = count;
        moved
    }

    fn copy_from(&mut self, other: &Self) {
        copy_steps(&other.steps[..other.count], &mut self.steps);
        self.count = other.count;
    }

    fn first_break(&self, image: &Self) -> Option<Break> {
        first_break_of(&self.steps[..self.count], &image.steps[..image.count])
    }

    fn front(&self, room: &mut [u64]) {
        write_front(&self.steps[..self.count], room);
    }

    fn lower(&mut self, s: u64, top: usize) {
        let count = lower_steps(&self.steps[..self.count], &mut self.spare, s, top);
        swap(&mut self.steps, &mut self.spare);
        self.count = count;
    }

    fn raise(&mut self, place: usize, value: u64) {
        self.count = raise_steps(&mut self.steps, self.count, place, value);
    }
}
