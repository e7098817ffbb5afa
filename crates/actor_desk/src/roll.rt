//! Values by number, in the order of the numbers.
//!
//! The numbers of a link rise, so a new one stands at the end. One that left leaves a gap, until all places are used: then the gaps are
//! swept. Numbers mostly follow each other, so the place of one is guessed from how far it lies below the last.

ghost use Rattle.std.specs.Prelude.{◌≡◌, ◌↔◌, ◌<◌, ℕ, [], None, length, slice_get, IfOk, IfSome, IfNone, IsTrue};
ghost use Rattle.std.specs.Vec.{vec_capacity};
ghost use Rattle.actor_desk.specs.Held.{at, count_of, Adds, Removes, Becomes};
ghost use Rattle.actor_desk.specs.Rolls.{held, IsAbove, IsHeldAt, IsAt, IsNowhere, IsBelow, IsRising, IsEnded, EndsLeft};

use std::alloc::{AllocError, Global};
use std::marker::Model;

/// A number and its value, or nothing once it left.
#[derive(Drop)]
pub(crate) struct Line<V: Copy> {
    number: u64,
    value: Option<V>,
}

/// Values by number, with room for so many. Only `open` asks for memory; no clause says so.
#[derive(Drop)]
pub struct Roll<V: Copy> {
    lines: Vec<Line<V>, Global>,
    room: u16,
}

impl<V: Copy> Model for Roll<V> {
    ghost use Rattle.actor_desk.specs.Shelves.{Entries};

    ghost Value = { Entries V };

    ghost use Rattle.std.specs.Prelude.{◌≤◌};
    ghost use Rattle.std.specs.Vec.{vec_capacity};
    ghost use Rattle.actor_desk.specs.Rolls.{held, IsRising, IsEnded};

    ghost view = { λ r. record { entries = held r.lines.items; room = r.room } };

    ghost invariant = { λ r. IsRising r.lines.items × IsEnded r.lines.items × (r.room ≤ vec_capacity r.lines) };
}

impl<V: Copy> Roll<V> {
    /// Room for so many values. There are half as many lines more, so that a sweep stands for as many additions at least.
    pub fn open(alloc: Global, room: u16) -> Result<Self, AllocError>
        ensures { IfOk result (λ roll. roll ≡ record { entries = []; room = room }) }
    {
        let count = room as usize + room as usize / 2 + 1;
        Ok(Roll {
            lines: Vec::with_capacity(alloc, count)?,
            room,
        })
    }

    /// The value at a number.
    #[inline(always)]
    pub fn get(&self, number: u64) -> Option<V>
        ensures { result ≡ at self.now.entries number }
    {
        let (_place, value) = find(&self.lines, number)?;
        Some(value)
    }

    /// Adds a value at a number above all that are held.
    #[inline(always)]
    pub fn add(&mut self, number: u64, value: V)
        requires above { IsAbove self.old.entries number }
        requires room { count_of self.old.entries < self.old.room }
        ensures adds { Adds self.old.entries self.new.entries number value }
        ensures room { self.new.room ≡ self.old.room }
    {
        make_room(&mut self.lines);
        self.lines.push_reserved(Line {
            number,
            value: Some(value),
        });
    }

    /// Takes out the value at a number, if it is held.
    #[inline(always)]
    pub fn remove(&mut self, number: u64) -> Option<V>
        ensures none { IfNone result (at self.old.entries number ≡ None) }
        ensures unchanged { IfNone result (self.new ≡ self.old) }
        ensures removes { IfSome result (λ value. Removes self.old.entries self.new.entries number value) }
        ensures room { self.new.room ≡ self.old.room }
    {
        let (place, value) = find(&self.lines, number)?;
        self.lines[place] = Line {
            number,
            value: None,
        };
        trim(&mut self.lines);
        Some(value)
    }

    /// Puts a value in the place of the one at a number, which comes back. If the number isn't held, nothing changes.
    #[inline(always)]
    pub fn swap(&mut self, number: u64, value: V) -> Option<V>
        ensures none { IfNone result (at self.old.entries number ≡ None) }
        ensures unchanged { IfNone result (self.new ≡ self.old) }
        ensures becomes { IfSome result (λ before. Becomes self.old.entries self.new.entries number before value) }
        ensures room { self.new.room ≡ self.old.room }
    {
        let (place, before) = find(&self.lines, number)?;
        self.lines[place] = Line {
            number,
            value: Some(value),
        };
        Some(before)
    }
}

/// The line of a number that is held, and its value.
#[inline(always)]
fn find<V: Copy>(lines: &[Line<V>], number: u64) -> Option<(usize, V)>
    requires { IsRising lines.now }
    ensures found { IfSome result (λ found. IsHeldAt lines.now found.0 number found.1) }
    ensures absent { IfNone result (at (held lines.now) number ≡ None) }
{
    let place = place_of(lines, number)?;
    let value = lines[place].value?;
    Some((place, value))
}

/// The line of a number. It lies as far below the last place as the number below the last one, or behind if numbers are missing between.
#[inline(always)]
fn place_of<V: Copy>(lines: &[Line<V>], number: u64) -> Option<usize>
    requires { IsRising lines.now }
    ensures found { IfSome result (λ place. IsAt lines.now number place) }
    ensures absent { IfNone result (IsNowhere lines.now number) }
{
    let last = lines.last()?.number;
    if last < number {
        return None;
    }
    let guess = (lines.len() - 1).saturating_sub((last - number) as usize);
    if lines[guess].number == number {
        return Some(guess);
    }
    search(lines, guess, number)
}

/// The line of a number that doesn't lie before this one.
#[inline(never)]
fn search<V: Copy>(lines: &[Line<V>], from: usize, number: u64) -> Option<usize>
    requires rising { IsRising lines.now }
    requires below { IsBelow lines.now number from }
    ensures found { IfSome result (λ place. IsAt lines.now number place) }
    ensures absent { IfNone result (IsNowhere lines.now number) }
{
    let mut low = from;
    let mut high = lines.len();
    while low < high {
        let middle = low + (high - low) / 2;
        if lines[middle].number < number {
            low = middle + 1;
        } else {
            high = middle;
        }
    }
    if low < lines.len() && lines[low].number == number {
        Some(low)
    } else {
        None
    }
}

/// If all room is used, the lines that left make room.
#[inline(always)]
fn make_room<V: Copy>(lines: &mut Vec<Line<V>, Global>)
    requires ended { IsEnded lines.old.items }
    requires room { count_of (held lines.old.items) < vec_capacity lines.old }
    requires rising { IsRising lines.old.items }
    ensures rising { IsRising lines.new.items }
    ensures ended { IsEnded lines.new.items }
    ensures held { held lines.new.items ≡ held lines.old.items }
    ensures room { length lines.new.items < vec_capacity lines.new }
    ensures capacity { vec_capacity lines.new ≡ vec_capacity lines.old }
{
    if lines.len() == lines.capacity() {
        lines.retain(|line| line.value.is_some());
    }
}

/// Takes away the lines at the end that left.
#[inline(always)]
fn trim<V: Copy>(lines: &mut Vec<Line<V>, Global>)
    requires { IsRising lines.old.items }
    ensures rising { IsRising lines.new.items }
    ensures ended { IsEnded lines.new.items }
    ensures held { held lines.new.items ≡ held lines.old.items }
    ensures capacity { vec_capacity lines.new ≡ vec_capacity lines.old }
{
    while ends_left(lines) {
        let _left = lines.pop();
    }
}

/// Whether the last line left.
#[inline(always)]
fn ends_left<V: Copy>(lines: &[Line<V>]) -> bool
    ensures { IsTrue result ↔ EndsLeft lines.now }
{
    match lines.last() {
        Some(line) => line.value.is_none(),
        None => false,
    }
}
