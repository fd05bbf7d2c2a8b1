// Pseudo-random numbers, the same in every run.
ghost use Rattle.std.specs.Prelude.{◌≡◌, ◌≢◌, ℕ, ◌+◌, ◌<◌, length, slice_index_or, max, IfSome};
ghost use Rattle.std.specs.Option.{SomeIff};
ghost use Rattle.comparing.specs.Draws.{number_below, state_after, next_state, next_number};

use std::marker::Model;

/// A source of numbers, drawn one after the other by a linear congruential generator.
#[derive(Drop)]
pub struct Random {
    state: u64,
}

impl Model for Random {
    ghost Value = { ℕ };

    ghost view = { λ r. r.state };
}

impl Random {
    /// A source that gives the same numbers whenever it has the same seed.
    pub fn new(seed: u64) -> Random
        ensures { result ≡ seed }
    {
        Random { state: seed }
    }

    #[tactic(auto, unfolding(crate::specs::Draws::next_state, crate::specs::Draws::next_number))]
    fn next(&mut self) -> u32
        ensures number { result ≡ next_number self.old }
        ensures state { self.new ≡ next_state self.old }
    {
        self.state = self
            .state
            .wrapping_mul(6364136223846793005)
            .wrapping_add(1442695040888963407);
        (self.state >> 33) as u32
    }

    /// A number below `bound`. Where the bound is 0 it is 0, and nothing is drawn.
    pub fn below(&mut self, bound: u32) -> u32
        ensures range { 0 < bound → result < bound }
        ensures number { result ≡ number_below self.old bound }
        ensures state { self.new ≡ state_after self.old bound }
    {
        if bound == 0 { 0 } else { self.next() % bound }
    }

    /// One of `count` places, from 0 on. Where there are none it is None, and nothing is drawn.
    pub fn place(&mut self, count: usize) -> Option<usize>
        ensures range { IfSome result (λ place. place < count) }
        ensures number { SomeIff result (0 < count) (number_below self.old count) }
        ensures state { self.new ≡ state_after self.old count }
    {
        if count == 0 {
            None
        } else {
            Some(self.next() as usize % count)
        }
    }

    /// One of the numbers. Where there are none it is 0, and nothing is drawn.
    pub fn one_of(&mut self, numbers: &[u32]) -> u32
        ensures number { let place = number_below self.old (length numbers.now) in
            result ≡ slice_index_or numbers.now place 0 }
        ensures state { self.new ≡ state_after self.old (length numbers.now) }
    {
        self.place(numbers.len()).map_or(0, |place| numbers[place])
    }

    /// 0 about half of the time, else a number below `bound`, or 0 where that is 0.
    pub fn often_zero(&mut self, bound: u32) -> u32
        ensures none { number_below self.old 2 ≡ 0 →
            (result ≡ 0) × (self.new ≡ next_state self.old) }
        ensures some { number_below self.old 2 ≢ 0 →
            (result ≡ number_below (next_state self.old) bound)
            × (self.new ≡ state_after (next_state self.old) bound) }
    {
        if self.below(2) == 0 {
            0
        } else {
            self.below(bound)
        }
    }

    /// 0 about once in 24 times, else a number from 1 to `count`, or 1 where that is 0.
    pub fn one_up_to(&mut self, count: u32) -> u32
        ensures none { number_below self.old 24 ≡ 0 →
            (result ≡ 0) × (self.new ≡ next_state self.old) }
        ensures some { number_below self.old 24 ≢ 0 →
            (result ≡ number_below (next_state self.old) (max count 1) + 1)
            × (self.new ≡ next_state (next_state self.old)) }
    {
        if self.below(24) == 0 {
            0
        } else {
            self.below(count.max(1)) + 1
        }
    }
}
