//! The facts that a seed draws.
ghost use Rattle.std.specs.Prelude.{◌≡◌, ◌<◌};
ghost use Rattle.drill_run.specs.Edits.{fact_drawn, place_node, time_node};
ghost use Rattle.drill_run.specs.Numbers.{MODULUS, drawn_number, next_state};

use cube_base::Cols;
use cube_model::{Fact, Region};
use std::marker::Model;

/// What is left of a state is below it.
const MODULUS: u64 = 1 << 31;

/// The draws of a seed. Contracts see the state.
#[derive(Debug, Drop)]
pub struct Draws {
    state: u64,
}

impl Model for Draws {
    ghost use Rattle.std.specs.Prelude.{ℕ, ◌<◌};
    ghost use Rattle.drill_run.specs.Numbers.{MODULUS};

    ghost Value = { ℕ };

    ghost view = { λ d. d.state };

    ghost invariant = { λ d. d.state < MODULUS };
}

impl Draws {
    /// No draw is made yet.
    pub fn new(seed: u64) -> Self
        requires { seed < MODULUS }
        ensures { result ≡ seed }
    {
        Draws { state: seed }
    }

    // The next number.
    fn draw(&mut self) -> u64
        ensures state { self.new ≡ next_state self.old }
        ensures number { result ≡ drawn_number self.new }
    {
        self.state = (self.state * 1_103_515_245 + 12_345) % MODULUS;
        self.state / 65_536
    }

    /// The fact of the next four draws, with this id.
    pub fn fact(&mut self, id: u64) -> Fact
        ensures state { self.new ≡ next_state (next_state (next_state (next_state self.old))) }
        ensures fact { result ≡ fact_drawn id (drawn_number (next_state self.old)) (drawn_number (next_state (next_state self.old)))
            (drawn_number (next_state (next_state (next_state self.old)))) (drawn_number self.new) }
    {
        let place = self.draw();
        let time = self.draw();
        let kind = self.draw();
        let amount = self.draw();
        fact_of(id, place, time, kind, amount)
    }
}

// A fact by what was drawn for it.
fn fact_of(id: u64, place: u64, time: u64, kind: u64, amount: u64) -> Fact
    ensures { result ≡ fact_drawn id place time kind amount }
{
    let kind = (kind % 16) as u32;
    let place = place_node(kind, (place % 64) as u32);
    let time = time_node(kind, (time % 52) as u32);
    let (Some(region), Some(cols)) = (
        Region::new(&[place, time]),
        Cols::new(&[(amount % 1000) as i64]),
    ) else {
        unreachable!()
    };
    Fact { id, region, cols }
}

// The node where a fact of a kind lies: the city, or its state.
fn place_node(kind: u32, city: u32) -> u32
    requires { city < 64 }
    ensures { result ≡ place_node kind city }
{
    let state = 1 + city / 8 * 9;
    if kind == 0 || kind == 2 {
        state
    } else {
        state + 1 + city % 8
    }
}

// The node when it does: the week, or its quarter.
fn time_node(kind: u32, week: u32) -> u32
    requires { week < 52 }
    ensures { result ≡ time_node kind week }
{
    let quarter = 1 + week / 13 * 14;
    if kind == 1 || kind == 2 {
        quarter
    } else {
        quarter + 1 + week % 13
    }
}
