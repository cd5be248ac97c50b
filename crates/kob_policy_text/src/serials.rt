//! The serials of bindings, and where each stands first.

ghost use Rattle.std.specs.Prelude.{◌≡◌, ◌==◌, IfOk, OnOk, ℕ, nat_eq, position};
ghost use Rattle.std.specs.HashMap.{get};
ghost use Rattle.kob_policy_text.specs.Policy.{first_place};

use std::alloc::{AllocError, Global};
use std::collections::HashMap;
use std::marker::Model;

/// Serials in the order of their bindings, and for each the first place where it stands. Contracts
/// see the list.
#[derive(Drop)]
pub struct Serials {
    all: Vec<u64>,
    places: HashMap<u64, usize>,
}

impl Model for Serials {
    ghost use Rattle.std.specs.Prelude.{◌≡◌, ◌==◌, List, ℕ, nat_eq, position};
    ghost use Rattle.std.specs.HashMap.{get};

    ghost Value = { List ℕ };

    ghost view = { λ serials. serials.all.items };

    ghost invariant = { λ serials. (serial : ℕ) → get nat_eq serials.places serial
        ≡ position (λ other. other == serial) serials.all.items };
}

impl Serials {
    /// The serials.
    pub fn of(alloc: Global, all: Vec<u64>) -> Result<Serials, AllocError>
        ensures { IfOk result (λ made. made ≡ all.items) }
    {
        let places = places_in(alloc, all.as_slice())?;
        Ok(Serials { all, places })
    }

    /// The first place where the serial stands.
    pub fn place_of(&self, serial: u64) -> Option<usize>
        ensures { result ≡ position (λ other. other == serial) self.now }
    {
        self.places.get(&serial).copied()
    }

    /// The serials, in their order.
    pub fn as_slice(&self) -> &[u64]
        ensures { result.now ≡ self.now }
    {
        self.all.as_slice()
    }
}

/// Gives a serial its place, unless it has one.
fn add_place(places: &mut HashMap<u64, usize>, serial: u64, place: usize) -> Result<(), AllocError>
    ensures { OnOk result ((other : ℕ) → get nat_eq places.new other
        ≡ first_place (get nat_eq places.old other) (serial == other) place) }
{
    if !places.contains_key(&serial) {
        places.insert(serial, place)?;
    }
    Ok(())
}

/// For each serial the first place where it stands.
fn places_in(alloc: Global, serials: &[u64]) -> Result<HashMap<u64, usize>, AllocError>
    ensures { IfOk result (λ places. (serial : ℕ) → get nat_eq places serial
        ≡ position (λ other. other == serial) serials.now) }
{
    let mut places = HashMap::new(alloc);
    for place in 0..serials.len() {
        add_place(&mut places, serials[place], place)?;
    }
    Ok(places)
}
