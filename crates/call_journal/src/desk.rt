//! The desk of a book, at which machines are checked out.
ghost use Rattle.std.specs.Prelude.{◌≡◌, ◌⊎◌, Some, None, length, option_map, true, false, IfSome, IfNone, is_some, slice_get};
ghost use Rattle.call_journal.specs.Desks.{Spot, AreIdle, spot_names, lent_at};
ghost use Rattle.call_journal.specs.Inside.Desks.{IsSetAt};

use std::alloc::Global;
use std::marker::Model;
use std::snapshot::Snapshot;
use task_board::Loan;
use token_pairs::{Slip, Stub};

/// How many places a desk has: one for each task that a board may have.
const PLACES: usize = 64;

/// What the tokens of a place say: the loan whose machine is checked out there.
pub(crate) type Lending = Option<Snapshot<Loan>>;

/// A place of a desk. Its stub says what is checked out there; its slip is here while nothing is.
#[derive(Drop)]
pub struct Place {
    stub: Stub<Lending>,
    slip: Option<Slip<Lending>>,
}

impl Model for Place {
    ghost use Rattle.std.specs.Prelude.{◌≡◌, MatchOption, None, is_some, true, option_map};
    ghost use Rattle.call_journal.specs.Desks.{Spot};
    ghost use Rattle.call_journal.specs.Inside.Code.{spot_code};

    ghost Value = { Spot };

    ghost coded = { spot_code };

    ghost view = { λ p. record {
      name = p.stub.name;
      lent = option_map (λ s. s.value) p.stub.value;
    } };

    ghost invariant = { λ p. MatchOption p.slip (is_some p.stub.value ≡ true)
        (λ s. (s.name ≡ p.stub.name) × (p.stub.value ≡ None)) };
}

impl Place {
    // A place where nothing is checked out.
    fn new() -> Place
        ensures { result.lent ≡ None }
    {
        let (stub, slip) = Stub::pair(&None);
        Place {
            stub,
            slip: Some(slip),
        }
    }

    // Checks a machine out: the slip goes with its loan. None, and nothing has changed, if one is out.
    fn lend(&mut self, loan: &Loan) -> Option<Slip<Lending>>
        ensures some { IfSome result (λ s. (s.name ≡ self.old.name)
            × (option_map (λ l. l.value) s.value ≡ Some loan.now)
            × (self.new ≡ record self.old { lent = Some loan.now })) }
        ensures none { IfNone result (is_some self.old.lent ≡ true) }
        ensures same { IfNone result (self.new ≡ self.old) }
    {
        let mut slip = self.slip.take()?;
        let lending = Some(Snapshot::of(loan));
        self.stub.renew(&mut slip, &lending);
        Some(slip)
    }

    // Takes the slip back, and tells what was checked out. False, and nothing has changed, if nothing was.
    fn receive(&mut self, slip: Slip<Lending>) -> bool
        requires { slip.name ≡ self.old.name }
        ensures known { result ≡ true → self.old.lent ≡ option_map (λ l. l.value) slip.value }
        ensures idle { result ≡ true → self.new ≡ record self.old { lent = None } }
        ensures none { result ≡ false → self.old.lent ≡ None }
        ensures same { result ≡ false → self.new ≡ self.old }
    {
        if self.slip.is_some() {
            return false;
        }
        let mut slip = slip;
        self.stub.renew(&mut slip, &None);
        self.slip = Some(slip);
        true
    }
}

/// A desk: a place for each slot of a board. Contracts see the name of each place, and what is checked out
/// there. A place's tokens are what the desk and a loan know of each other; they take no bytes, so that a
/// loan that comes back is known to be the one that was taken, without a look at what it is of.
#[derive(Drop)]
pub struct Desk {
    places: Vec<Place>,
}

impl Model for Desk {
    ghost use Rattle.std.specs.Prelude.{List};
    ghost use Rattle.call_journal.specs.Desks.{Spot};
    ghost use Rattle.call_journal.specs.Inside.Code.{desk_code};

    ghost Value = { List Spot };

    ghost coded = { desk_code };

    ghost view = { λ d. d.places.items };
}

impl Desk {
    /// A desk of 64 places, where nothing is checked out. None if it runs out of memory.
    pub fn new(alloc: Global) -> Option<Desk>
        ensures places { IfSome result (λ d. length d ≡ 64) }
        ensures idle { IfSome result (λ d. AreIdle d) }
    {
        let mut places = Vec::with_capacity(alloc, PLACES).ok()?;
        for _ in 0..PLACES {
            places.push_reserved(Place::new());
        }
        Some(Desk { places })
    }

    // Checks a machine out at the place of its slot. None, and nothing has changed, if there is no such
    // place, or a machine is out there.
    pub(crate) fn lend(&mut self, slot: usize, loan: &Loan) -> Option<Slip<Lending>>
        ensures name { IfSome result (λ s. slice_get (spot_names self.old) slot ≡ Some s.name) }
        ensures value { IfSome result (λ s. option_map (λ l. l.value) s.value ≡ Some loan.now) }
        ensures set { IfSome result (λ s. IsSetAt slot (Some loan.now) self.old self.new) }
        ensures none { IfNone result ((slice_get (spot_names self.old) slot ≡ None)
            ⊎ (is_some (lent_at slot self.old) ≡ true)) }
        ensures same { IfNone result (self.new ≡ self.old) }
    {
        let place = self.places.get_mut(slot)?;
        place.lend(loan)
    }

    // Takes the slip of a place back, and tells what was checked out there. False, and nothing has changed,
    // if nothing was.
    pub(crate) fn receive(&mut self, slot: usize, slip: Slip<Lending>) -> bool
        requires { slice_get (spot_names self.old) slot ≡ Some slip.name }
        ensures known { result ≡ true
            → lent_at slot self.old ≡ option_map (λ l. l.value) slip.value }
        ensures set { result ≡ true → IsSetAt slot None self.old self.new }
        ensures none { result ≡ false → lent_at slot self.old ≡ None }
        ensures same { result ≡ false → self.new ≡ self.old }
    {
        let Some(place) = self.places.get_mut(slot) else {
            return false;
        };
        place.receive(slip)
    }
}
