//! The two tokens of a pair.

ghost use Rattle.std.specs.Prelude.{◌≡◌, ℕ};
ghost use Rattle.token_pairs.specs.Inside.Halves.{stub_owns, slip_owns};

use std::marker::{Model, PhantomData};

/// The token of a pair that stays. It has a name, which no other pair has, and a value, which both tokens
/// of the pair have. It has no bytes.
pub struct Stub<T> {
    marker: PhantomData<T>,
    pub ghost name: { ℕ },
    pub ghost value: { T },
}

/// The token of a pair that goes away and comes back. It has the name and the value of its stub. It has no
/// bytes.
pub struct Slip<T> {
    marker: PhantomData<T>,
    pub ghost name: { ℕ },
    pub ghost value: { T },
}

impl<T> Model for Stub<T> {
    ghost also_owns = { λ s. stub_owns T.row s.name s.value };
}

impl<T> Model for Slip<T> {
    ghost also_owns = { λ s. slip_owns T.row s.name s.value };
}

impl<T> Stub<T> {
    /// A pair with a name of its own and this value.
    pub fn pair(value: &T) -> (Stub<T>, Slip<T>)
        ensures name { result.1.name ≡ result.0.name }
        ensures stub { result.0.value ≡ value.now }
        ensures slip { result.1.value ≡ value.now }
    {
        new_pair(value)
    }

    /// Gives the pair another value. Both tokens had one value before.
    pub fn renew(&mut self, slip: &mut Slip<T>, value: &T)
        requires pair { slip.old.name ≡ self.old.name }
        ensures same { slip.old.value ≡ self.old.value }
        ensures stub { self.new ≡ record self.old { value = value.now } }
        ensures slip { slip.new ≡ record slip.old { value = value.now } }
    {
        write_both(self, slip, value);
    }
}

// A pair with this value.
fn new_pair<T>(value: &T) -> (Stub<T>, Slip<T>)
    ensures { (result.1.name ≡ result.0.name) × (result.0.value ≡ value.now)
        × (result.1.value ≡ value.now) }
{
    let _ = value;
    (
        Stub {
            marker: PhantomData,
        },
        Slip {
            marker: PhantomData,
        },
    )
}

// Gives both halves of a pair another value.
fn write_both<T>(stub: &mut Stub<T>, slip: &mut Slip<T>, value: &T)
    requires { slip.old.name ≡ stub.old.name }
    ensures { (slip.old.value ≡ stub.old.value)
        × (stub.new ≡ record stub.old { value = value.now })
        × (slip.new ≡ record slip.old { value = value.now }) }
{}

impl<T> Drop for Stub<T> {
    fn drop(self) {
        let Self { marker: _ } = self;
    }
}

impl<T> Drop for Slip<T> {
    fn drop(self) {
        let Self { marker: _ } = self;
    }
}

unsafe impl<T> Send for Stub<T> {}

unsafe impl<T> Send for Slip<T> {}
